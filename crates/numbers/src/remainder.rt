// The remainder of a division, as Rust's `%` on f64 has it, worked in whole numbers: a finite double is a significand times a power of two, and the remainder of the significands,
// brought to one power, is exact. `%` itself would call the C library.

ghost use Rattle.std.specs.Prelude.{◌≡◌, true, false, ◌≤◌, ◌<◌, ◌*◌, ◌^◌, ◌%◌};
ghost use Rattle.std.specs.Float.{binary64};
ghost use Rattle.std.specs.Float.Ieee.{rem, eq};
ghost use Rattle.std.specs.Float.Ieee.Exact.{HasValue};
ghost use Rattle.numbers.specs.Double as double;
ghost use Rattle.numbers.specs.Bits as spec;

use crate::{FIELD, SIGN, is_finite};

// Returns a finite double's significand from its bits.
fn significand(b: u64) -> u64
    ensures { result ≡ spec.significand b }
{
    let digits = b % FIELD;
    if b % SIGN / FIELD == 0 {
        digits
    } else {
        FIELD + digits
    }
}

// Returns its exponent, counted from -1074.
fn exponent(b: u64) -> u64
    ensures { result ≡ spec.exponent b }
{
    let field = b % SIGN / FIELD;
    if field == 0 { 0 } else { field - 1 }
}

// Returns the bits of 2^d units of 2^-1074.
fn power(d: u64) -> u64
    requires { d ≤ 2045 }
    ensures plus { result < 2 ^ 63 }
    ensures finite { spec.field result < 2047 }
    ensures size { spec.significand result * 2 ^ spec.exponent result ≡ 2 ^ d }
{
    if d < 52 { 1 << d } else { (d - 51) * FIELD }
}

// Returns 2^d units of 2^-1074, below 0 if `negative`.
fn unit(negative: bool, d: u64) -> f64
    requires { d ≤ 2045 }
    ensures { HasValue result negative (2 ^ d) (2 ^ 1074) }
{
    let size = power(d);
    if negative {
        f64::from_bits(SIGN + size)
    } else {
        f64::from_bits(size)
    }
}

// Returns the remainder of m * 2^k by n, one binary digit at a time.
fn shifted(m: u64, k: u64, n: u64) -> u64
    requires n_pos { 0 < n }
    requires n_short { n < 2 ^ 53 }
    ensures { result ≡ m * 2 ^ k % n }
{
    let mut r = m % n;
    for i in 0..k {
        r = r * 2 % n;
    }
    r
}

// Returns the remainder of a finite double by another that is not 0. Where b's power of two is the larger, b is larger than a.
fn of_finite(a: f64, b: f64) -> f64
    requires a_finite { double.is_finite a ≡ true }
    requires b_finite { double.is_finite b ≡ true }
    requires b_nonzero { eq b double.zero64 ≡ false }
    ensures { result ≡ rem binary64 a b }
{
    let x = f64::to_bits(a);
    let y = f64::to_bits(b);
    let e = exponent(x);
    let d = exponent(y);
    if e < d {
        return a;
    }
    let r = shifted(significand(x), e - d, significand(y));
    r as f64 * unit(SIGN <= x, d)
}

// Returns the remainder of a by b, with a's sign, as Rust's `%` does: a NaN if a is not finite, if b is a NaN or if b is 0; a itself if b is infinite.
pub fn remainder(a: f64, b: f64) -> f64
    ensures { result ≡ rem binary64 a b }
{
    if !is_finite(a) {
        return 0.0 / 0.0;
    }
    if b.is_nan() {
        return b;
    }
    if b == 0.0 {
        return 0.0 / 0.0;
    }
    if !is_finite(b) {
        return a;
    }
    of_finite(a, b)
}
