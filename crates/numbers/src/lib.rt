// The methods of Rust's f64 as specs/Double.antt defines them: of every double, a NaN too.

#![tactic(auto)]

pub mod remainder;

ghost use Rattle.std.specs.Prelude.{◌≡◌};
ghost use Rattle.std.specs.Float.{binary64};
ghost use Rattle.std.specs.Float.Ieee.{is_nan, to_bits};
ghost use Rattle.numbers.specs.Double as double;
ghost use Rattle.numbers.specs.Whole.{WholeDouble};

use crate::remainder::remainder;
use std::num::f64_to_bits_with_nan;

// The weight of the exponent's field in a double's bits: 2^52.
pub const FIELD: u64 = 0x10_0000_0000_0000;

// The weight of the sign in a double's bits: 2^63.
pub const SIGN: u64 = 0x8000_0000_0000_0000;

const MINUS_ONE: f64 = -1.0;

// Returns a whole number as a double, exactly.
pub fn of_u16(n: u16) -> f64
    ensures { WholeDouble n result }
{
    f64::from(n)
}

// True if x is a NaN.
pub fn is_nan(x: f64) -> bool
    ensures { result ≡ is_nan x }
{
    x.is_nan()
}

// True if x is neither a NaN nor an infinity: an infinity less itself, or a NaN, is a NaN. With f64::is_finite `max_abs` takes 1.5 times as long.
pub fn is_finite(x: f64) -> bool
    ensures { result ≡ double.is_finite x }
{
    let d = x - x;
    d == d
}

// Returns a double's bits; one pattern for every NaN.
pub fn bits(x: f64) -> u64
    ensures { result ≡ to_bits binary64 x }
{
    f64_to_bits_with_nan(x)
}

// True if the sign bit is set. A NaN counts as positive.
pub fn negative(x: f64) -> bool
    ensures { result ≡ double.negative x }
{
    x == x && f64::to_bits(x) >= SIGN
}

// Returns the magnitude. With f64::abs, which compares twice, `max_abs` takes longer.
pub fn abs(x: f64) -> f64
    ensures { result ≡ double.abs x }
{
    if negative(x) { -x } else { x }
}

// Returns the larger: of a NaN and a number the number, of two zeros +0, where f64::max may give either.
pub fn max(x: f64, y: f64) -> f64
    ensures { result ≡ double.fmax x y }
{
    if x < y {
        y
    } else if y < x {
        x
    } else if x.is_nan() {
        y
    } else if y.is_nan() {
        x
    } else if x == 0.0 && y == 0.0 {
        0.0
    } else {
        x
    }
}

// Returns x moved into [-1, 1]. A NaN stays.
pub fn clamp(x: f64) -> f64
    ensures { result ≡ double.clamp x }
{
    x.clamp(-1.0, 1.0)
}

// Returns 1 with the sign of x, of a zero too. A NaN stays. With f64::signum a loop over these functions takes 1.2 times as long.
pub fn signum(x: f64) -> f64
    ensures { result ≡ double.signum x }
{
    if x != x {
        x
    } else if negative(x) {
        MINUS_ONE
    } else {
        1.0
    }
}

// True if a stands before b in the order of `total_cmp`, with a NaN last.
pub fn before(a: f64, b: f64) -> bool
    ensures { result ≡ double.before a b }
{
    if a < b {
        true
    } else if a == b {
        negative(a) && !negative(b)
    } else {
        !a.is_nan() && b.is_nan()
    }
}

// Returns for a positive b the remainder and, if that is negative, one addition of b. f64::rem_euclid would call the C library.
#[tactic(auto, unfolding(crate::specs::Double::rem_euclid))]
pub fn rem_euclid(a: f64, b: f64) -> f64
    ensures { result ≡ double.rem_euclid a b }
{
    let r = remainder(a, b);
    if r < 0.0 { r + b } else { r }
}
