// The square root of a double, as IEEE 754 has it, in whole numbers and rounded once: an estimate in doubles is tested exactly, and where the test fails, as it does
// for most subnormals, the root is found one binary digit at a time.
ghost use Rattle.std.specs.Prelude.{◌+◌, ◌*◌, ◌/◌, ◌%◌, ◌^◌, ◌≤◌, ◌<◌, T};
ghost use Rattle.std.specs.Float.Ieee.Positive.{positive};
ghost use Rattle.numbers.specs.Bits.{field, significand, exponent};
ghost use Rattle.arcs.specs.Root.{CorrectRoot};
ghost use Rattle.arcs.specs.RootSteps.{Even, WholeRoot, Squared, Flag};

use numbers::{FIELD, SIGN};

// the bits of 1
const ONE: u64 = 0x3FF0_0000_0000_0000;

// A number under the root: m * 2^52 * 4^k
#[derive(Drop)]
struct Radicand {
    m: u64,
    k: u64,
}

// n * 2^(e + 1074) with 53 or 54 digits in m: so many that the root's whole part has 53.
fn scaled(n: u64, e: u64) -> Radicand
    requires { (0 < n) × (n < 2 ^ 53) × (e ≤ 2045) }
    ensures { Even n (e + 1074) result.m result.k }
{
    let s = u64::leading_zeros(n) as u64 - 11;
    let j = e + 1074 - s;
    Radicand {
        m: n << (s + j % 2),
        k: (j - 52) / 2,
    }
}

// The finite double with the bits b, other than 0, as a number under the root.
fn opened(b: u64) -> Radicand
    requires { (0 < significand b) × (field b < 2047) }
    ensures { Even (significand b) (exponent b + 1074) result.m result.k }
{
    let field = b % SIGN / FIELD;
    let digits = b % FIELD;
    if field == 0 {
        scaled(digits, 0)
    } else {
        scaled(FIELD + digits, field - 1)
    }
}

// The whole number nearest to the root of m * 2^52. Each turn brings down two more binary digits of m * 2^52 from `rest` and finds the root's next digit: of the part
// brought down so far, q is the root's whole part and `rem` what is left over q * q.
fn whole_root(m: u64) -> u64
    requires { (2 ^ 52 ≤ m) × (m < 2 ^ 54) }
    ensures { WholeRoot (m * 2 ^ 52) result }
{
    let mut q: u64 = 0;
    let mut rem: u64 = 0;
    let mut rest = m * 0x400;
    for _ in 0u64..53 {
        let more = rem * 4 + rest / 0x4000_0000_0000_0000;
        rest = rest % 0x4000_0000_0000_0000 * 4;
        if q * 4 < more {
            rem = more - (q * 4 + 1);
            q = q * 2 + 1;
        } else {
            rem = more;
            q = q * 2;
        }
    }
    if q < rem { q + 1 } else { q }
}

// A double near to the root of x, from the bits b of x. Near 1 the root is 1 and half of what x is over, below 1 a little less, so that it stays below; else by Newton's
// iteration for 1 / √x. How near it is decides only the speed.
fn guess(x: f64, b: u64) -> f64 {
    if x > 0.99999999 {
        if x < 1.0 {
            return 0.5 * x + 0.49999999999999994;
        }
        if x < 1.00000001 {
            return 0.5 * x + 0.5;
        }
    }
    let half = 0.5 * x;
    let y = f64::from_bits(0x5fe6_eb50_c7b5_37a9 - b % SIGN / 2);
    let y = y * (1.5 - half * y * y);
    let y = y * (1.5 - half * y * y);
    let y = y * (1.5 - half * y * y);
    let s = x * y;
    s + 0.5 * y * (x - s * s)
}

// The guess in the place of the root's digits.
fn estimate(x: f64, b: u64) -> u64
    ensures { (2 ^ 52 ≤ result) × (result < 2 ^ 53) }
{
    let r = guess(x, b);
    if r > 0.0 {
        FIELD + f64::to_bits(r) % FIELD
    } else {
        FIELD
    }
}

// A square: high * 2^52 + low
#[derive(Drop)]
struct Square {
    high: u64,
    low: u64,
}

// c * c by halves of c.
fn squared(c: u64) -> Square
    requires { c < 2 ^ 53 }
    ensures { Squared c result.high result.low }
{
    let a = c / 0x800_0000;
    let b = c % 0x800_0000;
    let p = a * b;
    Square {
        high: a * a * 4 + p / 0x100_0000,
        low: p % 0x100_0000 * 0x1000_0000 + b * b,
    }
}

// 1 if a is below b, else 0
fn less(a: u64, b: u64) -> u64
    ensures { Flag a b result }
{
    (a < b) as u64
}

// The whole number nearest to the root of m * 2^52: c or its neighbour where the remainder m * 2^52 - c * c, which is v - w, shows that, and else digit by digit.
fn nearest_root(m: u64, c: u64) -> u64
    requires { (2 ^ 52 ≤ m) × (m < 2 ^ 54) × (2 ^ 52 ≤ c) × (c < 2 ^ 53) }
    ensures { WholeRoot (m * 2 ^ 52) result }
{
    let s = squared(c);
    let high = s.high;
    let w = s.low + 4 * FIELD;
    if high <= m + 4 {
        let d = m + 4 - high;
        if d < 32 {
            let v = d * FIELD;
            if v <= w + c * 3 + 2 {
                if w + 2 < v + c * 3 {
                    return c + less(w + c, v) + less(w, v + c) - 1;
                }
            }
        }
    }
    whole_root(m)
}

// The root of a finite double above 0.
fn positive_root(x: f64) -> f64
    requires { T (positive x) }
    ensures { CorrectRoot x result }
{
    let b = f64::to_bits(x);
    let n = opened(b);
    let q = nearest_root(n.m, estimate(x, b));
    f64::from_bits(n.k * FIELD + q)
}

// The same, with 1, the square of most lengths, told by its bits.
fn unit_or_root(x: f64) -> f64
    requires { T (positive x) }
    ensures { CorrectRoot x result }
{
    if f64::to_bits(x) == ONE {
        return 1.0;
    }
    positive_root(x)
}

// The double nearest to the square root of x: a zero gives itself, +infinity itself, a NaN and what is below 0 a NaN.
#[unsafe(no_mangle)]
pub extern "C" fn root(x: f64) -> f64
    ensures { CorrectRoot x result }
{
    if x > 0.0 {
        if x == 1.0 / 0.0 { x } else { unit_or_root(x) }
    } else {
        if x == 0.0 { x } else { 0.0 / 0.0 }
    }
}
