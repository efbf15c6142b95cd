// The doubles whose roots are compared, by their bits, and the count of what was compared. specs/Cases.antt has the
// definitions.
ghost use Rattle.std.specs.Prelude.{◌≡◌, ◌*◌, ◌^◌, ◌<◌};
ghost use Rattle.roots.specs.Cases as spec;

use crate::second::second_root;
use numbers::{FIELD, SIGN};
use std::num::wrapping_add_u64;

// half the digits of a significand: 2^26
const HALF: u64 = 0x400_0000;

// the state of the random numbers, how many roots were compared, and how many differed
#[derive(Clone, Copy)]
pub struct Tally {
    pub seed: u64,
    pub compared: u64,
    pub different: u64,
}

impl Tally {
    // A step of Marsaglia's generator with the shifts 13, 7 and 17.
    #[tactic(auto, unfolding(crate::specs::Cases::seed_after))]
    fn next(self) -> Tally
        ensures { result ≡ spec.next self }
    {
        let a = self.seed ^ (self.seed << 13);
        let b = a ^ (a >> 7);
        Tally {
            seed: b ^ (b << 17),
            ..self
        }
    }

    fn count(self, same: bool) -> Tally
        ensures { result ≡ spec.count self same }
    {
        Tally {
            compared: wrapping_add_u64(self.compared, 1),
            different: if same {
                self.different
            } else {
                wrapping_add_u64(self.different, 1)
            },
            ..self
        }
    }
}

// One number with one sign, or two NaNs.
#[tactic(auto, unfolding(crate::specs::Cases::same))]
fn same(a: f64, b: f64) -> bool
    ensures { result ≡ spec.same a b }
{
    if a == b {
        1.0 / a == 1.0 / b
    } else if a != a {
        b != b
    } else {
        false
    }
}

// The root of x, both ways.
fn compare(t: Tally, x: f64) -> Tally
    ensures { result ≡ spec.compare t x }
{
    t.count(same(arcs::root::root(x), second_root(x)))
}

// The root of the double with the bits b; a NaN's bits are passed over.
fn compare_bits(t: Tally, b: u64) -> Tally
    ensures { result ≡ spec.compare_bits t b }
{
    if b % SIGN > 0x7ff0_0000_0000_0000 {
        t
    } else {
        compare(t, f64::from_bits(b))
    }
}

// The bits b and their neighbours.
#[tactic(auto, unfolding(crate::specs::Cases::compare_around))]
fn compare_around(t: Tally, b: u64) -> Tally
    ensures { result ≡ spec.compare_around t b }
{
    let t = compare_bits(t, wrapping_add_u64(b, 0xffff_ffff_ffff_ffff));
    let t = compare_bits(t, b);
    compare_bits(t, wrapping_add_u64(b, 1))
}

// The bits of a positive double: its field and its digits, cut to their places.
fn put(field: u64, digits: u64) -> u64
    ensures { result ≡ spec.put field digits }
{
    field % 2047 * FIELD + digits % FIELD
}

// The ends and the middle of an exponent's range.
#[tactic(auto, unfolding(crate::specs::Cases::ends))]
fn ends(t: Tally, field: u64) -> Tally
    ensures { result ≡ spec.ends t field }
{
    let t = compare_around(t, put(field, 1));
    let t = compare_around(t, put(field, FIELD / 2));
    compare_around(t, put(field, FIELD - 2))
}

#[tactic(auto, unfolding(crate::specs::Cases::one_random))]
fn one_random(field: u64, t: Tally) -> Tally
    ensures { result ≡ spec.one_random field t }
{
    let t = t.next();
    compare_bits(t, put(field, t.seed))
}

// One exponent: the ends and the middle of its range, and 24 random doubles of it.
fn one_exponent(t: Tally, field: u64) -> Tally
    ensures { result ≡ spec.one_exponent field t }
{
    let mut t = ends(t, field);
    for k in 0u64..24 {
        t = one_random(field, t);
    }
    t
}

// Every exponent, that of the subnormals too.
pub fn exponents(mut t: Tally) -> Tally
    ensures { result ≡ spec.exponents t }
{
    for field in 0u64..2047 {
        t = one_exponent(t, field);
    }
    t
}

#[tactic(auto, unfolding(crate::specs::Cases::one_subnormal))]
fn one_subnormal(k: u64, t: Tally) -> Tally
    requires { k < 4096 }
    ensures { result ≡ spec.one_subnormal k t }
{
    let t = compare_bits(t, put(0, k));
    let t = compare_bits(t, put(0, FIELD - 1 - k));
    let t = t.next();
    compare_bits(t, t.seed % FIELD >> (k % 52))
}

// The smallest and the largest subnormals, and random ones of every length.
pub fn subnormals(mut t: Tally) -> Tally
    ensures { result ≡ spec.subnormals t }
{
    for k in 0u64..4096 {
        t = one_subnormal(k, t);
    }
    t
}

// The product of two numbers of 26 digits.
fn product(a: u64, b: u64) -> u64
    requires { (a < 2 ^ 26) × (b < 2 ^ 26) }
    ensures { (result ≡ a * b) × (result < 2 ^ 52) }
{
    a * b
}

// A square of a whole number c of 26 digits, times a power of 4, and its neighbours. c * c has 51 or 52 digits.
#[tactic(auto, unfolding(crate::specs::Cases::one_square))]
fn one_square(t: Tally, c: u64, field: u64) -> Tally
    ensures { result ≡ spec.one_square t c field }
{
    let c = HALF / 2 + c % (HALF / 2);
    let n = product(c, c);
    if n < FIELD / 2 {
        compare_around(t, put(field % 1023 * 2 + 1, n * 4))
    } else {
        compare_around(t, put(field % 1023 * 2, n * 2))
    }
}

pub fn squares(mut t: Tally) -> Tally
    ensures { result ≡ spec.squares t }
{
    for k in 0u64..8192 {
        t = t.next();
        t = one_square(t, t.seed / 4096, k);
    }
    t
}

// c * c by halves of c's 52 digits: its last 52 digits, and (c * c + more) / 2^52.
#[tactic(auto, unfolding(crate::specs::Cases::square_low))]
fn square_low(c: u64) -> u64
    ensures { (result ≡ spec.square_low c) × (result < 2 ^ 52) }
{
    let a = c / HALF % HALF;
    let b = c % HALF;
    (product(a, b) * 2 % HALF * HALF + product(b, b)) % FIELD
}

#[tactic(auto, unfolding(crate::specs::Cases::square_high))]
fn square_high(c: u64, more: u64) -> u64
    requires { more < 2 ^ 53 }
    ensures { (result ≡ spec.square_high c more) × (result < 2 ^ 53) }
{
    let a = c / HALF % HALF;
    let b = c % HALF;
    let d = product(a, b) * 2;
    product(a, a) + d / HALF + (d % HALF * HALF + product(b, b) + more) / FIELD
}

// c with the digit i, by which c * c + c + s has the digit 0 there.
#[tactic(auto, unfolding(crate::specs::Cases::digit))]
fn digit(s: u64, i: u64, c: u64) -> u64
    requires { i < 52 }
    ensures { result ≡ spec.digit s i c }
{
    if (square_low(c) + c % FIELD + s % FIELD) >> i & 1 == 1 {
        c | 1u64 << i
    } else {
        c
    }
}

// A c below 2^52 with c * c + c + s a multiple of 2^52, digit by digit from the last: for every even s there is one that is even and one that is odd.
#[tactic(auto, unfolding(crate::specs::Cases::digits, crate::specs::Cases::lifted))]
fn lifted(s: u64, last: u64) -> u64
    ensures { (result ≡ spec.lifted s last) × (result < 2 ^ 52) }
{
    let mut c = last % 2;
    for i in 0u64..51 {
        c = digit(s, i + 1, c);
    }
    c % FIELD
}

// With q = 2^52 + c, the number q * q + q + s - less * 2^52 is m * 2^52, whose root is q + 1/2 and about (s - 1/4) / (2 * q): as near to halfway as a double's root
// can be. From 2^53 up, m is a double's significand only if it is even.
#[tactic(auto, unfolding(crate::specs::Cases::one_halfway))]
fn one_halfway(t: Tally, s: u64, last: u64, less: u64) -> Tally
    ensures { result ≡ spec.one_halfway s last less t }
{
    let c = lifted(s, last);
    let m = FIELD + 1 - less % 2 + c * 2 + square_high(c, c + s % FIELD);
    if m < FIELD * 2 {
        compare_around(t, put(1023, m))
    } else if m % 2 == 0 {
        compare_around(t, put(1024, m / 2))
    } else {
        t
    }
}

#[tactic(auto, unfolding(crate::specs::Cases::four_halfways))]
fn four_halfways(k: u64, t: Tally) -> Tally
    requires { k < 2048 }
    ensures { result ≡ spec.four_halfways k t }
{
    let t = one_halfway(t, k * 2, 0, 0);
    let t = one_halfway(t, k * 2, 1, 0);
    let t = one_halfway(t, FIELD - 2 - k * 2, 0, 1);
    one_halfway(t, FIELD - 2 - k * 2, 1, 1)
}

// Doubles whose roots are nearest to halfway between two doubles, on both sides, and their neighbours.
pub fn halfways(mut t: Tally) -> Tally
    ensures { result ≡ spec.halfways t }
{
    for k in 0u64..2048 {
        t = four_halfways(k, t);
    }
    t
}

// Random bits, of either sign.
pub fn randoms(mut t: Tally) -> Tally
    ensures { result ≡ spec.randoms t }
{
    for k in 0u64..32768 {
        t = t.next();
        t = compare_bits(t, t.seed);
    }
    t
}

// The zeros, the infinities, a NaN, the least and the largest doubles, and negative numbers.
#[tactic(auto, unfolding(crate::specs::Cases::specials))]
pub fn specials(t: Tally) -> Tally
    ensures { result ≡ spec.specials t }
{
    let t = compare_bits(compare_bits(t, 0), SIGN);
    let t = compare_bits(
        compare_bits(t, 0x7ff0_0000_0000_0000),
        0xfff0_0000_0000_0000,
    );
    let t = compare(compare(t, 0.0 / 0.0), -1.0);
    let t = compare_bits(compare_bits(t, 1), SIGN + 1);
    compare_bits(
        compare_bits(t, 0x7fef_ffff_ffff_ffff),
        0xffef_ffff_ffff_ffff,
    )
}
