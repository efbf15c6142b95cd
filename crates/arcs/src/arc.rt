// Sine, cosine and arctangent, operation by operation as specs/Arcs.antt defines them.

ghost use Rattle.std.specs.Prelude.{◌≡◌, ◌≤◌, cond};
ghost use Rattle.numbers.specs.Double.{abs};
ghost use Rattle.arcs.specs.Arcs as spec;

use crate::horner::horner;
use crate::turns::less_turns;
use numbers::remainder::remainder;
use numbers::{is_finite, negative};
use std::f64::consts::{FRAC_PI_2, FRAC_PI_4, PI, TAU};

// The double nearest √2 - 1.
const ROOT_TWO_LESS: f64 = 0.41421356237309503;

// 1, -1/3!, 1/5!, .. 1/17!
const SINE: [f64; 9] = [
    1.0,
    -0.16666666666666666,
    0.008333333333333333,
    -0.0001984126984126984,
    2.7557319223985893e-06,
    -2.505210838544172e-08,
    1.6059043836821613e-10,
    -7.647163731819816e-13,
    2.8114572543455206e-15,
];

// 1, -1/2!, 1/4!, .. 1/16!
const COSINE: [f64; 9] = [
    1.0,
    -0.5,
    0.041666666666666664,
    -0.001388888888888889,
    2.48015873015873e-05,
    -2.755731922398589e-07,
    2.08767569878681e-09,
    -1.1470745597729725e-11,
    4.779477332387385e-14,
];

// 1, -1/3, 1/5, .. -1/39
const ARCTANGENT: [f64; 20] = [
    1.0,
    -0.3333333333333333,
    0.2,
    -0.14285714285714285,
    0.1111111111111111,
    -0.09090909090909091,
    0.07692307692307693,
    -0.06666666666666667,
    0.058823529411764705,
    -0.05263157894736842,
    0.047619047619047616,
    -0.043478260869565216,
    0.04,
    -0.037037037037037035,
    0.034482758620689655,
    -0.03225806451612903,
    0.030303030303030304,
    -0.02857142857142857,
    0.02702702702702703,
    -0.02564102564102564,
];

#[derive(Clone, Copy)]
pub struct SineCosine {
    pub sine: f64,
    pub cosine: f64,
}

// 1 where the edge lies below a, else 0.
#[tactic(auto, unfolding(crate::specs::Arcs::passed))]
fn passed(edge: f64, a: f64) -> u32
    ensures value { result ≡ spec.passed edge a }
    ensures upper_bound { result ≤ 1 }
{
    (edge < a) as u32
}

// How many of π/4, 3π/4, 5π/4, 7π/4 lie below a.
#[tactic(auto, unfolding(crate::specs::Arcs::quarters))]
fn quarters(a: f64) -> u32
    ensures value { result ≡ spec.quarters a }
    ensures upper_bound { result ≤ 4 }
{
    passed(FRAC_PI_4, a)
        + passed(3.0 * FRAC_PI_4, a)
        + passed(5.0 * FRAC_PI_4, a)
        + passed(7.0 * FRAC_PI_4, a)
}

// Sine and cosine after q turns of π/2, looked up: a branch would be guessed wrong as often as not. Each has a list of its own, which is quicker than the pair from one.
#[tactic(auto, unfolding(crate::specs::Arcs::turned))]
fn turned(q: u32, s: f64, c: f64) -> SineCosine
    requires { q ≤ 4 }
    ensures { result ≡ spec.turned q s c }
{
    let sines = [s, c, -s, -c, s];
    let cosines = [c, -s, -c, s, c];
    let i = q as usize;
    SineCosine {
        sine: sines[i],
        cosine: cosines[i],
    }
}

// What is left of t after its turns: over 64 and up to 2^20 by T1 and T2, else the remainder by 2π. Up to 2π that is t itself, and the division is left out.
fn reduced(t: f64) -> f64
    ensures { result ≡ spec.reduced t }
{
    if 0.0 <= t && t < TAU {
        return t;
    }
    if 64.0 < t && t <= 1048576.0 {
        less_turns(t)
    } else {
        remainder(t, TAU)
    }
}

// Sine and cosine of a finite t ≥ 0.
#[tactic(auto, unfolding(crate::specs::Arcs::sine_cosine_of))]
fn sine_cosine_of(t: f64) -> SineCosine
    ensures { result ≡ spec.sine_cosine_of t }
{
    let a = reduced(t);
    let q = quarters(a);
    let b = a - f64::from(q) * FRAC_PI_2;
    let z = b * b;
    turned(q, b * horner(&SINE, z), horner(&COSINE, z))
}

// Sine and cosine of one argument together; NaNs where it is not finite or below 0.
pub fn sine_cosine(t: f64) -> SineCosine
    ensures { result ≡ spec.sine_cosine t }
{
    if is_finite(t) && !(t < 0.0) {
        sine_cosine_of(t)
    } else {
        SineCosine {
            sine: 0.0 / 0.0,
            cosine: 0.0 / 0.0,
        }
    }
}

#[unsafe(no_mangle)]
pub extern "C" fn sine(t: f64) -> f64
    ensures { result ≡ spec.sine t }
{
    let r = sine_cosine(t);
    r.sine
}

#[unsafe(no_mangle)]
pub extern "C" fn cosine(t: f64) -> f64
    ensures { result ≡ spec.cosine t }
{
    let r = sine_cosine(t);
    r.cosine
}

// The series of the arctangent through (v * v)^19.
#[tactic(auto, unfolding(crate::specs::Arcs::series))]
fn series(v: f64) -> f64
    ensures { result ≡ spec.series v }
{
    v * horner(&ARCTANGENT, v * v)
}

// One of two values, looked up for the same reason.
fn pick(test: bool, no: f64, yes: f64) -> f64
    ensures { result ≡ cond test yes no }
{
    let either = [no, yes];
    either[test as usize]
}

fn magnitude(x: f64) -> f64
    ensures { result ≡ abs x }
{
    pick(negative(x), x, -x)
}

// The arctangent of a ratio from 0 to 1.
#[tactic(auto, unfolding(crate::specs::Arcs::of_ratio))]
fn of_ratio(u: f64) -> f64
    ensures { result ≡ spec.of_ratio u }
{
    let above = ROOT_TWO_LESS < u;
    let w = series(pick(above, u, (u - 1.0) / (u + 1.0)));
    pick(above, w, FRAC_PI_4 + w)
}

// The smaller magnitude over the larger; 0 where both are 0.
#[tactic(auto, unfolding(crate::specs::Arcs::ratio))]
fn ratio(small: f64, large: f64) -> f64
    ensures { result ≡ spec.ratio small large }
{
    if large == 0.0 { 0.0 } else { small / large }
}

// The arctangent of two magnitudes.
#[tactic(auto, unfolding(crate::specs::Arcs::of_magnitudes))]
fn of_magnitudes(y: f64, x: f64) -> f64
    ensures { result ≡ spec.of_magnitudes y x }
{
    let steep = x < y;
    let w = of_ratio(ratio(pick(steep, y, x), pick(steep, x, y)));
    pick(steep, w, FRAC_PI_2 - w)
}

// The arctangent of two finite doubles, with the signs of both.
#[tactic(auto, unfolding(crate::specs::Arcs::arctangent_of))]
fn arctangent_of(y: f64, x: f64) -> f64
    ensures { result ≡ spec.arctangent_of y x }
{
    let w = of_magnitudes(magnitude(y), magnitude(x));
    let p = pick(negative(x), w, PI - w);
    pick(negative(y), p, -p)
}

#[unsafe(no_mangle)]
pub extern "C" fn arctangent(y: f64, x: f64) -> f64
    ensures { result ≡ spec.arctangent y x }
{
    if is_finite(y) && is_finite(x) {
        arctangent_of(y, x)
    } else {
        0.0 / 0.0
    }
}
