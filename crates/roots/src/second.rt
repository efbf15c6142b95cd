// A second root of a double, built otherwise than `arcs::root`: in doubles, by Heron's rule and a correction by the exact remainder.
// specs/Second.antt has the definitions.
ghost use Rattle.std.specs.Prelude.{◌≡◌};
ghost use Rattle.roots.specs.Second as spec;

// x as a * s^2, s a power of two
#[derive(Drop)]
struct Scaled {
    a: f64,
    s: f64,
}

// A large a by w^2 smaller, a small a by w^2 larger.
#[tactic(auto, unfolding(crate::specs::Second::lowered))]
fn lowered(v: Scaled, w: f64) -> Scaled
    ensures { result ≡ spec.lowered v w }
{
    let w2 = w * w;
    if v.a >= w2 {
        Scaled {
            a: v.a / w2,
            s: v.s * w,
        }
    } else {
        v
    }
}

#[tactic(auto, unfolding(crate::specs::Second::raised))]
fn raised(v: Scaled, w: f64) -> Scaled
    ensures { result ≡ spec.raised v w }
{
    let w2 = w * w;
    if v.a * w2 < 4.0 {
        Scaled {
            a: v.a * w2,
            s: v.s / w,
        }
    } else {
        v
    }
}

// 2^256, 2^128, 2^64, 2^32
const W256: f64 = 1.157920892373162e77;

const W128: f64 = 3.402823669209385e38;

const W64: f64 = 18446744073709551616.0;

const W32: f64 = 4294967296.0;

// x with a below 4
#[tactic(auto, unfolding(crate::specs::Second::lowest))]
fn lowest(x: f64) -> Scaled
    ensures { result ≡ spec.lowest x }
{
    let v = Scaled { a: x, s: 1.0 };
    let v = lowered(lowered(lowered(lowered(v, W256), W128), W64), W32);
    lowered(
        lowered(lowered(lowered(lowered(v, 65536.0), 256.0), 16.0), 4.0),
        2.0,
    )
}

// x with a from 1 up to 4
#[tactic(auto, unfolding(crate::specs::Second::into_range))]
fn into_range(x: f64) -> Scaled
    ensures { result ≡ spec.into_range x }
{
    let v = lowest(x);
    let v = raised(
        raised(raised(raised(raised(v, W256), W256), W128), W64),
        W32,
    );
    raised(
        raised(raised(raised(raised(v, 65536.0), 256.0), 16.0), 4.0),
        2.0,
    )
}

// one turn of Heron's rule
fn heron(a: f64, r: f64) -> f64
    ensures { result ≡ spec.heron a r }
{
    (r + a / r) * 0.5
}

// 2^-52, the distance of the doubles from 1 to 2
const STEP: f64 = 2.220446049250313e-16;

// a less r * r, which is p + e exactly, each part of r having 26 digits.
#[tactic(auto, unfolding(crate::specs::Second::left))]
fn left(a: f64, r: f64) -> f64
    ensures { result ≡ spec.left a r }
{
    let c = r * 134217729.0;
    let high = c - (c - r);
    let low = r - high;
    let p = r * r;
    let e = high * high - p + 2.0 * high * low + low * low;
    a - p - e
}

// r or its neighbour, whichever is nearer to the root of a, for an r from 1 to 2.
#[tactic(auto, unfolding(crate::specs::Second::corrected))]
fn corrected(a: f64, r: f64) -> f64
    ensures { result ≡ spec.corrected a r }
{
    let d = left(a, r);
    if d > r * STEP {
        r + STEP
    } else if d <= -(r * STEP) {
        r - STEP
    } else {
        r
    }
}

#[tactic(auto, unfolding(crate::specs::Second::above_zero))]
fn above_zero(x: f64) -> f64
    ensures { result ≡ spec.above_zero x }
{
    let v = into_range(x);
    let a = v.a;
    let r = heron(a, heron(a, heron(a, heron(a, heron(a, heron(a, 1.5))))));
    corrected(a, corrected(a, r)) * v.s
}

#[tactic(auto, unfolding(crate::specs::Second::second_root))]
pub fn second_root(x: f64) -> f64
    ensures { result ≡ spec.second_root x }
{
    if x == 0.0 {
        return x;
    }
    if x == 1.0 / 0.0 {
        return x;
    }
    if x > 0.0 { above_zero(x) } else { 0.0 / 0.0 }
}
