// What is left of an angle over 64 and up to 2^20 after its whole turns, which are counted exactly: an estimate in doubles serves where it is seen to be right, and else the turns are counted in whole
// numbers.
ghost use Rattle.std.specs.Prelude.{◌≡◌, ◌+◌, ◌*◌, ◌^◌, ◌≤◌, ◌<◌, T, leb};
ghost use Rattle.arcs.specs.Arcs as spec;
ghost use Rattle.arcs.specs.TurnSteps.{Steps, Room, turn};

use numbers::FIELD;

// 2π cut to its first 33 binary digits, and the double nearest the rest.
const T1: f64 = 6.2831853069365025;

const T2: f64 = 2.430840202602477e-10;

// T1 in units of 2^-30, and T2 in units of 2^-84: MIDDLE * 2^38 + LOW
const HIGH: u64 = 6746518852;

const MIDDLE: u64 = 17105;

const LOW: u64 = 142176576305;

// An angle in units of 2^-46: high * 2^16 + low
#[derive(Drop)]
struct Angle {
    high: u64,
    low: u64,
}

fn opened(t: f64) -> Angle
    requires { T (spec.far t) }
    ensures { Steps t result.high result.low }
{
    let b = f64::to_bits(t);
    let s = b / FIELD - 1029;
    let digits = FIELD + b % FIELD;
    Angle {
        high: digits >> (16 - s),
        low: (digits << s) % 0x1_0000,
    }
}

// Whether k turns fit into an angle. k * T2 is rounded up to units of 2^-46.
fn fits(k: u64, high: u64, low: u64) -> bool
    requires { (k < 2 ^ 18) × (low < 2 ^ 16) }
    ensures { result ≡ leb (k * turn) ((high * 2 ^ 16 + low) * 2 ^ 38) }
{
    let w = k * MIDDLE + (k * LOW + 0x3F_FFFF_FFFF) / 0x40_0000_0000;
    let h = k * HIGH + w / 0x1_0000;
    h < high || h == high && w % 0x1_0000 <= low
}

// Whole numbers to choose from: k turns fit and k + room do not.
#[derive(Drop)]
struct Choice {
    k: u64,
    room: u64,
}

// An estimate and its two neighbours, where k is seen to be among them, and else all.
fn around(near: u64, high: u64, low: u64) -> Choice
    requires { (high * 2 ^ 16 + low ≤ 2 ^ 66) × (low < 2 ^ 16) }
    ensures { Room ((high * 2 ^ 16 + low) * 2 ^ 38) result.k result.room }
{
    if 0 < near {
        if near < 0x3_FFFE {
            if fits(near - 1, high, low) {
                if !fits(near + 2, high, low) {
                    return Choice {
                        k: near - 1,
                        room: 3,
                    };
                }
            }
        }
    }
    Choice {
        k: 0,
        room: 0x4_0000,
    }
}

// The number of turns, by halves of what is left to choose from.
fn turns(t: f64, near: u64) -> u64
    requires { T (spec.far t) }
    ensures { (result ≡ spec.turns t) × (result < 2 ^ 18) }
{
    let a = opened(t);
    let high = a.high;
    let low = a.low;
    let c = around(near, high, low);
    let mut k = c.k;
    let mut room = c.room;
    while 1 < room {
        let step = room / 2;
        if fits(k + step, high, low) {
            k += step;
            room -= step;
        } else {
            room = step;
        }
    }
    k
}

// What is left after the turns. The quotient, moved up to where doubles are whole, has an estimate k of their number in its last digits; how near it is decides only the speed. It is the number where it
// leaves from 2^-13, which is more than any k * T2, up to T1.
pub fn less_turns(t: f64) -> f64
    requires { T (spec.far t) }
    ensures { result ≡ spec.less_turns t (spec.turns t) }
{
    let x = t * 0.15915494309189535 + 4503599627370495.5;
    let near = f64::to_bits(x) % 0x4_0000;
    let k = x - 4503599627370496.0;
    let left = t - k * T1;
    if 0 < near && k == near as f64 && 0.0001220703125 <= left && left < T1 {
        return left - k * T2;
    }
    let k = turns(t, near) as f64;
    t - k * T1 - k * T2
}
