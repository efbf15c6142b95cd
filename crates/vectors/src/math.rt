// Rotations of math.rs. `specs/Math.antt` has the definitions.
ghost use Rattle.std.specs.Prelude.{◌≡◌};
ghost use Rattle.numbers.specs.Ops.{doubles};
ghost use Rattle.vectors.specs.Vec.{vec};
ghost use Rattle.vectors.specs.Space.{frame, made};
ghost use Rattle.vectors.specs.Math as spec;

use crate::space::Frame;
use crate::vec::Vec3;

const PI: f64 = 3.141592653589793;

// A 3x3 matrix of three rows. Rotations map part directions to assembly directions.
#[derive(Clone, Copy)]
pub struct M3 {
    pub r0: Vec3,
    pub r1: Vec3,
    pub r2: Vec3,
}

impl M3 {
    pub const IDENTITY: M3 = M3 {
        r0: Vec3::X,
        r1: Vec3::Y,
        r2: Vec3::Z,
    };

    // The rotation whose columns are the frame's axes.
    pub fn of_frame(f: Frame) -> M3
        ensures { spec.mat result ≡ spec.of_frame (frame f) }
    {
        M3::from_columns(f.x, f.y, f.z)
    }

    pub fn from_columns(x: Vec3, y: Vec3, z: Vec3) -> M3
        ensures { spec.mat result ≡ spec.from_columns (vec x) (vec y) (vec z) }
    {
        M3 {
            r0: Vec3 {
                x: x.x,
                y: y.x,
                z: z.x,
            },
            r1: Vec3 {
                x: x.y,
                y: y.y,
                z: z.y,
            },
            r2: Vec3 {
                x: x.z,
                y: y.z,
                z: z.z,
            },
        }
    }

    // The column `i`, the last for any `i` above 1.
    #[tactic(auto, unfolding(crate::specs::Math::col))]
    pub fn col(self, i: usize) -> Vec3
        ensures { vec result ≡ spec.col (spec.mat self) i }
    {
        match i {
            0 => Vec3::new(self.r0.x, self.r1.x, self.r2.x),
            1 => Vec3::new(self.r0.y, self.r1.y, self.r2.y),
            _ => Vec3::new(self.r0.z, self.r1.z, self.r2.z),
        }
    }

    pub fn apply(self, v: Vec3) -> Vec3
        ensures { vec result ≡ spec.apply doubles (spec.mat self) (vec v) }
    {
        Vec3 {
            x: self.r0.x * v.x + self.r0.y * v.y + self.r0.z * v.z,
            y: self.r1.x * v.x + self.r1.y * v.y + self.r1.z * v.z,
            z: self.r2.x * v.x + self.r2.y * v.y + self.r2.z * v.z,
        }
    }

    pub fn mul(self, o: M3) -> M3
        ensures { spec.mat result ≡ spec.mul_m (spec.mat self) (spec.mat o) }
    {
        M3 {
            r0: row_mul(self.r0, o),
            r1: row_mul(self.r1, o),
            r2: row_mul(self.r2, o),
        }
    }

    pub fn transpose(self) -> M3
        ensures { spec.mat result ≡ spec.transpose (spec.mat self) }
    {
        M3 {
            r0: Vec3 {
                x: self.r0.x,
                y: self.r1.x,
                z: self.r2.x,
            },
            r1: Vec3 {
                x: self.r0.y,
                y: self.r1.y,
                z: self.r2.y,
            },
            r2: Vec3 {
                x: self.r0.z,
                y: self.r1.z,
                z: self.r2.z,
            },
        }
    }

    // The rotation `|w|` radians about `w` (Rodrigues).
    #[tactic(auto, unfolding(crate::specs::Math::exp))]
    pub fn exp(w: Vec3) -> M3
        ensures { spec.mat result ≡ spec.exp (vec w) }
    {
        let t = w.len();
        if t < 1e-12 {
            return linear(w);
        }
        let k = w * (1.0 / t);
        let a = arcs::arc::sine_cosine(t);
        rodrigues(k, a.sine, a.cosine, 1.0 - a.cosine)
    }
}

// A row times a matrix: three sums from -0, as `sum()` has them.
fn row_mul(r: Vec3, o: M3) -> Vec3
    ensures { vec result ≡ spec.row_mul (vec r) (spec.mat o) }
{
    Vec3 {
        x: -0.0 + r.x * o.r0.x + r.y * o.r1.x + r.z * o.r2.x,
        y: -0.0 + r.x * o.r0.y + r.y * o.r1.y + r.z * o.r2.y,
        z: -0.0 + r.x * o.r0.z + r.y * o.r1.z + r.z * o.r2.z,
    }
}

// `exp` near zero.
fn linear(w: Vec3) -> M3
    ensures { spec.mat result ≡ spec.linear (vec w) }
{
    M3 {
        r0: Vec3 {
            x: 1.0,
            y: -w.z,
            z: w.y,
        },
        r1: Vec3 {
            x: w.z,
            y: 1.0,
            z: -w.x,
        },
        r2: Vec3 {
            x: -w.y,
            y: w.x,
            z: 1.0,
        },
    }
}

// The turn about the unit `k` whose sine is `s` and cosine `c`; `v` is 1 - c.
fn rodrigues(k: Vec3, s: f64, c: f64, v: f64) -> M3
    ensures { spec.mat result ≡ spec.rodrigues (vec k) s c v }
{
    M3 {
        r0: Vec3 {
            x: c + k.x * k.x * v,
            y: k.x * k.y * v - k.z * s,
            z: k.x * k.z * v + k.y * s,
        },
        r1: Vec3 {
            x: k.y * k.x * v + k.z * s,
            y: c + k.y * k.y * v,
            z: k.y * k.z * v - k.x * s,
        },
        r2: Vec3 {
            x: k.z * k.x * v - k.y * s,
            y: k.z * k.y * v + k.x * s,
            z: c + k.z * k.z * v,
        },
    }
}

// Half a turn about a perpendicular of `from`.
fn half_turn(from: Vec3) -> M3
    ensures { spec.mat result ≡ spec.half_turn (vec from) }
{
    let p = if numbers::abs(from.x) < 0.9 {
        Vec3::X
    } else {
        Vec3::Y
    };
    let axis = from.cross(p).normalized();
    M3::exp(axis * PI)
}

// The smallest rotation taking unit `from` to unit `to` (half a turn about a perpendicular when they are opposite).
#[tactic(auto, unfolding(crate::specs::Math::rotation_between))]
pub fn rotation_between(from: Vec3, to: Vec3) -> M3
    ensures { spec.mat result ≡ spec.rotation_between (vec from) (vec to) }
{
    let c = from.cross(to);
    let d = numbers::clamp(from.dot(to));
    if c.len() < 1e-12 {
        if d > 0.0 {
            return M3::IDENTITY;
        }
        return half_turn(from);
    }
    M3::exp(c.normalized() * arcs::arc::arctangent(c.len(), d))
}

// A frame from a rotation and an origin (the rotation's columns are made orthonormal again).
#[tactic(auto, unfolding(crate::specs::Math::col))]
pub fn frame_of(r: M3, origin: Vec3) -> Option<Frame>
    ensures { made result ≡ spec.frame_of (spec.mat r) (vec origin) }
{
    Frame::new(origin, r.col(2), r.col(0))
}
