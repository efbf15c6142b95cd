// `Vec3` of vec.rs with its operators. `specs/Vec.antt` has the definitions.
ghost use Rattle.std.specs.Prelude.{◌≡◌};
ghost use Rattle.numbers.specs.Ops.{doubles};
ghost use Rattle.vectors.specs.Vec as spec;

use crate::{root, tol};
use std::ops::{Add, Mul, Neg, Sub};

#[derive(Clone, Copy)]
pub struct Vec3 {
    pub x: f64,
    pub y: f64,
    pub z: f64,
}

impl Vec3 {
    pub const ZERO: Vec3 = Vec3 {
        x: 0.0,
        y: 0.0,
        z: 0.0,
    };

    pub const X: Vec3 = Vec3 {
        x: 1.0,
        y: 0.0,
        z: 0.0,
    };

    pub const Y: Vec3 = Vec3 {
        x: 0.0,
        y: 1.0,
        z: 0.0,
    };

    pub const Z: Vec3 = Vec3 {
        x: 0.0,
        y: 0.0,
        z: 1.0,
    };

    pub fn new(x: f64, y: f64, z: f64) -> Vec3
        ensures { spec.vec result ≡ record { x = x; y = y; z = z } }
    {
        Vec3 { x, y, z }
    }

    pub fn dot(self, o: Vec3) -> f64
        ensures { result ≡ spec.dot doubles (spec.vec self) (spec.vec o) }
    {
        self.x * o.x + self.y * o.y + self.z * o.z
    }

    pub fn cross(self, o: Vec3) -> Vec3
        ensures { spec.vec result ≡ spec.cross doubles (spec.vec self) (spec.vec o) }
    {
        Vec3 {
            x: self.y * o.z - self.z * o.y,
            y: self.z * o.x - self.x * o.z,
            z: self.x * o.y - self.y * o.x,
        }
    }

    #[tactic(auto, unfolding(crate::specs::Vec::len))]
    pub fn len(self) -> f64
        ensures { result ≡ spec.len (spec.vec self) }
    {
        root::sqrt(self.dot(self))
    }

    // The unit vector of the same direction, or zero unless the length is above EPS.
    #[tactic(auto, unfolding(crate::specs::Vec::normalized))]
    pub fn normalized(self) -> Vec3
        ensures { spec.vec result ≡ spec.normalized (spec.vec self) }
    {
        let l = self.len();
        if l > tol::EPS {
            self * (1.0 / l)
        } else {
            Vec3::ZERO
        }
    }

    #[tactic(auto, unfolding(crate::specs::Vec::is_finite_v))]
    pub fn is_finite(self) -> bool
        ensures { result ≡ spec.is_finite_v (spec.vec self) }
    {
        numbers::is_finite(self.x) && numbers::is_finite(self.y) && numbers::is_finite(self.z)
    }
}

impl Add for Vec3 {
    type Output = Vec3;

    ghost add_gives = { λ a b r. spec.vec r ≡ spec.add_v doubles (spec.vec a) (spec.vec b) };

    fn add(self, o: Vec3) -> Vec3 {
        Vec3 {
            x: self.x + o.x,
            y: self.y + o.y,
            z: self.z + o.z,
        }
    }
}

impl Sub for Vec3 {
    type Output = Vec3;

    ghost sub_gives = { λ a b r. spec.vec r ≡ spec.sub_v doubles (spec.vec a) (spec.vec b) };

    fn sub(self, o: Vec3) -> Vec3 {
        Vec3 {
            x: self.x - o.x,
            y: self.y - o.y,
            z: self.z - o.z,
        }
    }
}

// Each number times `s`.
impl Mul<f64> for Vec3 {
    type Output = Vec3;

    ghost mul_gives = { λ a s r. spec.vec r ≡ spec.scale_v doubles (spec.vec a) s };

    fn mul(self, s: f64) -> Vec3 {
        Vec3 {
            x: self.x * s,
            y: self.y * s,
            z: self.z * s,
        }
    }
}

impl Neg for Vec3 {
    type Output = Vec3;

    ghost neg_gives = { λ a r. spec.vec r ≡ spec.neg_v doubles (spec.vec a) };

    fn neg(self) -> Vec3 {
        Vec3 {
            x: -self.x,
            y: -self.y,
            z: -self.z,
        }
    }
}
