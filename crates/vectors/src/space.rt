// `Frame` of space.rs. `specs/Space.antt` has the definitions.
ghost use Rattle.std.specs.Prelude.{◌≡◌};
ghost use Rattle.vectors.specs.Vec.{vec};
ghost use Rattle.vectors.specs.Space as spec;

use crate::tol;
use crate::vec::Vec3;

// A right-handed orthonormal coordinate frame: an origin and unit X, Y, Z directions.
#[derive(Clone, Copy)]
pub struct Frame {
    pub origin: Vec3,
    pub x: Vec3,
    pub y: Vec3,
    pub z: Vec3,
}

impl Frame {
    // The world frame.
    pub const WORLD: Frame = Frame {
        origin: Vec3::ZERO,
        x: Vec3::X,
        y: Vec3::Y,
        z: Vec3::Z,
    };

    // Frame at `origin` with normal `z`; X is `x_hint` made perpendicular to Z (Gram-Schmidt).
    // None when the inputs are not finite, `z` is no longer than LINEAR, or what remains of `x_hint` is not.
    #[tactic(auto, unfolding(crate::specs::Space::new_frame))]
    pub fn new(origin: Vec3, z: Vec3, x_hint: Vec3) -> Option<Frame>
        ensures { spec.made result ≡ spec.new_frame (vec origin) (vec z) (vec x_hint) }
    {
        if !(origin.is_finite() && z.is_finite() && x_hint.is_finite()) || z.len() <= tol::LINEAR {
            return None;
        }
        let zn = z.normalized();
        squared(origin, zn, remaining(zn, x_hint))
    }

    // Frame at `origin` with normal `z` and a fixed X direction: world X made perpendicular to Z, or world Y when `z` is close to world X.
    #[tactic(auto, unfolding(crate::specs::Space::from_normal))]
    pub fn from_normal(origin: Vec3, z: Vec3) -> Option<Frame>
        ensures { spec.made result ≡ spec.from_normal (vec origin) (vec z) }
    {
        let zn = z.normalized();
        if numbers::abs(zn.x) > 0.9 {
            Frame::new(origin, z, Vec3::Y)
        } else {
            Frame::new(origin, z, Vec3::X)
        }
    }
}

// What is perpendicular to the unit `z` in `hint`.
fn remaining(z: Vec3, hint: Vec3) -> Vec3
    ensures { vec result ≡ spec.remaining (vec z) (vec hint) }
{
    hint - z * hint.dot(z)
}

// The frame with the unit `z` and the direction of `x`, which is perpendicular to it.
fn squared(origin: Vec3, z: Vec3, x: Vec3) -> Option<Frame>
    ensures { spec.made result ≡ spec.squared (vec origin) (vec z) (vec x) }
{
    if x.len() <= tol::LINEAR {
        return None;
    }
    let xn = x.normalized();
    Some(Frame {
        origin,
        x: xn,
        y: z.cross(xn),
        z,
    })
}
