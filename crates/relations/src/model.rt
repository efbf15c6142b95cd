// What the solver works on: `Body`, `Law`, `End`, `Rel` and `Pose` of solve.rs, with `JointKind` of model.rs. `specs/Model.antt` has the definitions.
ghost use Rattle.std.specs.Prelude.{◌≡◌};
ghost use Rattle.numbers.specs.Ops.{doubles};
ghost use Rattle.vectors.specs.Vec.{vec};
ghost use Rattle.vectors.specs.Space.{frame};
ghost use Rattle.relations.specs.Geometry as geometry;
ghost use Rattle.relations.specs.Model as spec;

use crate::geometry::{Primitive, place};
use vectors::math::M3;
use vectors::space::Frame;
use vectors::vec::Vec3;

// The joint types.
#[derive(Clone, Copy)]
pub enum JointKind {
    Rigid,
    Revolute,
    Slider,
    Cylindrical,
    Planar,
    Ball,
}

// A part as the solver sees it: where it stands, whether it is held, what it turns about, its size.
#[derive(Clone, Copy)]
pub struct Body {
    pub frame: Frame,
    pub fixed: bool,
    pub center: Vec3,
    pub size: f64,
}

// One side of a relation: the number of its body, none for the ground, and its geometry in the body's coordinates.
#[derive(Clone, Copy)]
pub struct End {
    pub body: Option<usize>,
    pub prim: Primitive,
    pub radius: f64,
    pub mirrored: bool,
}

// What a relation requires.
#[derive(Clone, Copy)]
pub enum Law {
    Mate {
        offset: f64,
    },
    Flush {
        offset: f64,
    },
    Angle {
        angle: f64,
        reference: Vec3,
    },
    Insert {
        offset: f64,
        aligned: bool,
    },
    Tangent {
        offset: f64,
        inside: bool,
    },
    Symmetry {
        plane: End,
    },
    Joint {
        joint: JointKind,
        flip: bool,
        offset: f64,
        angle: f64,
    },
    // Two wheels that mesh, and what they turn in.
    Gear {
        teeth_a: u16,
        teeth_b: u16,
        angle: f64,
        carrier: End,
    },
}

#[derive(Clone, Copy)]
pub struct Rel {
    pub law: Law,
    pub a: End,
    pub b: End,
}

// A rigid placement during solving.
#[derive(Clone, Copy)]
pub struct Pose {
    pub r: M3,
    pub t: Vec3,
}

impl Pose {
    // The pose of the assembly itself.
    pub const GROUND: Pose = Pose {
        r: M3::IDENTITY,
        t: Vec3::ZERO,
    };

    pub fn of(f: Frame) -> Pose
        ensures { spec.pose result ≡ spec.pose_of_frame (frame f) }
    {
        Pose {
            r: M3::of_frame(f),
            t: f.origin,
        }
    }

    // r p + t
    pub fn place(self, p: Vec3) -> Vec3
        ensures { vec result ≡ geometry.place doubles (spec.pose self) (vec p) }
    {
        place(self.r, self.t, p)
    }
}

impl End {
    // The end's geometry at its body's pose.
    pub fn placed(self, q: Pose) -> Primitive
        ensures { geometry.prim result ≡ geometry.placed doubles (spec.pose q) (spec.end_of self).prim }
    {
        self.prim.placed(q.r, q.t)
    }
}
