// `Prim` of geometry.rs, here `Primitive`. `specs/Geometry.antt` has the definitions.
ghost use Rattle.std.specs.Prelude.{◌≡◌};
ghost use Rattle.numbers.specs.Ops.{doubles};
ghost use Rattle.vectors.specs.Vec.{vec};
ghost use Rattle.vectors.specs.Space.{frame};
ghost use Rattle.vectors.specs.Math.{mat};
ghost use Rattle.relations.specs.Geometry as spec;

use vectors::math::M3;
use vectors::space::Frame;
use vectors::vec::Vec3;

// Geometry that a relation works with.
#[derive(Clone, Copy)]
pub enum Primitive {
    Plane {
        point: Vec3,
        normal: Vec3,
    },
    Line {
        point: Vec3,
        dir: Vec3,
    },
    Point(Vec3),
    Circle {
        center: Vec3,
        normal: Vec3,
        radius: f64,
    },
}

// r p + t
pub fn place(r: M3, t: Vec3, p: Vec3) -> Vec3
    ensures { vec result ≡ spec.place doubles (record { r = mat r; t = vec t }) (vec p) }
{
    r.apply(p) + t
}

impl Primitive {
    // The same geometry moved by a placement: the rotation r, then the translation t.
    #[tactic(auto, unfolding(crate::specs::Geometry::placed))]
    pub fn placed(self, r: M3, t: Vec3) -> Primitive
        ensures { spec.prim result ≡ spec.placed doubles (record { r = mat r; t = vec t }) (spec.prim self) }
    {
        match self {
            Primitive::Plane { point, normal } => Primitive::Plane {
                point: place(r, t, point),
                normal: r.apply(normal),
            },
            Primitive::Line { point, dir } => Primitive::Line {
                point: place(r, t, point),
                dir: r.apply(dir),
            },
            Primitive::Point(p) => Primitive::Point(place(r, t, p)),
            Primitive::Circle {
                center,
                normal,
                radius,
            } => Primitive::Circle {
                center: place(r, t, center),
                normal: r.apply(normal),
                radius,
            },
        }
    }

    // A point of the geometry.
    #[tactic(auto, unfolding(crate::specs::Geometry::point_of))]
    pub fn point(self) -> Vec3
        ensures { vec result ≡ spec.point_of (spec.prim self) }
    {
        match self {
            Primitive::Plane { point, .. } | Primitive::Line { point, .. } => point,
            Primitive::Point(p) => p,
            Primitive::Circle { center, .. } => center,
        }
    }

    // The plane's normal, the line's direction or the circle's axis.
    #[tactic(auto, unfolding(crate::specs::Geometry::direction_of))]
    pub fn direction(self) -> Option<Vec3>
        ensures { spec.direction result ≡ spec.direction_of (spec.prim self) }
    {
        match self {
            Primitive::Plane { normal, .. } | Primitive::Circle { normal, .. } => Some(normal),
            Primitive::Line { dir, .. } => Some(dir),
            Primitive::Point(_) => None,
        }
    }

    // The frame that a joint takes from this geometry: its point, Z along its direction (for a point the part's Z, or the image of that on a mirrored
    // part), X chosen from Z alone.
    #[tactic(auto, unfolding(crate::specs::Geometry::joint_frame))]
    pub fn joint_frame(self, mirrored: bool) -> Frame
        ensures { frame result ≡ spec.joint_frame (spec.prim self) mirrored }
    {
        let z = joint_axis(self.direction(), mirrored);
        Frame::from_normal(self.point(), z).unwrap_or(Frame::WORLD)
    }
}

// The Z of a joint's frame.
#[tactic(auto, unfolding(crate::specs::Geometry::joint_axis))]
fn joint_axis(d: Option<Vec3>, mirrored: bool) -> Vec3
    ensures { vec result ≡ spec.joint_axis (spec.direction d) mirrored }
{
    d.unwrap_or(if mirrored { -Vec3::Z } else { Vec3::Z })
}
