// Which pairs suit a law, and where a joint stands: `check`, `check_tangent` and `joint_reading` of solve.rs. `specs/Judge.antt` has the definitions.
ghost use Rattle.std.specs.Prelude.{◌≡◌, ◌&&◌, ◌||◌};
ghost use Rattle.faults.specs.Fault.{number_of};
ghost use Rattle.relations.specs.Geometry.{prim};
ghost use Rattle.relations.specs.Model.{end_of, law_of, rel_of, pose};
ghost use Rattle.relations.specs.Rows.{pair_of};
ghost use Rattle.judging.specs.Judge as spec;

use faults::fault::Fault;
use relations::geometry::Primitive;
use relations::model::{End, Law, Pose, Rel};
use relations::rows;
use relations::rows::{Pair, is_plane, mate_prim};

#[tactic(auto, unfolding(crate::specs::Judge::is_circle))]
pub fn is_circle(p: Primitive) -> bool
    ensures { result ≡ spec.is_circle (prim p) }
{
    matches!(p, Primitive::Circle { .. })
}

#[tactic(auto, unfolding(crate::specs::Judge::has_direction))]
pub fn has_direction(p: Primitive) -> bool
    ensures { result ≡ spec.has_direction (prim p) }
{
    !matches!(p, Primitive::Point(_))
}

#[tactic(auto, unfolding(crate::specs::Judge::line_or_point))]
fn line_or_point(p: Primitive) -> bool
    ensures { result ≡ spec.line_or_point (prim p) }
{
    matches!(p, Primitive::Line { .. } | Primitive::Point(_))
}

// Two planes, two lines or two points.
#[tactic(auto, unfolding(crate::specs::Judge::two_of_a_kind))]
fn two_of_a_kind(p: Pair) -> bool
    ensures { result ≡ spec.two_of_a_kind (pair_of p) }
{
    matches!(p, Pair::Planes(..) | Pair::Lines(..) | Pair::Points(..))
}

// A tangent is not between two planes, and not with a circle.
#[tactic(auto, unfolding(crate::specs::Judge::suits_tangent))]
fn suits_tangent(a: Primitive, b: Primitive) -> bool
    ensures { result ≡ spec.suits_tangent (prim a) (prim b) }
{
    !is_circle(a) && !is_circle(b) && !(is_plane(a) && is_plane(b))
}

#[tactic(auto, unfolding(crate::specs::Judge::suits))]
fn suits(law: Law, a: Primitive, b: Primitive) -> bool
    ensures { result ≡ spec.suits (law_of law) (prim a) (prim b) }
{
    match law {
        Law::Mate { .. } => true,
        Law::Flush { .. } => is_plane(a) && is_plane(b),
        Law::Angle { .. } => has_direction(a) && has_direction(b),
        Law::Insert { .. } => is_circle(a) && is_circle(b),
        Law::Tangent { .. } => suits_tangent(a, b),
        Law::Symmetry { plane } => {
            is_plane(plane.prim) && two_of_a_kind(Pair::of(mate_prim(a), mate_prim(b)))
        }
        Law::Joint { .. } | Law::Gear { .. } => true,
    }
}

// Whether two kinds of geometry can take this law.
#[tactic(auto, unfolding(crate::specs::Judge::check))]
pub fn check(law: Law, a: Primitive, b: Primitive) -> Result<(), Fault>
    ensures { number_of result ≡ spec.check (law_of law) (prim a) (prim b) }
{
    if suits(law, a, b) {
        Ok(())
    } else {
        Err(Fault::Unsuited)
    }
}

// A line or a point with a radius above 0.
#[tactic(auto, unfolding(crate::specs::Judge::is_round))]
fn is_round(e: End) -> bool
    ensures { result ≡ spec.is_round (end_of e) }
{
    e.radius > 0.0 && line_or_point(e.prim)
}

// A tangent's two ends: at least one round face, and a plane only with a round one.
#[tactic(auto, unfolding(crate::specs::Judge::check_tangent))]
pub fn check_tangent(a: End, b: End) -> Result<(), Fault>
    ensures { number_of result ≡ spec.check_tangent (end_of a) (end_of b) }
{
    let round_a = is_round(a);
    let round_b = is_round(b);
    if round_a && (round_b || is_plane(b.prim)) || is_plane(a.prim) && round_b {
        Ok(())
    } else {
        Err(Fault::Tangent)
    }
}

#[tactic(auto, unfolding(crate::specs::Judge::is_tangent))]
fn is_tangent(law: Law) -> bool
    ensures { result ≡ spec.is_tangent (law_of law) }
{
    matches!(law, Law::Tangent { .. })
}

// `check`, then for a tangent `check_tangent`.
#[tactic(auto, unfolding(crate::specs::Judge::judge, crate::specs::Judge::check))]
pub fn judge(rel: Rel) -> Result<(), Fault>
    ensures { number_of result ≡ spec.judge (rel_of rel) }
{
    let Rel { law, a, b } = rel;
    check(law, a.prim, b.prim)?;
    if is_tangent(law) {
        return check_tangent(a, b);
    }
    Ok(())
}

// Where a joint stands, as its own offset and angle are measured.
#[derive(Clone, Copy)]
pub struct Reading {
    pub offset: f64,
    pub angle: f64,
}

// How far b's origin is from a's along a's Z, and how far b is turned from a about it.
#[tactic(auto, unfolding(crate::specs::Judge::joint_reading))]
pub fn joint_reading(rel: Rel, qa: Pose, qb: Pose) -> Reading
    ensures { spec.reading result ≡ spec.joint_reading (rel_of rel) (pose qa) (pose qb) }
{
    let a = rows::joint_at(rel.a, qa);
    let b = rows::joint_at(rel.b, qb);
    Reading {
        offset: (b.o - a.o).dot(a.z),
        angle: rows::turn(a.x, b.x, a.z),
    }
}
