// How many rows a relation has. `specs/Count.antt` has the definitions.
ghost use Rattle.std.specs.Prelude.{◌≡◌};
ghost use Rattle.relations.specs.Geometry.{prim};
ghost use Rattle.relations.specs.Model.{law_of, end_of};
ghost use Rattle.relations.specs.Rows.{pair_of};
ghost use Rattle.judging.specs.Count as spec;

use crate::judge::{has_direction, is_circle};
use relations::geometry::Primitive;
use relations::model::{JointKind, Law, Rel};
use relations::rows::{Pair, is_plane, mate_prim};

#[tactic(auto, unfolding(crate::specs::Count::mate_count))]
fn mate_count(p: Pair) -> usize
    ensures { result ≡ spec.mate_count (pair_of p) }
{
    match p {
        Pair::Planes(..) => 4,
        Pair::Lines(..) => 6,
        Pair::Points(..) | Pair::LinePoint(..) => 3,
        Pair::PlanePoint(..) => 1,
        Pair::PlaneLine(..) => 2,
        Pair::Other => 0,
    }
}

#[tactic(auto, unfolding(crate::specs::Count::tangent_count))]
fn tangent_count(p: Pair) -> usize
    ensures { result ≡ spec.tangent_count (pair_of p) }
{
    match p {
        Pair::Lines(..) => 4,
        Pair::Points(..) | Pair::PlanePoint(..) | Pair::LinePoint(..) => 1,
        Pair::PlaneLine(..) => 2,
        Pair::Planes(..) | Pair::Other => 0,
    }
}

#[tactic(auto, unfolding(crate::specs::Count::mirror_count))]
fn mirror_count(p: Pair) -> usize
    ensures { result ≡ spec.mirror_count (pair_of p) }
{
    match p {
        Pair::Planes(..) => 4,
        Pair::Lines(..) => 6,
        Pair::Points(..) => 3,
        _ => 0,
    }
}

#[tactic(auto, unfolding(crate::specs::Count::joint_count))]
fn joint_count(kind: JointKind) -> usize
    ensures { result ≡ spec.joint_count kind }
{
    match kind {
        JointKind::Rigid | JointKind::Slider => 7,
        JointKind::Revolute | JointKind::Cylindrical => 6,
        JointKind::Planar => 4,
        JointKind::Ball => 3,
    }
}

#[tactic(auto, unfolding(crate::specs::Count::row_count))]
fn law_count(law: Law, a: Primitive, b: Primitive) -> usize
    ensures { result ≡ spec.row_count (law_of law) (prim a) (prim b) }
{
    match law {
        Law::Mate { .. } => mate_count(Pair::of(mate_prim(a), mate_prim(b))),
        Law::Flush { .. } if is_plane(a) && is_plane(b) => 4,
        Law::Angle { .. } if has_direction(a) && has_direction(b) => 1,
        Law::Insert { .. } if is_circle(a) && is_circle(b) => 6,
        Law::Tangent { .. } => tangent_count(Pair::of(a, b)),
        Law::Symmetry { plane } if is_plane(plane.prim) => {
            mirror_count(Pair::of(mate_prim(a), mate_prim(b)))
        }
        Law::Joint { joint, .. } => joint_count(joint),
        Law::Gear { .. } => 1,
        _ => 0,
    }
}

// The number of rows that `residual` gives, wherever the ends stand.
pub fn row_count(rel: Rel) -> usize
    ensures { result ≡ spec.row_count (law_of rel.law) (end_of rel.a).prim (end_of rel.b).prim }
{
    law_count(rel.law, rel.a.prim, rel.b.prim)
}
