// `Motion` and `snap` of solve.rs: a motion of b's body that makes one relation hold by itself. `specs/Snap.antt` has the definitions.
ghost use Rattle.std.specs.Prelude.{◌≡◌};
ghost use Rattle.numbers.specs.Ops.{doubles};
ghost use Rattle.vectors.specs.Vec.{vec};
ghost use Rattle.vectors.specs.Space.{frame};
ghost use Rattle.vectors.specs.Math.{mat};
ghost use Rattle.relations.specs.Geometry as geometry;
ghost use Rattle.relations.specs.Geometry.{prim, direction};
ghost use Rattle.relations.specs.Model.{end_of, law_of, rel_of, pose};
ghost use Rattle.relations.specs.Rows.{joint_of, joint_at, pair_of};
ghost use Rattle.snapping.specs.Snap as spec;

use relations::geometry::Primitive;
use relations::model::{End, JointKind, Law, Pose, Rel};
use relations::rows::{JointAt, Pair, perp};
use relations::{geometry, rows};
use vectors::math;
use vectors::math::M3;
use vectors::space::Frame;
use vectors::vec::Vec3;

// A rigid motion x -> r x + t.
#[derive(Clone, Copy)]
pub struct Motion {
    pub r: M3,
    pub t: Vec3,
}

impl Motion {
    pub const IDENTITY: Motion = Motion {
        r: M3::IDENTITY,
        t: Vec3::ZERO,
    };

    // r p + t
    fn place(self, p: Vec3) -> Vec3
        ensures { vec result ≡ geometry.place doubles (spec.motion self) (vec p) }
    {
        geometry::place(self.r, self.t, p)
    }

    // The pose after the motion.
    #[tactic(auto, unfolding(crate::specs::Snap::moved))]
    fn moved(self, q: Pose) -> Pose
        ensures { pose result ≡ spec.moved (spec.motion self) (pose q) }
    {
        Pose {
            r: self.r.mul(q.r),
            t: self.place(q.t),
        }
    }

    // An end's geometry after the motion, its body at the pose q before.
    fn placed(self, e: End, q: Pose) -> Primitive
        ensures { prim result ≡ geometry.placed doubles (spec.moved (spec.motion self) (pose q)) (end_of e).prim }
    {
        e.placed(self.moved(q))
    }

    // The origin of an end's joint frame after the motion.
    fn joint_origin(self, e: End, q: Pose) -> Vec3
        ensures { vec result ≡ geometry.place doubles (spec.motion self) (joint_at (end_of e) (pose q)).o }
    {
        self.place(rows::joint_at(e, q).o)
    }

    // The motion, then moving by v.
    #[tactic(auto, unfolding(crate::specs::Snap::slid))]
    fn slid(self, v: Vec3) -> Motion
        ensures { spec.motion result ≡ spec.slid (spec.motion self) (vec v) }
    {
        Motion {
            t: self.t + v,
            ..self
        }
    }

    // The frame moved and squared; itself where none can be built.
    #[tactic(auto, unfolding(crate::specs::Snap::apply_frame))]
    pub fn apply_frame(self, f: Frame) -> Frame
        ensures { frame result ≡ spec.apply_frame (spec.motion self) (frame f) }
    {
        math::frame_of(self.r.mul(M3::of_frame(f)), self.place(f.origin)).unwrap_or(f)
    }

    #[tactic(auto, unfolding(crate::specs::Snap::inverse))]
    pub fn inverse(self) -> Motion
        ensures { spec.motion result ≡ spec.inverse (spec.motion self) }
    {
        let r = self.r.transpose();
        Motion {
            r,
            t: -r.apply(self.t),
        }
    }

    // Turning by r about the centre, then moving by t.
    #[tactic(auto, unfolding(crate::specs::Snap::about))]
    pub fn about(r: M3, center: Vec3, t: Vec3) -> Motion
        ensures { spec.motion result ≡ spec.about (mat r) (vec center) (vec t) }
    {
        Motion {
            r,
            t: center - r.apply(center) + t,
        }
    }
}

// da, turned round where it points against db.
fn same_side(da: Vec3, db: Vec3) -> Vec3
    ensures { vec result ≡ spec.same_side (vec da) (vec db) }
{
    if da.dot(db) >= 0.0 { da } else { -da }
}

// Where a mate turns b's direction.
#[tactic(auto, unfolding(crate::specs::Snap::mate_target))]
fn mate_target(p: Pair, da: Vec3, db: Vec3) -> Option<Vec3>
    ensures { direction result ≡ spec.mate_target (pair_of p) (vec da) (vec db) }
{
    match p {
        Pair::Planes(..) => Some(-da),
        Pair::Lines(..) => Some(same_side(da, db)),
        _ => None,
    }
}

// v, or its opposite.
fn facing(same: bool, v: Vec3) -> Vec3
    ensures { vec result ≡ spec.along same (vec v) }
{
    if same { v } else { -v }
}

#[tactic(auto, unfolding(crate::specs::Snap::joint_target))]
fn joint_target(kind: JointKind, flip: bool, da: Vec3) -> Option<Vec3>
    ensures { direction result ≡ spec.joint_target kind flip (vec da) }
{
    match kind {
        JointKind::Ball => None,
        _ => Some(facing(flip, da)),
    }
}

// The direction that b's is turned to, from a's direction da and b's db.
#[tactic(auto, unfolding(crate::specs::Snap::target_dir))]
fn target_dir(law: Law, pa: Primitive, pb: Primitive, da: Vec3, db: Vec3) -> Option<Vec3>
    ensures { direction result ≡ spec.target_dir (law_of law) (prim pa) (prim pb) (vec da) (vec db) }
{
    match law {
        Law::Mate { .. } => {
            mate_target(Pair::of(rows::mate_prim(pa), rows::mate_prim(pb)), da, db)
        }
        Law::Flush { .. } => Some(da),
        Law::Insert { aligned, .. } => Some(facing(aligned, da)),
        Law::Joint { joint, flip, .. } => joint_target(joint, flip, da),
        Law::Angle { .. } | Law::Tangent { .. } | Law::Symmetry { .. } | Law::Gear { .. } => None,
    }
}

// The direction that takes part in the turning: a joint's is its frame's Z.
#[tactic(auto, unfolding(crate::specs::Snap::snap_dir))]
fn snap_dir(law: Law, p: Primitive, j: JointAt) -> Option<Vec3>
    ensures { direction result ≡ spec.snap_dir (law_of law) (prim p) (joint_of j) }
{
    match law {
        Law::Joint { .. } => Some(j.z),
        Law::Gear { .. } => None,
        _ => p.direction(),
    }
}

#[tactic(auto, unfolding(crate::specs::Snap::turn_to))]
fn turn_to(db: Vec3, to: Option<Vec3>) -> M3
    ensures { mat result ≡ spec.turn_to (vec db) (direction to) }
{
    match to {
        Some(v) => math::rotation_between(db, v),
        None => M3::IDENTITY,
    }
}

#[tactic(auto, unfolding(crate::specs::Snap::turn_onto))]
fn turn_onto(law: Law, pa: Primitive, pb: Primitive, da: Option<Vec3>, db: Option<Vec3>) -> M3
    ensures { mat result ≡ spec.turn_onto (law_of law) (prim pa) (prim pb) (direction da) (direction db) }
{
    match (da, db) {
        (Some(va), Some(vb)) => turn_to(vb, target_dir(law, pa, pb, va, vb)),
        _ => M3::IDENTITY,
    }
}

// Then about the joint's axis, to the joint's angle.
#[tactic(auto, unfolding(crate::specs::Snap::turn_to_angle))]
fn turn_to_angle(want: f64, ja: JointAt, jb: JointAt, r: M3) -> M3
    ensures { mat result ≡ spec.turn_to_angle want (joint_of ja) (joint_of jb) (mat r) }
{
    let now = rows::turn(ja.x, r.apply(jb.x), ja.z);
    M3::exp(ja.z * (want - now)).mul(r)
}

#[tactic(auto, unfolding(crate::specs::Snap::joint_turn))]
fn joint_turn(kind: JointKind, want: f64, ja: JointAt, jb: JointAt, r: M3) -> M3
    ensures { mat result ≡ spec.joint_turn kind want (joint_of ja) (joint_of jb) (mat r) }
{
    match kind {
        JointKind::Rigid | JointKind::Slider => turn_to_angle(want, ja, jb, r),
        _ => r,
    }
}

#[tactic(auto, unfolding(crate::specs::Snap::snap_turn))]
fn snap_turn(law: Law, ja: JointAt, jb: JointAt, r: M3) -> M3
    ensures { mat result ≡ spec.snap_turn (law_of law) (joint_of ja) (joint_of jb) (mat r) }
{
    match law {
        Law::Joint { joint, angle, .. } => joint_turn(joint, angle, ja, jb, r),
        _ => r,
    }
}

// Along n by `want` less how far q stands from the plane through p.
fn slide_to(want: f64, q: Vec3, p: Vec3, n: Vec3) -> Vec3
    ensures { vec result ≡ spec.slide_to want (vec q) (vec p) (vec n) }
{
    n * (want - (q - p).dot(n))
}

// The other way.
fn slide_from(want: f64, q: Vec3, p: Vec3, n: Vec3) -> Vec3
    ensures { vec result ≡ spec.slide_from want (vec q) (vec p) (vec n) }
{
    n * ((q - p).dot(n) - want)
}

#[tactic(auto, unfolding(crate::specs::Snap::mate_slide))]
fn mate_slide(offset: f64, a: Primitive, b: Primitive) -> Vec3
    ensures { vec result ≡ spec.mate_slide offset (prim a) (prim b) }
{
    use Primitive::{Line, Plane, Point};
    match (a, b) {
        (Plane { point, normal }, Plane { point: q, .. })
        | (Plane { point, normal }, Line { point: q, .. })
        | (Plane { point, normal }, Point(q)) => slide_to(offset, q, point, normal),
        (Line { point: q, .. }, Plane { point, normal }) | (Point(q), Plane { point, normal }) => {
            slide_from(offset, q, point, normal)
        }
        (Line { point: p, dir }, Line { point: q, .. }) => perp(p - q, dir),
        (Line { point: p, dir }, Point(q)) => -perp(q - p, dir),
        (Point(q), Line { point: p, dir }) => perp(q - p, dir),
        (Point(q), Point(p)) => q - p,
        _ => Vec3::ZERO,
    }
}

#[tactic(auto, unfolding(crate::specs::Snap::flush_slide))]
fn flush_slide(offset: f64, a: Primitive, b: Primitive) -> Vec3
    ensures { vec result ≡ spec.flush_slide offset (prim a) (prim b) }
{
    match (a, b) {
        (Primitive::Plane { point, normal }, Primitive::Plane { point: q, .. }) => {
            slide_to(offset, q, point, normal)
        }
        _ => Vec3::ZERO,
    }
}

// oa + za * offset - ob
fn to_origin(offset: f64, oa: Vec3, za: Vec3, ob: Vec3) -> Vec3
    ensures { vec result ≡ spec.to_origin offset (vec oa) (vec za) (vec ob) }
{
    oa + za * offset - ob
}

#[tactic(auto, unfolding(crate::specs::Snap::insert_slide))]
fn insert_slide(offset: f64, a: Primitive, b: Primitive) -> Vec3
    ensures { vec result ≡ spec.insert_slide offset (prim a) (prim b) }
{
    match (a, b) {
        (Primitive::Circle { center, normal, .. }, Primitive::Circle { center: cb, .. }) => {
            to_origin(offset, center, normal, cb)
        }
        _ => Vec3::ZERO,
    }
}

// Toward a plane, as far as the tangent wants; two round ends stay.
#[tactic(auto, unfolding(crate::specs::Snap::tangent_slide))]
fn tangent_slide(want: f64, a: Primitive, b: Primitive) -> Vec3
    ensures { vec result ≡ spec.tangent_slide want (prim a) (prim b) }
{
    use Primitive::{Line, Plane, Point};
    match (a, b) {
        (Plane { point, normal }, Line { point: q, .. }) | (Plane { point, normal }, Point(q)) => {
            slide_to(want, q, point, normal)
        }
        (Line { point: q, .. }, Plane { point, normal }) | (Point(q), Plane { point, normal }) => {
            slide_from(want, q, point, normal)
        }
        _ => Vec3::ZERO,
    }
}

// ob is b's joint origin after the turning.
#[tactic(auto, unfolding(crate::specs::Snap::joint_slide))]
fn joint_slide(kind: JointKind, offset: f64, oa: Vec3, za: Vec3, ob: Vec3) -> Vec3
    ensures { vec result ≡ spec.joint_slide kind offset (vec oa) (vec za) (vec ob) }
{
    match kind {
        JointKind::Slider | JointKind::Cylindrical => perp(oa - ob, za),
        JointKind::Planar => slide_to(offset, ob, oa, za),
        JointKind::Rigid | JointKind::Revolute | JointKind::Ball => to_origin(offset, oa, za, ob),
    }
}

// Ends of the radii ra and rb, placed, b's after the turning; ob is b's joint origin then.
#[tactic(auto, unfolding(crate::specs::Snap::slide))]
fn slide(law: Law, ra: f64, rb: f64, pa: Primitive, pb: Primitive, ja: JointAt, ob: Vec3) -> Vec3
    ensures { vec result ≡ spec.slide (law_of law) ra rb (prim pa) (prim pb) (joint_of ja) (vec ob) }
{
    match law {
        Law::Mate { offset } => mate_slide(offset, rows::mate_prim(pa), rows::mate_prim(pb)),
        Law::Flush { offset } => flush_slide(offset, pa, pb),
        Law::Insert { offset, .. } => insert_slide(offset, pa, pb),
        Law::Tangent { offset, inside } => {
            tangent_slide(rows::plane_gap(ra, rb, offset, inside), pa, pb)
        }
        Law::Joint { joint, offset, .. } => joint_slide(joint, offset, ja.o, ja.z, ob),
        Law::Angle { .. } | Law::Symmetry { .. } | Law::Gear { .. } => Vec3::ZERO,
    }
}

// b's direction turned onto a's, then about the joint's axis.
#[tactic(auto, unfolding(crate::specs::Snap::turning))]
fn turning(law: Law, pa: Primitive, pb: Primitive, ja: JointAt, jb: JointAt) -> M3
    ensures { mat result ≡ spec.turning (law_of law) (prim pa) (prim pb) (joint_of ja) (joint_of jb) }
{
    let da = snap_dir(law, pa, ja);
    let db = snap_dir(law, pb, jb);
    snap_turn(law, ja, jb, turn_onto(law, pa, pb, da, db))
}

// Turn first: b's body about its centre.
#[tactic(auto, unfolding(crate::specs::Snap::turned))]
fn turned(rel: Rel, qa: Pose, qb: Pose, center: Vec3) -> Motion
    ensures { spec.motion result ≡ spec.turned (rel_of rel) (pose qa) (pose qb) (vec center) }
{
    let Rel { law, a, b } = rel;
    let pa = a.placed(qa);
    let pb = b.placed(qb);
    let ja = rows::joint_at(a, qa);
    let jb = rows::joint_at(b, qb);
    Motion::about(turning(law, pa, pb, ja, jb), center, Vec3::ZERO)
}

// Then slide.
#[tactic(auto, unfolding(crate::specs::Snap::sliding))]
fn sliding(rel: Rel, qa: Pose, qb: Pose, m: Motion) -> Vec3
    ensures { vec result ≡ spec.sliding (rel_of rel) (pose qa) (pose qb) (spec.motion m) }
{
    let Rel { law, a, b } = rel;
    let pa = a.placed(qa);
    let pb = m.placed(b, qb);
    let ja = rows::joint_at(a, qa);
    let ob = m.joint_origin(b, qb);
    slide(law, a.radius, b.radius, pa, pb, ja, ob)
}

#[tactic(auto, unfolding(crate::specs::Snap::is_gear))]
fn is_gear(law: Law) -> bool
    ensures { result ≡ spec.is_gear (law_of law) }
{
    matches!(law, Law::Gear { .. })
}

// A motion of b's body that makes one relation hold by itself: b's geometry is turned onto a's, then slid into place. A gear moves nothing.
#[tactic(auto, unfolding(crate::specs::Snap::snap))]
pub fn snap(rel: Rel, qa: Pose, qb: Pose, center: Vec3) -> Motion
    ensures { spec.motion result ≡ spec.snap (rel_of rel) (pose qa) (pose qb) (vec center) }
{
    if is_gear(rel.law) {
        return Motion::IDENTITY;
    }
    let m = turned(rel, qa, qb, center);
    m.slid(sliding(rel, qa, qb, m))
}
