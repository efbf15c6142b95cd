// The rows of every law and pair: `residual` of solve.rs, with what it is made of. `specs/Rows.antt` has the definitions.
ghost use Rattle.std.specs.Prelude.{◌≡◌, ◌≤◌, List, [], ◌∷◌, length};
ghost use Rattle.numbers.specs.Ops.{doubles};
ghost use Rattle.numbers.specs.MaxAbs as largest;
ghost use Rattle.vectors.specs.Vec.{vec};
ghost use Rattle.relations.specs.Geometry.{prim, direction};
ghost use Rattle.relations.specs.Model.{end_of, law_of, pose};
ghost use Rattle.relations.specs.Rows as spec;

use crate::geometry::Primitive;
use crate::model::{End, JointKind, Law, Pose, Rel};
use least_squares::lm::max_abs;
use vectors::vec::Vec3;

const PI: f64 = 3.141592653589793;

const MINUS_ONE: f64 = -1.0;

// The first n of seven numbers; the others are 0.
#[derive(Clone, Copy)]
pub struct Rows {
    pub n: usize,
    pub values: [f64; 7],
}

impl Rows {
    // At most seven.
    fn of(rows: &[f64]) -> Rows
        requires { length rows.now ≤ 7 }
        ensures { result ≡ spec.pack rows.now }
    {
        let n = rows.len();
        let mut values = [0.0; 7];
        values[..n].copy_from_slice(rows);
        Rows { n, values }
    }

    #[tactic(auto, unfolding(crate::specs::Rows::pack))]
    fn none() -> Rows
        ensures { result ≡ spec.pack [] }
    {
        Rows::of(&[])
    }

    #[tactic(auto, unfolding(crate::specs::Rows::pack))]
    fn one(x: f64) -> Rows
        ensures { result ≡ spec.pack (x ∷ []) }
    {
        Rows::of(&[x])
    }

    #[tactic(auto, unfolding(crate::specs::Rows::pack))]
    fn two(x: f64, y: f64) -> Rows
        ensures { result ≡ spec.pack (x ∷ y ∷ []) }
    {
        Rows::of(&[x, y])
    }

    #[tactic(auto, unfolding(crate::specs::Rows::pack))]
    fn three(v: Vec3) -> Rows
        ensures { result ≡ spec.pack (spec.push3 (vec v) []) }
    {
        Rows::of(&[v.x, v.y, v.z])
    }

    #[tactic(auto, unfolding(crate::specs::Rows::pack))]
    fn four(v: Vec3, x: f64) -> Rows
        ensures { result ≡ spec.pack (spec.push3 (vec v) (x ∷ [])) }
    {
        Rows::of(&[v.x, v.y, v.z, x])
    }

    #[tactic(auto, unfolding(crate::specs::Rows::pack))]
    fn six(v: Vec3, w: Vec3) -> Rows
        ensures { result ≡ spec.pack (spec.push3 (vec v) (spec.push3 (vec w) [])) }
    {
        Rows::of(&[v.x, v.y, v.z, w.x, w.y, w.z])
    }

    #[tactic(auto, unfolding(crate::specs::Rows::pack))]
    fn seven(v: Vec3, w: Vec3, x: f64) -> Rows
        ensures { result ≡ spec.pack (spec.push3 (vec v) (spec.push3 (vec w) (x ∷ []))) }
    {
        Rows::of(&[v.x, v.y, v.z, w.x, w.y, w.z, x])
    }

    // The largest magnitude, 0 for none; infinity where a row is not finite.
    #[tactic(auto, unfolding(crate::specs::Rows::rows_of))]
    pub fn max_abs(self) -> f64
        ensures { result ≡ largest.max_abs (spec.rows_of self) }
    {
        max_abs(&self.values[..self.n.min(7)])
    }
}

// `tangent_gap` where an end is a plane: in front of it, or behind it when `inside`.
#[tactic(auto, unfolding(crate::specs::Rows::plane_gap))]
pub fn plane_gap(ra: f64, rb: f64, offset: f64, inside: bool) -> f64
    ensures { result ≡ spec.plane_gap doubles ra rb offset inside }
{
    let r = numbers::max(ra, rb);
    if inside { -r + offset } else { r + offset }
}

// `tangent_gap` between two round ends: their radii added, or one less the other when `inside`.
#[tactic(auto, unfolding(crate::specs::Rows::round_gap))]
fn round_gap(ra: f64, rb: f64, offset: f64, inside: bool) -> f64
    ensures { result ≡ spec.round_gap ra rb offset inside }
{
    if inside {
        numbers::abs(ra - rb) + offset
    } else {
        ra + rb + offset
    }
}

// How far a tangent wants its two ends apart.
#[tactic(auto, unfolding(crate::specs::Rows::tangent_gap))]
pub fn tangent_gap(ra: f64, rb: f64, offset: f64, inside: bool, plane: bool) -> f64
    ensures { result ≡ spec.tangent_gap ra rb offset inside plane }
{
    if plane {
        plane_gap(ra, rb, offset, inside)
    } else {
        round_gap(ra, rb, offset, inside)
    }
}

// The part of v that is perpendicular to d.
pub fn perp(v: Vec3, d: Vec3) -> Vec3
    ensures { vec result ≡ spec.perp doubles (vec v) (vec d) }
{
    v - d * v.dot(d)
}

// How far q stands from the plane through p with the normal n, less what is wanted.
fn gap(q: Vec3, p: Vec3, n: Vec3, want: f64) -> f64
    ensures { result ≡ spec.gap doubles (vec q) (vec p) (vec n) want }
{
    (q - p).dot(n) - want
}

// `a` wrapped into (-pi, pi].
#[tactic(auto, unfolding(crate::specs::Rows::wrap))]
pub fn wrap(a: f64) -> f64
    ensures { result ≡ spec.wrap a }
{
    let w = numbers::rem_euclid(a + PI, 2.0 * PI) - PI;
    if w <= -PI { w + 2.0 * PI } else { w }
}

// The angle from xa to xb turning about the axis.
#[tactic(auto, unfolding(crate::specs::Rows::turn))]
pub fn turn(xa: Vec3, xb: Vec3, axis: Vec3) -> f64
    ensures { result ≡ spec.turn (vec xa) (vec xb) (vec axis) }
{
    arcs::arc::arctangent(xa.cross(xb).dot(axis), xa.dot(xb))
}

// A circle's axis is what a mate works with.
#[tactic(auto, unfolding(crate::specs::Rows::mate_prim))]
pub fn mate_prim(p: Primitive) -> Primitive
    ensures { prim result ≡ spec.mate_prim (prim p) }
{
    match p {
        Primitive::Circle { center, normal, .. } => Primitive::Line {
            point: center,
            dir: normal,
        },
        _ => p,
    }
}

#[tactic(auto, unfolding(crate::specs::Rows::is_plane))]
pub fn is_plane(p: Primitive) -> bool
    ensures { result ≡ spec.is_plane (prim p) }
{
    matches!(p, Primitive::Plane { .. })
}

// Two primitives as the laws tell them apart, each by its point and its normal, direction or axis: two of a kind, a's before b's; or two kinds, whichever of
// the two is a's.
#[derive(Clone, Copy)]
pub enum Pair {
    Planes(Vec3, Vec3, Vec3, Vec3),
    Lines(Vec3, Vec3, Vec3, Vec3),
    Points(Vec3, Vec3),
    PlanePoint(Vec3, Vec3, Vec3),
    LinePoint(Vec3, Vec3, Vec3),
    PlaneLine(Vec3, Vec3, Vec3, Vec3),
    Other,
}

impl Pair {
    pub fn of(a: Primitive, b: Primitive) -> Pair
        ensures { spec.pair_of result ≡ spec.pair (prim a) (prim b) }
    {
        use Primitive::{Line, Plane, Point};
        match (a, b) {
            (
                Plane {
                    point: a,
                    normal: na,
                },
                Plane {
                    point: b,
                    normal: nb,
                },
            ) => Pair::Planes(a, na, b, nb),
            (Line { point: a, dir: da }, Line { point: b, dir: db }) => Pair::Lines(a, da, b, db),
            (Point(a), Point(b)) => Pair::Points(a, b),
            (Plane { point, normal }, Point(q)) | (Point(q), Plane { point, normal }) =>
                Pair::PlanePoint(point, normal, q),
            (Line { point, dir }, Point(q)) | (Point(q), Line { point, dir }) => Pair::LinePoint(
                point, dir, q,
            ),
            (Plane { point, normal }, Line { point: q, dir })
            | (Line { point: q, dir }, Plane { point, normal }) => Pair::PlaneLine(
                point, normal, q, dir,
            ),
            _ => Pair::Other,
        }
    }
}

fn mate(offset: f64, p: Pair) -> Rows
    ensures { result ≡ spec.pack (spec.mate_of doubles offset (spec.pair_of p)) }
{
    match p {
        Pair::Planes(a, na, b, nb) => Rows::four(na + nb, gap(b, a, na, offset)),
        Pair::Lines(a, da, b, db) => Rows::six(da.cross(db), perp(b - a, da)),
        Pair::Points(a, b) => Rows::three(b - a),
        Pair::PlanePoint(p, n, q) => Rows::one(gap(q, p, n, offset)),
        Pair::LinePoint(p, d, q) => Rows::three(perp(q - p, d)),
        Pair::PlaneLine(p, n, q, d) => Rows::two(d.dot(n), gap(q, p, n, offset)),
        Pair::Other => Rows::none(),
    }
}

#[tactic(auto, unfolding(crate::specs::Rows::flush_rows))]
fn flush(offset: f64, a: Primitive, b: Primitive) -> Rows
    ensures { result ≡ spec.pack (spec.flush_rows doubles offset (prim a) (prim b)) }
{
    match Pair::of(a, b) {
        Pair::Planes(a, na, b, nb) => Rows::four(na - nb, gap(b, a, na, offset)),
        _ => Rows::none(),
    }
}

// About the axis; a point has no direction, and no row.
#[tactic(auto, unfolding(crate::specs::Rows::angle_rows))]
fn angle(want: f64, axis: Vec3, a: Option<Vec3>, b: Option<Vec3>) -> Rows
    ensures { result ≡ spec.pack (spec.angle_rows want (vec axis) (direction a) (direction b)) }
{
    match (a, b) {
        (Some(ua), Some(ub)) => Rows::one(wrap(turn(ua, ub, axis) - want)),
        _ => Rows::none(),
    }
}

#[tactic(auto, unfolding(crate::specs::Rows::insert_rows))]
fn insert(offset: f64, aligned: bool, a: Primitive, b: Primitive) -> Rows
    ensures { result ≡ spec.pack (spec.insert_rows doubles offset aligned (prim a) (prim b)) }
{
    match (a, b) {
        (
            Primitive::Circle {
                center: ca,
                normal: na,
                ..
            },
            Primitive::Circle {
                center: cb,
                normal: nb,
                ..
            },
        ) => {
            let apart = cb - ca - na * offset;
            Rows::six(if aligned { na - nb } else { na + nb }, apart)
        }
        _ => Rows::none(),
    }
}

// A plane and a line or a point.
fn plane_tangent(want: f64, p: Pair) -> Rows
    ensures { result ≡ spec.pack (spec.plane_tangent_of doubles want (spec.pair_of p)) }
{
    match p {
        Pair::PlanePoint(p, n, c) => Rows::one(gap(c, p, n, want)),
        Pair::PlaneLine(p, n, q, d) => Rows::two(d.dot(n), gap(q, p, n, want)),
        _ => Rows::none(),
    }
}

// Two lines, two points, or one of each.
fn round_tangent(want: f64, p: Pair) -> Rows
    ensures { result ≡ spec.pack (spec.round_tangent_of want (spec.pair_of p)) }
{
    match p {
        Pair::Lines(a, da, b, db) => Rows::four(da.cross(db), perp(b - a, da).len() - want),
        Pair::Points(a, b) => Rows::one((b - a).len() - want),
        Pair::LinePoint(p, d, c) => Rows::one(perp(c - p, d).len() - want),
        _ => Rows::none(),
    }
}

#[tactic(auto, unfolding(crate::specs::Rows::tangent_rows, crate::specs::Rows::plane_tangent_rows, crate::specs::Rows::round_tangent_rows))]
fn tangent(ra: f64, rb: f64, offset: f64, inside: bool, a: Primitive, b: Primitive) -> Rows
    ensures { result ≡ spec.pack (spec.tangent_rows ra rb offset inside (prim a) (prim b)) }
{
    let p = Pair::of(a, b);
    if is_plane(a) || is_plane(b) {
        plane_tangent(plane_gap(ra, rb, offset, inside), p)
    } else {
        round_tangent(round_gap(ra, rb, offset, inside), p)
    }
}

// A direction mirrored in the plane with the normal ns.
fn mirror_turn(ns: Vec3, v: Vec3) -> Vec3
    ensures { vec result ≡ spec.mirror_turn doubles (vec ns) (vec v) }
{
    v - ns * (2.0 * v.dot(ns))
}

// A point mirrored in the plane through s0 with the normal ns.
fn mirror_place(s0: Vec3, ns: Vec3, p: Vec3) -> Vec3
    ensures { vec result ≡ spec.mirror_place doubles (vec s0) (vec ns) (vec p) }
{
    p - ns * (2.0 * (p - s0).dot(ns))
}

// a's geometry mirrored in the plane is b's.
fn mirror(s0: Vec3, ns: Vec3, p: Pair) -> Rows
    ensures { result ≡ spec.pack (spec.mirror_of doubles (vec s0) (vec ns) (spec.pair_of p)) }
{
    match p {
        Pair::Planes(a, na, b, nb) => Rows::four(
            nb - mirror_turn(ns, na),
            (b - mirror_place(s0, ns, a)).dot(nb),
        ),
        Pair::Lines(a, da, b, db) => Rows::six(
            db.cross(mirror_turn(ns, da)),
            perp(b - mirror_place(s0, ns, a), db),
        ),
        Pair::Points(a, b) => Rows::three(b - mirror_place(s0, ns, a)),
        _ => Rows::none(),
    }
}

#[tactic(auto, unfolding(crate::specs::Rows::symmetry_rows, crate::specs::Rows::mirror_rows))]
fn symmetry(s: Primitive, a: Primitive, b: Primitive) -> Rows
    ensures { result ≡ spec.pack (spec.symmetry_rows doubles (prim s) (prim a) (prim b)) }
{
    match s {
        Primitive::Plane { point, normal } => mirror(point, normal, Pair::of(a, b)),
        _ => Rows::none(),
    }
}

// A joint's frame in the assembly: origin, X, Z.
#[derive(Clone, Copy)]
pub struct JointAt {
    pub o: Vec3,
    pub x: Vec3,
    pub z: Vec3,
}

// `joint_frame` of solve.rs.
#[tactic(auto, unfolding(crate::specs::Rows::joint_at))]
pub fn joint_at(e: End, q: Pose) -> JointAt
    ensures { spec.joint_of result ≡ spec.joint_at (end_of e) (pose q) }
{
    let f = e.prim.joint_frame(e.mirrored);
    JointAt {
        o: q.place(f.origin),
        x: q.r.apply(f.x),
        z: q.r.apply(f.z),
    }
}

// zb - za, or zb + za where not flipped.
fn axes(flip: bool, a: JointAt, b: JointAt) -> Vec3
    ensures { vec result ≡ spec.axes_apart flip (spec.joint_of a) (spec.joint_of b) }
{
    b.z - a.z * if flip { 1.0 } else { MINUS_ONE }
}

// ob - oa - za * offset
fn origins(offset: f64, a: JointAt, b: JointAt) -> Vec3
    ensures { vec result ≡ spec.origins_apart offset (spec.joint_of a) (spec.joint_of b) }
{
    b.o - a.o - a.z * offset
}

// How far b's origin is off a's axis.
fn off_axis(a: JointAt, b: JointAt) -> Vec3
    ensures { vec result ≡ spec.off_axis (spec.joint_of a) (spec.joint_of b) }
{
    perp(b.o - a.o, a.z)
}

#[tactic(auto, unfolding(crate::specs::Rows::turned_by))]
fn turned(want: f64, a: JointAt, b: JointAt) -> f64
    ensures { result ≡ spec.turned_by want (spec.joint_of a) (spec.joint_of b) }
{
    wrap(turn(a.x, b.x, a.z) - want)
}

#[tactic(auto, unfolding(crate::specs::Rows::joint_rows))]
fn joint(kind: JointKind, flip: bool, offset: f64, want: f64, a: JointAt, b: JointAt) -> Rows
    ensures { result ≡ spec.pack (spec.joint_rows kind flip offset want (spec.joint_of a) (spec.joint_of b)) }
{
    match kind {
        JointKind::Rigid => Rows::seven(
            axes(flip, a, b),
            origins(offset, a, b),
            turned(want, a, b),
        ),
        JointKind::Revolute => Rows::six(axes(flip, a, b), origins(offset, a, b)),
        JointKind::Slider => Rows::seven(axes(flip, a, b), off_axis(a, b), turned(want, a, b)),
        JointKind::Cylindrical => Rows::six(axes(flip, a, b), off_axis(a, b)),
        JointKind::Planar => Rows::four(axes(flip, a, b), gap(b.o, a.o, a.z, offset)),
        JointKind::Ball => Rows::three(b.o - a.o),
    }
}

// A gear's carrier in the assembly: X and Y of its joint frame.
#[derive(Clone, Copy)]
pub struct CarrierAt {
    pub x: Vec3,
    pub y: Vec3,
}

#[tactic(auto, unfolding(crate::specs::Rows::carrier_at))]
fn carrier_at(e: End, q: Pose) -> CarrierAt
    ensures { spec.carrier_of result ≡ spec.carrier_at (end_of e) (pose q) }
{
    let f = e.prim.joint_frame(e.mirrored);
    CarrierAt {
        x: q.r.apply(f.x),
        y: q.r.apply(f.y),
    }
}

// How far a wheel is turned in its carrier.
#[tactic(auto, unfolding(crate::specs::Rows::wheel_turn))]
fn wheel_turn(w: JointAt, c: CarrierAt) -> f64
    ensures { result ≡ spec.wheel_turn (spec.joint_of w) (spec.carrier_of c) }
{
    arcs::arc::arctangent(w.x.dot(c.y), w.x.dot(c.x))
}

// The teeth of each wheel times its turn, added, less the angle; the whole difference is wrapped.
#[tactic(auto, unfolding(crate::specs::Rows::gear_row))]
fn gear_row(na: u16, nb: u16, want: f64, ta: f64, tb: f64) -> f64
    ensures { result ≡ spec.gear_row na nb want ta tb }
{
    let a = numbers::of_u16(na);
    let b = numbers::of_u16(nb);
    wrap(a * ta + b * tb - want)
}

// A wheel a of na teeth and a wheel b of nb.
#[tactic(auto, unfolding(crate::specs::Rows::gear_rows))]
fn gear(na: u16, nb: u16, want: f64, a: JointAt, b: JointAt, c: CarrierAt) -> Rows
    ensures { result ≡ spec.pack (spec.gear_rows na nb want (spec.joint_of a) (spec.joint_of b) (spec.carrier_of c)) }
{
    let ta = wheel_turn(a, c);
    let tb = wheel_turn(b, c);
    Rows::one(gear_row(na, nb, want, ta, tb))
}

// The rows of one relation, its ends at the poses qa and qb, the third end, symmetry's plane or a gear's carrier, at qs.
#[tactic(auto, unfolding(crate::specs::Rows::residual, crate::specs::Rows::formula_rows, crate::specs::Rows::mate_rows))]
pub fn residual(rel: Rel, qa: Pose, qb: Pose, qs: Pose) -> Rows
    ensures { result ≡ spec.pack (spec.residual (law_of rel.law) (end_of rel.a) (end_of rel.b) (pose qa) (pose qb) (pose qs)) }
{
    let Rel { law, a, b } = rel;
    let pa = a.placed(qa);
    let pb = b.placed(qb);
    match law {
        Law::Mate { offset } => mate(offset, Pair::of(mate_prim(pa), mate_prim(pb))),
        Law::Flush { offset } => flush(offset, pa, pb),
        Law::Angle {
            angle: want,
            reference,
        } => angle(want, qa.r.apply(reference), pa.direction(), pb.direction()),
        Law::Insert { offset, aligned } => insert(offset, aligned, pa, pb),
        Law::Tangent { offset, inside } => tangent(a.radius, b.radius, offset, inside, pa, pb),
        Law::Symmetry { plane } => symmetry(plane.placed(qs), mate_prim(pa), mate_prim(pb)),
        Law::Joint {
            joint: kind,
            flip,
            offset,
            angle: want,
        } => joint(kind, flip, offset, want, joint_at(a, qa), joint_at(b, qb)),
        Law::Gear {
            teeth_a,
            teeth_b,
            angle: want,
            carrier,
        } => {
            let ja = joint_at(a, qa);
            let jb = joint_at(b, qb);
            gear(teeth_a, teeth_b, want, ja, jb, carrier_at(carrier, qs))
        }
    }
}
