// The scene: unknowns, poses, rows and weights of solve.rs, over parts of the lent scratch. Bodies and relations are read in place from a sheet's bytes.
// `specs/Scene.antt` has the definitions.

ghost use Rattle.std.specs.Prelude.{◌≡◌, List, map, ◌+◌, ◌*◌, ◌-◌, ◌≤◌, ◌<◌, length, set, Float};
ghost use Rattle.std.specs.Option.{ForSome};
ghost use Rattle.numbers.specs.Double.{zero64};
ghost use Rattle.vectors.specs.Vec.{vec};
ghost use Rattle.relations.specs.Geometry as geometry;
ghost use Rattle.relations.specs.Model.{body_number, body_of, law_of, rel_of, pose};
ghost use Rattle.least_squares.specs.Memory.{part};
ghost use Rattle.least_squares.specs.Lm as lm;
ghost use Rattle.records.specs.Record as format;
ghost use Rattle.relations.specs.Rows as rows_spec;
ghost use Rattle.scene.specs.Solve as solve;
ghost use Rattle.scene.specs.Scene as spec;

use judging::count::row_count;
use records::record;
use relations::model::{Body, Law, Pose, Rel};
use relations::rows::{Rows, residual};
use vectors::math::M3;
use vectors::vec::Vec3;

// Counts of bodies, relations, unknowns and rows; the places of the first body and the first relation in the sheet; each body's first unknown.
#[derive(Clone, Copy)]
pub struct Scene {
    pub m: usize,
    pub k: usize,
    pub n: usize,
    pub rows: usize,
    pub bodies: usize,
    pub rels: usize,
    pub index: [Option<u16>; 64],
}

// A sheet's bytes with the scene that they hold. A scene has at most 7 rows for each of 128 relations and 6 unknowns for each of 64 bodies.
#[derive(Clone, Copy)]
pub struct Sheet<'a> {
    pub bytes: &'a [u8],
    pub scene: Scene,
    pub ghost laid: { spec.Laid bytes.now scene },
    pub ghost small: { (scene.rows ≤ 896) × (scene.n ≤ 384) },
}

impl Sheet<'_> {
    // Body i.
    pub fn body(self, i: usize) -> Body
        requires { i < self.scene.m }
        ensures { body_of result ≡ format.body_at self.entry.bytes.now (self.entry.scene.bodies + 136 * i) }
    {
        record::body_at(self.bytes, self.scene.bodies + 136 * i)
    }

    // Relation j.
    pub fn relation(self, j: usize) -> Rel
        requires { j < self.scene.k }
        ensures { rel_of result ≡ format.rel_at self.entry.bytes.now (self.entry.scene.rels + 264 * j) }
    {
        record::rel_at(self.bytes, self.scene.rels + 264 * j)
    }
}

fn vec_in(s: &[f64], o: usize) -> Vec3
    requires { o + 3 ≤ length s.now }
    ensures { vec result ≡ solve.three s.now o }
{
    Vec3 {
        x: s[o],
        y: s[o + 1],
        z: s[o + 2],
    }
}

pub fn put_vec(s: &mut [f64], o: usize, v: Vec3)
    requires { o + 3 ≤ length s.old }
    ensures { spec.Put s.old s.new o 3 (spec.vec_doubles (vec v)) }
{
    s[o] = v.x;
    s[o + 1] = v.y;
    s[o + 2] = v.z;
}

// Four vectors, one after the other.
pub fn put_four(s: &mut [f64], o: usize, a: Vec3, b: Vec3, c: Vec3, d: Vec3)
    requires { o + 12 ≤ length s.old }
    ensures { spec.Put s.old s.new o 12 (spec.four_doubles (vec a) (vec b) (vec c) (vec d)) }
{
    put_vec(s, o, a);
    put_vec(s, o + 3, b);
    put_vec(s, o + 6, c);
    put_vec(s, o + 9, d);
}

// The pose that twelve doubles are.
pub fn pose_at(s: &[f64], o: usize) -> Pose
    requires { o + 12 ≤ length s.now }
    ensures { pose result ≡ spec.pose_in s.now o }
{
    Pose {
        r: M3 {
            r0: vec_in(s, o),
            r1: vec_in(s, o + 3),
            r2: vec_in(s, o + 6),
        },
        t: vec_in(s, o + 9),
    }
}

pub fn put_pose(s: &mut [f64], o: usize, q: Pose)
    requires { o + 12 ≤ length s.old }
    ensures { spec.Put s.old s.new o 12 (spec.pose_doubles (pose q)) }
{
    put_four(s, o, q.r.r0, q.r.r1, q.r.r2, q.t);
}

// k zeros from o on.
pub fn clear(s: &mut [f64], o: usize, k: usize)
    requires { o + k ≤ length s.old }
    ensures { spec.Put s.old s.new o k (lm.list_of (λ i. zero64) k) }
{
    s[o..o + k].fill(0.0);
}

// Turned by w about the body's centre, then moved by t.
#[tactic(auto, unfolding(crate::specs::Solve::moved_pose))]
pub fn moved_pose(b: Body, t: Vec3, w: Vec3) -> Pose
    ensures { pose result ≡ solve.moved_pose (body_of b) (vec t) (vec w) }
{
    let base = Pose::of(b.frame);
    let rw = M3::exp(w);
    Pose {
        r: rw.mul(base.r),
        t: b.center + rw.apply(base.t - b.center) + t,
    }
}

// A body's pose at the n unknowns from x on; `first` is the body's entry of the index.
fn body_pose(s: &[f64], x: usize, n: usize, b: Body, first: Option<u16>) -> Pose
    requires n_in_bounds { x + n ≤ length s.now }
    requires first_bound { ForSome first (λ k. k + 6 ≤ n) }
    ensures { pose result ≡ solve.pose_at (part s.now x n) (body_of b) (spec.first_unknown first) }
{
    let Some(first) = first else {
        return Pose::of(b.frame);
    };
    let k = first as usize;
    moved_pose(b, vec_in(s, x + k), vec_in(s, x + k + 3))
}

impl Sheet<'_> {
    ghost use Rattle.scene.specs.Sheet.{sheet_scene};

    // Body i's pose, to place o.
    pub fn put_body(self, s: &mut [f64], x: usize, o: usize, i: usize)
        requires i_lt_m { i < self.scene.m }
        requires n_in_bounds { x + self.scene.n ≤ length s.old }
        requires o_in_bounds { o + 12 ≤ length s.old }
        ensures { spec.Put s.old s.new o 12 (spec.pose_doubles (spec.body_pose self.entry.bytes.now self.entry.scene (part s.old x self.entry.scene.n) i)) }
    {
        let b = self.body(i);
        let q = body_pose(s, x, self.scene.n, b, self.scene.index[i]);
        put_pose(s, o, q);
    }

    // The poses of all bodies at the unknowns from x on, to place p.
    pub fn poses_at(self, s: &mut [f64], x: usize, p: usize)
        requires n_bound { x + self.scene.n ≤ p }
        requires m_in_bounds { p + 12 * self.scene.m ≤ length s.old }
        ensures { spec.Put s.old s.new p (12 * self.entry.scene.m) (spec.poses_doubles (solve.poses_at (sheet_scene self.entry) (part s.old x self.entry.scene.n))) }
    {
        let m = self.scene.m;
        for i in 0..m {
            self.put_body(s, x, p + 12 * i, i);
        }
    }
}

// The pose of an end's body, the poses of m bodies standing from p on, where body i has the pose w; the ground's for an end that names none.
#[tactic(auto, using(crate::proofs::SceneLaws::end_here, crate::proofs::SceneLaws::end_there, crate::proofs::SceneLaws::end_past))]
fn end_pose(s: &[f64], p: usize, m: usize, body: Option<usize>, i: usize, w: Pose) -> Pose
    requires { p + 12 * m ≤ length s.now }
    ensures { pose result ≡ solve.end_pose (set (spec.poses_in s.now p m) i (pose w)) (body_number body) }
{
    match body {
        Some(k) if k < m => { if k == i { w } else { pose_at(s, p + 12 * k) } }
        _ => Pose::GROUND,
    }
}

// What the third end belongs to, symmetry's plane or a gear's carrier.
#[tactic(auto, unfolding(crate::specs::Solve::third_body))]
fn third_body(law: Law) -> Option<usize>
    ensures { body_number result ≡ solve.third_body (law_of law) }
{
    match law {
        Law::Symmetry { plane } => plane.body,
        Law::Gear { carrier, .. } => carrier.body,
        _ => None,
    }
}

// The rows of a relation, the poses of m bodies standing from p on, where body i has the pose w.
pub fn rel_rows_moved(s: &[f64], p: usize, m: usize, rel: Rel, i: usize, w: Pose) -> Rows
    requires { p + 12 * m ≤ length s.now }
    ensures { result ≡ rows_spec.pack (solve.rows_at (set (spec.poses_in s.now p m) i (pose w)) (rel_of rel)) }
{
    let qa = end_pose(s, p, m, rel.a.body, i, w);
    let qb = end_pose(s, p, m, rel.b.body, i, w);
    let qs = end_pose(s, p, m, third_body(rel.law), i, w);
    residual(rel, qa, qb, qs)
}

// The rows of a relation, the poses of m bodies standing from p on: no body has the number m.
pub fn rel_rows(s: &[f64], p: usize, m: usize, rel: Rel) -> Rows
    requires { p + 12 * m ≤ length s.now }
    ensures { result ≡ rows_spec.pack (solve.rows_at (spec.poses_in s.now p m) (rel_of rel)) }
{
    rel_rows_moved(s, p, m, rel, m, Pose::GROUND)
}

// The rows to the places from `at` on; the place behind them.
pub fn put_rows(s: &mut [f64], at: usize, rows: Rows) -> usize
    requires n_bound { rows.n ≤ 7 }
    requires n_in_bounds { at + rows.n ≤ length s.old }
    ensures { spec.PutNext s.old s.new at result rows.n (rows_spec.rows_of rows) }
{
    let end = at + rows.n;
    s[at..end].copy_from_slice(&rows.values[..rows.n]);
    end
}

impl Sheet<'_> {
    ghost use Rattle.scene.specs.Sheet.{sheet_scene};

    // The rows of relation j to the places from `at` on; the place behind them.
    fn put_relation(self, s: &mut [f64], p: usize, at: usize, j: usize) -> usize
        requires j_lt_k { j < self.scene.k }
        requires j_bound { at + length (spec.rel_rows self.bytes.now self.scene (spec.poses_in s.old p self.scene.m) j) ≤ p }
        requires m_in_bounds { p + 12 * self.scene.m ≤ length s.old }
        ensures { spec.PutNext s.old s.new at result (length (spec.rel_rows self.entry.bytes.now self.entry.scene (spec.poses_in s.old p self.entry.scene.m) j)) (spec.rel_rows self.entry.bytes.now self.entry.scene (spec.poses_in s.old p self.entry.scene.m) j) }
    {
        let m = self.scene.m;
        let rel = self.relation(j);
        let rows = rel_rows(s, p, m, rel);
        put_rows(s, at, rows)
    }

    // The rows of all relations, from the poses at p, to the places from r on.
    pub fn residuals(self, s: &mut [f64], p: usize, r: usize)
        requires rows_bound { r + self.scene.rows ≤ p }
        requires m_in_bounds { p + 12 * self.scene.m ≤ length s.old }
        ensures { spec.Put s.old s.new r self.entry.scene.rows (solve.all_rows (spec.poses_in s.old p self.entry.scene.m) (sheet_scene self.entry).rels) }
    {
        let k = self.scene.k;
        let mut at = r;
        for j in 0..k {
            at = self.put_relation(s, p, at, j);
        }
    }

    // The rows at the unknowns from x on, to the places from r on. The places from p on are scratch for the poses; what they hold at exit is open.
    pub fn rows_at(self, s: &mut [f64], x: usize, r: usize, p: usize)
        requires n_bound { x + self.scene.n ≤ r }
        requires rows_bound { r + self.scene.rows ≤ p }
        requires m_in_bounds { p + 12 * self.scene.m ≤ length s.old }
        ensures { spec.RowsAt (sheet_scene self.entry) s.old s.new x self.entry.scene.n r self.entry.scene.rows p }
    {
        self.poses_at(s, x, p);
        self.residuals(s, p, r);
    }
}

fn inverse_weight(w: f64) -> f64
    ensures { result ≡ lm.inverse_weight w }
{
    1.0 / numbers::max(w, 1e-12)
}

// Half the size, at least 1.
#[tactic(auto, unfolding(crate::specs::Solve::half_size))]
pub fn half_size(size: f64) -> f64
    ensures { result ≡ solve.half_size size }
{
    numbers::max(size * 0.5, 1.0)
}

// The drag weight for the dragged body.
#[tactic(auto, unfolding(crate::specs::Solve::drag_factor))]
fn drag_factor(weight: f64, drag: Option<usize>, i: usize) -> f64
    ensures { result ≡ solve.drag_factor weight (body_number drag) i }
{
    if drag == Some(i) { weight } else { 1.0 }
}

// The six inverse weights of a body that moves.
fn put_six(s: &mut [f64], o: usize, scale: f64, half: f64)
    requires { o + 6 ≤ length s.old }
    ensures { spec.Put s.old s.new o 6 (map lm.inverse_weight (solve.body_weights scale half)) }
{
    let slide = inverse_weight(scale * 1.0);
    let turn = inverse_weight(scale * (half * half));
    put_vec(
        s,
        o,
        Vec3 {
            x: slide,
            y: slide,
            z: slide,
        },
    );
    put_vec(
        s,
        o + 3,
        Vec3 {
            x: turn,
            y: turn,
            z: turn,
        },
    );
}

impl Sheet<'_> {
    ghost use Rattle.scene.specs.Sheet.{sheet_scene};

    // The inverse weights of body i to the places from `at` on; the place behind them.
    fn put_weights(
        self,
        s: &mut [f64],
        at: usize,
        weight: f64,
        drag: Option<usize>,
        i: usize,
    ) -> usize
        requires i_lt_m { i < self.scene.m }
        requires i_in_bounds { at + length (spec.inverse_at self.bytes.now self.scene weight (body_number drag) i) ≤ length s.old }
        ensures { spec.PutNext s.old s.new at result (length (spec.inverse_at self.entry.bytes.now self.entry.scene weight (body_number drag) i)) (spec.inverse_at self.entry.bytes.now self.entry.scene weight (body_number drag) i) }
    {
        let first = self.scene.index[i];
        let Some(_k) = first else {
            return at;
        };
        let b = self.body(i);
        put_six(s, at, drag_factor(weight, drag, i), half_size(b.size));
        at + 6
    }

    // 1 over each unknown's weight, to the places from w on; `weight` is the drag weight, `drag` the dragged body.
    pub fn inverse_weights(self, s: &mut [f64], w: usize, weight: f64, drag: Option<usize>)
        requires n_in_bounds { w + self.scene.n ≤ length s.old }
        ensures { spec.Put s.old s.new w self.entry.scene.n (map lm.inverse_weight (solve.weights (sheet_scene self.entry) weight (body_number drag))) }
    {
        let m = self.scene.m;
        let mut at = w;
        for i in 0..m {
            at = self.put_weights(s, at, weight, drag, i);
        }
    }
}

// Whether an end belongs to body i.
fn is_body(body: Option<usize>, i: usize) -> bool
    ensures { result ≡ solve.is_body (body_number body) i }
{
    body == Some(i)
}

// Whether an end that the relation uses belongs to body i.
#[tactic(auto, unfolding(crate::specs::Solve::names))]
pub fn names(rel: Rel, i: usize) -> bool
    ensures { result ≡ solve.names (rel_of rel) i }
{
    is_body(rel.a.body, i) || is_body(rel.b.body, i) || is_body(third_body(rel.law), i)
}

fn named(sheet: &[u8], rels: usize, k: usize, i: usize) -> bool
    requires { rels + 264 * k ≤ length sheet.now }
    ensures { result ≡ solve.named (spec.rels_in sheet.now rels k) i }
{
    for j in 0..k {
        let rel = record::rel_at(sheet, rels + 264 * j);
        if names(rel, i) {
            return true;
        }
    }
    false
}

// Whether body i, which stands at o, has unknowns.
#[tactic(auto, unfolding(crate::specs::Solve::moves))]
fn moves(sheet: &[u8], o: usize, rels: usize, k: usize, i: usize) -> bool
    requires o_in_bounds { o + 136 ≤ length sheet.now }
    requires k_in_bounds { rels + 264 * k ≤ length sheet.now }
    ensures { result ≡ solve.moves (spec.rels_in sheet.now rels k) i (format.body_at sheet.now o) }
{
    let b = record::body_at(sheet, o);
    if b.fixed {
        return false;
    }
    named(sheet, rels, k, i)
}

// The number of unknowns so far, and each body's first.
#[derive(Clone, Copy)]
pub struct Unknowns {
    pub n: usize,
    pub index: [Option<u16>; 64],
}

// Body i placed behind the unknowns so far, where it moves.
fn place_body(l: Unknowns, i: usize, moving: bool) -> Unknowns
    requires i_bound { i < 64 }
    requires n_bound { l.n ≤ 6 * i }
    ensures { result ≡ spec.place_body l i moving }
{
    if moving {
        let n = l.n;
        let mut index = l.index;
        index[i] = Some(n as u16);
        return Unknowns { n: n + 6, index };
    }
    l
}

// `layout`: six unknowns to each body that moves, in the bodies' order.
fn layout(sheet: &[u8], bodies: usize, m: usize, rels: usize, k: usize) -> Unknowns
    requires m_bound { m ≤ 64 }
    requires m_in_bounds { bodies + 136 * m ≤ length sheet.now }
    requires k_in_bounds { rels + 264 * k ≤ length sheet.now }
    ensures { spec.LaidOut sheet.now bodies m rels k result }
{
    let index = [None; 64];
    let mut l = Unknowns { n: 0, index };
    for i in 0..m {
        let moving = moves(sheet, bodies + 136 * i, rels, k, i);
        let next = place_body(l, i, moving);
        l = next;
    }
    l
}

// The number of rows of all relations.
fn count_rows(sheet: &[u8], rels: usize, k: usize) -> usize
    requires k_bound { k ≤ 128 }
    requires k_in_bounds { rels + 264 * k ≤ length sheet.now }
    ensures { (poses : List (geometry.Pose Float)) → length (solve.all_rows poses (spec.rels_in sheet.now rels k)) ≡ result }
{
    let mut rows = 0;
    for j in 0..k {
        let rel = record::rel_at(sheet, rels + 264 * j);
        rows = rows + row_count(rel);
    }
    rows
}

// The m bodies and k relations at these places of the sheet. The entries of `index` from m on are `None`.
pub fn scene_of(sheet: &[u8], bodies: usize, m: usize, rels: usize, k: usize) -> Sheet<'_>
    requires m_bound { m ≤ 64 }
    requires k_bound { k ≤ 128 }
    requires m_in_bounds { bodies + 136 * m ≤ length sheet.now }
    requires k_in_bounds { rels + 264 * k ≤ length sheet.now }
    ensures bytes { result.bytes.now ≡ sheet.now }
    ensures made { spec.SceneMade sheet.now bodies m rels k result.scene }
{
    let l = layout(sheet, bodies, m, rels, k);
    let rows = count_rows(sheet, rels, k);
    let n = l.n;
    let index = l.index;
    let scene = Scene {
        m,
        k,
        n,
        rows,
        bodies,
        rels,
        index,
    };
    Sheet {
        bytes: sheet,
        scene,
    }
}
