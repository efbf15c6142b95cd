// `body_dof` of solve.rs from its six-by-six matrix on: the motions that nothing resists, split into slides and turns. `specs/BodyFreedom.antt` has the definitions.

ghost use Rattle.std.specs.Prelude.{◌≡◌, cond, [], ◌∷◌, ◌++◌, map, ◌+◌, ◌<◌, ◌≤◌, length, take};
ghost use Rattle.numbers.specs.Double.{zero64, before};
ghost use Rattle.vectors.specs.Vec.{vec, normalized};
ghost use Rattle.spans.specs.Basis.{first, basis, basis_of};
ghost use Rattle.spans.specs.Flat.{flat};
ghost use Rattle.scene.specs.Scene.{Put, vec_doubles};
ghost use Rattle.scene.specs.Solve.{three};
ghost use Rattle.body_freedom.specs.Dof as dof;
ghost use Rattle.body_freedom.specs.Layout.{count_double, freedom_doubles};
ghost use Rattle.body_freedom.specs.BodyFreedom as spec;

use scene::scene::put_vec;
use spans::eigen6::{Eigen6, sym_eigen};
use spans::span::{Basis, span_basis};
use vectors::vec::Vec3;
use vectors::{root, tol};

// The first `count` pairs: those whose vectors are free motions.
#[derive(Clone, Copy)]
struct Free {
    count: usize,
    pairs: [Eigen6; 6],
    ghost within: { count ≤ 6 },
}

// Slides, and turns: axes with a point of each. Unused vectors are zero.
#[derive(Clone, Copy)]
pub struct Freedom {
    pub slides: Basis,
    pub axes: Basis,
    pub points: [Vec3; 3],
}

// The greatest eigenvalue, at least 0.
fn largest_value(e: [Eigen6; 6]) -> f64
    ensures { result ≡ dof.largest_value zero64 (spec.eigens_of 6 e) }
{
    e.iter().fold(0.0, |m, p| numbers::max(m, p.value))
}

// How hard the stiffest motion is resisted.
fn top(e: [Eigen6; 6]) -> f64
    ensures { result ≡ dof.top (spec.eigens_of 6 e) }
{
    root::sqrt(largest_value(e))
}

// Whether a motion of eigenvalue v is resisted by next to nothing of `most`.
#[tactic(auto, unfolding(crate::specs::Dof::is_free))]
fn is_free(most: f64, v: f64) -> bool
    ensures { result ≡ dof.is_free most v }
{
    most <= 0.0 || root::sqrt(numbers::max(v, 0.0)) <= tol::DOF_REL * most
}

// The three entries of a motion from o on.
fn part_at(e: [f64; 6], o: usize) -> Vec3
    requires { o ≤ 3 }
    ensures { vec result ≡ three e o }
{
    Vec3 {
        x: e[o],
        y: e[o + 1],
        z: e[o + 2],
    }
}

// The sliding part of a motion.
fn slide_part(e: [f64; 6]) -> Vec3
    ensures { vec result ≡ dof.slide_part e }
{
    part_at(e, 0)
}

// The turning part of a motion.
fn turn_part(e: [f64; 6]) -> Vec3
    ensures { vec result ≡ dof.turn_part e }
{
    part_at(e, 3)
}

// How much a motion turns about an axis.
fn about_axis(axis: Vec3, e: [f64; 6]) -> f64
    ensures { result ≡ dof.about_axis (vec axis) e }
{
    numbers::abs(turn_part(e).dot(axis))
}

// Of two motions the one that turns more about an axis, the second of equals.
fn turning_more(axis: Vec3, best: [f64; 6], e: [f64; 6]) -> [f64; 6]
    ensures { result ≡ cond (before (dof.about_axis (vec axis) e) (dof.about_axis (vec axis) best)) best e }
{
    if numbers::before(about_axis(axis, e), about_axis(axis, best)) {
        best
    } else {
        e
    }
}

// The motion that turns most about an axis, `first` or one of the others; the last of equals.
fn most_about(axis: Vec3, first: [f64; 6], others: &[Eigen6]) -> [f64; 6]
    ensures { result ≡ dof.most_about (vec axis) first (map spec.motion_of others.now) }
{
    let mut best = first;
    for p in others {
        let b = turning_more(axis, best, p.vector);
        best = b;
    }
    best
}

// A point of the line that a motion turns about; the centre where it does not turn.
fn turn_point(center: Vec3, l: f64, e: [f64; 6]) -> Vec3
    ensures { vec result ≡ dof.turn_point (vec center) l e }
{
    let w = turn_part(e) * (1.0 / l);
    let w2 = w.dot(w);
    if 0.0 < w2 {
        center + w.cross(slide_part(e)) * (1.0 / w2)
    } else {
        center
    }
}

// Whether v is no direction of `slides`: below 0.99 along each.
fn apart(v: Vec3, slides: Basis) -> bool
    requires { slides.count ≤ 3 }
    ensures { result ≡ dof.apart (vec v) (basis slides) }
{
    let d = v.normalized();
    slides.vectors[..slides.count]
        .iter()
        .all(|&u| numbers::abs(d.dot(u)) < 0.99)
}

// Whether v is a slide of its own.
fn is_extra(slides: Basis, v: Vec3) -> bool
    requires { slides.count ≤ 3 }
    ensures { result ≡ spec.is_extra (basis slides) (vec v) }
{
    apart(v, slides) && 1e-9 < v.len()
}

fn push_slide(slides: Basis, v: Vec3) -> Basis
    requires { (slides ≡ basis_of (basis slides)) × (slides.count < 3) }
    ensures { result ≡ basis_of (basis slides ++ (normalized (vec v) ∷ [])) }
{
    let count = slides.count;
    let mut vectors = slides.vectors;
    vectors[count] = v.normalized();
    Basis {
        count: count + 1,
        vectors,
    }
}

impl Free {
    ghost use Rattle.body_freedom.specs.Motions.{motions};

    // No motion; what the array holds is open.
    fn none(pairs: [Eigen6; 6]) -> Free
        ensures { result.count ≡ 0 }
    {
        Free { count: 0, pairs }
    }

    // The free motions among the first n pairs.
    fn of(e: [Eigen6; 6], n: usize, most: f64) -> Free
        requires { n ≤ 6 }
        ensures { motions result ≡ dof.free_of most (spec.eigens_of n e) }
    {
        let mut f = Free::none(e);
        for &p in &e[..n] {
            f = f.with(p, most);
        }
        f
    }

    // The pair joins if its motion is free.
    fn with(mut self, p: Eigen6, most: f64) -> Free
        requires { self.count < 6 }
        ensures few { result.count ≤ self.count + 1 }
        ensures joined { motions result ≡ cond (dof.is_free most p.value) (motions self ++ (p.vector ∷ [])) (motions self) }
    {
        if is_free(most, p.value) {
            self.pairs[self.count] = p;
            self.count += 1;
        }
        self
    }

    // The pairs of the free motions.
    fn free_pairs(&self) -> &[Eigen6]
        ensures { result.now ≡ take self.now.count self.now.pairs }
    {
        &self.pairs[..self.count]
    }

    // The parts of the free motions from their entry o on: the sliding parts from 0, the turning parts from 3.
    fn parts_at(self, o: usize) -> [Vec3; 6]
        requires { o ≤ 3 }
        ensures { first self.count result ≡ map (λ e. three e o) (motions self) }
    {
        let mut parts = [Vec3::ZERO; 6];
        for (i, p) in self.free_pairs().iter().enumerate() {
            parts[i] = part_at(p.vector, o);
        }
        parts
    }

    // A point of the turn about an axis, on the line of the motion that turns most about it; the centre where there is no motion.
    fn point_about(self, axis: Vec3, center: Vec3, l: f64) -> Vec3
        ensures { vec result ≡ spec.point_about (vec center) l (motions self) (vec axis) }
    {
        match self.free_pairs() {
            [] => center,
            [p, others @ ..] => turn_point(center, l, most_about(axis, p.vector, others)),
        }
    }

    // A point of the turn about each axis.
    fn points_of(self, axes: Basis, center: Vec3, l: f64) -> [Vec3; 3]
        requires { axes.count ≤ 3 }
        ensures { result ≡ spec.three_of (map (spec.point_about (vec center) l (motions self)) (basis axes)) }
    {
        let mut points = [Vec3::ZERO; 3];
        for (i, &axis) in axes.vectors[..axes.count].iter().enumerate() {
            points[i] = self.point_about(axis, center, l);
        }
        points
    }

    // The slides with the first motion's that is one of its own.
    fn with_extra(self, slides: Basis) -> Basis
        requires { (slides ≡ basis_of (basis slides)) × (slides.count < 3) }
        ensures { result ≡ basis_of (dof.join_slide (basis slides) (dof.extra_slide (basis slides) (motions self))) }
    {
        for p in self.free_pairs() {
            let v = slide_part(p.vector);
            if is_extra(slides, v) {
                return push_slide(slides, v);
            }
        }
        slides
    }

    // Motions that neither slide purely nor turn are screw-like: they count as slides, up to three.
    fn fill_slides(self, slides: Basis, turns: usize) -> Basis
        requires { (slides ≡ basis_of (basis slides)) × (turns ≤ 3) }
        ensures { result ≡ basis_of (dof.fill_slides (motions self) turns 3 (basis slides)) }
    {
        let mut out = slides;
        for k in 0usize..3 {
            if self.count <= out.count + turns || 3 <= out.count {
                return out;
            }
            out = self.with_extra(out);
        }
        out
    }
}

// What a body may do, from the square `a` of the slopes along its six unknowns, the turning ones scaled by l.
pub fn body_dof(a: [[f64; 6]; 6], center: Vec3, l: f64) -> Freedom
    ensures { result ≡ spec.freedom_struct (spec.from_square (flat 6 a) (vec center) l) }
{
    let pairs = sym_eigen(a, 6);
    let most = top(pairs);
    let free = Free::of(pairs, 6, most);
    let axes = span_basis(free.parts_at(3), free.count, 1e-6);
    let pure = Free::of(sym_eigen(a, 3), 3, most);
    let straight = span_basis(pure.parts_at(0), pure.count, 1e-6);
    let slides = free.fill_slides(straight, axes.count);
    let points = free.points_of(axes, center, l);
    Freedom {
        slides,
        axes,
        points,
    }
}

fn put_three(s: &mut [f64], o: usize, vs: [Vec3; 3])
    requires { o + 9 ≤ length s.old }
    ensures { Put s.old s.new o 9 (spec.three_doubles vs) }
{
    let [a, b, c] = vs;
    put_vec(s, o, a);
    put_vec(s, o + 3, b);
    put_vec(s, o + 6, c);
}

fn put_turn(s: &mut [f64], o: usize, axis: Vec3, point: Vec3)
    requires { o + 6 ≤ length s.old }
    ensures { Put s.old s.new o 6 (vec_doubles (vec axis) ++ vec_doubles (vec point)) }
{
    put_vec(s, o, axis);
    put_vec(s, o + 3, point);
}

fn put_turns(s: &mut [f64], o: usize, axes: [Vec3; 3], points: [Vec3; 3])
    requires { o + 18 ≤ length s.old }
    ensures { Put s.old s.new o 18 (spec.turn_doubles axes points) }
{
    let [a, b, c] = axes;
    let [p, q, r] = points;
    put_turn(s, o, a, p);
    put_turn(s, o + 6, b, q);
    put_turn(s, o + 12, c, r);
}

// A count, at most three, as a double.
#[tactic(auto, using(crate::proofs::BodyLaws::count_many), unfolding(crate::specs::Layout::count_double))]
fn count_double(n: usize) -> f64
    ensures { result ≡ count_double n }
{
    match n {
        0 => 0.0,
        1 => 1.0,
        2 => 2.0,
        _ => 3.0,
    }
}

fn put_counts(s: &mut [f64], o: usize, slides: usize, turns: usize)
    requires { o + 2 ≤ length s.old }
    ensures { Put s.old s.new o 2 (count_double slides ∷ count_double turns ∷ []) }
{
    s[o] = count_double(slides);
    s[o + 1] = count_double(turns);
}

// The 29 doubles of a body's freedom as its arrays hold it, to place o.
pub fn put_freedom(s: &mut [f64], o: usize, f: Freedom)
    requires { o + 29 ≤ length s.old }
    ensures { Put s.old s.new o 29 (spec.struct_doubles f) }
{
    put_counts(s, o, f.slides.count, f.axes.count);
    put_three(s, o + 2, f.slides.vectors);
    put_turns(s, o + 11, f.axes.vectors, f.points);
}

// The 29 doubles of a fixed body: it may do nothing.
pub fn put_none(s: &mut [f64], o: usize)
    requires { o + 29 ≤ length s.old }
    ensures { Put s.old s.new o 29 (freedom_doubles (record { slides = []; turns = [] })) }
{
    let none = Basis {
        count: 0,
        vectors: [Vec3::ZERO; 3],
    };
    put_freedom(
        s,
        o,
        Freedom {
            slides: none,
            axes: none,
            points: [Vec3::ZERO; 3],
        },
    );
}
