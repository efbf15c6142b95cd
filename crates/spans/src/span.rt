// `span_basis` of math.rs for at most six vectors.
ghost use Rattle.std.specs.Prelude.{◌≡◌, ◌<◌, ◌≤◌, map, length};
ghost use Rattle.numbers.specs.Double.{zero64};
ghost use Rattle.vectors.specs.Vec.{vec};
ghost use Rattle.eigen.specs.Sort as sorting;
ghost use Rattle.eigen.specs.Insertion as insertion;
ghost use Rattle.spans.specs.Span as span;
ghost use Rattle.spans.specs.Basis.{first, basis, basis_of, longer3, past3};

use vectors::vec::Vec3;

// The first `count` vectors; the others are zero.
#[derive(Clone, Copy)]
pub struct Basis {
    pub count: usize,
    pub vectors: [Vec3; 3],
}

// Returns the greatest length, 0 of none.
fn longest(vs: &[Vec3]) -> f64
    ensures { result ≡ span.longest (map vec vs.now) zero64 }
{
    let mut m = 0.0;
    for v in vs {
        m = numbers::max(m, v.len());
    }
    m
}

// Moves the vector at i forward past those that it is longer than.
#[tactic(auto, unfolding(eigen::specs::Insertion::sink))]
fn sink(vs: &mut [Vec3], i: usize)
    requires { i < length vs.old }
    ensures { vs.new ≡ insertion.sink longer3 past3 vs.old i }
{
    for j in (0..i).rev() {
        if !numbers::before(vs[j].len(), vs[j + 1].len()) {
            break;
        }
        vs.swap(j + 1, j);
    }
}

// Sorts the vectors, longest first by `total_cmp`, stable.
fn sort(vs: &mut [Vec3])
    ensures { vs.new ≡ sorting.sort longer3 vs.old }
{
    for i in 0..vs.len() {
        sink(vs, i);
    }
}

// Returns v with its part along each vector of the basis taken off in turn.
fn without(v: Vec3, out: Basis) -> Vec3
    requires { out.count ≤ 3 }
    ensures { vec result ≡ span.without (vec v) (basis out) }
{
    let mut u = v;
    for &b in &out.vectors[..out.count] {
        u = u - b * u.dot(b);
    }
    u
}

// Returns the basis with the direction of v's rest, if that is longer than `least` and there is room.
fn join(mut out: Basis, v: Vec3, least: f64) -> Basis
    requires { out ≡ basis_of (basis out) }
    ensures { result ≡ basis_of (span.join least (basis out) (vec v)) }
{
    let u = without(v, out);
    if least < u.len() && out.count < 3 {
        out.vectors[out.count] = u.normalized();
        out.count += 1;
    }
    out
}

// An orthonormal basis of the span of the first k vectors, longest first; `rel` is the part of the longest that still counts.
pub fn span_basis(mut vs: [Vec3; 6], k: usize, rel: f64) -> Basis
    requires { k ≤ 6 }
    ensures { result ≡ basis_of (span.span_basis (first k vs) rel) }
{
    let rest = &mut vs[..k];
    let most = longest(rest);
    let mut out = Basis {
        count: 0,
        vectors: [Vec3::ZERO; 3],
    };
    if most <= 0.0 {
        return out;
    }
    let least = rel * most;
    sort(rest);
    for &v in rest.iter() {
        out = join(out, v, least);
    }
    out
}
