// Records of `sym_eigen` on the six-by-six by value, and of `span_basis`. No contract says what a file holds, so whether a record has the answer that is found here
// is open.
ghost use Rattle.std.specs.Prelude.{◌≤◌, length};

use lists::answers::same;
use lists::list;
use lists::list::word;
use lists::vector::{same_vector, vector};
use spans::eigen6::{Eigen6, sym_eigen};
use spans::span::span_basis;
use std::array;
use std::io::Read;

fn row(file: &mut impl Read, n: usize) -> [f64; 6]
    requires { n ≤ 6 }
{
    let mut r = [0.0; 6];
    list::read(file, &mut r[..n]);
    r
}

fn matrix(file: &mut impl Read, n: usize) -> [[f64; 6]; 6]
    requires { n ≤ 6 }
{
    let mut m = [[0.0; 6]; 6];
    for r in &mut m[..n] {
        *r = row(file, n);
    }
    m
}

fn same_values(file: &mut impl Read, e: &[Eigen6]) -> bool {
    let mut ok = true;
    for p in e {
        ok &= same(p.value, word(file));
    }
    ok
}

fn same_vectors(file: &mut impl Read, e: &[Eigen6]) -> bool
    requires { length e.now ≤ 6 }
{
    let mut ok = true;
    for p in e {
        ok &= list::holds(file, &p.vector[..e.len()]);
    }
    ok
}

// Whether the next record of eigenvalues has the answer that is found here.
pub fn eigen_record(file: &mut impl Read) -> bool {
    let n = word(file) as usize;
    if n > 6 {
        return false;
    }
    let m = matrix(file, n);
    let e = sym_eigen(m, n);
    let values = same_values(file, &e[..n]);
    let vectors = same_vectors(file, &e[..n]);
    values && vectors
}

// Whether the next record of spans has the answer that is found here.
pub fn span_record(file: &mut impl Read) -> bool {
    let k = word(file) as usize;
    if k > 6 {
        return false;
    }
    let vectors = array::from_fn(|_| vector(file));
    let span = span_basis(vectors, k, 1e-6);
    let mut ok = span.count == word(file) as usize;
    for v in span.vectors {
        ok &= same_vector(file, v);
    }
    ok
}
