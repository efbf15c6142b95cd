// Replays the Rust's answers of `sym_eigen`, on lent memory and by value, and of `span_basis`, one list after another, and prints how many answers each list holds and how many of them differ here.
// All bits are compared; all NaNs are the same. data/ has the lists, whose formats oracle/FORMATS.md gives.

#![tactic(auto)]

mod by_value;

ghost use Rattle.std.specs.Prelude.{◌*◌, ◌≤◌, ◌<◌, length};

use by_value::{eigen_record, span_record};
use eigen::eigen::sym_eigen;
use lists::answers::same;
use lists::list;
use lists::list::{replay, word};
use std::io;
use std::io::Read;

fn same_column(file: &mut impl Read, v: &[f64], n: usize, i: usize) -> bool
    requires n_in_bounds { n * n ≤ length v.now }
    requires i_lt_n { i < n }
{
    let mut ok = true;
    for k in 0..n {
        ok &= same(v[k * n + i], word(file));
    }
    ok
}

fn same_vectors(file: &mut impl Read, v: &[f64], n: usize) -> bool
    requires { n * n ≤ length v.now }
{
    let mut ok = true;
    for i in 0..n {
        ok &= same_column(file, v, n, i);
    }
    ok
}

// Whether the next record has the answer that is found here.
fn record(file: &mut impl Read) -> bool {
    let n = word(file) as usize;
    if n > 18 {
        return false;
    }
    let k = n * n;
    let mut m = [0.0; 324];
    let mut v = [0.0; 324];
    let mut vals = [0.0; 18];
    list::read(file, &mut m[..k]);
    sym_eigen(&mut m[..k], &mut v[..k], &mut vals[..n], n);
    let values = list::holds(file, &vals[..n]);
    let vectors = same_vectors(file, &v, n);
    values && vectors
}

fn main(rt: HostRuntime) -> io::Result<()> {
    replay(&rt, "sym_eigen3.bin", record)?;
    replay(&rt, "sym_eigen_any.bin", record)?;
    replay(&rt, "sym_eigen3.bin", eigen_record)?;
    replay(&rt, "sym_eigen6.bin", eigen_record)?;
    replay(&rt, "span_basis.bin", span_record)
}
