// Replays the Rust's answers of `solve_dense`, among them systems that have none, and of `max_abs`, on a lent slice and by value, one list after another, and prints how many
// answers each list holds and how many of them differ here. All bits are compared; all NaNs are the same. data/ has the lists, whose formats oracle/FORMATS.md gives.

#![tactic(auto)]

ghost use Rattle.std.specs.Prelude.{◌≡◌, ℕ, ◌+◌, ◌*◌, ◌≤◌, length};

use least_squares::dense::solve_dense;
use least_squares::lm::max_abs;
use lists::answers::same;
use lists::list;
use lists::list::{replay, word};
use relations::rows::Rows;
use std::io;
use std::io::Read;

// A system of n unknowns is the list's next, and it is solved where the list has an answer, which is then the same.
fn solved_right(file: &mut impl Read, s: &mut [f64], n: usize) -> bool
    requires { n * n + n ≡ length s.old }
{
    list::read(file, s);
    let solved = solve_dense(s, n);
    let present = word(file);
    let unknowns = list::holds(file, &s[n * n..]);
    if solved {
        present == 1 && unknowns
    } else {
        present == 0
    }
}

fn dense(file: &mut impl Read) -> bool {
    let n = word(file) as usize;
    if n > 6 {
        return false;
    }
    let mut s = [0.0; 42];
    solved_right(file, &mut s[..n * n + n], n)
}

fn largest_lent(v: [f64; 7], n: usize) -> f64
    requires { n ≤ 7 }
{
    max_abs(&v[..n])
}

fn largest_by_value(v: [f64; 7], n: usize) -> f64 {
    Rows { n, values: v }.max_abs()
}

// The first n of seven numbers, and their largest magnitude as `most` finds it.
fn largest<F: Fn([f64; 7], usize) -> f64>(file: &mut impl Read, most: F) -> bool
    requires { (v : _) (n : ℕ) → n ≤ 7 → F.pre most v n }
{
    let n = word(file) as usize;
    let mut v = [0.0; 7];
    list::read(file, &mut v);
    n <= 7 && same(most(v, n), word(file))
}

fn main(rt: HostRuntime) -> io::Result<()> {
    replay(&rt, "solve_dense.bin", dense)?;
    replay(&rt, "max_abs.bin", |file| largest(file, largest_lent))?;
    replay(&rt, "max_abs.bin", |file| largest(file, largest_by_value))
}
