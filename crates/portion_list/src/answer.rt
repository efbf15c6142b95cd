// Whether what a call gives and leaves is the list's answer. On acceptance the outputs begin with the list's next words, and the rest is as before; on refusal all
// that was lent is as before. No contract says what a file holds, so whether an answer is the list's is open.

ghost use Rattle.std.specs.Prelude.{◌≤◌};

use crate::solving::{Outputs, Values};
use lists::lent::{BEFORE, begins, count_at};
use lists::list::word;
use std::io::Read;

// Whether the whole numbers are the list's next.
fn values_right(file: &mut impl Read, v: Values) -> bool {
    let unknowns = word(file) == u64::from(v.unknowns);
    let rows = word(file) == u64::from(v.rows);
    let done = word(file) == u64::from(v.done);
    let run = word(file) == u64::from(v.run);
    let converged = word(file) == u64::from(v.converged);
    unknowns & rows & done & run & converged
}

// Whether the outputs begin with the list's next words, n of poses, n of frames and k of errors.
fn outputs_right(file: &mut impl Read, o: &Outputs, n: usize, k: usize) -> bool {
    let before = [BEFORE; 256];
    let p = begins(file, &o.poses, &before, n);
    let f = begins(file, &o.frames, &before, n);
    let e = begins(file, &o.errors, &before, k);
    p & f & e
}

// Whether the state's memory begins with the list's next n words; if the call refused, it and the whole numbers are also as before, w.
fn state_right(
    file: &mut impl Read,
    n: usize,
    before: &[f64; 256],
    w: Values,
    v: Values,
    state: &[f64; 256],
) -> bool {
    let right = begins(file, state, before, n);
    let kept = begins(file, state, before, 0)
        && v == Values {
            number: v.number,
            ..w
        };
    right && (v.number == 0 || kept)
}

// n doubles of the state are lent, and before and w are what it and the whole numbers were before the call.
pub fn answer_right(
    file: &mut impl Read,
    s: &[u8],
    n: usize,
    before: &[f64; 256],
    w: Values,
    v: Values,
    o: &Outputs,
) -> bool
    requires { n ≤ 256 }
{
    let words = word(file);
    let want = word(file);
    let m = count_at(s, 2, want == 0);
    let k = count_at(s, 4, want == 0);
    let whole = words == (6 + n + 24 * m + k) as u64;
    let number = u64::from(v.number) == want;
    let values = values_right(file, v);
    let held = state_right(file, n, before, w, v, &o.state);
    let outputs = outputs_right(file, o, 12 * m, k);
    whole & number & values & held & outputs
}
