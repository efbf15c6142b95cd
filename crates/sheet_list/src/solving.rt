// Whether `solve` and `dof` give the list's answer. On acceptance the outputs begin with the list's next words, and the rest is as before; on refusal all of
// them are as before. Before a call the flag is 77, and the total 777. No contract says what a file holds, so whether an answer is the list's is
// open, and so is what a call leaves in the scratch.

ghost use Rattle.std.specs.Prelude.{◌≤◌, length};

use crate::call::{Call, Chosen};
use lists::lent::{BEFORE, begins, count_at};
use lists::list::word;
use sheet::freedoms::sheet_dof;
use sheet::solving::{sheet_solve, sheet_solve_with};
use std::io::Read;

// How many doubles of each output are lent to `solve`.
#[derive(Clone, Copy)]
struct Lengths {
    poses: usize,
    frames: usize,
    errors: usize,
    ghost poses_bound: { poses ≤ 1024 },
    ghost frames_bound: { frames ≤ 1024 },
    ghost errors_bound: { errors ≤ 256 },
}

impl Lengths {
    // What the call says, or none if that is more than there are.
    fn of(c: Call) -> Option<Lengths> {
        if c.first > 1024 || c.second > 1024 || c.third > 256 {
            return None;
        }
        Some(Lengths {
            poses: c.first as usize,
            frames: c.second as usize,
            errors: c.third as usize,
        })
    }
}

// The outputs of `solve`.
#[derive(Clone, Copy)]
struct Outputs {
    poses: [f64; 1024],
    frames: [f64; 1024],
    errors: [f64; 256],
    converged: u8,
}

// The number of `solve`, by what the call chooses, if anything, and the outputs, of which as many doubles are lent as `lengths` has.
fn solved(
    s: &[u8],
    drag: u16,
    chosen: Option<Chosen>,
    lengths: Lengths,
    scratch: &mut [f64],
) -> (u32, Outputs) {
    let mut outputs = Outputs::BEFORE;
    let poses = &mut outputs.poses[..lengths.poses];
    let frames = &mut outputs.frames[..lengths.frames];
    let errors = &mut outputs.errors[..lengths.errors];
    let converged = &mut outputs.converged;
    let number = match chosen {
        None => sheet_solve(s, drag, scratch, poses, frames, errors, converged),
        Some(q) => sheet_solve_with(
            s,
            drag,
            q.tolerance,
            q.rounds,
            q.limit,
            q.weight,
            scratch,
            poses,
            frames,
            errors,
            converged,
        ),
    };
    (number, outputs)
}

impl Outputs {
    const BEFORE: Outputs = Outputs {
        poses: [BEFORE; 1024],
        frames: [BEFORE; 1024],
        errors: [BEFORE; 256],
        converged: 77,
    };

    // Whether they are the list's answer after a call that was accepted or refused.
    fn right(&self, file: &mut impl Read, s: &[u8], accepted: bool) -> bool {
        let before = Outputs::BEFORE;
        let flag = if accepted { word(file) } else { 77 };
        let m = count_at(s, 2, accepted);
        let k = count_at(s, 4, accepted);
        let p = begins(file, &self.poses, &before.poses, 12 * m);
        let f = begins(file, &self.frames, &before.frames, 12 * m);
        let e = begins(file, &self.errors, &before.errors, k);
        p & f & e & (u64::from(self.converged) == flag)
    }
}

// As many doubles of scratch and of each output are lent as the call says.
pub fn solve_right(
    file: &mut impl Read,
    s: &[u8],
    scratch: &mut [f64],
    drag: u16,
    chosen: Option<Chosen>,
    c: Call,
) -> bool {
    if c.scratch > scratch.len() as u64 {
        return false;
    }
    let Some(lengths) = Lengths::of(c) else {
        return false;
    };
    let n = c.scratch as usize;
    let (number, outputs) = solved(s, drag, chosen, lengths, &mut scratch[..n]);
    u64::from(number) == c.want && outputs.right(file, s, number == 0)
}

// Whether the outputs of `dof` are the list's answer after a call that was accepted or refused.
fn freedoms_right(
    file: &mut impl Read,
    s: &[u8],
    accepted: bool,
    freedoms: &[f64; 2048],
    free: u32,
) -> bool {
    let total = if accepted { word(file) } else { 777 };
    let m = count_at(s, 2, accepted);
    begins(file, freedoms, &[BEFORE; 2048], 29 * m) & (u64::from(free) == total)
}

// As many doubles of scratch and of freedoms are lent as the call says.
pub fn dof_right(file: &mut impl Read, s: &[u8], scratch: &mut [f64], c: Call) -> bool {
    if c.scratch > scratch.len() as u64 || c.first > 2048 {
        return false;
    }
    let n = c.scratch as usize;
    let f = c.first as usize;
    let mut freedoms = [BEFORE; 2048];
    let mut free = 777u32;
    let number = sheet_dof(s, &mut scratch[..n], &mut freedoms[..f], &mut free);
    u64::from(number) == c.want && freedoms_right(file, s, number == 0, &freedoms, free)
}
