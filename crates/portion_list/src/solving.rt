// Solving by rounds, as a call of the list asks for it. specs/Asked.antt has the definition of what is handed over.

ghost use Rattle.std.specs.Prelude.{◌≡◌, ◌%◌, ◌^◌};
ghost use Rattle.portion_list.specs.Asked as spec;

use crate::asked::{Call, Lengths, Step, at_most};
use sheet::going::{sheet_solve_begin, sheet_solve_on};

// The drag, the set and the portion as a call takes them.
#[derive(Clone, Copy)]
pub struct Arguments {
    pub drag: u16,
    pub tolerance: f64,
    pub rounds: u32,
    pub limit: u32,
    pub weight: f64,
    pub portion: u32,
}

// The number that a call gives, and what the whole numbers are that are handed over or lent to it.
#[derive(Clone, Copy, PartialEq)]
pub struct Values {
    pub number: u32,
    pub unknowns: u32,
    pub rows: u32,
    pub done: u32,
    pub run: u8,
    pub converged: u8,
}

// What they are before a call, and no number yet; the flag is 77.
pub fn values_before(unknowns: u64, rows: u64, done: u64, run: u64) -> Values
    ensures { result ≡ spec.values_before unknowns rows done run }
{
    Values {
        number: 0,
        unknowns: low(unknowns),
        rows: low(rows),
        done: low(done),
        run: (run % 0x100) as u8,
        converged: 77,
    }
}

// Of a call that fits nothing is cut off.
fn low(n: u64) -> u32
    ensures { result ≡ n % 2 ^ 32 }
{
    (n % 0x1_0000_0000) as u32
}

pub fn arguments_of(c: Call) -> Arguments
    ensures { result ≡ spec.arguments_of c }
{
    let q = c.chosen;
    Arguments {
        drag: (c.drag % 0x1_0000) as u16,
        tolerance: q.tolerance,
        rounds: low(q.rounds),
        limit: low(q.limit),
        weight: q.weight,
        portion: low(c.portion),
    }
}

// The memory for an answer.
#[derive(Clone, Copy)]
pub struct Outputs {
    pub state: [f64; 256],
    pub poses: [f64; 256],
    pub frames: [f64; 256],
    pub errors: [f64; 256],
}

// What of the scratch and of that memory is lent.
#[derive(Drop)]
struct Lent<'a> {
    scratch: &'a mut [f64],
    state: &'a mut [f64],
    poses: &'a mut [f64],
    frames: &'a mut [f64],
    errors: &'a mut [f64],
}

fn begun(s: &[u8], q: Arguments, v: Values, lent: Lent) -> Values {
    let Lent {
        scratch,
        state,
        poses,
        frames,
        errors,
    } = lent;
    let mut w = v;
    let number = sheet_solve_begin(
        s,
        q.drag,
        q.tolerance,
        q.rounds,
        q.limit,
        q.weight,
        q.portion,
        &mut w.unknowns,
        &mut w.rows,
        &mut w.done,
        &mut w.run,
        state,
        scratch,
        poses,
        frames,
        errors,
        &mut w.converged,
    );
    Values { number, ..w }
}

fn gone_on(s: &[u8], q: Arguments, v: Values, lent: Lent) -> Values {
    let Lent {
        scratch,
        state,
        poses,
        frames,
        errors,
    } = lent;
    let mut w = v;
    let number = sheet_solve_on(
        s,
        q.drag,
        q.tolerance,
        q.rounds,
        q.limit,
        q.weight,
        q.portion,
        v.unknowns,
        v.rows,
        &mut w.done,
        &mut w.run,
        state,
        scratch,
        poses,
        frames,
        errors,
        &mut w.converged,
    );
    Values { number, ..w }
}

// What the call that the list asks for gives. As many doubles of the scratch and of the memory for its answer are lent as the call says.
pub fn solved(
    s: &[u8],
    step: Step,
    q: Arguments,
    v: Values,
    l: Lengths,
    scratch: &mut [f64],
    state: &mut [f64],
    poses: &mut [f64],
    frames: &mut [f64],
    errors: &mut [f64],
) -> Values {
    let scratch_len = at_most(l.scratch, scratch.len());
    let state_len = at_most(l.state, state.len());
    let poses_len = at_most(l.poses, poses.len());
    let frames_len = at_most(l.frames, frames.len());
    let errors_len = at_most(l.errors, errors.len());
    let lent = Lent {
        scratch: &mut scratch[..scratch_len],
        state: &mut state[..state_len],
        poses: &mut poses[..poses_len],
        frames: &mut frames[..frames_len],
        errors: &mut errors[..errors_len],
    };
    match step {
        Step::Begin => begun(s, q, v, lent),
        Step::On => gone_on(s, q, v, lent),
    }
}
