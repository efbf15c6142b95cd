// Replays answers to the two calls that solve a sheet by rounds, refusals included, and prints how many answers the list holds and how many of them differ here. They are
// those of a second program of ours, which makes its rounds by the Rust's own. All bits are compared; all NaNs are the same. data/ has the list, whose format
// oracle/FORMATS.md gives.

#![tactic(auto)]

mod answer;
mod asked;
mod solving;

use answer::answer_right;
use asked::{Call, Running, Step, at_most, fits, next_call, next_running};
use lists::answers::Tally;
use lists::lent::BEFORE;
use lists::list;
use lists::list::{replay, word};
use solving::{Outputs, arguments_of, solved, values_before};
use std::io;
use std::io::Read;

// Whether a call that fits gives the list's answer, from a running state, which is then the one that it left.
fn answered(
    file: &mut impl Read,
    s: &[u8],
    scratch: &mut [f64; 4096],
    step: Step,
    c: Call,
    running: &mut Running,
) -> bool {
    let before = *running;
    let w = values_before(c.unknowns, c.rows, before.done, before.run);
    let mut o = Outputs {
        state: before.doubles,
        poses: [BEFORE; 256],
        frames: [BEFORE; 256],
        errors: [BEFORE; 256],
    };
    let v = solved(
        s,
        step,
        arguments_of(c),
        w,
        c.lengths,
        scratch,
        &mut o.state,
        &mut o.poses,
        &mut o.frames,
        &mut o.errors,
    );
    *running = Running {
        done: u64::from(v.done),
        run: u64::from(v.run),
        doubles: o.state,
        ..before
    };
    let n = at_most(c.lengths.state, 256);
    answer_right(file, s, n, &before.doubles, w, v, &o)
}

// A call of a schedule, from the running state that the call before left.
fn call(file: &mut impl Read, s: &[u8], scratch: &mut [f64; 4096], running: &mut Running) -> bool {
    let c = next_call(file);
    let before = next_running(file, c.given, *running);
    *running = before;
    match c.step {
        Some(step) if fits(c, before.given, before.done, before.run) => {
            answered(file, s, scratch, step, c, running)
        }
        _ => false,
    }
}

// The calls of a schedule.
fn schedule(file: &mut impl Read, s: &[u8], scratch: &mut [f64; 4096]) -> Tally {
    let mut running = Running {
        done: 0,
        run: 0,
        given: 0,
        doubles: [BEFORE; 256],
    };
    list::tallied(file, |file| call(file, s, scratch, &mut running))
}

// A sheet and its schedules.
fn schedules(file: &mut impl Read, scratch: &mut [f64; 4096]) -> Tally {
    let mut s = [0u8; 2000];
    let bytes = word(file);
    if bytes > 2000 {
        return Tally {
            answers: 0,
            wrong: 1,
        };
    }
    let n = bytes as usize;
    list::bytes(file, &mut s, n);
    list::tallied(file, |file| schedule(file, &s[..n], scratch))
}

// One scratch serves all calls and is never cleared.
fn main(rt: HostRuntime) -> io::Result<()> {
    let mut scratch = [0.0 / 0.0; 4096];
    replay(
        &rt,
        "sheets_portions.bin",
        |file| schedules(file, &mut scratch),
    )
}
