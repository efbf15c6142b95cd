// Replays the Rust's answers to the calls on a sheet, refusals included, and those of the Rust with a second program's gears put in, and prints how many answers each list holds
// and how many of them differ here.
// All bits are compared; all NaNs are the same. data/ has the lists, whose formats oracle/FORMATS.md gives.

#![tactic(auto)]

mod call;
mod solving;

ghost use Rattle.std.specs.Prelude.{◌≤◌};

use call::{Asked, Call, next_call};
use lists::answers::{Tally, counted, same};
use lists::lent::{BEFORE, begins};
use lists::list;
use lists::list::{replay, word};
use sheet::calls::{sheet_joint_reading, sheet_judge, sheet_snap};
use solving::{dof_right, solve_right};
use std::io;
use std::io::Read;
use std::rt::Files;

fn judge_right(s: &[u8], relation: u16, want: u64) -> bool {
    u64::from(sheet_judge(s, relation)) == want
}

// On acceptance the two numbers are the list's next; on refusal they are as before.
fn reading_right(file: &mut impl Read, s: &[u8], relation: u16, want: u64) -> bool {
    let mut offset = BEFORE;
    let mut angle = BEFORE;
    let number = sheet_joint_reading(s, relation, &mut offset, &mut angle);
    if u64::from(number) != want {
        return false;
    }
    if number != 0 {
        return offset == BEFORE && angle == BEFORE;
    }
    let a = word(file);
    let b = word(file);
    same(offset, a) && same(angle, b)
}

// The first n doubles are lent. On acceptance 12 of them are the list's next; on refusal all are as before.
fn snap_right(file: &mut impl Read, s: &[u8], relation: u16, n: usize, want: u64) -> bool
    requires { n ≤ 40 }
{
    let mut d = [BEFORE; 40];
    let number = sheet_snap(s, relation, &mut d[..n]);
    if u64::from(number) != want {
        return false;
    }
    begins(file, &d, &[BEFORE; 40], if number == 0 { 12 } else { 0 })
}

// Whether a call gives the list's answer.
fn right(file: &mut impl Read, s: &[u8], scratch: &mut [f64], c: Call) -> bool {
    match (c.asked, u16::try_from(c.number)) {
        (Asked::Dof, _) => dof_right(file, s, scratch, c),
        (_, Err(_)) => false,
        (Asked::Judge, Ok(j)) => judge_right(s, j, c.want),
        (Asked::Reading, Ok(j)) => reading_right(file, s, j, c.want),
        (Asked::Snap, Ok(j)) => c.first <= 40 && snap_right(file, s, j, c.first as usize, c.want),
        (Asked::Solve, Ok(drag)) => solve_right(file, s, scratch, drag, None, c),
        (Asked::SolveWith(q), Ok(drag)) => solve_right(file, s, scratch, drag, Some(q), c),
    }
}

// A sheet of at most 64 bodies and 128 relations, and its calls.
fn sheet_calls(file: &mut impl Read, scratch: &mut [f64]) -> Tally {
    let mut s = [0u8; 42_520];
    let bytes = word(file);
    if bytes > 42_520 {
        return Tally {
            answers: 0,
            wrong: 1,
        };
    }
    let n = bytes as usize;
    list::bytes(file, &mut s, n);
    list::tallied(file, |file| {
        let c = next_call(file);
        right(file, &s[..n], scratch, c)
    })
}

// One word of a sheet is changed, and relation 0 judged.
fn changed(file: &mut impl Read, sheet: [u8; 424]) -> bool {
    let mut s = sheet;
    let place = word(file);
    if place > 52 {
        return false;
    }
    list::bytes(file, &mut s[place as usize * 8..], 8);
    judge_right(&s, 0, word(file))
}

fn fields(file: &mut impl Read) -> Tally {
    let mut s = [0u8; 424];
    list::bytes(file, &mut s, 424);
    list::tallied(file, |file| changed(file, s))
}

// The sheet of three bodies and the relation, which stands first in the list.
fn relation_sheet(file: &mut impl Read) -> [u8; 696] {
    let mut s = [0u8; 696];
    s[0] = 1;
    s[2] = 3;
    s[4] = 1;
    s[8] = 24;
    s[12] = 0xB0;
    s[13] = 1;
    s[16] = 0xB8;
    s[17] = 2;
    list::bytes(file, &mut s[432..], 264);
    list::bytes(file, &mut s[24..432], 408);
    s
}

// Judging, the joint's reading and snapping of one relation.
fn relation(file: &mut impl Read) -> Tally {
    let s = relation_sheet(file);
    let want = word(file);
    let judged = judge_right(&s, 0, want);
    let read = reading_right(file, &s, 0, 0);
    let snapped = snap_right(file, &s, 0, 12, 0);
    Tally {
        answers: 3,
        wrong: counted(0, judged & read & snapped),
    }
}

// Refusals, each field of a sheet, the calls on one relation, solved sheets, and calls that choose their parameters or nothing.
// One scratch serves all calls and is never cleared. It is as long as the lists ask; 800 rows would ask `solve` for 971,712 doubles, nearly all of a stack of 8 MB.
fn replay_all(rt: &(impl Files + Print + Eprint), scratch: &mut [f64]) -> io::Result<()> {
    replay(rt, "sheets_refused.bin", |file| sheet_calls(file, scratch))?;
    replay(rt, "sheets_fields.bin", fields)?;
    replay(rt, "relation_calls.bin", relation)?;
    for path in [
        "sheets_solved.bin",
        "sheets_limits.bin",
        "sheets_geared.bin",
        "sheets_parameters.bin",
        "sheets_bare.bin",
    ] {
        replay(rt, path, |file| sheet_calls(file, scratch))?;
    }
    Ok(())
}

fn main(rt: HostRuntime) -> io::Result<()> {
    let mut scratch = [0.0 / 0.0; 300_000];
    replay_all(&rt, &mut scratch)
}
