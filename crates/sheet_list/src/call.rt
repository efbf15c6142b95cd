// A call on a sheet as the list gives it. What is read is open, since no contract says what a file holds.

use lists::list::{double, word};
use std::io::Read;

// What a call of `solve` chooses.
#[derive(Clone, Copy)]
pub struct Chosen {
    pub tolerance: f64,
    pub rounds: u32,
    pub limit: u32,
    pub weight: f64,
}

// What a call asks for: `Solve` chooses nothing.
#[derive(Clone, Copy)]
pub enum Asked {
    Judge,
    Reading,
    Snap,
    SolveWith(Chosen),
    Dof,
    Solve,
}

// What it asks for, the relation or the drag, how many doubles are lent of scratch and of each output, and the number that is answered.
#[derive(Clone, Copy)]
pub struct Call {
    pub asked: Asked,
    pub number: u64,
    pub scratch: u64,
    pub first: u64,
    pub second: u64,
    pub third: u64,
    pub want: u64,
}

// The next word as a whole number of 32 bits; no list has one over that.
fn whole(file: &mut impl Read) -> u32 {
    u32::try_from(word(file)).unwrap_or(0)
}

fn next_chosen(file: &mut impl Read) -> Chosen {
    Chosen {
        tolerance: double(file),
        rounds: whole(file),
        limit: whole(file),
        weight: double(file),
    }
}

// What call `which` asks for: call 5 has four words for what it chooses, and call 3 names 200 rounds, which the list does not spell out.
fn next_asked(file: &mut impl Read, which: u64) -> Asked {
    match which {
        0 => Asked::Judge,
        1 => Asked::Reading,
        3 => Asked::SolveWith(Chosen {
            tolerance: 1e-9,
            rounds: 200,
            limit: 800,
            weight: 1e4,
        }),
        4 => Asked::Dof,
        5 => Asked::SolveWith(next_chosen(file)),
        6 => Asked::Solve,
        _ => Asked::Snap,
    }
}

pub fn next_call(file: &mut impl Read) -> Call {
    let which = word(file);
    let number = word(file);
    let scratch = word(file);
    let first = word(file);
    let second = word(file);
    let third = word(file);
    let asked = next_asked(file, which);
    word(file);
    let want = word(file);
    Call {
        asked,
        number,
        scratch,
        first,
        second,
        third,
        want,
    }
}
