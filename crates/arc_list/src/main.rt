// Replays a list of sines, cosines and arctangents from standard input and counts the answers that differ. The list is made by a second implementation of the
// rule, in another language: `python3 tools/arc_list.py > crates/arc_list/stdin`.
//
// A record is four numbers of 8 bytes, little endian: 0 and the bits of t, its sine and its cosine, or 1 and the bits of y, x and their arctangent.

#![tactic(auto)]

use arcs::arc;
use lists::answers::{counted, same};
use lists::list::{END, double, word};
use std::io;
use std::io::Read;

// How many records of each kind were read, and how many answers are wrong.
#[derive(Clone, Copy, Default)]
struct Tally {
    sines: u64,
    arctangents: u64,
    wrong: u64,
}

// Whether the sine and the cosine of the next double are the next words, by the function for both and by each one's own.
fn sines_right(input: &mut impl Read) -> bool {
    let t = double(input);
    let sine = word(input);
    let cosine = word(input);
    let r = arc::sine_cosine(t);
    let whole = same(r.sine, sine) & same(r.cosine, cosine);
    let apart = same(arc::sine(t), sine) & same(arc::cosine(t), cosine);
    whole & apart
}

// Whether the arctangent of the next two doubles is the next word.
fn arctangent_right(input: &mut impl Read) -> bool {
    let y = double(input);
    let x = double(input);
    same(arc::arctangent(y, x), word(input))
}

impl Tally {
    fn sines(self, right: bool) -> Tally {
        Tally {
            sines: self.sines.wrapping_add(1),
            wrong: counted(self.wrong, right),
            ..self
        }
    }

    fn arctangents(self, right: bool) -> Tally {
        Tally {
            arctangents: self.arctangents.wrapping_add(1),
            wrong: counted(self.wrong, right),
            ..self
        }
    }

    // A record of neither kind.
    fn neither(self) -> Tally {
        Tally {
            wrong: counted(self.wrong, false),
            ..self
        }
    }
}

// Reads and counts records until the input ends. A record's first number says what follows.
fn replay(input: &mut impl Read) -> Tally {
    let mut tally = Tally::default();
    for _ in 0..100000 {
        tally = match word(input) {
            0 => tally.sines(sines_right(input)),
            1 => tally.arctangents(arctangent_right(input)),
            END => return tally,
            _ => tally.neither(),
        };
    }
    tally
}

fn main(rt: HostRuntime) -> io::Result<()> {
    let tally = replay(&mut rt.reader());
    println!(rt; "sines and cosines {}", tally.sines)?;
    println!(rt; "arctangents {}", tally.arctangents)?;
    println!(rt; "wrong {}", tally.wrong)
}
