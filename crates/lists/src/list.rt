// A list read word by word, from its number of records to its end. No contract can say what a file holds: what is read has no promise, what is made of it has.

ghost use Rattle.std.specs.Prelude.{◌≡◌, ◌+◌, ◌*◌, ◌/◌, ◌≤◌, drop, length};
ghost use Rattle.lists.specs.Lists as spec;

use crate::answers::{Tally, counted, same};
use records::record::{double_at, u64_at};
use std::fs::File;
use std::io;
use std::io::Read;
use std::rt::Files;

// A list's file, or none if it could not be opened: then what is read is as after a list's end.
#[derive(Drop)]
pub struct ListFile<F> {
    file: Option<F>,
}

impl<F: Read> Read for ListFile<F> {
    fn read(&mut self, buf: &mut [u8]) -> io::Result<usize> {
        match &mut self.file {
            Some(file) => file.read(buf),
            None => Ok(0),
        }
    }
}

// Opens a list. Where that fails it says so, and what is read is as after a list's end.
fn open<R: Files + Eprint>(rt: &R, path: &str) -> io::Result<ListFile<R::File>> {
    match File::open(rt, path) {
        Ok(file) => Ok(ListFile { file: Some(file) }),
        Err(e) => {
            eprintln!(rt; "{path}: {e}")?;
            Ok(ListFile { file: None })
        }
    }
}

// The next word after a list's end.
pub const END: u64 = 0xFFFF_FFFF_FFFF_FFFF;

// Reads until s is full, the list ends or a read fails, and returns how many bytes it put at the start of s. `read_exact` would
// ask a reader that is interrupted again and again.
pub fn read_full(file: &mut impl Read, s: &mut [u8]) -> usize
    ensures { result ≤ length s.new }
{
    let mut done = 0;
    for _ in 0..s.len() {
        match file.read(&mut s[done..]) {
            Ok(n) if n > 0 => done += n,
            _ => return done,
        }
        if done == s.len() {
            return done;
        }
    }
    done
}

// The next eight bytes. Those that the list lacks are FF.
fn eight(file: &mut impl Read) -> [u8; 8] {
    let mut s = [0xFFu8; 8];
    read_full(file, &mut s);
    s
}

// The next word. No list has FF bytes in a word of its own where it ends: as a count they are too large, and no double has such bits.
pub fn word(file: &mut impl Read) -> u64 {
    u64_at(&eight(file), 0)
}

// The next double; a NaN after the list's end.
pub fn double(file: &mut impl Read) -> f64 {
    double_at(&eight(file), 0)
}

fn records(n: u64) -> u64
    ensures { result ≡ spec.records n }
{
    if n > 0xFFFF { 0 } else { n }
}

// How many records follow.
pub fn count(file: &mut impl Read) -> u64 {
    records(word(file))
}

// Reads the first n bytes of s, which the list fills up to whole words, and no more of s.
pub fn bytes(file: &mut impl Read, s: &mut [u8], n: usize)
    requires { (n + 7) / 8 * 8 ≤ length s.old }
    ensures { drop ((n + 7) / 8 * 8) s.new ≡ drop ((n + 7) / 8 * 8) s.old }
{
    read_full(file, &mut s[..(n + 7) / 8 * 8]);
}

// Reads the doubles of s.
pub fn read(file: &mut impl Read, s: &mut [f64]) {
    for x in s {
        *x = double(file);
    }
}

// Whether the doubles of s are the list's next.
pub fn holds(file: &mut impl Read, s: &[f64]) -> bool {
    let mut right = true;
    for x in s {
        right &= same(*x, word(file));
    }
    right
}

// How many answers the records that follow have, and how many of them are wrong: `judge` reads a record and says whether its answer is right, or has a tally of several.
pub fn tallied<F: Read, T: Into<Tally>, J: FnMut(&mut F) -> T>(file: &mut F, mut judge: J) -> Tally
    requires { J.IsAlwaysCallable judge }
{
    let mut tally = Tally::default();
    for _ in 0..count(file) {
        tally = tally + judge(file).into();
    }
    tally
}

// Prints how many answers a list holds and how many of them are wrong, one more if it goes on after its records.
fn close<F: Read + Drop>(rt: &impl Print, path: &str, mut file: F, tally: Tally) -> io::Result<()> {
    let ends = read_full(&mut file, &mut [0u8]) == 0;
    let wrong = counted(tally.wrong, ends);
    println!(rt; "{path} answers {} wrong {wrong}", tally.answers)
}

// Replays a list, whose records `judge` reads as for `tallied`, and prints how many answers it holds and how many of them are wrong.
pub fn replay<R: Files + Print + Eprint, T: Into<Tally>, J: FnMut(&mut ListFile<R::File>) -> T>(
    rt: &R,
    path: &str,
    judge: J,
) -> io::Result<()>
    requires { J.IsAlwaysCallable judge }
{
    let mut file = open(rt, path)?;
    let tally = tallied(&mut file, judge);
    close(rt, path, file, tally)
}
