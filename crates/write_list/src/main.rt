// Replays scenes that are lent to `sheet_write`, with the sheets and the refusals that a second program gives for them, and prints how many scenes the list holds and
// how many of them differ here. The whole memory that is lent for a sheet is compared, and what stands behind it; each sheet is then read into structs and saved again.
// data/ has the list, whose format oracle/FORMATS.md gives. Then scenes as structs whose number is known.

#![tactic(auto)]

mod cases;
mod structs;

ghost use Rattle.std.specs.Prelude.{◌≡◌, ◌+◌, ◌*◌, ◌≤◌};

use lists::list;
use lists::list::{read_full, replay, word};
use sheet::saving::sheet_write;
use std::io;
use std::io::Read;
use structs::saved_again;

// What stands in the memory for a sheet before a call.
const BEFORE: u8 = 0xA5;

// A scene as the list gives it: m, k, how many bytes, words and numbers are lent, and how many bytes for the sheet.
#[derive(Clone, Copy)]
struct Lent {
    m: u64,
    k: u64,
    bytes: u64,
    words: u64,
    numbers: u64,
    room: u64,
}

fn next(file: &mut impl Read) -> Lent {
    Lent {
        m: word(file),
        k: word(file),
        bytes: word(file),
        words: word(file),
        numbers: word(file),
        room: word(file),
    }
}

fn low(n: u64) -> u16 {
    (n % 0x1_0000) as u16
}

// Reads the words of s, of which the list has four in a word, the first lowest.
fn read_words(file: &mut impl Read, s: &mut [u16]) {
    for four in s.chunks_mut(4) {
        let mut rest = word(file);
        for w in four {
            *w = low(rest);
            rest /= 0x1_0000;
        }
    }
}

// The counts of a sheet that can be written, and its length.
#[derive(Clone, Copy)]
struct Counts {
    m: usize,
    k: usize,
    ghost bodies: { m ≤ 64 },
    ghost relations: { k ≤ 128 },
}

impl Counts {
    fn new(m: u64, k: u64) -> Option<Counts> {
        if m > 64 || k > 128 {
            return None;
        }
        Some(Counts {
            m: m as usize,
            k: k as usize,
        })
    }

    // The sheet's length in bytes.
    fn bytes(self) -> usize
        ensures value { result ≡ 24 + 136 * self.m + 264 * self.k }
        ensures bound { result ≤ 42520 }
    {
        24 + 136 * self.m + 264 * self.k
    }
}

// How many bytes of a sheet the list gives after a number: none after a refusal.
fn given(number: u32, m: u64, k: u64) -> usize
    ensures { result ≤ 42520 }
{
    match Counts::new(m, k) {
        Some(counts) if number == 0 => counts.bytes(),
        _ => 0,
    }
}

// Whether the memory begins with the n bytes that are the list's next, and is as before from there on.
fn holds(file: &mut impl Read, sheet: &[u8; 43_000], n: usize) -> bool
    requires { n ≤ 42520 }
{
    let mut want = [BEFORE; 43_000];
    let whole = read_full(file, &mut want[..n]) == n;
    *sheet == want && whole
}

// Whether a sheet of m bodies and k relations is saved again from structs as it stands.
fn saved_right(sheet: &[u8; 43_000], m: u64, k: u64) -> bool {
    let Some(counts) = Counts::new(m, k) else {
        return false;
    };
    let mut again = [BEFORE; 43_000];
    let number = saved_again(sheet, counts.m, counts.k, &mut again[..counts.bytes()]);
    *sheet == again && number == 0
}

// Whether a number and the memory for the sheet are the list's answer. A sheet that was written is also read into structs and saved again.
fn answer_right(file: &mut impl Read, number: u32, m: u64, k: u64, sheet: &[u8; 43_000]) -> bool {
    let want = word(file);
    if u64::from(number) != want {
        return false;
    }
    let whole = holds(file, sheet, given(number, m, k));
    whole && (number != 0 || saved_right(sheet, m, k))
}

// The scene is written to as much memory as the list says.
fn written_right(
    file: &mut impl Read,
    c: Lent,
    bytes: &[u8],
    words: &[u16],
    numbers: &[f64],
) -> bool {
    let mut sheet = [BEFORE; 43_000];
    if c.room > 43_000 {
        return false;
    }
    let n = c.room as usize;
    let number = sheet_write(low(c.m), low(c.k), bytes, words, numbers, &mut sheet[..n]);
    answer_right(file, number, c.m, c.k, &sheet)
}

// The numbers are the list's next, then the answer.
fn numbers_right(file: &mut impl Read, c: Lent, bytes: &[u8], words: &[u16]) -> bool {
    let mut numbers = [0.0; 5_000];
    if c.numbers > 5_000 {
        return false;
    }
    let n = c.numbers as usize;
    list::read(file, &mut numbers[..n]);
    written_right(file, c, bytes, words, &numbers[..n])
}

// The words are the list's next, then the numbers.
fn words_right(file: &mut impl Read, c: Lent, bytes: &[u8]) -> bool {
    let mut words = [0u16; 700];
    if c.words > 700 {
        return false;
    }
    let n = c.words as usize;
    read_words(file, &mut words[..n]);
    numbers_right(file, c, bytes, &words[..n])
}

// A scene, its bytes first, and whether writing it gives the list's answer.
fn scene_right(file: &mut impl Read) -> bool {
    let c = next(file);
    let mut bytes = [0u8; 1_400];
    if c.bytes > 1_400 {
        return false;
    }
    let n = c.bytes as usize;
    list::bytes(file, &mut bytes, n);
    words_right(file, c, &bytes[..n])
}

fn main(rt: HostRuntime) -> io::Result<()> {
    replay(&rt, "scenes_written.bin", scene_right)?;
    let known = cases::known();
    println!(rt;
        "known scenes answers {} wrong {}",
        known.answers, known.wrong
    )
}
