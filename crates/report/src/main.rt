// Reads a sheet from standard input and prints its report. The longest sheet has 42,520 bytes; one byte more is read, so that a longer input is refused by its length.

#![tactic(auto)]

mod run;
mod text;

ghost use Rattle.std.specs.Prelude.{◌≤◌, length};

use std::io;
use std::io::Read;

// Reads until s is full, the input ends or a read fails, and returns how many bytes it put at the start of s.
fn read_full(input: &mut impl Read, s: &mut [u8]) -> usize
    ensures { result ≤ length s.new }
{
    let mut done = 0;
    for _ in 0..s.len() {
        match input.read(&mut s[done..]) {
            Ok(n) => {
                if n == 0 {
                    return done;
                }
                done += n;
            }
            Err(_) => return done,
        }
    }
    done
}

fn main(rt: HostRuntime) -> io::Result<()> {
    let mut sheet = [0u8; 42521];
    let mut scratch = [0.0; 8192];
    let mut poses = [0.0; 768];
    let mut frames = [0.0; 768];
    let mut errors = [0.0; 128];
    let mut freedoms = [0.0; 1856];
    let mut out = [0u8; 8192];
    let got = read_full(&mut rt.reader(), &mut sheet);
    let n = run::report(
        &sheet[0..got],
        &mut scratch,
        &mut poses,
        &mut frames,
        &mut errors,
        &mut freedoms,
        &mut out,
    );
    rt.write_all(&out[0..n])
}
