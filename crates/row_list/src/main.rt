// Replays the Rust's rows (each relation's count, seven rows and largest magnitude, at poses squared and not), wrapped angles and gaps of tangents, and the rows of gears
// that a second program works, one list after another, and prints how many answers each list holds and how many of them differ here. All bits are compared; all NaNs
// are the same. data/ has the lists, whose formats oracle/FORMATS.md gives.

#![tactic(auto)]

use lists::answers::same;
use lists::list;
use lists::list::{double, replay, word};
use records::record::rel_at;
use relations::rows::{Rows, tangent_gap, wrap};
use scene::scene::rel_rows;
use std::io;
use std::io::Read;

// The count, the seven rows and their largest magnitude are the list's next.
fn right(file: &mut impl Read, r: Rows) -> bool {
    let n = r.n as u64;
    let count = word(file) == n;
    let values = list::holds(file, &r.values);
    let most = same(r.max_abs(), word(file));
    count & values & most
}

// One relation: its 264 bytes, the poses of bodies 0, 1 and 2, the answers.
fn relation(file: &mut impl Read) -> bool {
    let mut s = [0u8; 264];
    list::bytes(file, &mut s, 264);
    let mut q = [0.0; 36];
    list::read(file, &mut q);
    let rel = rel_at(&s, 0);
    right(file, rel_rows(&q, 0, 3, rel))
}

// One angle, and what it is wrapped to.
fn wrapped(file: &mut impl Read) -> bool {
    let a = double(file);
    same(wrap(a), word(file))
}

// Two radii, an offset, whether one stands inside the other and whether one is a plane; the gap.
fn gap(file: &mut impl Read) -> bool {
    let ra = double(file);
    let rb = double(file);
    let offset = double(file);
    let inside = word(file) == 1;
    let plane = word(file) == 1;
    same(tangent_gap(ra, rb, offset, inside, plane), word(file))
}

fn main(rt: HostRuntime) -> io::Result<()> {
    replay(&rt, "rows.bin", relation)?;
    replay(&rt, "wrap.bin", wrapped)?;
    replay(&rt, "tangent_gap.bin", gap)?;
    replay(&rt, "gear_rows.bin", relation)
}
