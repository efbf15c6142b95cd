// What a call on a sheet leaves in the doubles that are lent to it.

ghost use Rattle.std.specs.Prelude.{◌≡◌, ◌+◌, ◌<◌, ◌≤◌, length};

use crate::answers::same;
use crate::list::word;
use numbers::bits;
use records::record::u16_at;
use std::io::Read;

// What stands in them before the call.
pub const BEFORE: f64 = 2.5;

// Whether the first n doubles are the list's next, and the rest is as before.
pub fn begins(file: &mut impl Read, d: &[f64], before: &[f64], n: usize) -> bool
    requires { length d.now ≡ length before.now }
{
    let mut right = true;
    for (i, (x, b)) in d.iter().zip(before).enumerate() {
        let want = if i < n { word(file) } else { bits(*b) };
        right &= same(*x, want);
    }
    right
}

// The count at o in the head of a sheet whose call is accepted; 0 after a refusal.
pub fn count_at(s: &[u8], o: usize, accepted: bool) -> usize
    requires { o < 8 }
    ensures { result < 0x1_0000 }
{
    if accepted && s.len() >= 24 {
        u16_at(s, o) as usize
    } else {
        0
    }
}
