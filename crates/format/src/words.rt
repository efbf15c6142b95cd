// Fields tested by words of eight bytes, read as whole numbers: unused bytes for 0, and doubles, by their bits, for their
// limits. specs/Words.antt has the words and says what a word tells of doubles.

ghost use Rattle.std.specs.Prelude.{◌≡◌, ◌+◌, ◌*◌, ◌≤◌, ◌<◌, length};
ghost use Rattle.std.specs.Float.{binary64};
ghost use Rattle.std.specs.Float.Ieee.{of_bits};
ghost use Rattle.records.specs.Record as fields;
ghost use Rattle.records.specs.Limits as limits;
ghost use Rattle.format.specs.Words.{IsWord, below_sign, double_word, vec_word};

use records::record::u64_at;

// The sign among the bits of a double, the highest of a word.
const SIGN: u64 = 0x8000_0000_0000_0000;

// The k words from o on are 0.
fn zero_words(s: &[u8], o: usize, k: usize) -> bool
    requires { o + 8 * k ≤ length s.now }
    ensures { result ≡ fields.zero_bytes s.now o (8 * k) }
{
    let mut zero = true;
    for i in 0..k {
        zero &= u64_at(s, o + 8 * i) == 0;
    }
    zero
}

// The n bytes from o on are 0: the whole words of them, then the rest singly.
pub fn zero_bytes(s: &[u8], o: usize, n: usize) -> bool
    requires { o + n ≤ length s.now }
    ensures { result ≡ fields.zero_bytes s.now o n }
{
    let k = n / 8;
    let mut zero = zero_words(s, o, k);
    for i in 8 * k..n {
        zero &= s[o + i] == 0;
    }
    zero
}

// Tells whether the double at o is over the limit, which is given by its bits. Without the sign doubles are in the order of
// their bits, with NaNs last, so that the sum reaches SIGN exactly where the double is over the limit.
pub fn double_over(limit: u64, s: &[u8], o: usize) -> u64
    requires limit_bound { limit < 0x7FF0_0000_0000_0000 }
    requires o_in_bounds { o + 8 ≤ length s.now }
    ensures { IsWord result (double_word limit s.now o)
        (limits.within (of_bits binary64 limit) (fields.double_at s.now o)) }
{
    u64_at(s, o) % SIGN + (SIGN - 1 - limit)
}

// Tells of the three doubles at o.
pub fn vec_over(limit: u64, s: &[u8], o: usize) -> u64
    requires limit_bound { limit < 0x7FF0_0000_0000_0000 }
    requires o_in_bounds { o + 24 ≤ length s.now }
    ensures { IsWord result (vec_word limit s.now o)
        (limits.within_v (of_bits binary64 limit) (fields.vec_at s.now o)) }
{
    let x = double_over(limit, s, o);
    let y = double_over(limit, s, o + 8);
    let z = double_over(limit, s, o + 16);
    x | (y | z)
}

// Whether no double is over its limit, of those that the word tells of.
pub fn none_over(w: u64) -> bool
    ensures { result ≡ below_sign w }
{
    w < SIGN
}
