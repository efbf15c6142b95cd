// A sheet's bytes, put to lent memory from the place `at` on; each function returns the place behind them. specs/Bytes.antt and specs/Writing.antt have the definitions.

ghost use Rattle.std.specs.Prelude.{◌≡◌, [], ◌∷◌, ◌+◌, ◌*◌, ◌≤◌, ◌<◌, length};
ghost use Rattle.writing.specs.Bytes.{little_endian, doubles_bytes, Put};
ghost use Rattle.writing.specs.Writing as spec;

use numbers::bits;

// The bytes themselves.
pub fn put_bytes(out: &mut [u8], at: usize, bytes: &[u8]) -> usize
    requires { at + length bytes.now ≤ length out.old }
    ensures { (result ≡ at + length bytes.now) × Put out.old out.new at result bytes.now }
{
    let next = at + bytes.len();
    out[at..next].copy_from_slice(bytes);
    next
}

fn put_byte(out: &mut [u8], at: usize, b: u8) -> usize
    requires { at < length out.old }
    ensures { (result ≡ at + 1) × Put out.old out.new at result (b ∷ []) }
{
    out[at] = b;
    at + 1
}

// n in k bytes, the lowest first.
fn put_number(out: &mut [u8], at: usize, n: u64, k: usize) -> usize
    requires k_bound { k ≤ 8 }
    requires k_in_bounds { at + k ≤ length out.old }
    ensures { (result ≡ at + k) × Put out.old out.new at result (little_endian k n) }
{
    let bytes = n.to_le_bytes();
    put_bytes(out, at, &bytes[..k])
}

// n doubles of xs, from place o on.
fn put_doubles(out: &mut [u8], at: usize, xs: &[f64], o: usize, n: usize) -> usize
    requires n_in_bounds { o + n ≤ length xs.now }
    requires n_in_bounds_2 { at + 8 * n ≤ length out.old }
    ensures { (result ≡ at + 8 * n) × Put out.old out.new at result (doubles_bytes xs.now o n) }
{
    let mut next = at;
    for i in 0..n {
        next = put_number(out, next, bits(xs[o + i]), 8);
    }
    next
}

// The version, m, k and 0.
fn put_counts(out: &mut [u8], at: usize, m: usize, k: usize) -> usize
    requires { at + 8 ≤ length out.old }
    ensures { (result ≡ at + 8) × Put out.old out.new at result (spec.counts_bytes m k) }
{
    let a = put_number(out, at, 1, 2);
    let b = put_number(out, a, m as u64, 2);
    let c = put_number(out, b, k as u64, 2);
    put_number(out, c, 0, 2)
}

// Where bodies and relations start, the length and 0.
fn put_offsets(out: &mut [u8], at: usize, m: usize, k: usize) -> usize
    requires m_bound { m ≤ 64 }
    requires k_bound { k ≤ 128 }
    requires at_in_bounds { at + 16 ≤ length out.old }
    ensures { (result ≡ at + 16) × Put out.old out.new at result (spec.offsets_bytes m k) }
{
    let rels = 24 + 136 * m;
    let a = put_number(out, at, 24, 4);
    let b = put_number(out, a, rels as u64, 4);
    let c = put_number(out, b, (rels + 264 * k) as u64, 4);
    put_number(out, c, 0, 4)
}

pub fn put_header(out: &mut [u8], at: usize, m: usize, k: usize) -> usize
    requires m_bound { m ≤ 64 }
    requires k_bound { k ≤ 128 }
    requires at_in_bounds { at + 24 ≤ length out.old }
    ensures { (result ≡ at + 24) × Put out.old out.new at result (spec.header_bytes m k) }
{
    let a = put_counts(out, at, m, k);
    put_offsets(out, a, m, k)
}

pub fn put_body(out: &mut [u8], at: usize, bytes: &[u8], numbers: &[f64]) -> usize
    requires in_bounds { 2 ≤ length bytes.now }
    requires in_bounds_2 { 16 ≤ length numbers.now }
    requires at_in_bounds { at + 136 ≤ length out.old }
    ensures { (result ≡ at + 136) × Put out.old out.new at result (spec.body_bytes (record { bytes = bytes.entry.now; numbers = numbers.now })) }
{
    let a = put_byte(out, at, bytes[0]);
    let b = put_byte(out, a, bytes[1]);
    let c = put_number(out, b, 0, 6);
    put_doubles(out, c, numbers, 0, 16)
}

// The law's byte, the joint's, the flag and 0, then the teeth of a and of b.
fn put_law(out: &mut [u8], at: usize, bytes: &[u8], words: &[u16]) -> usize
    requires in_bounds { 9 ≤ length bytes.now }
    requires in_bounds_2 { 5 ≤ length words.now }
    requires at_in_bounds { at + 8 ≤ length out.old }
    ensures { (result ≡ at + 8) × Put out.old out.new at result (spec.law_bytes bytes.now words.now) }
{
    let a = put_byte(out, at, bytes[0]);
    let b = put_byte(out, a, bytes[1]);
    let c = put_byte(out, b, bytes[2]);
    let d = put_byte(out, c, 0);
    let e = put_number(out, d, words[0] as u64, 2);
    put_number(out, e, words[1] as u64, 2)
}

// An end: its bytes from place b on, its body's word at w and its doubles from place x on.
fn put_end(
    out: &mut [u8],
    at: usize,
    bytes: &[u8],
    b: usize,
    words: &[u16],
    w: usize,
    numbers: &[f64],
    x: usize,
) -> usize
    requires b_in_bounds { b + 2 ≤ length bytes.now }
    requires w_in_bounds { w < length words.now }
    requires x_in_bounds { x + 8 ≤ length numbers.now }
    requires at_in_bounds { at + 72 ≤ length out.old }
    ensures { (result ≡ at + 72) × Put out.old out.new at result (spec.end_bytes (record { bytes = bytes.entry.now; words = words.now; numbers = numbers.now }) b w x) }
{
    let c = put_byte(out, at, bytes[b]);
    let d = put_byte(out, c, bytes[b + 1]);
    let e = put_number(out, d, words[w] as u64, 2);
    let f = put_number(out, e, 0, 4);
    put_doubles(out, f, numbers, x, 8)
}

pub fn put_rel(out: &mut [u8], at: usize, bytes: &[u8], words: &[u16], numbers: &[f64]) -> usize
    requires in_bounds { 9 ≤ length bytes.now }
    requires in_bounds_2 { 5 ≤ length words.now }
    requires in_bounds_3 { 29 ≤ length numbers.now }
    requires at_in_bounds { at + 264 ≤ length out.old }
    ensures { (result ≡ at + 264) × Put out.old out.new at result (spec.rel_bytes (record { bytes = bytes.entry.now; words = words.now; numbers = numbers.now })) }
{
    let a = put_law(out, at, bytes, words);
    let b = put_doubles(out, a, numbers, 0, 5);
    let c = put_end(out, b, bytes, 3, words, 2, numbers, 5);
    let d = put_end(out, c, bytes, 5, words, 3, numbers, 13);
    put_end(out, d, bytes, 7, words, 4, numbers, 21)
}
