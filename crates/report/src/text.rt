// The text that `report` prints. Each function writes bytes to lent memory from the place `at` on and returns the place behind them.

ghost use Rattle.std.specs.Prelude.{◌≡◌, ◌+◌, ◌*◌, ◌≤◌, ◌<◌, length};
ghost use Rattle.writing.specs.Bytes.{Put};
ghost use Rattle.report.specs.Report as spec;

use numbers::bits;
use writing::bytes::put_bytes;

// The digit of a number below 16: 0 to 9, then A to F.
fn glyph(d: u64) -> u8
    requires { d < 16 }
    ensures { result ≡ spec.glyph d }
{
    if d < 10 {
        b'0' + d as u8
    } else {
        b'A' - 10 + d as u8
    }
}

// How many decimal digits n has.
fn places(n: usize) -> usize
    ensures { result ≡ spec.places_in n n }
{
    let mut k = 1usize;
    let mut rest = n;
    while rest >= 10 {
        rest /= 10;
        k += 1;
    }
    k
}

// The last k digits of n in the base, written from the last one on.
fn put_digits(out: &mut [u8], at: usize, n: u64, base: u64, k: usize) -> usize
    requires base_nonzero { 0 < base }
    requires base_bound { base ≤ 16 }
    requires k_in_bounds { at + k ≤ length out.old }
    ensures { Put out.old out.new at result (spec.digits base k n) }
{
    let mut rest = n;
    for i in (0..k).rev() {
        out[at + i] = glyph(rest % base);
        rest /= base;
    }
    at + k
}

fn put_decimal(out: &mut [u8], at: usize, n: usize) -> usize
    requires n_bound { n < 100000 }
    requires at_in_bounds { at + 5 ≤ length out.old }
    ensures { Put out.old out.new at result (spec.decimal n) }
{
    let k = places(n);
    put_digits(out, at, n as u64, 10, k)
}

fn put_bits(out: &mut [u8], at: usize, x: f64) -> usize
    requires { at + 16 ≤ length out.old }
    ensures { Put out.old out.new at result (spec.bits_text x) }
{
    let n = bits(x);
    put_digits(out, at, n, 16, 16)
}

// The digit of a body's count of slides or turns.
#[tactic(auto, unfolding(crate::specs::Report::count_digit))]
fn count_digit(x: f64) -> u8
    ensures { result ≡ spec.count_digit x }
{
    if x == 0.0 {
        b'0'
    } else if x == 1.0 {
        b'1'
    } else if x == 2.0 {
        b'2'
    } else {
        b'3'
    }
}

fn put_converged(out: &mut [u8], at: usize, converged: bool) -> usize
    requires { at + 12 ≤ length out.old }
    ensures { Put out.old out.new at result (spec.converged_line converged) }
{
    if converged {
        put_bytes(out, at, b"converged 1\n")
    } else {
        put_bytes(out, at, b"converged 0\n")
    }
}

// A line of a word and a number.
fn put_number(out: &mut [u8], at: usize, word: &[u8], n: usize) -> usize
    requires n_bound { n < 100000 }
    requires word_in_bounds { at + (length word.now + 6) ≤ length out.old }
    ensures { Put out.old out.new at result (spec.number_line word.now n) }
{
    let a = put_bytes(out, at, word);
    let b = put_decimal(out, a, n);
    put_bytes(out, b, b"\n")
}

// The line of relation j, whose error is x.
fn put_relation(out: &mut [u8], at: usize, j: usize, x: f64) -> usize
    requires j_bound { j < 100000 }
    requires at_in_bounds { at + 32 ≤ length out.old }
    ensures { Put out.old out.new at result (spec.relation_line j x) }
{
    let a = put_bytes(out, at, b"relation ");
    let b = put_decimal(out, a, j);
    let c = put_bytes(out, b, b" ");
    let d = put_bits(out, c, x);
    put_bytes(out, d, b"\n")
}

// The line of body i, with its counts.
fn put_body(out: &mut [u8], at: usize, i: usize, slides: f64, turns: f64) -> usize
    requires i_bound { i < 100000 }
    requires at_in_bounds { at + 15 ≤ length out.old }
    ensures { Put out.old out.new at result (spec.body_line i slides turns) }
{
    let counts = [b' ', count_digit(slides), b' ', count_digit(turns), b'\n'];
    let a = put_bytes(out, at, b"body ");
    let b = put_decimal(out, a, i);
    put_bytes(out, b, &counts)
}

fn put_relations(out: &mut [u8], at: usize, errors: &[f64], k: usize) -> usize
    requires k_bound { k ≤ 128 }
    requires k_in_bounds { k ≤ length errors.now }
    requires k_in_bounds_2 { at + 32 * k ≤ length out.old }
    ensures { Put out.old out.new at result (spec.relation_lines errors.now k) }
{
    let mut next = at;
    for j in 0..k {
        next = put_relation(out, next, j, errors[j]);
    }
    next
}

fn put_bodies(out: &mut [u8], at: usize, freedoms: &[f64], m: usize) -> usize
    requires m_bound { m ≤ 64 }
    requires m_in_bounds { 29 * m ≤ length freedoms.now }
    requires m_in_bounds_2 { at + 15 * m ≤ length out.old }
    ensures { Put out.old out.new at result (spec.body_lines freedoms.now m) }
{
    let mut next = at;
    for i in 0..m {
        let o = 29 * i;
        next = put_body(out, next, i, freedoms[o], freedoms[o + 1]);
    }
    next
}

// What `report` prints of an answer: k errors, and 29 doubles for each of m bodies.
pub fn answer_text(
    out: &mut [u8],
    converged: bool,
    errors: &[f64],
    k: usize,
    free: u32,
    freedoms: &[f64],
    m: usize,
) -> usize
    requires k_bound { k ≤ 128 }
    requires k_in_bounds { k ≤ length errors.now }
    requires free_bound { free < 100000 }
    requires m_bound { m ≤ 64 }
    requires m_in_bounds { 29 * m ≤ length freedoms.now }
    requires in_bounds { 8192 ≤ length out.old }
    ensures { Put out.old out.new 0 result (spec.answer_text converged errors.now k free freedoms.now m) }
{
    let a = put_converged(out, 0, converged);
    let b = put_relations(out, a, errors, k);
    let c = put_number(out, b, b"free ", free as usize);
    put_bodies(out, c, freedoms, m)
}

// What `report` prints of a refusal.
pub fn refused_text(out: &mut [u8], number: u32) -> usize
    requires number_bound { number < 100000 }
    requires in_bounds { 8192 ≤ length out.old }
    ensures { Put out.old out.new 0 result (spec.refused_text number) }
{
    put_number(out, 0, b"refused ", number as usize)
}
