// A scene that the caller lends, tested and written: bytes, words and numbers of all bodies, then of all relations. specs/Lent.antt has the definitions.

ghost use Rattle.std.specs.Prelude.{◌≡◌, ◌+◌, ◌*◌, ◌≤◌, ◌<◌, length};
ghost use Rattle.faults.specs.Fault.{number_of};
ghost use Rattle.writing.specs.Bytes.{joined, Put};
ghost use Rattle.writing.specs.Writing as spec;
ghost use Rattle.writing.specs.Lent as lent;

use crate::bytes::{put_body, put_header, put_rel};
use faults::fault::Fault;
use format::refusals::{body_fault, rel_fault};

// A record's own bytes are made, and tested as where they are read. The parts are slices of their own: tried as fields of one struct, where the check does not know that
// the elements are numbers of the machine, as is promised here.
pub fn body_parts_fault(bytes: &[u8], numbers: &[f64]) -> Result<(), Fault>
    requires in_bounds { 2 ≤ length bytes.now }
    requires in_bounds_2 { 16 ≤ length numbers.now }
    ensures { spec.BodyTested (record { bytes = bytes.entry.now; numbers = numbers.now }) (number_of result) }
{
    let mut d = [0u8; 136];
    put_body(&mut d, 0, bytes, numbers);
    body_fault(&d, 0)
}

pub fn rel_parts_fault(m: usize, bytes: &[u8], words: &[u16], numbers: &[f64]) -> Result<(), Fault>
    requires in_bounds { 9 ≤ length bytes.now }
    requires in_bounds_2 { 5 ≤ length words.now }
    requires in_bounds_3 { 29 ≤ length numbers.now }
    ensures { spec.RelTested m (record { bytes = bytes.entry.now; words = words.now; numbers = numbers.now }) (number_of result) }
{
    let mut d = [0u8; 264];
    put_rel(&mut d, 0, bytes, words, numbers);
    rel_fault(m, &d, 0)
}

pub fn counts_fault(m: usize, k: usize) -> Result<(), Fault>
    ensures { number_of result ≡ spec.counts_fault m k }
{
    if m > 64 || k > 128 {
        return Err(Fault::Counts);
    }
    Ok(())
}

pub fn room_fault(m: usize, k: usize, room: usize) -> Result<(), Fault>
    requires m_bound { m ≤ 64 }
    requires k_bound { k ≤ 128 }
    ensures { number_of result ≡ spec.room_fault m k room }
{
    if 24 + 136 * m + 264 * k <= room {
        Ok(())
    } else {
        Err(Fault::Room)
    }
}

fn lent_fault(m: usize, k: usize, bytes: usize, words: usize, numbers: usize) -> Result<(), Fault>
    requires m_bound { m ≤ 64 }
    requires k_bound { k ≤ 128 }
    ensures { number_of result ≡ lent.lent_fault m k bytes words numbers }
{
    if 2 * m + 9 * k <= bytes && 5 * k <= words && 16 * m + 29 * k <= numbers {
        Ok(())
    } else {
        Err(Fault::Room)
    }
}

// A scene within the counts, m bodies and k relations, and what is lent of it: no slice is short.
#[derive(Clone, Copy)]
struct Lent<'a> {
    m: usize,
    k: usize,
    bytes: &'a [u8],
    words: &'a [u16],
    numbers: &'a [f64],
    ghost few_bodies: { m ≤ 64 },
    ghost few_relations: { k ≤ 128 },
    ghost enough_bytes: { 2 * m + 9 * k ≤ length bytes.now },
    ghost enough_words: { 5 * k ≤ length words.now },
    ghost enough_numbers: { 16 * m + 29 * k ≤ length numbers.now },
}

impl<'a> Lent<'a> {
    fn body_fault(&self, i: usize) -> Result<(), Fault>
        requires { i < self.now.m }
        ensures { number_of result ≡ spec.body_parts_fault (lent.lent_body self.now.bytes.now self.now.numbers.now i) }
    {
        let b = 2 * i;
        let x = 16 * i;
        body_parts_fault(&self.bytes[b..b + 2], &self.numbers[x..x + 16])
    }

    fn put_body(&self, out: &mut [u8], at: usize, i: usize) -> usize
        requires i_bound { i < self.now.m }
        requires at_in_bounds { at + 136 ≤ length out.old }
        ensures { (result ≡ at + 136) × Put out.old out.new at result (spec.body_bytes (lent.lent_body self.now.bytes.now self.now.numbers.now i)) }
    {
        let b = 2 * i;
        let x = 16 * i;
        put_body(out, at, &self.bytes[b..b + 2], &self.numbers[x..x + 16])
    }

    fn rel_fault(&self, j: usize) -> Result<(), Fault>
        requires { j < self.now.k }
        ensures { number_of result ≡ spec.rel_parts_fault self.now.m (lent.lent_rel self.now.m self.now.bytes.now self.now.words.now self.now.numbers.now j) }
    {
        let b = 2 * self.m + 9 * j;
        let w = 5 * j;
        let x = 16 * self.m + 29 * j;
        rel_parts_fault(
            self.m,
            &self.bytes[b..b + 9],
            &self.words[w..w + 5],
            &self.numbers[x..x + 29],
        )
    }

    fn put_rel(&self, out: &mut [u8], at: usize, j: usize) -> usize
        requires j_bound { j < self.now.k }
        requires at_in_bounds { at + 264 ≤ length out.old }
        ensures { (result ≡ at + 264) × Put out.old out.new at result (spec.rel_bytes (lent.lent_rel self.now.m self.now.bytes.now self.now.words.now self.now.numbers.now j)) }
    {
        let b = 2 * self.m + 9 * j;
        let w = 5 * j;
        let x = 16 * self.m + 29 * j;
        put_rel(
            out,
            at,
            &self.bytes[b..b + 9],
            &self.words[w..w + 5],
            &self.numbers[x..x + 29],
        )
    }

    // The first fault among the bodies.
    fn bodies_fault(&self) -> Result<(), Fault>
        ensures { number_of result ≡ spec.first_fault (λ i. spec.body_parts_fault (lent.lent_body self.now.bytes.now self.now.numbers.now i)) self.now.m }
    {
        for i in 0..self.m {
            self.body_fault(i)?;
        }
        Ok(())
    }

    // The first fault among the relations.
    fn rels_fault(&self) -> Result<(), Fault>
        ensures { number_of result ≡ spec.first_fault (λ j. spec.rel_parts_fault self.now.m (lent.lent_rel self.now.m self.now.bytes.now self.now.words.now self.now.numbers.now j)) self.now.k }
    {
        for j in 0..self.k {
            self.rel_fault(j)?;
        }
        Ok(())
    }

    fn put_bodies(&self, out: &mut [u8], at: usize) -> usize
        requires { at + 136 * self.now.m ≤ length out.old }
        ensures { (result ≡ at + 136 * self.now.m) × Put out.old out.new at result (joined (λ i. spec.body_bytes (lent.lent_body self.now.bytes.now self.now.numbers.now i)) self.now.m) }
    {
        let mut next = at;
        for i in 0..self.m {
            next = self.put_body(out, next, i);
        }
        next
    }

    fn put_rels(&self, out: &mut [u8], at: usize) -> usize
        requires { at + 264 * self.now.k ≤ length out.old }
        ensures { (result ≡ at + 264 * self.now.k) × Put out.old out.new at result (joined (λ j. spec.rel_bytes (lent.lent_rel self.now.m self.now.bytes.now self.now.words.now self.now.numbers.now j)) self.now.k) }
    {
        let mut next = at;
        for j in 0..self.k {
            next = self.put_rel(out, next, j);
        }
        next
    }

    // Puts the sheet's bytes, from its first on.
    fn put(&self, out: &mut [u8]) -> usize
        requires { 24 + 136 * self.now.m + 264 * self.now.k ≤ length out.old }
        ensures { (result ≡ 24 + 136 * self.now.m + 264 * self.now.k) × Put out.old out.new 0 result (spec.sheet_bytes (lent.lent_scene self.now.m self.now.k self.now.bytes.now self.now.words.now self.now.numbers.now)) }
    {
        let a = put_header(out, 0, self.m, self.k);
        let b = self.put_bodies(out, a);
        self.put_rels(out, b)
    }
}

// Writes the sheet of the scene, unless test 3, 5, 14, 6, 7 or 10 refuses it; then nothing has changed.
pub fn write(
    m: u16,
    k: u16,
    bytes: &[u8],
    words: &[u16],
    numbers: &[f64],
    sheet: &mut [u8],
) -> Result<(), Fault>
    ensures { lent.WriteAnswer m k bytes.now words.now numbers.now (number_of result) sheet.old sheet.new }
{
    let m = m as usize;
    let k = k as usize;
    counts_fault(m, k)?;
    lent_fault(m, k, bytes.len(), words.len(), numbers.len())?;
    let scene = Lent {
        m,
        k,
        bytes,
        words,
        numbers,
    };
    scene.bodies_fault()?;
    scene.rels_fault()?;
    room_fault(m, k, sheet.len())?;
    scene.put(sheet);
    Ok(())
}
