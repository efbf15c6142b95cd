// Tests 1 to 7 and 14 of the table of refusals, as specs/Faults.antt defines them: the header, then each record by its bytes (5), the teeth of a gear's wheels (14), the
// bodies that its ends name (6) and its doubles (7).

ghost use Rattle.std.specs.Prelude.{◌≡◌, ◌+◌, ◌*◌, ◌≤◌, ◌<◌, length};
ghost use Rattle.faults.specs.Fault.{number_of};
ghost use Rattle.records.specs.Record as fields;
ghost use Rattle.format.specs.Words.{Tells};
ghost use Rattle.format.specs.Faults as spec;

use crate::words::{double_over, none_over, vec_over, zero_bytes};
use faults::fault::Fault;
use records::record::{u16_at, u32_at};

// The limits of a double by their bits: 1.01 for directions, frame axes and references, 1000 for all others.
const UNIT_LIMIT: u64 = 0x3FF0_28F5_C28F_5C29;

const THOUSAND: u64 = 0x408F_4000_0000_0000;

// The most teeth of a wheel.
const MOST_TEETH: usize = 400;

// The ground's number as a body.
const GROUND: usize = 0xFFFF;

fn number_at(s: &[u8], o: usize) -> usize
    requires { o + 2 ≤ length s.now }
    ensures { (result ≡ fields.u16_at s.now o) × (result < 0x1_0000) }
{
    u16_at(s, o) as usize
}

fn word_at(s: &[u8], o: usize) -> usize
    requires { o + 4 ≤ length s.now }
    ensures { result ≡ fields.u32_at s.now o }
{
    u32_at(s, o) as usize
}

// Which fields a law and a primitive use, by the bytes that stand for them: a byte is tested here, before it is a kind.

fn uses_offset(law: u8) -> bool
    ensures { result ≡ fields.uses_offset law }
{
    matches!(law, 0 | 1 | 3 | 4 | 6)
}

fn uses_angle(law: u8) -> bool
    ensures { result ≡ fields.uses_angle law }
{
    matches!(law, 2 | 6 | 7)
}

fn uses_reference(law: u8) -> bool
    ensures { result ≡ fields.uses_reference law }
{
    law == 2
}

fn uses_flag(law: u8) -> bool
    ensures { result ≡ fields.uses_flag law }
{
    matches!(law, 3 | 4 | 6)
}

fn uses_joint(law: u8) -> bool
    ensures { result ≡ fields.uses_joint law }
{
    law == 6
}

fn uses_mirrored(law: u8) -> bool
    ensures { result ≡ fields.uses_mirrored law }
{
    matches!(law, 6 | 7)
}

fn uses_teeth(law: u8) -> bool
    ensures { result ≡ fields.uses_teeth law }
{
    law == 7
}

fn uses_end_radius(law: u8) -> bool
    ensures { result ≡ fields.uses_end_radius law }
{
    law == 4
}

fn uses_third(law: u8) -> bool
    ensures { result ≡ fields.uses_third law }
{
    matches!(law, 5 | 7)
}

fn uses_direction(prim: u8) -> bool
    ensures { result ≡ fields.uses_direction prim }
{
    prim != 2
}

fn uses_circle_radius(prim: u8) -> bool
    ensures { result ≡ fields.uses_circle_radius prim }
{
    prim == 3
}

#[tactic(auto, unfolding(crate::specs::Faults::header_zeros))]
fn header_zeros(s: &[u8]) -> bool
    requires { 24 ≤ length s.now }
    ensures { result ≡ spec.header_zeros s.now }
{
    let version = number_at(s, 0);
    let after_counts = number_at(s, 6);
    let last = word_at(s, 20);
    (version == 1) & ((after_counts == 0) & (last == 0))
}

#[tactic(auto, unfolding(crate::specs::Faults::header_counts))]
fn header_counts(s: &[u8]) -> bool
    requires { 24 ≤ length s.now }
    ensures { result ≡ spec.header_counts s.now }
{
    let m = number_at(s, 2);
    let k = number_at(s, 4);
    (m <= 64) & (k <= 128)
}

#[tactic(auto, unfolding(crate::specs::Faults::header_offsets))]
fn header_offsets(s: &[u8]) -> bool
    requires { 24 ≤ length s.now }
    ensures { result ≡ spec.header_offsets s.now }
{
    let m = number_at(s, 2);
    let k = number_at(s, 4);
    let bodies = word_at(s, 8);
    let rels = word_at(s, 12);
    let end = word_at(s, 16);
    let whole = 24 + 136 * m + 264 * k;
    (bodies == 24) & ((rels == 24 + 136 * m) & ((end == whole) & (s.len() == whole)))
}

#[tactic(auto, unfolding(crate::specs::Faults::header_fault))]
fn header_fault(s: &[u8]) -> Result<(), Fault>
    ensures { number_of result ≡ spec.header_fault s.now }
{
    if s.len() < 24 {
        return Err(Fault::Short);
    }
    if !header_zeros(s) {
        return Err(Fault::Header);
    }
    if !header_counts(s) {
        return Err(Fault::Counts);
    }
    if !header_offsets(s) {
        return Err(Fault::Offsets);
    }
    Ok(())
}

// A byte that is up to `most` where it is used, and 0 else.
#[tactic(auto, unfolding(crate::specs::Faults::byte_up_to))]
fn byte_up_to(used: bool, most: u8, b: u8) -> bool
    ensures { result ≡ spec.byte_up_to used most b }
{
    if used { b <= most } else { b == 0 }
}

// The n bytes from o on, 0 unless they are used.
#[tactic(auto, unfolding(crate::specs::Faults::used_or_zero))]
fn used_or_zero(used: bool, s: &[u8], o: usize, n: usize) -> bool
    requires { o + n ≤ length s.now }
    ensures { result ≡ spec.used_or_zero used s.now o n }
{
    used || zero_bytes(s, o, n)
}

#[tactic(auto, unfolding(crate::specs::Faults::body_shape))]
fn body_shape(s: &[u8], o: usize) -> bool
    requires { o + 136 ≤ length s.now }
    ensures { result ≡ spec.body_shape s.now o }
{
    let fixed = s[o];
    let zeros = zero_bytes(s, o + 1, 7);
    (fixed <= 1) & zeros
}

#[tactic(auto, unfolding(crate::specs::Faults::end_shape))]
fn end_shape(law: u8, s: &[u8], e: usize) -> bool
    requires { e + 72 ≤ length s.now }
    ensures { result ≡ spec.end_shape law s.now e }
{
    let kind = s[e];
    let mirrored = byte_up_to(uses_mirrored(law), 1, s[e + 1]);
    let zeros = zero_bytes(s, e + 4, 4);
    let direction = used_or_zero(uses_direction(kind), s, e + 32, 24);
    let circle_radius = used_or_zero(uses_circle_radius(kind), s, e + 56, 8);
    let end_radius = used_or_zero(uses_end_radius(law), s, e + 64, 8);
    (kind <= 3) & (mirrored & (zeros & (direction & (circle_radius & end_radius))))
}

// The third end, all 0 unless it is used.
#[tactic(auto, unfolding(crate::specs::Faults::third_shape))]
fn third_shape(law: u8, s: &[u8], e: usize) -> bool
    requires { e + 72 ≤ length s.now }
    ensures { result ≡ spec.third_shape law s.now e }
{
    if uses_third(law) {
        end_shape(law, s, e)
    } else {
        zero_bytes(s, e, 72)
    }
}

#[tactic(auto, unfolding(crate::specs::Faults::rel_shape))]
fn rel_shape(s: &[u8], r: usize) -> bool
    requires { r + 264 ≤ length s.now }
    ensures { result ≡ spec.rel_shape s.now r }
{
    let law = s[r];
    let joint = byte_up_to(uses_joint(law), 5, s[r + 1]);
    let flag = byte_up_to(uses_flag(law), 1, s[r + 2]);
    let zeros = zero_bytes(s, r + 3, 1);
    let teeth = used_or_zero(uses_teeth(law), s, r + 4, 4);
    let offset = used_or_zero(uses_offset(law), s, r + 8, 8);
    let angle = used_or_zero(uses_angle(law), s, r + 16, 8);
    let reference = used_or_zero(uses_reference(law), s, r + 24, 24);
    let a = end_shape(law, s, r + 48);
    let b = end_shape(law, s, r + 120);
    let third = third_shape(law, s, r + 192);
    (law <= 7)
        & (joint
            & (flag & (zeros & (teeth & (offset & (angle & (reference & (a & (b & third)))))))))
}

// A wheel's teeth, 1 to 400.
#[tactic(auto, unfolding(crate::specs::Faults::teeth_fit))]
fn teeth_fit(s: &[u8], o: usize) -> bool
    requires { o + 2 ≤ length s.now }
    ensures { result ≡ spec.teeth_fit (fields.u16_at s.now o) }
{
    let n = number_at(s, o);
    (1 <= n) & (n <= MOST_TEETH)
}

#[tactic(auto, unfolding(crate::specs::Faults::rel_teeth))]
fn rel_teeth(s: &[u8], r: usize) -> bool
    requires { r + 264 ≤ length s.now }
    ensures { result ≡ spec.rel_teeth s.now r }
{
    let gear = uses_teeth(s[r]);
    let a = teeth_fit(s, r + 4);
    let b = teeth_fit(s, r + 6);
    !gear | (a & b)
}

// An end names a body or the ground.
#[tactic(auto, unfolding(crate::specs::Faults::end_names))]
fn end_names(m: usize, s: &[u8], e: usize) -> bool
    requires { e + 72 ≤ length s.now }
    ensures { result ≡ spec.end_names m s.now e }
{
    let body = number_at(s, e + 2);
    (body == GROUND) | (body < m)
}

#[tactic(auto, unfolding(crate::specs::Faults::rel_names))]
fn rel_names(m: usize, s: &[u8], r: usize) -> bool
    requires { r + 264 ≤ length s.now }
    ensures { result ≡ spec.rel_names m s.now r }
{
    let a = end_names(m, s, r + 48);
    let b = end_names(m, s, r + 120);
    let used = uses_third(s[r]);
    let third = end_names(m, s, r + 192);
    a & (b & (!used | third))
}

fn body_limits(s: &[u8], o: usize) -> bool
    requires { o + 136 ≤ length s.now }
    ensures { result ≡ spec.body_limits s.now o }
{
    let origin = vec_over(THOUSAND, s, o + 8);
    let x = vec_over(UNIT_LIMIT, s, o + 32);
    let y = vec_over(UNIT_LIMIT, s, o + 56);
    let z = vec_over(UNIT_LIMIT, s, o + 80);
    let center = vec_over(THOUSAND, s, o + 104);
    let size = double_over(THOUSAND, s, o + 128);
    none_over(origin | (x | (y | (z | (center | size)))))
}

// Tells whether doubles of the end are over their limits.
fn end_over(s: &[u8], e: usize) -> u64
    requires { e + 72 ≤ length s.now }
    ensures { Tells result (spec.end_limits s.now e) }
{
    let point = vec_over(THOUSAND, s, e + 8);
    let direction = vec_over(UNIT_LIMIT, s, e + 32);
    let circle_radius = double_over(THOUSAND, s, e + 56);
    let end_radius = double_over(THOUSAND, s, e + 64);
    point | (direction | (circle_radius | end_radius))
}

fn rel_limits(s: &[u8], r: usize) -> bool
    requires { r + 264 ≤ length s.now }
    ensures { result ≡ spec.rel_limits s.now r }
{
    let offset = double_over(THOUSAND, s, r + 8);
    let angle = double_over(THOUSAND, s, r + 16);
    let reference = vec_over(UNIT_LIMIT, s, r + 24);
    let a = end_over(s, r + 48);
    let b = end_over(s, r + 120);
    let third = end_over(s, r + 192);
    none_over(offset | (angle | (reference | (a | (b | third)))))
}

#[tactic(auto, unfolding(crate::specs::Faults::body_fault))]
pub fn body_fault(s: &[u8], o: usize) -> Result<(), Fault>
    requires { o + 136 ≤ length s.now }
    ensures { number_of result ≡ spec.body_fault s.now o }
{
    if !body_shape(s, o) {
        return Err(Fault::Shape);
    }
    if !body_limits(s, o) {
        return Err(Fault::Limits);
    }
    Ok(())
}

#[tactic(auto, unfolding(crate::specs::Faults::rel_fault))]
pub fn rel_fault(m: usize, s: &[u8], r: usize) -> Result<(), Fault>
    requires { r + 264 ≤ length s.now }
    ensures { number_of result ≡ spec.rel_fault m s.now r }
{
    if !rel_shape(s, r) {
        return Err(Fault::Shape);
    }
    if !rel_teeth(s, r) {
        return Err(Fault::Teeth);
    }
    if !rel_names(m, s, r) {
        return Err(Fault::Names);
    }
    if !rel_limits(s, r) {
        return Err(Fault::Limits);
    }
    Ok(())
}

// The first fault among m bodies.
fn bodies_fault(s: &[u8], m: usize) -> Result<(), Fault>
    requires { 24 + 136 * m ≤ length s.now }
    ensures { number_of result ≡ spec.bodies_fault s.now m }
{
    for i in 0..m {
        body_fault(s, 24 + 136 * i)?;
    }
    Ok(())
}

// The first fault among k relations of a sheet of m bodies.
fn rels_fault(s: &[u8], m: usize, k: usize) -> Result<(), Fault>
    requires { (m ≡ fields.u16_at s.now 2) × (24 + 136 * m + 264 * k ≤ length s.now) }
    ensures { number_of result ≡ spec.rels_fault s.now k }
{
    for j in 0..k {
        rel_fault(m, s, 24 + 136 * m + 264 * j)?;
    }
    Ok(())
}

// Tests 1 to 7 and 14: the first that fails.
#[tactic(auto, using(crate::proofs::RefusalLaws::header_passes, crate::proofs::RefusalLaws::or_else_fault), unfolding(crate::specs::Faults::sheet_fault))]
pub fn sheet_fault(s: &[u8]) -> Result<(), Fault>
    ensures { number_of result ≡ spec.sheet_fault s.now }
{
    header_fault(s)?;
    let m = number_at(s, 2);
    let k = number_at(s, 4);
    bodies_fault(s, m)?;
    rels_fault(s, m, k)
}
