// Bodies and relations read in place, as specs/Record.antt lays them out.

ghost use Rattle.std.specs.Prelude.{◌≡◌, ◌+◌, ◌≤◌, length};
ghost use Rattle.vectors.specs.Vec.{vec};
ghost use Rattle.vectors.specs.Space.{frame};
ghost use Rattle.relations.specs.Geometry.{prim};
ghost use Rattle.relations.specs.Model.{body_number, end_of, law_of, rel_of, body_of};
ghost use Rattle.records.specs.Record as spec;

use relations::geometry::Primitive;
use relations::model::{Body, End, JointKind, Law, Rel};
use std::num::f64_from_bits_with_nan;
use vectors::space::Frame;
use vectors::vec::Vec3;

// The ground's number as a body.
const GROUND: u16 = 0xFFFF;

pub fn u16_at(s: &[u8], o: usize) -> u16
    requires { o + 2 ≤ length s.now }
    ensures { result ≡ spec.u16_at s.now o }
{
    u16::from_le_bytes([s[o], s[o + 1]])
}

pub fn u32_at(s: &[u8], o: usize) -> u32
    requires { o + 4 ≤ length s.now }
    ensures { result ≡ spec.u32_at s.now o }
{
    u32::from_le_bytes([s[o], s[o + 1], s[o + 2], s[o + 3]])
}

// The number of the first eight bytes, by halves, so that it compiles to one load.
fn first_u64(s: &[u8]) -> u64
    requires { 8 ≤ length s.now }
    ensures { result ≡ spec.u64_at s.now 0 }
{
    u64::from(u32_at(s, 0)) + u64::from(u32_at(s, 4)) * 0x1_0000_0000
}

pub fn u64_at(s: &[u8], o: usize) -> u64
    requires { o + 8 ≤ length s.now }
    ensures { result ≡ spec.u64_at s.now o }
{
    first_u64(&s[o..])
}

// Every NaN pattern is the one NaN.
#[tactic(auto, unfolding(crate::specs::Record::double_at))]
pub fn double_at(s: &[u8], o: usize) -> f64
    requires { o + 8 ≤ length s.now }
    ensures { result ≡ spec.double_at s.now o }
{
    f64_from_bits_with_nan(u64_at(s, o))
}

pub fn vec_at(s: &[u8], o: usize) -> Vec3
    requires { o + 24 ≤ length s.now }
    ensures { vec result ≡ spec.vec_at s.now o }
{
    Vec3 {
        x: double_at(s, o),
        y: double_at(s, o + 8),
        z: double_at(s, o + 16),
    }
}

fn frame_at(s: &[u8], o: usize) -> Frame
    requires { o + 96 ≤ length s.now }
    ensures { frame result ≡ spec.frame_at s.now o }
{
    Frame {
        origin: vec_at(s, o),
        x: vec_at(s, o + 24),
        y: vec_at(s, o + 48),
        z: vec_at(s, o + 72),
    }
}

#[tactic(auto, unfolding(crate::specs::Record::body_at))]
pub fn body_at(s: &[u8], o: usize) -> Body
    requires { o + 136 ≤ length s.now }
    ensures { body_of result ≡ spec.body_at s.now o }
{
    Body {
        frame: frame_at(s, o + 8),
        fixed: s[o] == 1,
        center: vec_at(s, o + 104),
        size: double_at(s, o + 128),
    }
}

#[tactic(auto, unfolding(crate::specs::Record::prim_at, crate::specs::Numbers::by_number))]
fn prim_of(kind: u8, p: Vec3, d: Vec3, r: f64) -> Primitive
    ensures { prim result ≡ spec.prim_at kind (vec p) (vec d) r }
{
    match kind {
        0 => Primitive::Plane {
            point: p,
            normal: d,
        },
        1 => Primitive::Line { point: p, dir: d },
        2 => Primitive::Point(p),
        _ => Primitive::Circle {
            center: p,
            normal: d,
            radius: r,
        },
    }
}

// The number of a body, none for the ground.
#[tactic(auto, unfolding(crate::specs::Record::body_number_at, crate::specs::Numbers::by_number))]
fn body_number(b: u16) -> Option<usize>
    ensures { body_number result ≡ spec.body_number_at b }
{
    (b != GROUND).then_some(b as usize)
}

#[tactic(auto, unfolding(crate::specs::Record::end_at))]
fn end_at(s: &[u8], e: usize) -> End
    requires { e + 72 ≤ length s.now }
    ensures { end_of result ≡ spec.end_at s.now e }
{
    End {
        body: body_number(u16_at(s, e + 2)),
        prim: prim_of(
            s[e],
            vec_at(s, e + 8),
            vec_at(s, e + 32),
            double_at(s, e + 56),
        ),
        radius: double_at(s, e + 64),
        mirrored: s[e + 1] == 1,
    }
}

#[tactic(auto, unfolding(crate::specs::Record::joint_kind_at, crate::specs::Numbers::by_number))]
fn joint_kind_of(kind: u8) -> JointKind
    ensures { result ≡ spec.joint_kind_at kind }
{
    match kind {
        0 => JointKind::Rigid,
        1 => JointKind::Revolute,
        2 => JointKind::Slider,
        3 => JointKind::Cylindrical,
        4 => JointKind::Planar,
        _ => JointKind::Ball,
    }
}

#[tactic(auto, unfolding(crate::specs::Record::law_by, crate::specs::Numbers::by_number))]
fn law_at(s: &[u8], r: usize) -> Law
    requires { r + 264 ≤ length s.now }
    ensures { law_of result ≡ spec.law_by (spec.byte_at s.now r) s.now r }
{
    match s[r] {
        0 => Law::Mate {
            offset: double_at(s, r + 8),
        },
        1 => Law::Flush {
            offset: double_at(s, r + 8),
        },
        2 => Law::Angle {
            angle: double_at(s, r + 16),
            reference: vec_at(s, r + 24),
        },
        3 => Law::Insert {
            offset: double_at(s, r + 8),
            aligned: s[r + 2] == 1,
        },
        4 => Law::Tangent {
            offset: double_at(s, r + 8),
            inside: s[r + 2] == 1,
        },
        5 => Law::Symmetry {
            plane: end_at(s, r + 192),
        },
        6 => Law::Joint {
            joint: joint_kind_of(s[r + 1]),
            flip: s[r + 2] == 1,
            offset: double_at(s, r + 8),
            angle: double_at(s, r + 16),
        },
        _ => Law::Gear {
            teeth_a: u16_at(s, r + 4),
            teeth_b: u16_at(s, r + 6),
            angle: double_at(s, r + 16),
            carrier: end_at(s, r + 192),
        },
    }
}

#[tactic(auto, unfolding(crate::specs::Record::rel_at))]
pub fn rel_at(s: &[u8], r: usize) -> Rel
    requires { r + 264 ≤ length s.now }
    ensures { rel_of result ≡ spec.rel_at s.now r }
{
    Rel {
        law: law_at(s, r),
        a: end_at(s, r + 48),
        b: end_at(s, r + 120),
    }
}
