// A body and a relation taken apart: bytes, words and doubles in the order of the sheet, 0 for what is not used. specs/Saving.antt has the definitions.

ghost use Rattle.std.specs.Prelude.{◌≡◌};
ghost use Rattle.numbers.specs.Double.{zero64};
ghost use Rattle.vectors.specs.Vec.{vec, zero_v};
ghost use Rattle.relations.specs.Geometry.{prim};
ghost use Rattle.relations.specs.Model.{body_number, end_of, law_of, rel_of, body_of};
ghost use Rattle.records.specs.Numbers.{flag_number, joint_number, prim_number};
ghost use Rattle.saving.specs.Saving as spec;
ghost use Rattle.saving.specs.Fields as fields;

use relations::geometry::Primitive;
use relations::model::{Body, End, JointKind, Law, Rel};
use vectors::space::Frame;
use vectors::vec::Vec3;

// The largest word that is not the ground's.
const NO_BODY: usize = 0xFFFE;

#[tactic(auto, unfolding(crate::specs::Saving::body_parts))]
pub fn body_bytes(b: Body) -> [u8; 2]
    ensures { result ≡ (spec.body_parts (body_of b)).bytes }
{
    [u8::from(b.fixed), 0]
}

#[tactic(auto, unfolding(crate::specs::Saving::body_parts))]
pub fn body_numbers(b: Body) -> [f64; 16]
    ensures { result ≡ (spec.body_parts (body_of b)).numbers }
{
    let Frame { origin: o, x, y, z } = b.frame;
    let c = b.center;
    [
        o.x, o.y, o.z, x.x, x.y, x.z, y.x, y.y, y.z, z.x, z.y, z.z, c.x, c.y, c.z, b.size,
    ]
}

// A number that a word does not hold, or that is the ground's, names no body.
fn body_word(b: Option<usize>) -> u16
    ensures { result ≡ spec.body_word (body_number b) }
{
    match b {
        None => 0xFFFF,
        Some(i) if i < NO_BODY => i as u16,
        Some(_) => 0xFFFE,
    }
}

// What a primitive has in each field of its end.
#[derive(Clone, Copy)]
pub struct PrimFields {
    pub number: u8,
    pub point: Vec3,
    pub direction: Vec3,
    pub radius: f64,
}

#[tactic(auto, unfolding(relations::specs::Geometry::point_of))]
fn prim_fields(p: Primitive) -> PrimFields
    ensures { fields.PrimFieldsOf (prim p) result }
{
    match p {
        Primitive::Plane { point, normal } => PrimFields {
            number: 0,
            point,
            direction: normal,
            radius: 0.0,
        },
        Primitive::Line { point, dir } => PrimFields {
            number: 1,
            point,
            direction: dir,
            radius: 0.0,
        },
        Primitive::Point(point) => PrimFields {
            number: 2,
            point,
            direction: Vec3::ZERO,
            radius: 0.0,
        },
        Primitive::Circle {
            center,
            normal,
            radius,
        } => PrimFields {
            number: 3,
            point: center,
            direction: normal,
            radius,
        },
    }
}

fn prim_number(p: Primitive) -> u8
    ensures { result ≡ prim_number (prim p) }
{
    prim_fields(p).number
}

#[tactic(auto, unfolding(crate::specs::Saving::end_numbers))]
fn end_numbers(e: End) -> [f64; 8]
    ensures { result ≡ spec.end_numbers (end_of e) }
{
    let f = prim_fields(e.prim);
    let p = f.point;
    let d = f.direction;
    [p.x, p.y, p.z, d.x, d.y, d.z, f.radius, e.radius]
}

fn joint_number(kind: JointKind) -> u8
    ensures { result ≡ joint_number kind }
{
    match kind {
        JointKind::Rigid => 0,
        JointKind::Revolute => 1,
        JointKind::Slider => 2,
        JointKind::Cylindrical => 3,
        JointKind::Planar => 4,
        JointKind::Ball => 5,
    }
}

// The end whose 72 bytes are 0.
const NO_END: End = End {
    body: Some(0),
    prim: Primitive::Plane {
        point: Vec3::ZERO,
        normal: Vec3::ZERO,
    },
    radius: 0.0,
    mirrored: false,
};

// What a law has in each field of its relation.
#[derive(Clone, Copy)]
pub struct LawFields {
    pub number: u8,
    pub joint: u8,
    pub flag: u8,
    // The teeth of a and of b.
    pub first: u16,
    pub second: u16,
    pub offset: f64,
    pub angle: f64,
    pub reference: Vec3,
    pub third: End,
}

// Of a law without teeth, reference and third end.
fn plain_fields(number: u8, joint: u8, flag: u8, offset: f64, angle: f64) -> LawFields
    ensures { fields.FieldsAre number joint flag 0 0 offset angle zero_v spec.no_end result }
{
    LawFields {
        number,
        joint,
        flag,
        first: 0,
        second: 0,
        offset,
        angle,
        reference: Vec3::ZERO,
        third: NO_END,
    }
}

// Of a law with a third end.
fn third_fields(number: u8, first: u16, second: u16, angle: f64, third: End) -> LawFields
    ensures { fields.FieldsAre number 0 0 first second zero64 angle zero_v (end_of third) result }
{
    LawFields {
        first,
        second,
        third,
        ..plain_fields(number, 0, 0, 0.0, angle)
    }
}

// Of an angle.
fn angle_fields(angle: f64, reference: Vec3) -> LawFields
    ensures { fields.FieldsAre 2 0 0 0 0 zero64 angle (vec reference) spec.no_end result }
{
    LawFields {
        reference,
        ..plain_fields(2, 0, 0, 0.0, angle)
    }
}

fn law_fields(law: Law) -> LawFields
    ensures { fields.LawFieldsOf (law_of law) result }
{
    match law {
        Law::Mate { offset } => plain_fields(0, 0, 0, offset, 0.0),
        Law::Flush { offset } => plain_fields(1, 0, 0, offset, 0.0),
        Law::Angle { angle, reference } => angle_fields(angle, reference),
        Law::Insert { offset, aligned } => plain_fields(3, 0, u8::from(aligned), offset, 0.0),
        Law::Tangent { offset, inside } => plain_fields(4, 0, u8::from(inside), offset, 0.0),
        Law::Symmetry { plane } => third_fields(5, 0, 0, 0.0, plane),
        Law::Joint {
            joint,
            flip,
            offset,
            angle,
        } => plain_fields(6, joint_number(joint), u8::from(flip), offset, angle),
        Law::Gear {
            teeth_a,
            teeth_b,
            angle,
            carrier,
        } => third_fields(7, teeth_a, teeth_b, angle, carrier),
    }
}

#[tactic(auto, unfolding(crate::specs::Saving::rel_parts))]
pub fn rel_bytes(r: Rel) -> [u8; 9]
    ensures { result ≡ (spec.rel_parts (rel_of r)).bytes }
{
    let f = law_fields(r.law);
    [
        f.number,
        f.joint,
        f.flag,
        prim_number(r.a.prim),
        u8::from(r.a.mirrored),
        prim_number(r.b.prim),
        u8::from(r.b.mirrored),
        prim_number(f.third.prim),
        u8::from(f.third.mirrored),
    ]
}

#[tactic(auto, unfolding(crate::specs::Saving::rel_parts))]
pub fn rel_words(r: Rel) -> [u16; 5]
    ensures { result ≡ (spec.rel_parts (rel_of r)).words }
{
    let f = law_fields(r.law);
    [
        f.first,
        f.second,
        body_word(r.a.body),
        body_word(r.b.body),
        body_word(f.third.body),
    ]
}

#[tactic(auto, unfolding(crate::specs::Saving::rel_parts, crate::specs::Saving::end_numbers))]
pub fn rel_numbers(r: Rel) -> [f64; 29]
    ensures { result ≡ (spec.rel_parts (rel_of r)).numbers }
{
    let f = law_fields(r.law);
    let v = f.reference;
    let a = end_numbers(r.a);
    let b = end_numbers(r.b);
    let c = end_numbers(f.third);
    [
        f.offset, f.angle, v.x, v.y, v.z, a[0], a[1], a[2], a[3], a[4], a[5], a[6], a[7], b[0],
        b[1], b[2], b[3], b[4], b[5], b[6], b[7], c[0], c[1], c[2], c[3], c[4], c[5], c[6], c[7],
    ]
}
