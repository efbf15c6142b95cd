// Scenes as structs whose number documents 01 and 02 fix: what a struct can hold and a sheet cannot, each test's edges, and their order.

ghost use Rattle.std.specs.Prelude.{◌<◌};

use crate::structs::plain;
use faults::fault::number_of;
use lists::answers::Tally;
use relations::geometry::Primitive;
use relations::model::{End, Law, Rel};
use saving::save::{Scene, save};
use vectors::vec::Vec3;

fn number(scene: Scene) -> u32 {
    let mut sheet = [0u8; 2_000];
    number_of(save(scene, &mut sheet))
}

fn end(body: Option<usize>, radius: f64, mirrored: bool) -> End {
    End {
        body,
        prim: Primitive::Point(Vec3::ZERO),
        radius,
        mirrored,
    }
}

// Four bodies and k relations, mates but for the relation j.
fn with_rel(k: usize, j: usize, rel: Rel) -> Scene
    requires { j < 128 }
{
    let mut scene = plain(4, k);
    scene.rels[j] = rel;
    scene
}

// The number of one relation, of this law, whose end a is this one.
fn first(law: Law, a: End) -> u32 {
    let b = end(None, 0.0, false);
    number(with_rel(1, 0, Rel { law, a, b }))
}

fn on_body(i: usize) -> u32 {
    let a = end(Some(i), 0.0, false);
    first(Law::Mate { offset: 0.0 }, a)
}

// A number that is no body's is refused by 6 before it is cut to 16 bits: 65535 is not the ground, and 65539 is not body 3.
fn names() -> Tally {
    let mut tally = Tally::default();
    for (i, want) in [
        (3, 0),
        (4, 6),
        (0xFFFE, 6),
        (0xFFFF, 6),
        (0x1_0000, 6),
        (0x1_0003, 6),
    ] {
        tally = tally + Tally::from(on_body(i) == want);
    }
    tally
}

// The number of a law whose end a is a point on the ground.
fn on_ground(law: Law, radius: f64, mirrored: bool) -> u32 {
    first(law, end(None, radius, mirrored))
}

// What a mate does not use is 0 bits: an end radius of -0 is refused by 5, and so is a mirrored flag. A tangent uses the end radius, and keeps -0.
fn unused() -> Tally {
    let zero = 0.0;
    let mate = Law::Mate { offset: 0.0 };
    let round = Law::Tangent {
        offset: 0.0,
        inside: true,
    };
    let mut tally = Tally::default();
    for (law, radius, mirrored, want) in [
        (mate, 0.0, false, 0),
        (mate, -zero, false, 5),
        (mate, 1.0, false, 5),
        (mate, 0.0, true, 5),
        (round, -zero, false, 0),
    ] {
        tally = tally + Tally::from(on_ground(law, radius, mirrored) == want);
    }
    tally
}

// The number of a gear whose wheel a names no body and whose carrier is on the ground.
fn gear(teeth: u16, radius: f64, mirrored: bool) -> u32 {
    let carrier = end(None, radius, mirrored);
    let law = Law::Gear {
        teeth_a: teeth,
        teeth_b: 12,
        angle: 1.0,
        carrier,
    };
    first(law, end(Some(4), 0.0, true))
}

fn symmetry(body: Option<usize>, mirrored: bool) -> u32 {
    let plane = end(body, 0.0, mirrored);
    let a = end(Some(0), 0.0, false);
    first(Law::Symmetry { plane }, a)
}

// A gear's tests in their order, 5, 14, 6: the wheel a names no body.
fn gears() -> Tally {
    let mut tally = Tally::default();
    for (teeth, radius, mirrored, want) in [
        (0, 1.0, false, 5),
        (0, 0.0, true, 14),
        (401, 0.0, true, 14),
        (400, 0.0, true, 6),
    ] {
        tally = tally + Tally::from(gear(teeth, radius, mirrored) == want);
    }
    tally
}

// Symmetry's plane has neither radius nor mirrored flag.
fn symmetries() -> Tally {
    let mut tally = Tally::default();
    for (body, mirrored, want) in [(None, false, 0), (None, true, 5), (Some(4), false, 6)] {
        tally = tally + Tally::from(symmetry(body, mirrored) == want);
    }
    tally
}

// 7: over a limit, or a NaN.
fn limits() -> Tally {
    let mut tally = Tally::default();
    for (offset, want) in [(1000.0, 0), (1000.5, 7), (0.0 / 0.0, 7)] {
        let mate = Law::Mate { offset };
        tally = tally + Tally::from(on_ground(mate, 0.0, false) == want);
    }
    tally
}

// The number of k relations, of which the second has a fault.
fn later(k: usize) -> u32 {
    let a = end(Some(9), 0.0, false);
    let b = end(None, 0.0, false);
    let law = Law::Flush { offset: 0.0 };
    number(with_rel(k, 1, Rel { law, a, b }))
}

// A fault past the first relation, and past the first k.
fn faults() -> Tally {
    Tally::from(later(1) == 0) + Tally::from(later(2) == 6)
}

// 3, and what is accepted at the ends; 2,000 bytes are lent, which is 10 for more.
fn counts() -> Tally {
    let mut tally = Tally::default();
    for (m, k, want) in [(65, 0, 3), (0, 129, 3), (0, 0, 0), (64, 128, 10)] {
        tally = tally + Tally::from(number(plain(m, k)) == want);
    }
    tally
}

// How many scenes there are, and how many of them give another number.
pub fn known() -> Tally {
    names() + unused() + gears() + symmetries() + limits() + faults() + counts()
}
