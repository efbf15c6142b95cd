// Scenes as the solver's structs: a sheet's bodies and relations are read, and saved again; and scenes whose number is known.

ghost use Rattle.std.specs.Prelude.{◌+◌, ◌*◌, ◌≤◌, length, ◌≡◌};
ghost use Rattle.write_list.specs.Structs as spec;

use faults::fault::number_of;
use records::record::{body_at, rel_at};
use relations::geometry::Primitive;
use relations::model::{Body, End, Law, Rel};
use saving::save::{Scene, save};
use vectors::space::Frame;
use vectors::vec::Vec3;

const BODY: Body = Body {
    frame: Frame::WORLD,
    fixed: false,
    center: Vec3::ZERO,
    size: 2.0,
};

// A point on the ground.
const GROUND: End = End {
    body: None,
    prim: Primitive::Point(Vec3::ZERO),
    radius: 0.0,
    mirrored: false,
};

const MATE: Rel = Rel {
    law: Law::Mate { offset: 0.0 },
    a: GROUND,
    b: GROUND,
};

// m bodies like one another and k mates of the ground.
pub fn plain(m: usize, k: usize) -> Scene
    ensures { result ≡ spec.plain m k }
{
    Scene {
        m,
        k,
        bodies: [BODY; 64],
        rels: [MATE; 128],
    }
}

fn with_bodies(scene: Scene, s: &[u8], m: usize) -> Scene
    requires m_bound { m ≤ 64 }
    requires m_in_bounds { 24 + 136 * m ≤ length s.now }
{
    let mut read = scene;
    for i in 0..m {
        read.bodies[i] = body_at(s, 24 + 136 * i);
    }
    read
}

fn with_rels(scene: Scene, s: &[u8], m: usize, k: usize) -> Scene
    requires m_bound { m ≤ 64 }
    requires k_bound { k ≤ 128 }
    requires k_in_bounds { 24 + 136 * m + 264 * k ≤ length s.now }
{
    let mut read = scene;
    for j in 0..k {
        read.rels[j] = rel_at(s, 24 + 136 * m + 264 * j);
    }
    read
}

// Reads a sheet of m bodies and k relations, and saves it to `out`.
pub fn saved_again(s: &[u8], m: usize, k: usize, out: &mut [u8]) -> u32
    requires m_bound { m ≤ 64 }
    requires k_bound { k ≤ 128 }
    requires k_in_bounds { 24 + 136 * m + 264 * k ≤ length s.now }
{
    let empty = plain(m, k);
    let bodies = with_bodies(empty, s, m);
    let scene = with_rels(bodies, s, m, k);
    number_of(save(scene, out))
}
