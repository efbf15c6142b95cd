// Vectors of a list: x, y, z.

use crate::answers::same;
use crate::list::{double, word};
use std::io::Read;
use vectors::vec::Vec3;

pub fn vector(file: &mut impl Read) -> Vec3 {
    Vec3 {
        x: double(file),
        y: double(file),
        z: double(file),
    }
}

// Whether v is the list's next.
pub fn same_vector(file: &mut impl Read, v: Vec3) -> bool {
    let x = same(v.x, word(file));
    let y = same(v.y, word(file));
    let z = same(v.z, word(file));
    x & y & z
}
