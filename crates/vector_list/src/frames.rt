// Matrices and frames of a list. No contract says what a file holds, so what is read, and whether an answer is what was read, is open.

use lists::list::word;
use lists::vector::{same_vector, vector};
use std::io::Read;
use vectors::math::M3;
use vectors::space::Frame;
use vectors::vec::Vec3;

pub fn matrix(file: &mut impl Read) -> M3 {
    let r0 = vector(file);
    let r1 = vector(file);
    let r2 = vector(file);
    M3 { r0, r1, r2 }
}

pub fn same_matrix(file: &mut impl Read, m: M3) -> bool {
    same_vector(file, m.r0) & same_vector(file, m.r1) & same_vector(file, m.r2)
}

fn same_axes(file: &mut impl Read, origin: Vec3, x: Vec3, y: Vec3, z: Vec3) -> bool {
    same_vector(file, origin) & same_vector(file, x) & same_vector(file, y) & same_vector(file, z)
}

fn same_made(file: &mut impl Read, f: Frame) -> bool {
    same_axes(file, f.origin, f.x, f.y, f.z)
}

// 1 and the frame, or 0 for none, which twelve words of 0 follow.
pub fn same_frame(file: &mut impl Read, f: Option<Frame>) -> bool {
    let present = word(file);
    match f {
        Some(f) => same_made(file, f) & (present == 1),
        None => same_axes(file, Vec3::ZERO, Vec3::ZERO, Vec3::ZERO, Vec3::ZERO) & (present == 0),
    }
}
