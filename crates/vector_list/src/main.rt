// Replays the Rust's answers on rotations and frames, one list after another, and prints how many answers each list holds and how many of them differ here.
// All bits are compared; all NaNs are the same. data/ has the lists, whose formats oracle/FORMATS.md gives.

#![tactic(auto)]

mod frames;

use frames::{matrix, same_frame, same_matrix};
use lists::list::replay;
use lists::vector::vector;
use std::io;
use std::io::Read;
use vectors::math::{M3, frame_of, rotation_between};
use vectors::space::Frame;

fn exp(file: &mut impl Read) -> bool {
    let w = vector(file);
    same_matrix(file, M3::exp(w))
}

fn mul(file: &mut impl Read) -> bool {
    let a = matrix(file);
    let b = matrix(file);
    same_matrix(file, a.mul(b))
}

fn between(file: &mut impl Read) -> bool {
    let from = vector(file);
    let to = vector(file);
    same_matrix(file, rotation_between(from, to))
}

fn new(file: &mut impl Read) -> bool {
    let origin = vector(file);
    let z = vector(file);
    let x_hint = vector(file);
    same_frame(file, Frame::new(origin, z, x_hint))
}

fn from_normal(file: &mut impl Read) -> bool {
    let origin = vector(file);
    let z = vector(file);
    same_frame(file, Frame::from_normal(origin, z))
}

fn of(file: &mut impl Read) -> bool {
    let m = matrix(file);
    let origin = vector(file);
    same_frame(file, frame_of(m, origin))
}

fn main(rt: HostRuntime) -> io::Result<()> {
    replay(&rt, "exp.bin", exp)?;
    replay(&rt, "m3_mul.bin", mul)?;
    replay(&rt, "rotation_between.bin", between)?;
    replay(&rt, "frame_new.bin", new)?;
    replay(&rt, "from_normal.bin", from_normal)?;
    replay(&rt, "frame_of.bin", of)
}
