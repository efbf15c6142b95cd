// `solve` of a sheet, exported for C: 0, or the number of the test that refuses it; then nothing lent has changed. refusals' specs/Refusals.antt and specs/Solving.antt have the
// definitions.

ghost use Rattle.std.specs.Prelude.{◌≡◌};
ghost use Rattle.faults.specs.Fault.{number_of};
ghost use Rattle.relations.specs.Model.{body_number};
ghost use Rattle.records.specs.Numbers.{flag_number};
ghost use Rattle.scene.specs.Scene.{parameters_of};
ghost use Rattle.sheet.specs.Solving as solving;

use faults::fault::{Fault, number_of};
use placement::solve::solve;
use refusals::figures::scene_in;
use refusals::lent::{Lengths, solve_fault};
use scene::parameters::{Parameters, plain};

// The dragged body; 65535 is none.
#[tactic(auto, using(crate::proofs::SolvingLaws::drag_ground, crate::proofs::SolvingLaws::drag_body))]
pub fn drag_body(drag: u16) -> Option<usize>
    ensures { body_number result ≡ solving.drag_of drag }
{
    (drag != 0xFFFF).then_some(drag as usize)
}

// A flag as a byte.
pub fn flag(ok: bool) -> u8
    ensures { result ≡ flag_number ok }
{
    u8::from(ok)
}

// Where each body stands, how far off each relation is, and whether all are within the tolerance, by what is chosen.
fn solve_by(
    sheet: &[u8],
    q: Parameters,
    drag: u16,
    scratch: &mut [f64],
    poses: &mut [f64],
    frames: &mut [f64],
    errors: &mut [f64],
    converged: &mut u8,
) -> Result<(), Fault>
    ensures { solving.SolveWithAnswer sheet.now (parameters_of q) drag (number_of result) scratch.old scratch.new poses.old poses.new frames.old frames.new errors.old errors.new converged.old converged.new }
{
    let lent = Lengths {
        scratch: scratch.len(),
        poses: poses.len(),
        frames: frames.len(),
        errors: errors.len(),
    };
    solve_fault(sheet, q, drag, lent)?;
    let held = scene_in(sheet);
    let place = drag_body(drag);
    let ok = solve(held, scratch, q, place, poses, frames, errors);
    *converged = flag(ok);
    Ok(())
}

// A call that chooses nothing: the tolerance is 1e-9, and there are at most two runs of 60 rounds.
#[unsafe(no_mangle)]
pub extern "C" fn sheet_solve(
    sheet: &[u8],
    drag: u16,
    scratch: &mut [f64],
    poses: &mut [f64],
    frames: &mut [f64],
    errors: &mut [f64],
    converged: &mut u8,
) -> u32
    ensures { solving.SolveAnswer sheet.now drag result scratch.old scratch.new poses.old poses.new frames.old frames.new errors.old errors.new converged.old converged.new }
{
    number_of(solve_by(
        sheet,
        plain(),
        drag,
        scratch,
        poses,
        frames,
        errors,
        converged,
    ))
}

// A call that chooses the tolerance, the most rounds of one run, the most rows that are iterated, and the weight of the dragged body.
#[unsafe(no_mangle)]
pub extern "C" fn sheet_solve_with(
    sheet: &[u8],
    drag: u16,
    tolerance: f64,
    rounds: u32,
    limit: u32,
    weight: f64,
    scratch: &mut [f64],
    poses: &mut [f64],
    frames: &mut [f64],
    errors: &mut [f64],
    converged: &mut u8,
) -> u32
    ensures { solving.SolveWithAnswer sheet.now (solving.chosen tolerance rounds limit weight) drag result scratch.old scratch.new poses.old poses.new frames.old frames.new errors.old errors.new converged.old converged.new }
{
    let q = Parameters {
        tolerance,
        rounds: rounds as usize,
        limit: limit as usize,
        weight,
    };
    number_of(solve_by(sheet, q, drag, scratch, poses, frames, errors, converged))
}
