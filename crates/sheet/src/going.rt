// Solving by rounds of a sheet, exported for C: 0, or the number of the test that refuses the call; then nothing lent has changed. refusals' specs/Refusals.antt and
// specs/Going.antt have the definitions.

ghost use Rattle.faults.specs.Fault.{number_of};
ghost use Rattle.scene.specs.Scene.{parameters_of};
ghost use Rattle.sheet.specs.Solving as solving;
ghost use Rattle.sheet.specs.Going as going;

use crate::solving::{drag_body, flag};
use by_rounds::calls::{solve_begin, solve_on};
use faults::fault::{Fault, number_of};
use refusals::figures::scene_in;
use refusals::lent::Lengths;
use refusals::portions::{begin_fault, on_fault};
use scene::parameters::Parameters;

// Begins by what is chosen.
fn begin_by(
    sheet: &[u8],
    q: Parameters,
    drag: u16,
    portion: u32,
    unknowns: &mut u32,
    rows: &mut u32,
    done: &mut u32,
    run: &mut u8,
    state: &mut [f64],
    scratch: &mut [f64],
    poses: &mut [f64],
    frames: &mut [f64],
    errors: &mut [f64],
    converged: &mut u8,
) -> Result<(), Fault>
    ensures { going.BeginAnswer sheet.now (parameters_of q) drag portion (number_of result) unknowns.old unknowns.new rows.old rows.new done.old done.new run.old run.new state.old state.new scratch.old scratch.new poses.old poses.new frames.old frames.new errors.old errors.new converged.old converged.new }
{
    let lent = Lengths {
        scratch: scratch.len(),
        poses: poses.len(),
        frames: frames.len(),
        errors: errors.len(),
    };
    begin_fault(sheet, q, drag, portion, state.len(), lent)?;
    let held = scene_in(sheet);
    let place = drag_body(drag);
    let portion = portion as usize;
    let e = solve_begin(
        held, scratch, q, place, portion, state, poses, frames, errors,
    );
    *unknowns = held.scene.n as u32;
    *rows = held.scene.rows as u32;
    *done = e.done;
    *run = e.run;
    *converged = flag(e.converged);
    Ok(())
}

// Goes on by what is chosen.
fn on_by(
    sheet: &[u8],
    q: Parameters,
    drag: u16,
    portion: u32,
    unknowns: u32,
    rows: u32,
    done: &mut u32,
    run: &mut u8,
    state: &mut [f64],
    scratch: &mut [f64],
    poses: &mut [f64],
    frames: &mut [f64],
    errors: &mut [f64],
    converged: &mut u8,
) -> Result<(), Fault>
    ensures { going.OnAnswer sheet.now (parameters_of q) drag portion (number_of result) unknowns rows done.old done.new run.old run.new state.old state.new scratch.old scratch.new poses.old poses.new frames.old frames.new errors.old errors.new converged.old converged.new }
{
    let lent = Lengths {
        scratch: scratch.len(),
        poses: poses.len(),
        frames: frames.len(),
        errors: errors.len(),
    };
    on_fault(sheet, q, drag, portion, unknowns, rows, state.len(), lent)?;
    let held = scene_in(sheet);
    let place = drag_body(drag);
    let portion = portion as usize;
    let e = solve_on(
        held, scratch, q, place, portion, *done, *run, state, poses, frames, errors,
    );
    *done = e.done;
    *run = e.run;
    *converged = flag(e.converged);
    Ok(())
}

// Begins, and makes a portion of rounds. The caller holds the running state: how many unknowns and rows it has, the rounds done, the run, and its doubles.
#[unsafe(no_mangle)]
pub extern "C" fn sheet_solve_begin(
    sheet: &[u8],
    drag: u16,
    tolerance: f64,
    rounds: u32,
    limit: u32,
    weight: f64,
    portion: u32,
    unknowns: &mut u32,
    rows: &mut u32,
    done: &mut u32,
    run: &mut u8,
    state: &mut [f64],
    scratch: &mut [f64],
    poses: &mut [f64],
    frames: &mut [f64],
    errors: &mut [f64],
    converged: &mut u8,
) -> u32
    ensures { going.BeginAnswer sheet.now (solving.chosen tolerance rounds limit weight) drag portion result unknowns.old unknowns.new rows.old rows.new done.old done.new run.old run.new state.old state.new scratch.old scratch.new poses.old poses.new frames.old frames.new errors.old errors.new converged.old converged.new }
{
    let q = Parameters {
        tolerance,
        rounds: rounds as usize,
        limit: limit as usize,
        weight,
    };
    number_of(begin_by(
        sheet, q, drag, portion, unknowns, rows, done, run, state, scratch, poses, frames, errors,
        converged,
    ))
}

// Goes on from the state that the caller holds, and makes a portion of rounds.
#[unsafe(no_mangle)]
pub extern "C" fn sheet_solve_on(
    sheet: &[u8],
    drag: u16,
    tolerance: f64,
    rounds: u32,
    limit: u32,
    weight: f64,
    portion: u32,
    unknowns: u32,
    rows: u32,
    done: &mut u32,
    run: &mut u8,
    state: &mut [f64],
    scratch: &mut [f64],
    poses: &mut [f64],
    frames: &mut [f64],
    errors: &mut [f64],
    converged: &mut u8,
) -> u32
    ensures { going.OnAnswer sheet.now (solving.chosen tolerance rounds limit weight) drag portion result unknowns rows done.old done.new run.old run.new state.old state.new scratch.old scratch.new poses.old poses.new frames.old frames.new errors.old errors.new converged.old converged.new }
{
    let q = Parameters {
        tolerance,
        rounds: rounds as usize,
        limit: limit as usize,
        weight,
    };
    number_of(on_by(
        sheet, q, drag, portion, unknowns, rows, done, run, state, scratch, poses, frames, errors,
        converged,
    ))
}
