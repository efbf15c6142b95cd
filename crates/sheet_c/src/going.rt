// Solving by rounds of a sheet, for C, each call by the function of the crate `sheet` under its name.

ghost use Rattle.sheet.specs.Solving as solving;
ghost use Rattle.sheet.specs.Going as going;

// Begins, and makes a portion of rounds. The caller holds the running state: how many unknowns and rows it has, the rounds done, the run, and its doubles.
#[unsafe(no_mangle)]
pub extern "C" fn sheet_solve_begin(
    sheet: &[u8],
    drag: u16,
    tolerance: f64,
    rounds: u32,
    limit: u32,
    weight: f64,
    portion: u32,
    unknowns: &mut u32,
    rows: &mut u32,
    done: &mut u32,
    run: &mut u8,
    state: &mut [f64],
    scratch: &mut [f64],
    poses: &mut [f64],
    frames: &mut [f64],
    errors: &mut [f64],
    converged: &mut u8,
) -> u32
    ensures { going.BeginAnswer sheet.now (solving.chosen tolerance rounds limit weight) drag portion result unknowns.old unknowns.new rows.old rows.new done.old done.new run.old run.new state.old state.new scratch.old scratch.new poses.old poses.new frames.old frames.new errors.old errors.new converged.old converged.new }
{
    sheet::going::sheet_solve_begin(
        sheet, drag, tolerance, rounds, limit, weight, portion, unknowns, rows, done, run, state,
        scratch, poses, frames, errors, converged,
    )
}

// Goes on from the state that the caller holds, and makes a portion of rounds.
#[unsafe(no_mangle)]
pub extern "C" fn sheet_solve_on(
    sheet: &[u8],
    drag: u16,
    tolerance: f64,
    rounds: u32,
    limit: u32,
    weight: f64,
    portion: u32,
    unknowns: u32,
    rows: u32,
    done: &mut u32,
    run: &mut u8,
    state: &mut [f64],
    scratch: &mut [f64],
    poses: &mut [f64],
    frames: &mut [f64],
    errors: &mut [f64],
    converged: &mut u8,
) -> u32
    ensures { going.OnAnswer sheet.now (solving.chosen tolerance rounds limit weight) drag portion result unknowns rows done.old done.new run.old run.new state.old state.new scratch.old scratch.new poses.old poses.new frames.old frames.new errors.old errors.new converged.old converged.new }
{
    sheet::going::sheet_solve_on(
        sheet, drag, tolerance, rounds, limit, weight, portion, unknowns, rows, done, run, state,
        scratch, poses, frames, errors, converged,
    )
}
