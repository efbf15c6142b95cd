// `solve` of a sheet, for C, each call by the function of the crate `sheet` under its name.

ghost use Rattle.sheet.specs.Solving as solving;

// A call that chooses nothing: the tolerance is 1e-9, and there are at most two runs of 60 rounds.
#[unsafe(no_mangle)]
pub extern "C" fn sheet_solve(
    sheet: &[u8],
    drag: u16,
    scratch: &mut [f64],
    poses: &mut [f64],
    frames: &mut [f64],
    errors: &mut [f64],
    converged: &mut u8,
) -> u32
    ensures { solving.SolveAnswer sheet.now drag result scratch.old scratch.new poses.old poses.new frames.old frames.new errors.old errors.new converged.old converged.new }
{
    sheet::solving::sheet_solve(sheet, drag, scratch, poses, frames, errors, converged)
}

// A call that chooses the tolerance, the most rounds of one run, the most rows that are iterated, and the weight of the dragged body.
#[unsafe(no_mangle)]
pub extern "C" fn sheet_solve_with(
    sheet: &[u8],
    drag: u16,
    tolerance: f64,
    rounds: u32,
    limit: u32,
    weight: f64,
    scratch: &mut [f64],
    poses: &mut [f64],
    frames: &mut [f64],
    errors: &mut [f64],
    converged: &mut u8,
) -> u32
    ensures { solving.SolveWithAnswer sheet.now (solving.chosen tolerance rounds limit weight) drag result scratch.old scratch.new poses.old poses.new frames.old frames.new errors.old errors.new converged.old converged.new }
{
    sheet::solving::sheet_solve_with(
        sheet, drag, tolerance, rounds, limit, weight, scratch, poses, frames, errors, converged,
    )
}
