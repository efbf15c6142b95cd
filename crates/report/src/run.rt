// A sheet's report: `solve` with no drag and 200 rounds a run, then `dof`, and the text of their answers or of the refusal. specs/ReportOf.antt has the definition.

ghost use Rattle.std.specs.Prelude.{◌≡◌, ◌≤◌, eqb, length};
ghost use Rattle.format.specs.Format.{bodies_of, relations_of};
ghost use Rattle.format.specs.Faults.{sheet_fault};
ghost use Rattle.writing.specs.Bytes.{Put};
ghost use Rattle.report.specs.Report.{answer_text};
ghost use Rattle.sheet.specs.Solving.{SolveWithAnswer};
ghost use Rattle.report.specs.ReportOf.{report_parameters, report_of};

use crate::text::{answer_text, refused_text};
use records::record::u16_at;
use sheet::freedoms::sheet_dof;
use sheet::solving::sheet_solve_with;
use vectors::tol;

// `solve` with no drag, by what `report` names.
fn solve(
    sheet: &[u8],
    scratch: &mut [f64],
    poses: &mut [f64],
    frames: &mut [f64],
    errors: &mut [f64],
    converged: &mut u8,
) -> u32
    ensures { SolveWithAnswer sheet.now report_parameters 65535 result scratch.old scratch.new poses.old poses.new frames.old frames.new errors.old errors.new converged.old converged.new }
{
    sheet_solve_with(
        sheet,
        0xFFFF,
        tol::ASSEMBLY,
        200,
        800,
        1e4,
        scratch,
        poses,
        frames,
        errors,
        converged,
    )
}

// The text of two answers, with as many relations and bodies as the sheet has.
fn answer(
    sheet: &[u8],
    out: &mut [u8],
    converged: u8,
    errors: &[f64],
    free: u32,
    freedoms: &[f64],
) -> usize
    requires sheet_value { sheet_fault sheet.now ≡ 0 }
    requires errors_len { length errors.now ≡ 128 }
    requires free_bound { free ≤ 768 }
    requires freedoms_len { length freedoms.now ≡ 1856 }
    requires in_bounds { 8192 ≤ length out.old }
    ensures { Put out.old out.new 0 result (answer_text (eqb converged 1) errors.now (relations_of sheet.now) free freedoms.now (bodies_of sheet.now)) }
{
    let m = u16_at(sheet, 2) as usize;
    let k = u16_at(sheet, 4) as usize;
    answer_text(out, converged == 1, errors, k, free, freedoms, m)
}

// Puts what `report` prints for the sheet to the front of `out`, and tells how many bytes it has. What is left in the other slices is open: they are working memory.
pub fn report(
    sheet: &[u8],
    scratch: &mut [f64],
    poses: &mut [f64],
    frames: &mut [f64],
    errors: &mut [f64],
    freedoms: &mut [f64],
    out: &mut [u8],
) -> usize
    requires scratch_len { length scratch.old ≡ 8192 }
    requires poses_len { length poses.old ≡ 768 }
    requires frames_len { length frames.old ≡ 768 }
    requires errors_len { length errors.old ≡ 128 }
    requires freedoms_len { length freedoms.old ≡ 1856 }
    requires in_bounds { 8192 ≤ length out.old }
    ensures { Put out.old out.new 0 result (report_of sheet.now) }
{
    let mut converged = 0u8;
    let first = solve(sheet, scratch, poses, frames, errors, &mut converged);
    if first != 0 {
        return refused_text(out, first);
    }
    let mut free = 0u32;
    let second = sheet_dof(sheet, scratch, freedoms, &mut free);
    if second != 0 {
        return refused_text(out, second);
    }
    answer(sheet, out, converged, errors, free, freedoms)
}
