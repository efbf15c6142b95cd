// The calls that need no iteration, for C: judging, `joint_reading` and `snap` of a sheet's relation, each by the function of the crate `sheet` under its name.

ghost use Rattle.std.specs.Prelude.{◌≡◌};
ghost use Rattle.refusals.specs.Refusals as spec;
ghost use Rattle.sheet.specs.Calls as calls;

// Whether the relation suits its ends: `check`, then `check_tangent`.
#[unsafe(no_mangle)]
pub extern "C" fn sheet_judge(sheet: &[u8], relation: u16) -> u32
    ensures { result ≡ spec.judge_fault sheet.now relation }
{
    sheet::calls::sheet_judge(sheet, relation)
}

// Where a joint stands, as its own offset and angle are measured.
#[unsafe(no_mangle)]
pub extern "C" fn sheet_joint_reading(
    sheet: &[u8],
    relation: u16,
    offset: &mut f64,
    angle: &mut f64,
) -> u32
    ensures { calls.ReadingAnswer sheet.now relation result (calls.reading_pair offset.old angle.old) (calls.reading_pair offset.new angle.new) }
{
    sheet::calls::sheet_joint_reading(sheet, relation, offset, angle)
}

// The motion of b's body that makes the relation hold by itself, as a pose.
#[unsafe(no_mangle)]
pub extern "C" fn sheet_snap(sheet: &[u8], relation: u16, motion: &mut [f64]) -> u32
    ensures { calls.SnapAnswer sheet.now relation result motion.old motion.new }
{
    sheet::calls::sheet_snap(sheet, relation, motion)
}
