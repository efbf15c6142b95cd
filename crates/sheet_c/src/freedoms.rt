// `dof` of a sheet, for C, by the function of the crate `sheet` under its name.

ghost use Rattle.sheet.specs.Freedoms as spec;

// What each body may do with the others held still, and how much freedom the whole assembly has.
#[unsafe(no_mangle)]
pub extern "C" fn sheet_dof(
    sheet: &[u8],
    scratch: &mut [f64],
    freedoms: &mut [f64],
    free: &mut u32,
) -> u32
    ensures { spec.DofAnswer sheet.now result scratch.old scratch.new freedoms.old freedoms.new free.old free.new }
{
    sheet::freedoms::sheet_dof(sheet, scratch, freedoms, free)
}
