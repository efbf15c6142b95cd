// `dof` of a sheet, exported for C: 0, or the number of the test that refuses it; then nothing lent has changed. refusals' specs/Refusals.antt and specs/Freedoms.antt have the
// definitions.

ghost use Rattle.faults.specs.Fault.{number_of};
ghost use Rattle.sheet.specs.Freedoms as spec;

use faults::fault::{Fault, number_of};
use freedom::dof::dof;
use refusals::figures::scene_in;
use refusals::lent::dof_fault;

fn freed(
    sheet: &[u8],
    scratch: &mut [f64],
    freedoms: &mut [f64],
    free: &mut u32,
) -> Result<(), Fault>
    ensures { spec.DofAnswer sheet.now (number_of result) scratch.old scratch.new freedoms.old freedoms.new free.old free.new }
{
    dof_fault(sheet, scratch.len(), freedoms.len())?;
    *free = dof(scene_in(sheet), scratch, freedoms) as u32;
    Ok(())
}

// What each body may do with the others held still, and how much freedom the whole assembly has.
#[unsafe(no_mangle)]
pub extern "C" fn sheet_dof(
    sheet: &[u8],
    scratch: &mut [f64],
    freedoms: &mut [f64],
    free: &mut u32,
) -> u32
    ensures { spec.DofAnswer sheet.now result scratch.old scratch.new freedoms.old freedoms.new free.old free.new }
{
    number_of(freed(sheet, scratch, freedoms, free))
}
