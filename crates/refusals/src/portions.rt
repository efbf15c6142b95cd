// The tests of solving by rounds: test 16, and a state that is short. specs/Refusals.antt has the definitions, specs/Parts.antt those of their parts.

ghost use Rattle.std.specs.Prelude.{◌≡◌, true};
ghost use Rattle.faults.specs.Fault.{number_of};
ghost use Rattle.scene.specs.Scene.{parameters_of};
ghost use Rattle.format.specs.Faults as faults;
ghost use Rattle.refusals.specs.Parts as parts;
ghost use Rattle.refusals.specs.Refusals as spec;

use crate::figures::{scene_in, state_length};
use crate::lent::{Lengths, call_fault, lent_fault};
use faults::fault::Fault;
use scene::parameters::Parameters;

// Test 16 of a call that goes on: the counts of unknowns and rows are the sheet's.
fn counts_fault(sheet: &[u8], unknowns: u32, rows: u32) -> Result<(), Fault>
    requires { faults.sheet_fault sheet.now ≡ 0 }
    ensures { number_of result ≡ faults.unless (spec.counts_fit sheet.now unknowns rows) 16 }
{
    let c = scene_in(sheet).scene;
    if unknowns as usize == c.n && rows as usize == c.rows {
        Ok(())
    } else {
        Err(Fault::Portion)
    }
}

// The tests from 16 on, for counts that are the sheet's.
#[tactic(auto, unfolding(crate::specs::Parts::portion_fault))]
fn portion_fault(sheet: &[u8], portion: u32, state: usize, lent: Lengths) -> Result<(), Fault>
    requires { faults.sheet_fault sheet.now ≡ 0 }
    ensures { number_of result ≡ parts.portion_fault sheet.now portion true state lent.scratch lent.poses lent.frames lent.errors }
{
    if !(1..=1000).contains(&portion) {
        return Err(Fault::Portion);
    }
    if state < state_length(sheet) {
        return Err(Fault::Room);
    }
    lent_fault(sheet, lent)
}

// The tests of a call that begins, in their order.
#[tactic(auto, using(crate::proofs::LentLaws::call_sheet, crate::proofs::PortionLaws::rounds_parts, format::proofs::RefusalLaws::or_else_fault))]
pub fn begin_fault(
    sheet: &[u8],
    q: Parameters,
    drag: u16,
    portion: u32,
    state: usize,
    lent: Lengths,
) -> Result<(), Fault>
    ensures { number_of result ≡ spec.begin_fault sheet.now (parameters_of q) drag portion state lent.scratch lent.poses lent.frames lent.errors }
{
    call_fault(sheet, q, drag)?;
    portion_fault(sheet, portion, state, lent)
}

// The tests of a call that goes on, in their order.
#[tactic(auto, using(crate::proofs::LentLaws::call_sheet, crate::proofs::PortionLaws::counted_parts, format::proofs::RefusalLaws::or_else_fault))]
pub fn on_fault(
    sheet: &[u8],
    q: Parameters,
    drag: u16,
    portion: u32,
    unknowns: u32,
    rows: u32,
    state: usize,
    lent: Lengths,
) -> Result<(), Fault>
    ensures { number_of result ≡ spec.on_fault sheet.now (parameters_of q) drag portion unknowns rows state lent.scratch lent.poses lent.frames lent.errors }
{
    call_fault(sheet, q, drag)?;
    counts_fault(sheet, unknowns, rows)?;
    portion_fault(sheet, portion, state, lent)
}
