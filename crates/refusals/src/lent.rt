// Tests 8, 15, 10 and 9: what a call of `solve` or `dof` takes. specs/Refusals.antt has the definitions, specs/Parts.antt those of their parts.

ghost use Rattle.std.specs.Prelude.{◌≡◌};
ghost use Rattle.faults.specs.Fault.{number_of};
ghost use Rattle.scene.specs.Scene.{parameters_of};
ghost use Rattle.scene.specs.Solve as solve;
ghost use Rattle.format.specs.Faults as faults;
ghost use Rattle.refusals.specs.Parts as parts;
ghost use Rattle.refusals.specs.Refusals as spec;

use crate::figures::{dof_scratch, solve_scratch};
use faults::fault::Fault;
use format::refusals::sheet_fault;
use records::record::u16_at;
use scene::parameters::Parameters;

// How many doubles a call of `solve` is lent.
#[derive(Clone, Copy, Debug, PartialEq, Eq)]
pub struct Lengths {
    pub scratch: usize,
    pub poses: usize,
    pub frames: usize,
    pub errors: usize,
}

// Test 8: the drag is a body's number, or 65535 for none.
#[tactic(auto, using(format::proofs::RefusalLaws::sheet_passes))]
fn drag_fault(sheet: &[u8], drag: u16) -> Result<(), Fault>
    requires { faults.sheet_fault sheet.now ≡ 0 }
    ensures { number_of result ≡ spec.drag_fault sheet.now drag }
{
    if drag == 0xFFFF || drag < u16_at(sheet, 2) {
        Ok(())
    } else {
        Err(Fault::Drag)
    }
}

// True if x is from lo to hi, both included; a NaN is not.
fn from_to(lo: f64, hi: f64, x: f64) -> bool
    ensures { result ≡ solve.from_to lo hi x }
{
    lo <= x && x <= hi
}

// True if every parameter is in its range.
#[tactic(auto, unfolding(scene::specs::Solve::in_range))]
fn in_range(q: Parameters) -> bool
    ensures { result ≡ solve.in_range (parameters_of q) }
{
    from_to(1e-12, 1e-3, q.tolerance)
        && (1..=1000).contains(&q.rounds)
        && (1..=800).contains(&q.limit)
        && from_to(1.0, 1e8, q.weight)
}

// Test 15.
fn parameters_fault(q: Parameters) -> Result<(), Fault>
    ensures { number_of result ≡ spec.parameters_fault (parameters_of q) }
{
    if in_range(q) {
        Ok(())
    } else {
        Err(Fault::Parameters)
    }
}

// What is tested before anything lent: the sheet, 8, 15.
#[tactic(auto, using(format::proofs::RefusalLaws::or_else_fault), unfolding(crate::specs::Parts::call_fault))]
pub fn call_fault(sheet: &[u8], q: Parameters, drag: u16) -> Result<(), Fault>
    ensures { number_of result ≡ parts.call_fault sheet.now (parameters_of q) drag }
{
    sheet_fault(sheet)?;
    drag_fault(sheet, drag)?;
    parameters_fault(q)
}

// True if no slice that `solve` fills is short.
#[tactic(auto, using(format::proofs::RefusalLaws::sheet_passes), unfolding(crate::specs::Parts::solve_long))]
fn solve_long(sheet: &[u8], lent: Lengths) -> bool
    requires { faults.sheet_fault sheet.now ≡ 0 }
    ensures { result ≡ parts.solve_long sheet.now lent.poses lent.frames lent.errors }
{
    let m = u16_at(sheet, 2) as usize;
    let k = u16_at(sheet, 4) as usize;
    lent.poses >= 12 * m && lent.frames >= 12 * m && lent.errors >= k
}

// Tests 10 and 9 of `solve`, by the lengths of what is lent.
#[tactic(auto, unfolding(crate::specs::Parts::lent_fault))]
pub fn lent_fault(sheet: &[u8], lent: Lengths) -> Result<(), Fault>
    requires { faults.sheet_fault sheet.now ≡ 0 }
    ensures { number_of result ≡ parts.solve_lent_fault sheet.now lent.scratch lent.poses lent.frames lent.errors }
{
    if !solve_long(sheet, lent) {
        return Err(Fault::Room);
    }
    if lent.scratch < solve_scratch(sheet) {
        return Err(Fault::Scratch);
    }
    Ok(())
}

// The tests of `solve` in their order, by what is chosen and the lengths of what is lent.
#[tactic(auto, using(crate::proofs::LentLaws::call_sheet, crate::proofs::LentLaws::solve_parts_lem, format::proofs::RefusalLaws::or_else_fault))]
pub fn solve_fault(sheet: &[u8], q: Parameters, drag: u16, lent: Lengths) -> Result<(), Fault>
    ensures { number_of result ≡ spec.solve_with_fault sheet.now (parameters_of q) drag lent.scratch lent.poses lent.frames lent.errors }
{
    call_fault(sheet, q, drag)?;
    lent_fault(sheet, lent)
}

// The tests of `dof` in their order, by the lengths of what is lent.
#[tactic(auto, using(format::proofs::RefusalLaws::sheet_passes, format::proofs::RefusalLaws::or_else_fault), unfolding(crate::specs::Refusals::dof_fault))]
pub fn dof_fault(sheet: &[u8], scratch: usize, freedoms: usize) -> Result<(), Fault>
    ensures { number_of result ≡ spec.dof_fault sheet.now scratch freedoms }
{
    sheet_fault(sheet)?;
    let m = u16_at(sheet, 2) as usize;
    if freedoms < 29 * m {
        return Err(Fault::Room);
    }
    if scratch < dof_scratch(sheet) {
        return Err(Fault::Scratch);
    }
    Ok(())
}
