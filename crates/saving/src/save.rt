// A scene in memory, tested and saved. specs/Saving.antt has the definitions.

ghost use Rattle.std.specs.Prelude.{◌≡◌, ◌+◌, ◌*◌, ◌≤◌, ◌<◌, length};
ghost use Rattle.faults.specs.Fault.{number_of};
ghost use Rattle.relations.specs.Model.{body_of, rel_of};
ghost use Rattle.writing.specs.Bytes.{joined, Put};
ghost use Rattle.writing.specs.Writing as writing;
ghost use Rattle.saving.specs.Saving as spec;
ghost use Rattle.saving.specs.Saved as saved;

use crate::parts::{body_bytes, body_numbers, rel_bytes, rel_numbers, rel_words};
use faults::fault::Fault;
use relations::model::{Body, Rel};
use writing::bytes::{put_body, put_header, put_rel};
use writing::write::{body_parts_fault, counts_fault, rel_parts_fault, room_fault};

// The bodies below m and the relations below k; what stands past them has no say.
#[derive(Clone, Copy)]
pub struct Scene {
    pub m: usize,
    pub k: usize,
    pub bodies: [Body; 64],
    pub rels: [Rel; 128],
}

fn saved_body_fault(b: Body) -> Result<(), Fault>
    ensures { saved.BodySaved (body_of b) (number_of result) }
{
    let bytes = body_bytes(b);
    let numbers = body_numbers(b);
    body_parts_fault(&bytes, &numbers)
}

fn saved_rel_fault(m: usize, r: Rel) -> Result<(), Fault>
    ensures { saved.RelSaved m (rel_of r) (number_of result) }
{
    let bytes = rel_bytes(r);
    let words = rel_words(r);
    let numbers = rel_numbers(r);
    rel_parts_fault(m, &bytes, &words, &numbers)
}

fn put_saved_body(out: &mut [u8], at: usize, b: Body) -> usize
    requires { at + 136 ≤ length out.old }
    ensures { (result ≡ at + 136) × Put out.old out.new at result (writing.body_bytes (spec.body_parts (body_of b))) }
{
    let bytes = body_bytes(b);
    let numbers = body_numbers(b);
    put_body(out, at, &bytes, &numbers)
}

fn put_saved_rel(out: &mut [u8], at: usize, r: Rel) -> usize
    requires { at + 264 ≤ length out.old }
    ensures { (result ≡ at + 264) × Put out.old out.new at result (writing.rel_bytes (spec.rel_parts (rel_of r))) }
{
    let bytes = rel_bytes(r);
    let words = rel_words(r);
    let numbers = rel_numbers(r);
    put_rel(out, at, &bytes, &words, &numbers)
}

impl Scene {
    // The first fault among the bodies. All are tested: the parts of each are then known to be numbers of the machine.
    fn bodies_fault(&self) -> Result<(), Fault>
        requires { self.now.m ≤ 64 }
        ensures { saved.BodiesSaved self.now self.now.m (number_of result) }
    {
        let mut fault = Ok(());
        for i in 0..self.m {
            fault = fault.and(saved_body_fault(self.bodies[i]));
        }
        fault
    }

    // The first fault among the relations, all of which are tested.
    fn rels_fault(&self) -> Result<(), Fault>
        requires { self.now.k ≤ 128 }
        ensures { saved.RelsSaved self.now self.now.k (number_of result) }
    {
        let mut fault = Ok(());
        for j in 0..self.k {
            fault = fault.and(saved_rel_fault(self.m, self.rels[j]));
        }
        fault
    }

    // Tests 3, 5, 14, 6, 7 and 10 of a scene that is to be saved to `room` bytes.
    fn fault(&self, room: usize) -> Result<(), Fault>
        ensures { saved.SceneSaved self.now room (number_of result) }
    {
        counts_fault(self.m, self.k)?;
        let records = self.bodies_fault().and(self.rels_fault());
        records.and(room_fault(self.m, self.k, room))
    }

    fn put_bodies(&self, out: &mut [u8], at: usize) -> usize
        requires m_bound { self.now.m ≤ 64 }
        requires m_in_bounds { at + 136 * self.now.m ≤ length out.old }
        ensures { (result ≡ at + 136 * self.now.m) × Put out.old out.new at result (joined (λ i. writing.body_bytes (spec.body_parts (saved.body_in self.now i))) self.now.m) }
    {
        let mut next = at;
        for i in 0..self.m {
            next = put_saved_body(out, next, self.bodies[i]);
        }
        next
    }

    fn put_rels(&self, out: &mut [u8], at: usize) -> usize
        requires k_bound { self.now.k ≤ 128 }
        requires k_in_bounds { at + 264 * self.now.k ≤ length out.old }
        ensures { (result ≡ at + 264 * self.now.k) × Put out.old out.new at result (joined (λ j. writing.rel_bytes (spec.rel_parts (saved.rel_in self.now j))) self.now.k) }
    {
        let mut next = at;
        for j in 0..self.k {
            next = put_saved_rel(out, next, self.rels[j]);
        }
        next
    }

    // Puts the sheet's bytes, from its first on.
    fn put(&self, out: &mut [u8]) -> usize
        requires m_bound { self.now.m ≤ 64 }
        requires k_bound { self.now.k ≤ 128 }
        requires k_in_bounds { 24 + 136 * self.now.m + 264 * self.now.k ≤ length out.old }
        ensures { (result ≡ 24 + 136 * self.now.m + 264 * self.now.k) × Put out.old out.new 0 result (writing.sheet_bytes (saved.parts_of self.now)) }
    {
        let a = put_header(out, 0, self.m, self.k);
        let b = self.put_bodies(out, a);
        self.put_rels(out, b)
    }
}

// Saves the scene as its sheet, unless a test refuses it; then nothing has changed.
pub fn save(scene: Scene, sheet: &mut [u8]) -> Result<(), Fault>
    ensures { saved.SaveAnswer scene (number_of result) sheet.old sheet.new }
{
    scene.fault(sheet.len())?;
    scene.put(sheet);
    Ok(())
}
