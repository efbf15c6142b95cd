// The calls that need no iteration, exported for C: judging, `joint_reading` and `snap` of a sheet's relation. Each gives 0, or the number of the test that refuses it
// and then changes nothing lent. refusals' specs/Refusals.antt and specs/Calls.antt have the definitions.

ghost use Rattle.std.specs.Prelude.{◌≡◌, ◌++◌, ◌+◌, ◌*◌, ◌≤◌, ◌<◌, length, drop, IfOk};
ghost use Rattle.faults.specs.Fault.{number_of};
ghost use Rattle.vectors.specs.Vec.{vec};
ghost use Rattle.relations.specs.Model.{rel_of, pose, body_number};
ghost use Rattle.judging.specs.Judge.{reading};
ghost use Rattle.snapping.specs.Snap as snapping;
ghost use Rattle.scene.specs.Scene.{pose_doubles};
ghost use Rattle.format.specs.Format.{bodies_of, rel_start};
ghost use Rattle.refusals.specs.Refusals as spec;
ghost use Rattle.sheet.specs.Calls as calls;

use faults::fault::{Fault, number_of};
use format::refusals::sheet_fault;
use judging::judge::{Reading, joint_reading, judge};
use records::record::{body_at, rel_at, u16_at};
use relations::model::{Pose, Rel};
use scene::scene::put_pose;
use snapping::snap::{Motion, snap};
use vectors::vec::Vec3;

// Tests 1 to 7 and 14, then 13.
#[tactic(auto, using(format::proofs::RefusalLaws::sheet_passes, format::proofs::RefusalLaws::or_else_fault), unfolding(refusals::specs::Refusals::reading_fault))]
fn relation_fault(s: &[u8], relation: u16) -> Result<(), Fault>
    ensures { number_of result ≡ spec.reading_fault s.now relation }
{
    sheet_fault(s)?;
    if relation >= u16_at(s, 4) {
        return Err(Fault::Relation);
    }
    Ok(())
}

fn relation_of(s: &[u8], relation: u16) -> Rel
    requires { spec.reading_fault s.now relation ≡ 0 }
    ensures { rel_of result ≡ calls.relation_of s.now relation }
{
    let m = u16_at(s, 2) as usize;
    let j = relation as usize;
    rel_at(s, 24 + 136 * m + 264 * j)
}

#[tactic(auto, unfolding(crate::specs::Calls::pose_in))]
fn pose_in(s: &[u8], body: Option<usize>) -> Pose
    requires { rel_start (bodies_of s.now) 0 ≤ length s.now }
    ensures { pose result ≡ calls.pose_in s.now (body_number body) }
{
    let m = u16_at(s, 2) as usize;
    match body {
        Some(i) if i < m => Pose::of(body_at(s, 24 + 136 * i).frame),
        _ => Pose::GROUND,
    }
}

#[tactic(auto, unfolding(crate::specs::Calls::center_in))]
fn center_in(s: &[u8], body: Option<usize>) -> Vec3
    requires { rel_start (bodies_of s.now) 0 ≤ length s.now }
    ensures { vec result ≡ calls.center_in s.now (body_number body) }
{
    let m = u16_at(s, 2) as usize;
    match body {
        Some(i) if i < m => body_at(s, 24 + 136 * i).center,
        _ => Vec3::ZERO,
    }
}

fn reading_of(s: &[u8], relation: u16) -> Reading
    requires { spec.reading_fault s.now relation ≡ 0 }
    ensures { reading result ≡ calls.reading_of s.now relation }
{
    let rel = relation_of(s, relation);
    let qa = pose_in(s, rel.a.body);
    let qb = pose_in(s, rel.b.body);
    joint_reading(rel, qa, qb)
}

fn motion_of(s: &[u8], relation: u16) -> Motion
    requires { spec.reading_fault s.now relation ≡ 0 }
    ensures { snapping.motion result ≡ calls.motion_of s.now relation }
{
    let rel = relation_of(s, relation);
    let qa = pose_in(s, rel.a.body);
    let qb = pose_in(s, rel.b.body);
    let center = center_in(s, rel.b.body);
    snap(rel, qa, qb, center)
}

// Nine turning entries by row, then the position.
fn fill(d: &mut [f64], m: Motion)
    requires { 12 ≤ length d.old }
    ensures { d.new ≡ pose_doubles (snapping.motion m) ++ drop 12 d.old }
{
    put_pose(d, 0, Pose { r: m.r, t: m.t });
}

// `check`, then `check_tangent`.
#[tactic(auto, using(crate::proofs::CallLaws::judge_parts, format::proofs::RefusalLaws::or_else_fault))]
fn judged(sheet: &[u8], relation: u16) -> Result<(), Fault>
    ensures { number_of result ≡ spec.judge_fault sheet.now relation }
{
    relation_fault(sheet, relation)?;
    judge(relation_of(sheet, relation))
}

fn measured(sheet: &[u8], relation: u16) -> Result<Reading, Fault>
    ensures number { number_of result ≡ spec.reading_fault sheet.now relation }
    ensures value { IfOk result (λ r. reading r ≡ calls.reading_of sheet.now relation) }
{
    relation_fault(sheet, relation)?;
    Ok(reading_of(sheet, relation))
}

#[tactic(auto, using(crate::proofs::CallLaws::snap_short, crate::proofs::CallLaws::motion_short))]
fn snapped(sheet: &[u8], relation: u16, motion: &mut [f64]) -> Result<(), Fault>
    ensures { calls.SnapAnswer sheet.now relation (number_of result) motion.old motion.new }
{
    relation_fault(sheet, relation)?;
    if motion.len() < 12 {
        return Err(Fault::Room);
    }
    fill(motion, motion_of(sheet, relation));
    Ok(())
}

// Whether the relation suits its ends: `check`, then `check_tangent`.
#[unsafe(no_mangle)]
pub extern "C" fn sheet_judge(sheet: &[u8], relation: u16) -> u32
    ensures { result ≡ spec.judge_fault sheet.now relation }
{
    number_of(judged(sheet, relation))
}

// Where a joint stands, as its own offset and angle are measured.
#[unsafe(no_mangle)]
pub extern "C" fn sheet_joint_reading(
    sheet: &[u8],
    relation: u16,
    offset: &mut f64,
    angle: &mut f64,
) -> u32
    ensures { calls.ReadingAnswer sheet.now relation result (calls.reading_pair offset.old angle.old) (calls.reading_pair offset.new angle.new) }
{
    match measured(sheet, relation) {
        Ok(r) => {
            *offset = r.offset;
            *angle = r.angle;
            0
        }
        Err(fault) => fault.number(),
    }
}

// The motion of b's body that makes the relation hold by itself, as a pose.
#[unsafe(no_mangle)]
pub extern "C" fn sheet_snap(sheet: &[u8], relation: u16, motion: &mut [f64]) -> u32
    ensures { calls.SnapAnswer sheet.now relation result motion.old motion.new }
{
    number_of(snapped(sheet, relation, motion))
}
