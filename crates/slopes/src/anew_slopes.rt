// The slopes of the rows along each unknown, by differences: as an unknown of a body moves, only that body's pose and the rows of the relations that name the body change. So the slopes
// are +0 at first, and each body's six columns are worked from its poses a step ahead and a step behind along each of its unknowns.
// `specs/AnewSlopes.antt` has what stands where. What is left in the places from `poses` on is open: it is scratch.

ghost use Rattle.std.specs.Prelude.{◌≡◌, ◌+◌, ◌*◌, ◌≤◌, ◌<◌, length, get_or};
ghost use Rattle.std.proofs.Math.Option.{none, some};
ghost use Rattle.relations.specs.Model.{body_of, pose};
ghost use Rattle.least_squares.specs.Memory.{part};
ghost use Rattle.scene.specs.Solve as definitions;
ghost use Rattle.scene.specs.Scene.{Slopes};
ghost use Rattle.scene.specs.Sheet.{sheet_scene};
ghost use Rattle.slopes.specs.AnewSlopes as spec;

use crate::moved::named_columns;
use crate::slopes::step_of;
use relations::model::{Body, Pose};
use scene::scene::{Sheet, clear, moved_pose, put_pose};
use vectors::vec::Vec3;

// Where things stand: the unknowns, the slopes, the poses.
#[derive(Clone, Copy)]
pub struct SlopeParts {
    pub x: usize,
    pub slopes: usize,
    pub poses: usize,
}

// The six doubles from o on.
fn six_at(s: &[f64], o: usize) -> [f64; 6]
    requires { o + 6 ≤ length s.now }
    ensures { result ≡ part s.now o 6 }
{
    [s[o], s[o + 1], s[o + 2], s[o + 3], s[o + 4], s[o + 5]]
}

// The pose of a body that moves, at its six unknowns.
#[tactic(auto, unfolding(scene::specs::Solve::pose_at))]
fn six_pose(b: Body, x: [f64; 6]) -> Pose
    ensures { pose result ≡ definitions.pose_at x (body_of b) (some 0) }
{
    let t = Vec3 {
        x: x[0],
        y: x[1],
        z: x[2],
    };
    let w = Vec3 {
        x: x[3],
        y: x[4],
        z: x[5],
    };
    moved_pose(b, t, w)
}

// A body's poses with its unknown e a step ahead and a step behind, each to its twelve places; the step.
fn put_moved(moved: &mut [f64], b: Body, x: [f64; 6], e: usize) -> f64
    requires in_bounds { 144 ≤ length moved.old }
    requires e_bound { e < 6 }
    ensures { spec.MovedAlong (body_of b) x moved.old moved.new e result }
{
    let mut y = x;
    let v = x[e];
    let h = step_of(v);
    y[e] = v + h;
    put_pose(moved, 12 * e, six_pose(b, y));
    y[e] = v - h;
    put_pose(moved, 72 + 12 * e, six_pose(b, y));
    h
}

// The same for each of its six unknowns; the steps.
fn moved_poses(moved: &mut [f64], b: Body, x: [f64; 6]) -> [f64; 6]
    requires { 144 ≤ length moved.old }
    ensures { spec.MovedAll (body_of b) x moved.old moved.new result }
{
    let mut steps = [0.0; 6];
    for e in 0usize..6 {
        steps[e] = put_moved(moved, b, x, e);
    }
    steps
}

// The six columns of body i, whose first unknown is k.
fn body_columns(sheet: Sheet, s: &mut [f64], at: SlopeParts, i: usize, k: usize)
    requires apart { spec.Apart sheet.scene at (length s.old) }
    requires i_lt_m { (i < sheet.scene.m) × (k + 6 ≤ sheet.scene.n) }
    requires none_value { get_or (definitions.layout (sheet_scene sheet)) i none ≡ some k }
    requires standing { spec.Standing (sheet_scene sheet) sheet.scene at s.old k }
    ensures { spec.ColumnsFrom (sheet_scene sheet.entry) sheet.entry.scene at s.old s.new k (k + 6) }
{
    let b = sheet.body(i);
    let x = six_at(s, at.x + k);
    let mut moved = [0.0; 144];
    let steps = moved_poses(&mut moved, b, x);
    named_columns(
        sheet,
        s,
        at.poses,
        i,
        &moved,
        steps,
        at.slopes + k,
        sheet.scene.n,
    );
}

// The columns of body i, none where it has no unknowns.
fn anew_body(sheet: Sheet, s: &mut [f64], at: SlopeParts, i: usize)
    requires apart { spec.Apart sheet.scene at (length s.old) }
    requires i_lt_m { i < sheet.scene.m }
    requires standing { spec.Standing (sheet_scene sheet) sheet.scene at s.old (spec.given (sheet_scene sheet) i) }
    ensures { spec.ColumnsFrom (sheet_scene sheet.entry) sheet.entry.scene at s.old s.new (spec.given (sheet_scene sheet.entry) i) (spec.given (sheet_scene sheet.entry) (i + 1)) }
{
    let first = sheet.scene.index[i];
    let Some(k) = first else {
        return;
    };
    body_columns(sheet, s, at, i, k as usize);
}

// The slopes of the rows at the unknowns. Below the poses nothing else changes.
pub fn slopes(sheet: Sheet, s: &mut [f64], at: SlopeParts)
    requires apart { spec.Apart sheet.scene at (length s.old) }
    ensures { Slopes (sheet_scene sheet.entry) s.old s.new at.slopes sheet.entry.scene.n sheet.entry.scene.rows at.x at.poses }
{
    clear(s, at.slopes, sheet.scene.rows * sheet.scene.n);
    sheet.poses_at(s, at.x, at.poses);
    let m = sheet.scene.m;
    for i in 0..m {
        anew_body(sheet, s, at, i);
    }
}
