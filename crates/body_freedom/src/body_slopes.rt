// The slopes of one body's rows along its six unknowns, the other bodies held still, and their six by six: `dof` and `body_dof` of solve.rs.
// `specs/BodySlopes.antt` has the definitions.

ghost use Rattle.std.specs.Prelude.{◌≡◌, false, ◌+◌, ◌*◌, ◌≤◌, ◌<◌, length, set};
ghost use Rattle.spans.specs.Flat.{flat};
ghost use Rattle.relations.specs.Model.{body_of, pose_of_frame, pose};
ghost use Rattle.records.specs.Record as format;
ghost use Rattle.least_squares.specs.Filled.{Filled, FiniteAt};
ghost use Rattle.least_squares.specs.Lm as lm;
ghost use Rattle.scene.specs.Scene.{pose_doubles, poses_doubles, poses_in, Put};
ghost use Rattle.scene.specs.Sheet.{sheet_scene};
ghost use Rattle.slopes.specs.Moved.{Room};
ghost use Rattle.body_freedom.specs.Dof.{columns_times, square_of, zeros};
ghost use Rattle.body_freedom.specs.BodySlopes as spec;

use crate::square::columns_times;
use judging::count::row_count;
use least_squares::zeros::filled;
use records::record::rel_at;
use relations::model::{Body, Pose};
use scene::scene::{Scene, Sheet, half_size, moved_pose, names, put_pose};
use slopes::moved::rel_columns;
use slopes::slopes::step_of;
use vectors::vec::Vec3;

// Where the parts stand in the scratch that is lent from the slopes on; the slopes stand at 0. `BodyApart` says what each is for.
#[derive(Clone, Copy)]
pub struct BodyParts {
    pub poses: usize,
}

// The parts, each from where the last ended.
pub fn body_parts(scene: Scene) -> BodyParts
    requires { (scene.rows ≤ 896) × (scene.n ≤ 384) }
    ensures { result ≡ spec.body_parts scene }
{
    BodyParts {
        poses: scene.rows * scene.n,
    }
}

// The pose of body i's own frame, to place o.
fn put_start(sheet: Sheet, s: &mut [f64], o: usize, i: usize)
    requires i_lt_m { i < sheet.scene.m }
    requires o_in_bounds { o + 12 ≤ length s.old }
    ensures { Put s.old s.new o 12 (pose_doubles (pose_of_frame (format.body_at sheet.entry.bytes.now (sheet.entry.scene.bodies + 136 * i)).frame)) }
{
    let b = sheet.body(i);
    let f = b.frame;
    put_pose(s, o, Pose::of(f));
}

// The poses of the bodies' own frames, to place p.
pub fn put_starts(sheet: Sheet, s: &mut [f64], p: usize)
    requires m_in_bounds { p + 12 * sheet.scene.m ≤ length s.old }
    ensures { Put s.old s.new p (12 * sheet.entry.scene.m) (poses_doubles (spec.starts (sheet_scene sheet.entry))) }
{
    let m = sheet.scene.m;
    for i in 0..m {
        put_start(sheet, s, p + 12 * i, i);
    }
}

// The body's pose at its six unknowns, the turning ones over half its size.
fn shifted(b: Body, x: [f64; 6]) -> Pose
    ensures { pose result ≡ spec.shifted (body_of b) x }
{
    let l = half_size(b.size);
    let t = Vec3 {
        x: x[0],
        y: x[1],
        z: x[2],
    };
    let w = Vec3 {
        x: x[3] / l,
        y: x[4] / l,
        z: x[5] / l,
    };
    moved_pose(b, t, w)
}

// Six unknowns, of which c is v and the others are 0.
#[tactic(auto, unfolding(least_squares::specs::Lm::list_of))]
fn one_unknown(c: usize, v: f64) -> [f64; 6]
    requires { c < 6 }
    ensures { result ≡ set (zeros 6) c v }
{
    let mut x = [0.0; 6];
    x[c] = v;
    x
}

// The body's pose with its unknown e at v and the others at 0, to place o.
fn put_unknown(b: Body, moved: &mut [f64], o: usize, e: usize, v: f64)
    requires e_bound { e < 6 }
    requires o_in_bounds { o + 12 ≤ length moved.old }
    ensures { Put moved.old moved.new o 12 (pose_doubles (spec.shifted (body_of b) (set (zeros 6) e v))) }
{
    put_pose(moved, o, shifted(b, one_unknown(e, v)));
}

// The body's poses with each of its six unknowns a step from 0 ahead, and behind these a step behind.
pub fn moved_poses(b: Body, moved: &mut [f64])
    requires { 144 ≤ length moved.old }
    ensures { spec.MovedPoses (body_of b) moved.old moved.new }
{
    let h = step_of(0.0);
    for e in 0usize..6 {
        put_unknown(b, moved, 12 * e, e, 0.0 + h);
        put_unknown(b, moved, 72 + 12 * e, e, 0.0 - h);
    }
}

// The steps of six unknowns that are 0.
#[tactic(auto, unfolding(least_squares::specs::Lm::list_of))]
pub fn six_steps() -> [f64; 6]
    ensures { result ≡ spec.six_steps }
{
    let h = step_of(0.0);
    [h, h, h, h, h, h]
}

// The slopes of the rows of the relation at a place of the sheet, where it names body i, six to a row from this row on; the row behind them.
fn named_slopes(
    sheet: &[u8],
    place: usize,
    s: &mut [f64],
    p: usize,
    m: usize,
    i: usize,
    moved: &[f64],
    steps: [f64; 6],
    row: usize,
) -> usize
    requires place_in_bounds { place + 264 ≤ length sheet.now }
    requires room { Room s.old moved.now p m i (row * 6) 6 (length (spec.named_rows (format.rel_at sheet.now place) i (poses_in s.old p m))) }
    ensures { spec.NamedSlopes s.old s.new moved.now steps p m i (format.rel_at sheet.now place) row result }
{
    let rel = rel_at(sheet, place);
    if names(rel, i) {
        rel_columns(s, p, m, rel, i, moved, steps, row * 6, 6);
        return row + row_count(rel);
    }
    row
}

// The slopes of the rows of the relations that name body i, six to a row from place 0 on; how many rows there are. Each relation is read once.
fn slopes_on(
    sheet: Sheet,
    s: &mut [f64],
    p: usize,
    i: usize,
    moved: &[f64],
    steps: [f64; 6],
) -> usize
    requires room { Room s.old moved.now p sheet.scene.m i 0 6 (length (spec.rows_on (sheet_scene sheet) i (poses_in s.old p sheet.scene.m))) }
    ensures { spec.SlopesOn (sheet_scene sheet.entry) s.old s.new moved.now steps p sheet.entry.scene.m i result }
{
    let k = sheet.scene.k;
    let mut row = 0;
    for j in 0..k {
        row = named_slopes(
            sheet.bytes,
            sheet.scene.rels + 264 * j,
            s,
            p,
            sheet.scene.m,
            i,
            moved,
            steps,
            row,
        );
    }
    row
}

// The slopes of body i's rows, six to a row, to the places from 0 on; how many rows there are.
fn body_slopes(sheet: Sheet, s: &mut [f64], i: usize, parts: BodyParts) -> usize
    requires i_lt_m { i < sheet.scene.m }
    requires body_apart { spec.BodyApart sheet.scene parts (length s.old) }
    requires m_len_bound { length (spec.rows_on (sheet_scene sheet) i (poses_in s.old parts.poses sheet.scene.m)) * 6 ≤ parts.poses }
    ensures { spec.BodySlopes (sheet_scene sheet.entry) s.old s.new parts.poses sheet.entry.scene.m i (format.body_at sheet.entry.bytes.now (sheet.entry.scene.bodies + 136 * i)) result }
{
    let b = sheet.body(i);
    let mut moved = [0.0; 144];
    moved_poses(b, &mut moved);
    slopes_on(sheet, s, parts.poses, i, &moved, six_steps())
}

// The six entries of row i, the rows in which column i is no zero listed.
#[tactic(auto, unfolding(least_squares::specs::Lm::list_of))]
fn row_entries(s: &[f64], rows: usize, i: usize, list: &[usize], count: usize) -> [f64; 6]
    requires i_bound { i < 6 }
    requires rows_in_bounds { rows * 6 ≤ length s.now }
    requires rows_in_bounds_2 { rows ≤ length list.now }
    requires finite_at { FiniteAt s.now 0 (rows * 6) }
    requires filled { Filled s.now i 6 rows list.now count }
    ensures { result ≡ lm.list_of (columns_times s.now rows 6 i) 6 }
{
    [
        columns_times(s, rows, 6, i, 0, list, count),
        columns_times(s, rows, 6, i, 1, list, count),
        columns_times(s, rows, 6, i, 2, list, count),
        columns_times(s, rows, 6, i, 3, list, count),
        columns_times(s, rows, 6, i, 4, list, count),
        columns_times(s, rows, 6, i, 5, list, count),
    ]
}

// Row i of the six by six. The list is room for the rows in which column i is no zero.
fn square_row(s: &[f64], rows: usize, i: usize, list: &mut [usize]) -> [f64; 6]
    requires i_bound { i < 6 }
    requires rows_in_bounds { rows * 6 ≤ length s.now }
    requires rows_in_bounds_2 { rows ≤ length list.old }
    requires finite_at { FiniteAt s.now 0 (rows * 6) }
    ensures { result ≡ lm.list_of (columns_times s.now rows 6 i) 6 }
{
    let count = filled(s, i, 6, rows, list);
    row_entries(s, rows, i, list, count)
}

// The six by six of the slopes at 0.
fn square(s: &[f64], rows: usize) -> [[f64; 6]; 6]
    requires rows_in_bounds { rows * 6 ≤ length s.now }
    requires rows_bound { rows ≤ 896 }
    requires finite_at { FiniteAt s.now 0 (rows * 6) }
    ensures { flat 6 result ≡ square_of s.now rows 6 }
{
    let mut list = [0usize; 896];
    let r0 = square_row(s, rows, 0, &mut list);
    let r1 = square_row(s, rows, 1, &mut list);
    let r2 = square_row(s, rows, 2, &mut list);
    let r3 = square_row(s, rows, 3, &mut list);
    let r4 = square_row(s, rows, 4, &mut list);
    let r5 = square_row(s, rows, 5, &mut list);
    [r0, r1, r2, r3, r4, r5]
}

// The six by six of body i's slopes, the bodies standing at their frames; s is lent from the slopes on. What stands in the places of slopes afterwards is open: they are scratch.
pub fn body_square(sheet: Sheet, s: &mut [f64], i: usize, parts: BodyParts) -> [[f64; 6]; 6]
    requires i_lt_m { (i < sheet.scene.m) × ((format.body_at sheet.bytes.now (sheet.scene.bodies + 136 * i)).fixed ≡ false) }
    requires body_apart { spec.BodyApart sheet.scene parts (length s.old) }
    requires m_value { poses_in s.old parts.poses sheet.scene.m ≡ spec.starts (sheet_scene sheet) }
    ensures { spec.BodySquare (sheet_scene sheet.entry) s.old s.new parts.poses sheet.entry.scene.m i (format.body_at sheet.entry.bytes.now (sheet.entry.scene.bodies + 136 * i)) result }
{
    let rows = body_slopes(sheet, s, i, parts);
    square(s, rows)
}
