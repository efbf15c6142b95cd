// The slopes of relations' rows along the six unknowns of one body, by differences. The poses of all bodies stand in the scratch and stay as they are; those of the body a step
// ahead and a step behind along each unknown are lent apart from them. `specs/Moved.antt` has the definitions.

ghost use Rattle.std.specs.Prelude.{◌≡◌, ℕ, ◌+◌, ◌*◌, ◌≤◌, ◌<◌, length, get_or};
ghost use Rattle.std.specs.Float.{nan};
ghost use Rattle.relations.specs.Model.{rel_of};
ghost use Rattle.relations.specs.Rows as rows_spec;
ghost use Rattle.records.specs.Record as format;
ghost use Rattle.least_squares.specs.Lm as lm;
ghost use Rattle.scene.specs.Solve as definitions;
ghost use Rattle.scene.specs.Scene.{poses_in};
ghost use Rattle.scene.specs.Sheet.{sheet_scene};
ghost use Rattle.slopes.specs.Moved as spec;

use crate::slopes::slope_of;
use judging::count::row_count;
use records::record::rel_at;
use relations::model::Rel;
use relations::rows::Rows;
use scene::scene::{Sheet, names, pose_at, rel_rows_moved};

// The slopes from the rows ahead and the rows behind, to every n-th place from o on.
fn put_slopes(s: &mut [f64], o: usize, n: usize, plus: Rows, minus: Rows, h: f64)
    requires n_bound { (plus.n ≤ 7) × (minus.n ≡ plus.n) × (0 < n) }
    requires by_index { (r : ℕ) → r < plus.n → o + r * n < length s.old }
    ensures { spec.Strided s.old s.new o n plus.n (λ r. lm.slope_of (get_or (rows_spec.rows_of plus) r nan) (get_or (rows_spec.rows_of minus) r nan) h) }
{
    for r in 0..plus.n {
        s[o + r * n] = slope_of(plus.values[r], minus.values[r], h);
    }
}

// The slopes of a relation's rows along body i's unknown e, over the step h.
fn rel_column(
    s: &mut [f64],
    p: usize,
    m: usize,
    rel: Rel,
    i: usize,
    moved: &[f64],
    e: usize,
    h: f64,
    o: usize,
    n: usize,
)
    requires room { spec.Room s.old moved.now p m i o n (length (definitions.rows_at (poses_in s.old p m) (rel_of rel))) }
    requires e_bound { e < 6 }
    ensures { spec.Strided s.old s.new (o + e) n (length (definitions.rows_at (poses_in s.old p m) (rel_of rel))) (λ r. lm.slope_of (get_or (definitions.rows_at (spec.poses_ahead (poses_in s.old p m) i moved.now e) (rel_of rel)) r nan) (get_or (definitions.rows_at (spec.poses_behind (poses_in s.old p m) i moved.now e) (rel_of rel)) r nan) h) }
{
    let plus = rel_rows_moved(s, p, m, rel, i, pose_at(moved, 12 * e));
    let minus = rel_rows_moved(s, p, m, rel, i, pose_at(moved, 72 + 12 * e));
    put_slopes(s, o + e, n, plus, minus, h);
}

// The slopes of a relation's rows along body i's six unknowns, to the first six of every n places from o on.
pub fn rel_columns(
    s: &mut [f64],
    p: usize,
    m: usize,
    rel: Rel,
    i: usize,
    moved: &[f64],
    steps: [f64; 6],
    o: usize,
    n: usize,
)
    requires { spec.Room s.old moved.now p m i o n (length (definitions.rows_at (poses_in s.old p m) (rel_of rel))) }
    ensures { spec.Block s.old s.new o n (length (definitions.rows_at (poses_in s.old p m) (rel_of rel))) 6 (spec.moved_slope (λ poses. definitions.rows_at poses (rel_of rel)) (poses_in s.old p m) i moved.now steps) }
{
    for e in 0usize..6 {
        rel_column(s, p, m, rel, i, moved, e, steps[e], o, n);
    }
}

// The same for the relation at a place of the sheet, where its rows' six places are +0: a relation that does not name body i has no other slopes. How many rows it has.
fn named_rel(
    sheet: &[u8],
    place: usize,
    s: &mut [f64],
    p: usize,
    m: usize,
    i: usize,
    moved: &[f64],
    steps: [f64; 6],
    o: usize,
    n: usize,
) -> usize
    requires place_in_bounds { place + 264 ≤ length sheet.now }
    requires room { spec.Room s.old moved.now p m i o n (length (definitions.rows_at (poses_in s.old p m) (format.rel_at sheet.now place))) }
    requires clear { spec.Clear s.old o n (length (definitions.rows_at (poses_in s.old p m) (format.rel_at sheet.now place))) }
    requires steps { spec.Steps steps }
    ensures { spec.RelColumns s.old s.new moved.now steps p m i (format.rel_at sheet.now place) o n result }
{
    let rel = rel_at(sheet, place);
    if names(rel, i) {
        rel_columns(s, p, m, rel, i, moved, steps, o, n);
        return row_count(rel);
    }
    row_count(rel)
}

// The slopes of all relations' rows along body i's six unknowns, to the first six of every n places from o on, where these are +0. Each relation is read once.
pub fn named_columns(
    sheet: Sheet,
    s: &mut [f64],
    p: usize,
    i: usize,
    moved: &[f64],
    steps: [f64; 6],
    o: usize,
    n: usize,
)
    requires room { spec.Room s.old moved.now p sheet.scene.m i o n sheet.scene.rows }
    requires clear { spec.Clear s.old o n sheet.scene.rows }
    requires steps { spec.Steps steps }
    ensures { spec.Block s.old s.new o n sheet.entry.scene.rows 6 (spec.moved_slope (λ poses. definitions.all_rows poses (sheet_scene sheet.entry).rels) (poses_in s.old p sheet.entry.scene.m) i moved.now steps) }
{
    let k = sheet.scene.k;
    let mut row = 0;
    for j in 0..k {
        let count = named_rel(
            sheet.bytes,
            sheet.scene.rels + 264 * j,
            s,
            p,
            sheet.scene.m,
            i,
            moved,
            steps,
            o + row * n,
            n,
        );
        row = row + count;
    }
}
