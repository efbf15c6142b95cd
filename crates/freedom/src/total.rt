// `dof` of solve.rs, the whole assembly: the rank of the slopes of all rows along all unknowns, over parts of the lent scratch. `specs/Total.antt` has the definitions.

ghost use Rattle.std.specs.Prelude.{◌≡◌, ◌+◌, ◌*◌, ◌≤◌, ◌<◌, length, get_or};
ghost use Rattle.std.specs.Option.{ForSome};
ghost use Rattle.std.proofs.Math.Option.{none, some};
ghost use Rattle.numbers.specs.Double.{zero64};
ghost use Rattle.body_freedom.specs.Dof as dof;
ghost use Rattle.least_squares.specs.Filled.{FiniteAt};
ghost use Rattle.least_squares.specs.Memory.{part};
ghost use Rattle.records.specs.Record.{body_at};
ghost use Rattle.scene.specs.Scene.{first_unknown, Put};
ghost use Rattle.scene.specs.Sheet.{sheet_scene};
ghost use Rattle.scene.specs.Solve.{layout, half_size};
ghost use Rattle.slopes.specs.AnewSlopes.{given};
ghost use Rattle.freedom.specs.Freed.{need};
ghost use Rattle.freedom.specs.Total as spec;

use crate::values::values;
use body_freedom::body_slopes::{moved_poses, six_steps};
use body_freedom::square::columns_times;
use least_squares::zeros::filled;
use scene::scene::{Sheet, clear, half_size};
use slopes::anew_slopes::SlopeParts;
use slopes::moved::named_columns;
use vectors::root::sqrt;
use vectors::tol::DOF_REL;

// Where the parts of the scratch stand. In order, with R rows and n unknowns of m bodies: n unknowns from 0 on, R·n slopes, n² of their square, its n values, 12m for `poses`.
// `TotalApart` says what each is for.
fn total_parts(sheet: Sheet) -> SlopeParts
    ensures { result ≡ spec.total_parts sheet.entry.scene }
{
    let n = sheet.scene.n;
    let rows = sheet.scene.rows;
    let square = n + rows * n;
    let values = square + n * n;
    let poses = values + n;
    SlopeParts {
        x: 0,
        slopes: n,
        poses,
    }
}

// The three doubles from o on over l.
fn divide(s: &mut [f64], o: usize, l: f64)
    requires { o + 3 ≤ length s.old }
    ensures { s.new ≡ dof.scale_three s.old o l }
{
    let a = s[o];
    let b = s[o + 1];
    let c = s[o + 2];
    s[o] = a / l;
    s[o + 1] = b / l;
    s[o + 2] = c / l;
}

// A body's turning unknowns over l, the n unknowns from z on; `first` is the body's entry of the index.
fn scale_turns(s: &mut [f64], z: usize, n: usize, l: f64, first: Option<u16>)
    requires n_in_bounds { z + n ≤ length s.old }
    requires first_bound { ForSome first (λ k. k + 6 ≤ n) }
    ensures { Put s.old s.new z n (spec.scaled_by (part s.old z n) l (first_unknown first)) }
{
    let Some(first) = first else {
        return;
    };
    let k = first as usize;
    divide(s, z + k + 3, l);
}

// Body i's turning unknowns over half its size, the unknowns from z on.
fn scale_body(sheet: Sheet, s: &mut [f64], z: usize, i: usize)
    requires i_lt_m { i < sheet.scene.m }
    requires n_in_bounds { z + sheet.scene.n ≤ length s.old }
    ensures { Put s.old s.new z sheet.entry.scene.n (spec.scaled_by (part s.old z sheet.entry.scene.n) (half_size (body_at sheet.entry.bytes.now (sheet.entry.scene.bodies + 136 * i)).size) (first_unknown (get_or sheet.entry.scene.index i None))) }
{
    let b = sheet.body(i);
    let l = half_size(b.size);
    scale_turns(s, z, sheet.scene.n, l, sheet.scene.index[i]);
}

// Each moving body's turning unknowns over half its size.
fn scale(sheet: Sheet, s: &mut [f64], z: usize)
    requires n_in_bounds { z + sheet.scene.n ≤ length s.old }
    ensures { Put s.old s.new z sheet.entry.scene.n (dof.scaled_from (part s.old z sheet.entry.scene.n) (sheet_scene sheet.entry).bodies (layout (sheet_scene sheet.entry))) }
{
    let m = sheet.scene.m;
    for i in 0..m {
        scale_body(sheet, s, z, i);
    }
}

// Body i's six columns of the slopes, from column k on.
fn six_columns(sheet: Sheet, s: &mut [f64], parts: SlopeParts, i: usize, k: usize)
    requires total_apart { spec.TotalApart sheet.scene parts (length s.old) }
    requires i_lt_m { (i < sheet.scene.m) × (k + 6 ≤ sheet.scene.n) }
    requires none_value { get_or (layout (sheet_scene sheet)) i none ≡ some k }
    requires waiting { spec.Waiting (sheet_scene sheet) sheet.scene parts s.old k }
    ensures { spec.ColumnsFrom (sheet_scene sheet.entry) sheet.entry.scene parts s.old s.new k (k + 6) }
{
    let b = sheet.body(i);
    let mut moved = [0.0; 144];
    moved_poses(b, &mut moved);
    named_columns(
        sheet,
        s,
        parts.poses,
        i,
        &moved,
        six_steps(),
        parts.slopes + k,
        sheet.scene.n,
    );
}

// The columns of body i, none where it has no unknowns.
fn body_columns(sheet: Sheet, s: &mut [f64], parts: SlopeParts, i: usize)
    requires total_apart { spec.TotalApart sheet.scene parts (length s.old) }
    requires i_lt_m { i < sheet.scene.m }
    requires waiting { spec.Waiting (sheet_scene sheet) sheet.scene parts s.old (given (sheet_scene sheet) i) }
    ensures { spec.ColumnsFrom (sheet_scene sheet.entry) sheet.entry.scene parts s.old s.new (given (sheet_scene sheet.entry) i) (given (sheet_scene sheet.entry) (i + 1)) }
{
    let first = sheet.scene.index[i];
    let Some(k) = first else {
        return;
    };
    six_columns(sheet, s, parts, i, k as usize);
}

// The slopes of the scaled rows at the unknowns from 0 on, which are 0, as the places of the slopes are. The unknowns are scaled where they stand, and the poses worked out once:
// then the columns follow body by body. What stands beside the slopes afterwards is open: it is scratch.
fn slopes(sheet: Sheet, s: &mut [f64], parts: SlopeParts)
    requires total_apart { spec.TotalApart sheet.scene parts (length s.old) }
    requires n_value { part s.old 0 sheet.scene.n ≡ dof.zeros sheet.scene.n }
    requires n_value_2 { part s.old parts.slopes (sheet.scene.rows * sheet.scene.n) ≡ dof.zeros (sheet.scene.rows * sheet.scene.n) }
    ensures { spec.SlopesBy (dof.scaled_rows (sheet_scene sheet.entry)) s.old s.new parts.slopes sheet.entry.scene.n sheet.entry.scene.rows 0 }
{
    scale(sheet, s, 0);
    sheet.poses_at(s, 0, parts.poses);
    let m = sheet.scene.m;
    for i in 0..m {
        body_columns(sheet, s, parts, i);
    }
}

// Row i of the slopes' square, which stands behind the slopes. The list is room for the rows in which column i is no zero.
fn square_row(s: &mut [f64], rows: usize, n: usize, i: usize, list: &mut [usize])
    requires i_lt_n { i < n }
    requires n_in_bounds { rows * n + n * n ≤ length s.old }
    requires rows_in_bounds { rows ≤ length list.old }
    requires finite_at { FiniteAt s.old 0 (rows * n) }
    ensures { spec.SquareRow s.old s.new rows n i }
{
    let at = rows * n + i * n;
    let count = filled(s, i, n, rows, list);
    for k in 0..n {
        let v = columns_times(s, rows, n, i, k, list, count);
        s[at + k] = v;
    }
}

// The square of the slopes in the first places: each column times each, to the places behind them.
fn square(s: &mut [f64], rows: usize, n: usize)
    requires n_in_bounds { rows * n + n * n ≤ length s.old }
    requires rows_bound { rows ≤ 896 }
    requires finite_at { FiniteAt s.old 0 (rows * n) }
    ensures { Put s.old s.new (rows * n) (n * n) (dof.square_of (part s.old 0 (rows * n)) rows n) }
{
    let mut list = [0usize; 896];
    for i in 0..n {
        square_row(s, rows, n, i, &mut list);
    }
}

// The largest of the values, from 0 up.
fn largest(vals: &[f64]) -> f64
    ensures { result ≡ spec.largest_of zero64 vals.now }
{
    let mut m = 0.0;
    for v in vals {
        m = numbers::max(m, *v);
    }
    m
}

// 1 for a value whose root is above DOF_REL of the largest.
#[tactic(auto, unfolding(crate::specs::Total::stiff_one))]
fn stiff_one(most: f64, v: f64) -> usize
    ensures { result ≡ spec.stiff_one most v }
{
    if DOF_REL * most < sqrt(numbers::max(v, 0.0)) {
        1
    } else {
        0
    }
}

// How many values count.
fn stiff_count(most: f64, vals: &[f64]) -> usize
    ensures { result ≡ spec.stiff_of most vals.now }
{
    let mut count = 0;
    for v in vals {
        count += stiff_one(most, *v);
    }
    count
}

// The rank by the eigenvalues.
#[tactic(auto, unfolding(crate::specs::Total::rank_of))]
fn rank_of(vals: &[f64]) -> usize
    ensures { result ≡ spec.rank_of vals.now }
{
    let most = sqrt(largest(vals));
    if most <= 0.0 {
        return 0;
    }
    stiff_count(most, vals)
}

// `rank_rel` of the slopes in the first places; their square and its values stand behind them. What stands there afterwards is open: it is scratch.
fn rank_rel(s: &mut [f64], rows: usize, n: usize) -> usize
    requires n_in_bounds { rows * n + n * n + n ≤ length s.old }
    requires rows_bound { rows ≤ 896 }
    requires finite_at { FiniteAt s.old 0 (rows * n) }
    ensures { result ≡ dof.rank_rel (part s.old 0 (rows * n)) rows n }
{
    if rows == 0 {
        return 0;
    }
    if n == 0 {
        return 0;
    }
    let o = rows * n;
    let v = o + n * n;
    let e = v + n;
    square(s, rows, n);
    values(&mut s[o..], n);
    rank_of(&s[v..e])
}

// 6 for a free body that no relation names, by its entry of the index.
#[tactic(auto, unfolding(crate::specs::Total::unnamed_one))]
fn unnamed_one(fixed: bool, first: Option<u16>) -> usize
    ensures { result ≡ spec.unnamed_one fixed (first_unknown first) }
{
    match first {
        None => if fixed { 0 } else { 6 },
        Some(_) => 0,
    }
}

// Six for each free body that no relation names.
fn unnamed(sheet: Sheet) -> usize
    ensures { (result ≡ dof.unnamed_from (sheet_scene sheet.entry).rels 0 (sheet_scene sheet.entry).bodies) × (result ≤ 384) }
{
    let m = sheet.scene.m;
    let mut count = 0;
    for i in 0..m {
        let b = sheet.body(i);
        count = count + unnamed_one(b.fixed, sheet.scene.index[i]);
    }
    count
}

// The freedom of the whole assembly: the unknowns that no row resists, and six for each free body that no relation names. What stands in the scratch afterwards is open.
pub fn total(sheet: Sheet, s: &mut [f64]) -> usize
    requires scene_in_bounds { need sheet.scene ≤ length s.old }
    ensures { spec.Counted (sheet_scene sheet.entry) s.old s.new result }
{
    let n = sheet.scene.n;
    let rows = sheet.scene.rows;
    let parts = total_parts(sheet);
    let x = 0;
    clear(s, x, n);
    clear(s, parts.slopes, rows * n);
    slopes(sheet, &mut s[x..], parts);
    let at = parts.slopes;
    let rank = rank_rel(&mut s[at..], sheet.scene.rows, n);
    let unused = unnamed(sheet);
    if rank < n { n - rank + unused } else { unused }
}
