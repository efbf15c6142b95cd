// solve.rs, `solve`: the first run, the retry from a slight turn, poses, frames and errors. scene's `specs/Solve.antt` has the definitions, `specs/Answer.antt` what
// stands in the slices.

ghost use Rattle.std.specs.Prelude.{◌≡◌, true, false, ◌++◌, map, ◌+◌, ◌*◌, ◌≤◌, length, drop};
ghost use Rattle.numbers.specs.MaxAbs.{max_abs};
ghost use Rattle.vectors.specs.Space as space;
ghost use Rattle.least_squares.specs.Lm as lm;
ghost use Rattle.least_squares.specs.Memory.{part};
ghost use Rattle.relations.specs.Model.{body_number};
ghost use Rattle.scene.specs.Scene.{Put, parameters_of, poses_in};
ghost use Rattle.scene.specs.Sheet.{sheet_scene};
ghost use Rattle.scene.specs.Solve as definitions;
ghost use Rattle.rounds.specs.Parts.{need};
ghost use Rattle.rounds.specs.Solver.{parts_end};
ghost use Rattle.rounds.specs.Rounds as rounds_spec;
ghost use Rattle.placement.specs.Answer as spec;

use least_squares::lm::copy;
use rounds::parts::{Solver, solve_parts};
use rounds::trial::largest;
use scene::parameters::Parameters;
use scene::scene::{Sheet, clear, pose_at, put_four, rel_rows};
use vectors::math::frame_of;
use vectors::space::Frame;

// The unknowns at first: all 0.
pub fn put_start(s: &mut [f64], x: usize, n: usize)
    requires { x + n ≤ length s.old }
    ensures { Put s.old s.new x n (lm.list_of definitions.start_at n) }
{
    clear(s, x, n);
}

// The unknown i of the retry.
fn slight_turn(i: usize) -> f64
    ensures { result ≡ definitions.slight_turn i }
{
    if i % 6 < 3 {
        return 0.0;
    }
    if i % 3 == 0 {
        return 0.05;
    }
    if i % 3 == 1 {
        return -0.03;
    }
    0.07
}

// The unknowns of the retry.
pub fn put_turn(s: &mut [f64], x: usize, n: usize)
    requires { x + n ≤ length s.old }
    ensures { Put s.old s.new x n (lm.list_of definitions.slight_turn n) }
{
    for i in 0..n {
        s[x + i] = slight_turn(i);
    }
}

// The largest row at the unknowns from x on.
fn worst(solver: &Solver, s: &mut [f64], x: usize) -> f64
    requires scratch { parts_end solver.now ≤ length s.old }
    requires n_bound { x + solver.now.sheet.scene.n ≤ solver.now.parts.ahead }
    ensures { spec.Worst (sheet_scene solver.now.sheet) solver.now.sheet.scene solver.now.parts s.old s.new x result }
{
    let p = solver.parts;
    solver.sheet.rows_at(s, x, p.ahead, p.poses);
    largest(s, p.ahead, solver.sheet.scene.rows)
}

// Whether the retry at `x` is to be kept: it converged, or its largest row is smaller than that of the first run's unknowns at `first`.
pub fn better(solver: &Solver, s: &mut [f64], converged: bool) -> bool
    requires scratch { parts_end solver.now ≤ length s.old }
    ensures { spec.Better (sheet_scene solver.now.sheet) solver.now.sheet.scene solver.now.parts s.old s.new converged result }
{
    let p = solver.parts;
    if converged {
        return true;
    }
    let now = worst(solver, s, p.x);
    let before = worst(solver, s, p.first);
    now < before
}

// The retry, the first run having ended unconverged at the unknowns at `x`. Whether it converged; where it is not kept, the first run's unknowns come back.
fn retry(solver: &Solver, s: &mut [f64], q: Parameters) -> bool
    requires scratch { parts_end solver.now ≤ length s.old }
    requires limit { q.limit ≤ 800 }
    requires s_value { lm.all_finite (rounds_spec.weights_in solver.now.sheet.scene solver.now.parts s.old) ≡ true }
    ensures { (first : lm.Outcome) → first.converged ≡ false → first.x ≡ rounds_spec.unknowns_in solver.now.sheet.scene solver.now.parts s.old → spec.Ended solver.now.sheet.scene solver.now.parts s.old s.new (definitions.better (sheet_scene solver.now.sheet) first (lm.run (definitions.rows_of (sheet_scene solver.now.sheet)) (rounds_spec.weights_in solver.now.sheet.scene solver.now.parts s.old) q.tolerance q.rounds q.limit (lm.list_of definitions.slight_turn solver.now.sheet.scene.n))) result }
{
    let scene = solver.sheet.scene;
    let p = solver.parts;
    copy(s, p.x, p.first, scene.n);
    put_turn(s, p.x, scene.n);
    let again = solver.run(s, q);
    let kept = better(solver, s, again.converged);
    if kept {
        return again.converged;
    }
    copy(s, p.first, p.x, scene.n);
    false
}

// Both runs. Whether the one that is kept converged.
fn solved(solver: &Solver, s: &mut [f64], q: Parameters, drag: Option<usize>) -> bool
    requires scratch { parts_end solver.now ≤ length s.old }
    requires limit { q.limit ≤ 800 }
    ensures { spec.Ended solver.now.sheet.scene solver.now.parts s.old s.new (definitions.solved (sheet_scene solver.now.sheet) (parameters_of q) (body_number drag)) result }
{
    let p = solver.parts;
    let n = solver.sheet.scene.n;
    solver.sheet.inverse_weights(s, p.weights, q.weight, drag);
    put_start(s, p.x, n);
    let first = solver.run(s, q);
    if first.converged {
        return true;
    }
    if n == 0 {
        return false;
    }
    retry(solver, s, q)
}

// The k doubles of s from o on copied to d, from `at` on. `copy_from_slice` would call `memmove`, which libsheet.a needs nowhere else.
pub fn copy_over(s: &[f64], o: usize, d: &mut [f64], at: usize, k: usize)
    requires k_in_bounds { o + k ≤ length s.now }
    requires k_in_bounds_2 { at + k ≤ length d.old }
    ensures { Put d.old d.new at k (part s.now o k) }
{
    for (i, &x) in s[o..o + k].iter().enumerate() {
        d[at + i] = x;
    }
}

fn put_frame(d: &mut [f64], o: usize, f: Frame)
    requires { o + 12 ≤ length d.old }
    ensures { Put d.old d.new o 12 (spec.frame_doubles (space.frame f)) }
{
    put_four(d, o, f.origin, f.x, f.y, f.z);
}

// Each body's frame at the poses from p on, squared anew; the body's own where none can be built.
fn put_frames(sheet: Sheet, s: &[f64], p: usize, frames: &mut [f64])
    requires m_in_bounds { p + 12 * sheet.scene.m ≤ length s.now }
    requires m_in_bounds_2 { 12 * sheet.scene.m ≤ length frames.old }
    ensures { frames.new ≡ spec.frames_doubles (definitions.frames_from (poses_in s.now p sheet.entry.scene.m) (sheet_scene sheet.entry).bodies) ++ drop (12 * sheet.entry.scene.m) frames.old }
{
    let m = sheet.scene.m;
    for i in 0..m {
        let b = sheet.body(i);
        let q = pose_at(s, p + 12 * i);
        put_frame(frames, 12 * i, frame_of(q.r, q.t).unwrap_or(b.frame));
    }
}

// Each relation's largest row at the poses from p on.
fn put_errors(sheet: Sheet, s: &[f64], p: usize, errors: &mut [f64])
    requires m_in_bounds { p + 12 * sheet.scene.m ≤ length s.now }
    requires k_in_bounds { sheet.scene.k ≤ length errors.old }
    ensures { errors.new ≡ map (λ rel. max_abs (definitions.rows_at (poses_in s.now p sheet.entry.scene.m) rel)) (sheet_scene sheet.entry).rels ++ drop sheet.entry.scene.k errors.old }
{
    let m = sheet.scene.m;
    let k = sheet.scene.k;
    for j in 0..k {
        let rel = sheet.relation(j);
        errors[j] = rel_rows(s, p, m, rel).max_abs();
    }
}

// The answer for the unknowns at `x`: 12 doubles a body to `poses` and to `frames`, an error for each relation to `errors`.
pub fn put_answer(
    solver: &Solver,
    s: &mut [f64],
    poses: &mut [f64],
    frames: &mut [f64],
    errors: &mut [f64],
)
    requires scratch { parts_end solver.now ≤ length s.old }
    requires m_in_bounds { 12 * solver.now.sheet.scene.m ≤ length poses.old }
    requires m_in_bounds_2 { 12 * solver.now.sheet.scene.m ≤ length frames.old }
    requires k_in_bounds { solver.now.sheet.scene.k ≤ length errors.old }
    ensures { spec.Shown (sheet_scene solver.now.sheet) solver.now.sheet.scene.m solver.now.sheet.scene.k (rounds_spec.unknowns_in solver.now.sheet.scene solver.now.parts s.old) poses.old poses.new frames.old frames.new errors.old errors.new }
{
    let p = solver.parts;
    solver.sheet.poses_at(s, p.x, p.poses);
    copy_over(s, p.poses, poses, 0, 12 * solver.sheet.scene.m);
    put_frames(solver.sheet, s, p.poses, frames);
    put_errors(solver.sheet, s, p.poses, errors);
}

// `solve`: 12 doubles a body to `poses` and to `frames`, an error for each relation to `errors`. Whether it converged. What is left in s is open: it is scratch.
pub fn solve(
    sheet: Sheet,
    s: &mut [f64],
    q: Parameters,
    drag: Option<usize>,
    poses: &mut [f64],
    frames: &mut [f64],
    errors: &mut [f64],
) -> bool
    requires limit { q.limit ≤ 800 }
    requires scene_in_bounds { need sheet.scene ≤ length s.old }
    requires m_in_bounds { 12 * sheet.scene.m ≤ length poses.old }
    requires m_in_bounds_2 { 12 * sheet.scene.m ≤ length frames.old }
    requires k_in_bounds { sheet.scene.k ≤ length errors.old }
    ensures { spec.Filled (sheet_scene sheet.entry) (parameters_of q) (body_number drag) sheet.entry.scene.m sheet.entry.scene.k poses.old poses.new frames.old frames.new errors.old errors.new result }
{
    let parts = solve_parts(sheet.scene);
    let solver = Solver { sheet, parts };
    let converged = solved(&solver, s, q, drag);
    put_answer(&solver, s, poses, frames, errors);
    converged
}
