// A running state in the caller's memory, and the answer for its unknowns. `specs/State.antt` says what stands where, `specs/Held.antt` what is left.

ghost use Rattle.std.specs.Prelude.{◌≡◌, ◌+◌, ◌*◌, ◌≤◌, length};
ghost use Rattle.closeness.specs.HowClosely as closeness;
ghost use Rattle.scene.specs.Scene.{parameters_of};
ghost use Rattle.portions.specs.Portions as portions;
ghost use Rattle.scene.specs.Sheet.{sheet_scene};
ghost use Rattle.rounds.specs.Parts.{Arranged};
ghost use Rattle.rounds.specs.Solver.{parts_end};
ghost use Rattle.by_rounds.specs.Running as spec;
ghost use Rattle.by_rounds.specs.State as state_spec;
ghost use Rattle.by_rounds.specs.Held as held;

use crate::ends::{Going, is_running};
use crate::portion::Portion;
use placement::solve::{copy_over, put_answer};
use rounds::parts::{SolveParts, Solver};
use scene::parameters::Parameters;
use scene::scene::Scene;

// What a call tells beside the lent slices: the rounds that the present run has made, which run it is, the rounds that
// the call has made, and whether every error is within the tolerance.
#[derive(Clone, Copy)]
pub struct Reached {
    pub done: u32,
    pub run: u8,
    pub made: usize,
    pub converged: bool,
}

// Which run a call goes on with: any other number than 1 and 2 counts as finished.
fn run_of(run: u8) -> u8
    ensures { result ≡ portions.run_of run }
{
    if is_running(run) {
        return run;
    }
    3
}

// The running state that the caller holds, taken to the scratch.
pub fn take_held(
    scene: Scene,
    s: &mut [f64],
    p: SolveParts,
    done: u32,
    run: u8,
    state: &[f64],
) -> Going
    requires arranged { Arranged scene p (length s.old) }
    requires rows_bound { (scene.rows ≤ 896) × (scene.n ≤ 384) }
    requires rows_in_bounds { 1 + 2 * scene.n + scene.rows ≤ length state.now }
    ensures { spec.Stands scene p s.old s.new result (state_spec.held_in scene.n scene.rows done run state.now) }
{
    let n = scene.n;
    copy_over(state, 1, s, p.x, n);
    copy_over(state, 1 + n, s, p.first, n);
    copy_over(state, 1 + 2 * n, s, p.rows, scene.rows);
    Going {
        mu: state[0],
        done,
        run: run_of(run),
    }
}

// The running state in the scratch, put to the caller's memory.
fn put_held(solver: &Solver, s: &[f64], mu: f64, state: &mut [f64])
    requires scratch { parts_end solver.now ≤ length s.now }
    requires rows_in_bounds { 1 + 2 * solver.now.sheet.scene.n + solver.now.sheet.scene.rows ≤ length state.old }
    ensures { held.HeldPut solver.now.sheet.scene solver.now.parts s.now mu state.old state.new }
{
    let scene = solver.sheet.scene;
    let p = solver.parts;
    let n = scene.n;
    state[0] = mu;
    copy_over(s, p.x, state, 1, n);
    copy_over(s, p.first, state, 1 + n, n);
    copy_over(s, p.rows, state, 1 + 2 * n, scene.rows);
}

// Whether the errors are all within the tolerance.
fn all_within(errors: &[f64], tolerance: f64) -> bool
    ensures { result ≡ closeness.all_within tolerance errors.now }
{
    errors.iter().all(|&e| e <= tolerance)
}

// The running state in the scratch and the answer for its unknowns, put to the caller's memory.
pub fn put_reached(
    solver: &Solver,
    s: &mut [f64],
    q: Parameters,
    h: Portion,
    state: &mut [f64],
    poses: &mut [f64],
    frames: &mut [f64],
    errors: &mut [f64],
) -> Reached
    requires scratch { parts_end solver.now ≤ length s.old }
    requires room { held.Room solver.now.sheet.scene state.old poses.old frames.old errors.old }
    ensures { held.Left (sheet_scene solver.now.sheet) (parameters_of q) solver.now.sheet.scene
        (spec.running_in solver.now.sheet.scene solver.now.parts s.old h.going) h.made
        state.old state.new poses.old poses.new
        frames.old frames.new errors.old errors.new result }
{
    let g = h.going;
    let run = g.run;
    put_held(solver, s, g.mu, state);
    put_answer(solver, s, poses, frames, errors);
    let converged = all_within(&errors[..solver.sheet.scene.k], q.tolerance);
    Reached {
        done: g.done,
        run,
        made: h.made,
        converged,
    }
}
