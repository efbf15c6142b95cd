// How the runs of a running state begin and end, over the lent scratch. portions' `specs/Portions.antt` has the definitions, `specs/Running.antt` what stands where.

ghost use Rattle.std.specs.Prelude.{◌≡◌, ◌≤◌, ◌||◌, eqb, leb, ltb, length};
ghost use Rattle.scene.specs.Scene.{parameters_of};
ghost use Rattle.scene.specs.Sheet.{sheet_scene};
ghost use Rattle.rounds.specs.Solver.{parts_end};
ghost use Rattle.rounds.specs.Rounds as rounds_spec;
ghost use Rattle.portions.specs.Portions as portions;
ghost use Rattle.by_rounds.specs.Running as spec;

use least_squares::lm::copy;
use placement::solve::{better, put_turn};
use rounds::parts::Solver;
use rounds::rounds::within;
use scene::parameters::Parameters;
use scene::scene::Scene;

// What of a running state goes by value: the damping, the rounds that the present run has made, and which run it is: 1 the first, 2 the retry, 3 finished.
#[derive(Clone, Copy)]
pub struct Going {
    pub mu: f64,
    pub done: u32,
    pub run: u8,
}

// Whether there may be a round to come.
pub fn is_running(run: u8) -> bool
    ensures { result ≡ portions.is_running run }
{
    if run == 1 {
        return true;
    }
    run == 2
}

// Whether a run that begins makes no round: nothing moves, or there are more rows than the limit.
pub fn no_round(scene: Scene, q: Parameters) -> bool
    ensures { result ≡ (eqb scene.n 0 || ltb q.limit scene.rows) }
{
    if scene.n == 0 {
        return true;
    }
    scene.rows > q.limit
}

// The rows at the unknowns at `x` are worked; all else of the running state stays.
pub fn worked(solver: &Solver, s: &mut [f64], g: Going) -> Going
    requires scratch { parts_end solver.now ≤ length s.old }
    ensures { spec.Went solver.now.sheet.scene solver.now.parts s.old s.new result (spec.worked (sheet_scene solver.now.sheet) (spec.running_in solver.now.sheet.scene solver.now.parts s.old g)) }
{
    let p = solver.parts;
    solver.sheet.rows_at(s, p.x, p.rows, p.poses);
    g
}

// The retry has ended: it is kept, or the first run's unknowns come back.
fn end_retry(solver: &Solver, s: &mut [f64], converged: bool, g: Going) -> Going
    requires scratch { parts_end solver.now ≤ length s.old }
    ensures { spec.Went solver.now.sheet.scene solver.now.parts s.old s.new result (portions.end_retry (sheet_scene solver.now.sheet) converged (spec.running_in solver.now.sheet.scene solver.now.parts s.old g)) }
{
    let p = solver.parts;
    let end = Going {
        mu: g.mu,
        done: g.done,
        run: 3,
    };
    let kept = better(solver, s, converged);
    if kept {
        return worked(solver, s, end);
    }
    copy(s, p.first, p.x, solver.sheet.scene.n);
    worked(solver, s, end)
}

// The retry begins, the first run having ended at the unknowns at `x`.
fn begin_retry(solver: &Solver, s: &mut [f64], q: Parameters) -> Going
    requires scratch { parts_end solver.now ≤ length s.old }
    ensures { spec.Went solver.now.sheet.scene solver.now.parts s.old s.new result (portions.begin_retry (sheet_scene solver.now.sheet) (parameters_of q) (rounds_spec.unknowns_in solver.now.sheet.scene solver.now.parts s.old)) }
{
    let scene = solver.sheet.scene;
    let p = solver.parts;
    copy(s, p.x, p.first, scene.n);
    put_turn(s, p.x, scene.n);
    let start = Going {
        mu: 1e-10,
        done: 0,
        run: 2,
    };
    let g = worked(solver, s, start);
    let near = within(s, scene, p, q.tolerance);
    if near {
        return end_retry(solver, s, true, g);
    }
    if no_round(scene, q) {
        return end_retry(solver, s, false, g);
    }
    g
}

// A run has ended. Where it is the first, did not converge, and something moves, the retry begins.
fn end_run(solver: &Solver, s: &mut [f64], q: Parameters, converged: bool, g: Going) -> Going
    requires scratch { parts_end solver.now ≤ length s.old }
    ensures { spec.Went solver.now.sheet.scene solver.now.parts s.old s.new result (portions.end_run (sheet_scene solver.now.sheet) (parameters_of q) converged (spec.running_in solver.now.sheet.scene solver.now.parts s.old g)) }
{
    if g.run != 1 {
        return end_retry(solver, s, converged, g);
    }
    if converged {
        return Going {
            mu: g.mu,
            done: g.done,
            run: 3,
        };
    }
    if solver.sheet.scene.n == 0 {
        return Going {
            mu: g.mu,
            done: g.done,
            run: 3,
        };
    }
    begin_retry(solver, s, q)
}

// A run ends where its rows are within the tolerance, and where `stop` says so.
pub fn judged(solver: &Solver, s: &mut [f64], q: Parameters, stop: bool, g: Going) -> Going
    requires scratch { parts_end solver.now ≤ length s.old }
    ensures { spec.Went solver.now.sheet.scene solver.now.parts s.old s.new result (portions.judged (sheet_scene solver.now.sheet) (parameters_of q) stop (spec.running_in solver.now.sheet.scene solver.now.parts s.old g)) }
{
    let near = within(s, solver.sheet.scene, solver.parts, q.tolerance);
    if near {
        return end_run(solver, s, q, true, g);
    }
    if stop {
        return end_run(solver, s, q, false, g);
    }
    g
}

// Whether a run that a call goes on with has made as many rounds as the call allows, or more; with over 800 rows no set begins a run.
#[tactic(auto, using(crate::proofs::OverLaws::too_many))]
fn is_over(scene: Scene, q: Parameters, done: u32) -> bool
    ensures { result ≡ (leb q.rounds done || ltb 800 scene.rows) }
{
    if scene.rows > 800 {
        return true;
    }
    q.rounds <= done as usize
}

// Before its first round a call judges the run that it goes on with.
pub fn judge(solver: &Solver, s: &mut [f64], q: Parameters, g: Going) -> Going
    requires scratch { parts_end solver.now ≤ length s.old }
    ensures { spec.Went solver.now.sheet.scene solver.now.parts s.old s.new result (portions.judge (sheet_scene solver.now.sheet) (parameters_of q) (spec.running_in solver.now.sheet.scene solver.now.parts s.old g)) }
{
    if is_running(g.run) {
        let stop = is_over(solver.sheet.scene, q, g.done);
        return judged(solver, s, q, stop, g);
    }
    g
}
