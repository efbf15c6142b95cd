// A portion of rounds of a running state, over the lent scratch. portions' `specs/Portions.antt` has the definitions, `specs/Running.antt` what stands where.

ghost use Rattle.std.specs.Prelude.{◌≡◌, not, true, ◌||◌, ◌≤◌, ◌<◌, leb, length};
ghost use Rattle.relations.specs.Model.{body_number};
ghost use Rattle.scene.specs.Scene.{parameters_of};
ghost use Rattle.scene.specs.Sheet.{sheet_scene};
ghost use Rattle.scene.specs.Solve as definitions;
ghost use Rattle.least_squares.specs.Lm as lm;
ghost use Rattle.rounds.specs.Solver.{parts_end};
ghost use Rattle.rounds.specs.Rounds as rounds_spec;
ghost use Rattle.portions.specs.Portions as portions;
ghost use Rattle.portions.specs.Laws as laws;
ghost use Rattle.by_rounds.specs.Running as spec;

use crate::ends::{Going, is_running, judge, judged, no_round, worked};
use placement::solve::put_start;
use rounds::parts::Solver;
use rounds::trial::squares;
use scene::parameters::Parameters;

// Whether a run ends after its round number `done`: nothing better was found, or it was the last that the set allows.
fn last_round(better: bool, q: Parameters, done: u32) -> bool
    ensures { result ≡ (not better || leb q.rounds done) }
{
    if better {
        return q.rounds <= done as usize;
    }
    true
}

// One round more, and whether the run ends with it.
fn one_more(solver: &Solver, s: &mut [f64], q: Parameters, g: Going) -> Going
    requires scratch { parts_end solver.now ≤ length s.old }
    requires rows_bound { (solver.now.sheet.scene.rows ≤ 800) × (g.done < 1000) }
    requires s_value { lm.all_finite (rounds_spec.weights_in solver.now.sheet.scene solver.now.parts s.old) ≡ true }
    ensures { spec.Went solver.now.sheet.scene solver.now.parts s.old s.new result (portions.one_more (sheet_scene solver.now.sheet) (parameters_of q) (rounds_spec.weights_in solver.now.sheet.scene solver.now.parts s.old) (spec.running_in solver.now.sheet.scene solver.now.parts s.old g)) }
{
    let p = solver.parts;
    let cost = squares(s, p.rows, solver.sheet.scene.rows);
    let t = solver.one_round(s, cost, g.mu);
    let done = g.done + 1;
    let stop = last_round(t.better, q, done);
    let next = Going {
        mu: t.mu,
        done,
        run: g.run,
    };
    judged(solver, s, q, stop, next)
}

// What a portion of rounds has come to, and how many rounds it has made.
#[derive(Clone, Copy)]
pub struct Portion {
    pub going: Going,
    pub made: usize,
}

// At most `portion` rounds, those of both runs counted together.
fn go(solver: &Solver, s: &mut [f64], q: Parameters, portion: usize, g: Going) -> Portion
    requires scratch { parts_end solver.now ≤ length s.old }
    requires q_value { definitions.in_range (parameters_of q) ≡ true }
    requires settled { laws.Settled (sheet_scene solver.now.sheet) (parameters_of q) (spec.running_in solver.now.sheet.scene solver.now.parts s.old g) }
    requires s_value { lm.all_finite (rounds_spec.weights_in solver.now.sheet.scene solver.now.parts s.old) ≡ true }
    ensures { spec.WentBy solver.now.sheet.scene solver.now.parts s.old s.new result
        (portions.go (sheet_scene solver.now.sheet) (parameters_of q)
        (rounds_spec.weights_in solver.now.sheet.scene solver.now.parts s.old) portion (spec.running_in solver.now.sheet.scene solver.now.parts s.old g))
        (portions.rounds_made (sheet_scene solver.now.sheet) (parameters_of q)
        (rounds_spec.weights_in solver.now.sheet.scene solver.now.parts s.old) portion (spec.running_in solver.now.sheet.scene solver.now.parts s.old g)) }
{
    let mut e = g;
    let mut made: usize = 0;
    for i in 0..portion {
        if is_running(e.run) {
            let next = one_more(solver, s, q, e);
            e = next;
            made += 1;
        } else {
            return Portion { going: e, made };
        }
    }
    Portion { going: e, made }
}

// A call that begins, for a portion of rounds.
pub fn begin(
    solver: &Solver,
    s: &mut [f64],
    q: Parameters,
    drag: Option<usize>,
    portion: usize,
) -> Portion
    requires scratch { parts_end solver.now ≤ length s.old }
    requires q_value { definitions.in_range (parameters_of q) ≡ true }
    ensures { spec.StandsBy solver.now.sheet.scene solver.now.parts s.old s.new result
        (portions.begin (sheet_scene solver.now.sheet) (parameters_of q) (body_number drag) portion)
        (portions.begin_made (sheet_scene solver.now.sheet) (parameters_of q) (body_number drag) portion) }
{
    let p = solver.parts;
    let n = solver.sheet.scene.n;
    solver.sheet.inverse_weights(s, p.weights, q.weight, drag);
    put_start(s, p.x, n);
    put_start(s, p.first, n);
    let start = Going {
        mu: 1e-10,
        done: 0,
        run: 1,
    };
    let fresh = worked(solver, s, start);
    let stop = no_round(solver.sheet.scene, q);
    let g = judged(solver, s, q, stop, fresh);
    go(solver, s, q, portion, g)
}

// A call that goes on from the running state in the scratch, for a portion of rounds.
pub fn on(
    solver: &Solver,
    s: &mut [f64],
    q: Parameters,
    drag: Option<usize>,
    portion: usize,
    g: Going,
) -> Portion
    requires scratch { parts_end solver.now ≤ length s.old }
    requires q_value { definitions.in_range (parameters_of q) ≡ true }
    ensures { spec.StandsBy solver.now.sheet.scene solver.now.parts s.old s.new result
        (portions.on (sheet_scene solver.now.sheet) (parameters_of q) (body_number drag) portion
        (spec.running_in solver.now.sheet.scene solver.now.parts s.old g))
        (portions.on_made (sheet_scene solver.now.sheet) (parameters_of q) (body_number drag) portion
        (spec.running_in solver.now.sheet.scene solver.now.parts s.old g)) }
{
    let p = solver.parts;
    solver.sheet.inverse_weights(s, p.weights, q.weight, drag);
    let h = judge(solver, s, q, g);
    go(solver, s, q, portion, h)
}
