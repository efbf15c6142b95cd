// lm.rs, `solve`: one trial of a round, over the lent scratch. `specs/Rounds.antt` has what stands where.

ghost use Rattle.std.specs.Prelude.{◌≡◌, ◌+◌, ◌≤◌, length};
ghost use Rattle.numbers.specs.MaxAbs.{max_abs};
ghost use Rattle.least_squares.specs.Lm as lm;
ghost use Rattle.least_squares.specs.Memory.{part};
ghost use Rattle.scene.specs.Sheet.{sheet_scene};
ghost use Rattle.rounds.specs.Solver.{parts_end};
ghost use Rattle.rounds.specs.Rounds as spec;

use crate::parts::Solver;
use least_squares::dense::solve_dense;
use least_squares::lm::{copy, damp, diag_max, max_abs, norm2, step};
use least_squares::triangle::spread;

// Whether a trial was better, the sum of squares and the damping after it.
#[derive(Clone, Copy)]
pub struct Tried {
    pub better: bool,
    pub cost: f64,
    pub mu: f64,
}

// The sum of the squares of the k doubles from o on.
pub fn squares(s: &[f64], o: usize, k: usize) -> f64
    requires { o + k ≤ length s.now }
    ensures { result ≡ lm.norm2 (part s.now o k) }
{
    norm2(&s[o..o + k])
}

// The largest magnitude among the k doubles from o on.
pub fn largest(s: &[f64], o: usize, k: usize) -> f64
    requires { o + k ≤ length s.now }
    ensures { result ≡ max_abs (part s.now o k) }
{
    max_abs(&s[o..o + k])
}

// A tenth of the damping, not below 1e-15.
fn softer(mu: f64) -> f64
    ensures { result ≡ lm.softer mu }
{
    numbers::max(mu * 0.1, 1e-15)
}

impl Solver<'_> {
    // The equations of a step, their matrix damped by mu of its largest diagonal entry, solved. Whether there is an answer.
    fn answer(&self, s: &mut [f64], mu: f64) -> bool
        requires scratch { parts_end self.now ≤ length s.old }
        requires rows_bound { self.now.sheet.scene.rows ≤ 800 }
        ensures { spec.Answered self.now.sheet.scene self.now.parts s.old s.new mu result }
    {
        let p = self.parts;
        let rows = self.sheet.scene.rows;
        let most = diag_max(s, p.matrix, rows);
        spread(s, p.matrix, p.damped, rows);
        damp(s, p.damped, rows, mu * most);
        copy(s, p.rows, p.right, rows);
        let at = p.damped;
        solve_dense(&mut s[at..], rows)
    }

    // The unknowns a step further, their rows, and the sum of these rows' squares.
    fn advance(&self, s: &mut [f64]) -> f64
        requires scratch { parts_end self.now ≤ length s.old }
        requires rows_bound { self.now.sheet.scene.rows ≤ 800 }
        ensures { spec.Advanced (sheet_scene self.now.sheet) self.now.sheet.scene self.now.parts s.old s.new result }
    {
        let scene = self.sheet.scene;
        let p = self.parts;
        let rows = scene.rows;
        step(s, scene.n, rows, p.x, p.slopes, p.weights, p.right, p.next);
        self.sheet.rows_at(s, p.next, p.ahead, p.poses);
        squares(s, p.ahead, rows)
    }

    // The step taken.
    fn take_step(&self, s: &mut [f64])
        requires scratch { parts_end self.now ≤ length s.old }
        ensures { spec.Taken self.now.sheet.scene self.now.parts s.old s.new }
    {
        let scene = self.sheet.scene;
        let p = self.parts;
        copy(s, p.next, p.x, scene.n);
        copy(s, p.ahead, p.rows, scene.rows);
    }

    // One trial, from the sum of squares and the damping so far.
    pub fn trial(&self, s: &mut [f64], cost: f64, mu: f64) -> Tried
        requires scratch { parts_end self.now ≤ length s.old }
        requires rows_bound { self.now.sheet.scene.rows ≤ 800 }
        ensures { spec.TrialMade (sheet_scene self.now.sheet) self.now.sheet.scene self.now.parts s.old s.new cost mu result }
    {
        let ok = self.answer(s, mu);
        if ok {
            let next = self.advance(s);
            if numbers::is_finite(next) && next < cost {
                self.take_step(s);
                return Tried {
                    better: true,
                    cost: next,
                    mu: softer(mu),
                };
            }
        }
        Tried {
            better: false,
            cost,
            mu: mu * 10.0,
        }
    }
}
