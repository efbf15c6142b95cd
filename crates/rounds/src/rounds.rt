// lm.rs, `solve`: trials, rounds and a run, over the lent scratch. `specs/Rounds.antt` has what stands where.

ghost use Rattle.std.specs.Prelude.{◌≡◌, true, ◌≤◌, length};
ghost use Rattle.least_squares.specs.Lm as lm;
ghost use Rattle.scene.specs.Solve as definitions;
ghost use Rattle.scene.specs.Sheet.{sheet_scene};
ghost use Rattle.rounds.specs.Parts.{Arranged};
ghost use Rattle.rounds.specs.Solver.{parts_end};
ghost use Rattle.rounds.specs.Rounds as spec;

use crate::parts::{SolveParts, Solver};
use crate::trial::{Tried, largest, squares};
use least_squares::lm::matrix;
use scene::parameters::Parameters;
use scene::scene::Scene;
use slopes::anew_slopes::slopes;

// How a run ended: whether it converged, and how many rounds were made.
#[derive(Clone, Copy)]
pub struct RunEnd {
    pub converged: bool,
    pub rounds: usize,
}

// Whether the rows at `rows` are all within the tolerance.
pub fn within(s: &[f64], scene: Scene, p: SolveParts, tolerance: f64) -> bool
    requires { Arranged scene p (length s.now) }
    ensures { result ≡ spec.within_in scene p s.now tolerance }
{
    largest(s, p.rows, scene.rows) <= tolerance
}

impl Solver<'_> {
    // At most 12 trials, up to the first that is better.
    fn trials(&self, s: &mut [f64], cost: f64, mu: f64) -> Tried
        requires scratch { parts_end self.now ≤ length s.old }
        requires rows_bound { self.now.sheet.scene.rows ≤ 800 }
        ensures { spec.TrialsMade (sheet_scene self.now.sheet) self.now.sheet.scene self.now.parts s.old s.new cost mu result }
    {
        let mut stiffness = mu;
        for i in 0usize..12 {
            let t = self.trial(s, cost, stiffness);
            if t.better {
                return t;
            }
            stiffness = t.mu;
        }
        Tried {
            better: false,
            cost,
            mu: stiffness,
        }
    }

    // The slopes, the matrix, and at most 12 trials. The filling of slopes is lent the scratch from the unknowns on, the forming of the matrix from the slopes on.
    pub fn one_round(&self, s: &mut [f64], cost: f64, mu: f64) -> Tried
        requires scratch { parts_end self.now ≤ length s.old }
        requires rows_bound { self.now.sheet.scene.rows ≤ 800 }
        requires s_value { lm.all_finite (spec.weights_in self.now.sheet.scene self.now.parts s.old) ≡ true }
        ensures { spec.RoundMade (sheet_scene self.now.sheet) self.now.sheet.scene self.now.parts s.old s.new cost mu result }
    {
        let scene = self.sheet.scene;
        let p = self.parts;
        let x = p.x;
        let j = p.slopes;
        slopes(self.sheet, &mut s[x..], p.seen);
        matrix(&mut s[j..], scene.n, scene.rows);
        self.trials(s, cost, mu)
    }

    // At most `most` rounds. A run ends where its rows are within the tolerance, or a round brings nothing better.
    fn rounds(&self, s: &mut [f64], tolerance: f64, most: usize, cost: f64, mu: f64) -> RunEnd
        requires scratch { parts_end self.now ≤ length s.old }
        requires rows_bound { self.now.sheet.scene.rows ≤ 800 }
        requires s_value { lm.all_finite (spec.weights_in self.now.sheet.scene self.now.parts s.old) ≡ true }
        ensures { spec.Ran self.now.sheet.scene self.now.parts s.old s.new (lm.rounds (definitions.rows_of (sheet_scene self.now.sheet)) (spec.weights_in self.now.sheet.scene self.now.parts s.old) tolerance most 0 (spec.state_in self.now.sheet.scene self.now.parts s.old cost mu)) result }
    {
        let mut c = cost;
        let mut d = mu;
        for i in 0..most {
            let t = self.one_round(s, c, d);
            if within(s, self.sheet.scene, self.parts, tolerance) {
                return RunEnd {
                    converged: true,
                    rounds: i + 1,
                };
            }
            if t.better {
                c = t.cost;
                d = t.mu;
            } else {
                return RunEnd {
                    converged: false,
                    rounds: i + 1,
                };
            }
        }
        RunEnd {
            converged: within(s, self.sheet.scene, self.parts, tolerance),
            rounds: most,
        }
    }

    // A run from the unknowns at `x`, with the damping 1e-10 at first; over the row limit there are no rounds.
    #[tactic(auto, using(crate::proofs::RunLaws::still_end))]
    pub fn run(&self, s: &mut [f64], q: Parameters) -> RunEnd
        requires scratch { parts_end self.now ≤ length s.old }
        requires limit { q.limit ≤ 800 }
        requires s_value { lm.all_finite (spec.weights_in self.now.sheet.scene self.now.parts s.old) ≡ true }
        ensures { spec.Ran self.now.sheet.scene self.now.parts s.old s.new (lm.run (definitions.rows_of (sheet_scene self.now.sheet)) (spec.weights_in self.now.sheet.scene self.now.parts s.old) q.tolerance q.rounds q.limit (spec.unknowns_in self.now.sheet.scene self.now.parts s.old)) result }
    {
        let scene = self.sheet.scene;
        let p = self.parts;
        self.sheet.rows_at(s, p.x, p.rows, p.poses);
        let rows = scene.rows;
        if rows == 0 {
            return RunEnd {
                converged: true,
                rounds: 0,
            };
        }
        if within(s, scene, p, q.tolerance) {
            return RunEnd {
                converged: true,
                rounds: 0,
            };
        }
        if scene.n == 0 {
            return RunEnd {
                converged: false,
                rounds: 0,
            };
        }
        if rows > q.limit {
            return RunEnd {
                converged: false,
                rounds: 0,
            };
        }
        let cost = squares(s, p.rows, rows);
        self.rounds(s, q.tolerance, q.rounds, cost, 1e-10)
    }
}
