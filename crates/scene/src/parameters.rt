// What a call of `solve` chooses: document 02, 5/14 and 8/14. `specs/Solve.antt` has the definitions.

ghost use Rattle.std.specs.Prelude.{◌≡◌};
ghost use Rattle.scene.specs.Solve as solve;
ghost use Rattle.scene.specs.Scene as spec;

use vectors::tol;

// How far off a row may be, the most rounds of one run, the most rows that are iterated, and what the dragged body's weights are multiplied by.
#[derive(Clone, Copy)]
pub struct Parameters {
    pub tolerance: f64,
    pub rounds: usize,
    pub limit: usize,
    pub weight: f64,
}

// What a call takes that chooses nothing.
pub fn plain() -> Parameters
    ensures { spec.parameters_of result ≡ solve.plain }
{
    Parameters {
        tolerance: tol::ASSEMBLY,
        rounds: 60,
        limit: 800,
        weight: 1e4,
    }
}
