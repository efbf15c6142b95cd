// `jacobian` of lm.rs: a step, and a slope by differences. least_squares' `specs/Lm.antt` has the definitions.

ghost use Rattle.std.specs.Prelude.{◌≡◌};
ghost use Rattle.least_squares.specs.Lm as lm;

// 1e-7 of the unknown's magnitude, itself at least 1.
#[tactic(auto, unfolding(least_squares::specs::Lm::step_of))]
pub fn step_of(x: f64) -> f64
    ensures { result ≡ lm.step_of x }
{
    1e-7 * numbers::max(numbers::abs(x), 1.0)
}

// A slope that is not finite counts as 0.
pub fn slope_of(plus: f64, minus: f64, h: f64) -> f64
    ensures { result ≡ lm.slope_of plus minus h }
{
    let d = (plus - minus) / (2.0 * h);
    if numbers::is_finite(d) { d } else { 0.0 }
}
