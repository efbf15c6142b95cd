// Horner's rule for any coefficients.

ghost use Rattle.std.specs.Prelude.{◌≡◌};
ghost use Rattle.numbers.specs.Ops.{doubles};
ghost use Rattle.numbers.specs.Horner as spec;

// The polynomial at z, from the top; the coefficient of the lowest power stands first.
pub fn horner(cs: &[f64], z: f64) -> f64
    ensures { result ≡ spec.horner doubles cs.now z }
{
    match cs {
        [] => 0.0,
        [rest @ .., top] => rest.iter().rev().fold(*top, |r, &c| c + z * r),
    }
}
