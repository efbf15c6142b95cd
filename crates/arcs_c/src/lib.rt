// The root, sine, cosine and arctangent for C: each is the function of the crate `arcs`, under its name and with its clause.

#![tactic(auto)]

ghost use Rattle.std.specs.Prelude.{◌≡◌};
ghost use Rattle.arcs.specs.Arcs as spec;
ghost use Rattle.arcs.specs.Root.{CorrectRoot};

// The double nearest to the square root of x: a zero gives itself, +infinity itself, a NaN and what is below 0 a NaN.
#[unsafe(no_mangle)]
pub extern "C" fn root(x: f64) -> f64
    ensures { CorrectRoot x result }
{
    arcs::root::root(x)
}

#[unsafe(no_mangle)]
pub extern "C" fn sine(t: f64) -> f64
    ensures { result ≡ spec.sine t }
{
    arcs::arc::sine(t)
}

#[unsafe(no_mangle)]
pub extern "C" fn cosine(t: f64) -> f64
    ensures { result ≡ spec.cosine t }
{
    arcs::arc::cosine(t)
}

#[unsafe(no_mangle)]
pub extern "C" fn arctangent(y: f64, x: f64) -> f64
    ensures { result ≡ spec.arctangent y x }
{
    arcs::arc::arctangent(y, x)
}
