// The one place that uses the root of `arcs`, by its promise that it is correctly rounded.
ghost use Rattle.std.specs.Prelude.{◌≡◌};
ghost use Rattle.arcs.specs.Root.{root};

pub fn sqrt(x: f64) -> f64
    ensures { result ≡ root x }
{
    arcs::root::root(x)
}
