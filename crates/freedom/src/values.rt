// The eigenvalues of `sym_eigen` of math.rs without the vectors, on one slice: the rank of a matrix asks for no more. `specs/Values.antt` says what is left.

ghost use Rattle.std.specs.Prelude.{◌+◌, ◌*◌, ◌≤◌, length};
ghost use Rattle.eigen.specs.EigenMemory as memory;
ghost use Rattle.least_squares.specs.Memory.{part};
ghost use Rattle.scene.specs.Scene.{Put};
ghost use Rattle.freedom.specs.Values as spec;

use eigen::eigen::{sort, sweeps};

// Copies the diagonal of the matrix to the places behind it.
fn diagonal(s: &mut [f64], n: usize)
    requires { n * n + n ≤ length s.old }
    ensures { Put s.old s.new (n * n) n (memory.diagonal (part s.old 0 (n * n)) n n) }
{
    let k = n * n;
    for i in 0..n {
        s[k + i] = s[i * n + i];
    }
}

// The eigenvalues of the symmetric n by n matrix in the first places, in rising order to the n places behind it. The matrix is turned on the way: what stands in
// its places afterwards is open, they are scratch.
pub fn values(s: &mut [f64], n: usize)
    requires { n * n + n ≤ length s.old }
    ensures { spec.Values n s.old s.new }
{
    let k = n * n;
    // no rows of the vectors
    let mut none = [0.0; 1];
    sweeps(&mut s[0..k], &mut none[0..0], n, 0);
    diagonal(s, n);
    sort(&mut s[k..k + n], &mut none[0..0], n, 0);
}
