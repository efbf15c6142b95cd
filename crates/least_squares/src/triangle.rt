// A matrix that is the same on both sides of its diagonal, kept as its lower triangle, row after row. `specs/Triangle.antt` has the definitions.

ghost use Rattle.std.specs.Prelude.{◌≡◌, ◌+◌, ◌*◌, ◌≤◌, ◌<◌, length};
ghost use Rattle.least_squares.specs.Triangle.{triangle};
ghost use Rattle.least_squares.specs.LmPosts.{Across, Spread};

use crate::lm::copy;

// How many places the triangle of so many rows takes.
#[tactic(auto, unfolding(crate::specs::Triangle::triangle))]
pub fn places(rows: usize) -> usize
    requires { rows ≤ 896 }
    ensures { result ≡ triangle rows }
{
    rows * (rows + 1) / 2
}

// Row i of the matrix right of the diagonal, the row beginning at b: column i of the triangle at a, downwards. From one row of the triangle to the next, row k, it is k places.
fn across(s: &mut [f64], a: usize, b: usize, i: usize, rows: usize)
    requires i_lt_rows { (i < rows) × (rows ≤ 800) }
    requires rows_bound { a + triangle rows ≤ b }
    requires rows_in_bounds { b + rows ≤ length s.old }
    ensures { Across s.old s.new a b i rows }
{
    let mut at = a + places(i) + i;
    for k in i + 1..rows {
        at = at + k;
        s[b + k] = s[at];
    }
}

// The whole matrix at b, from its lower triangle at a: of each row what the triangle has of it, then the rest.
pub fn spread(s: &mut [f64], a: usize, b: usize, rows: usize)
    requires rows_bound { rows ≤ 800 }
    requires rows_bound_2 { a + triangle rows ≤ b }
    requires rows_in_bounds { b + rows * rows ≤ length s.old }
    ensures { Spread s.old s.new a b rows }
{
    for i in 0..rows {
        let row = b + i * rows;
        copy(s, a + places(i), row, i + 1);
        across(s, a, row, i, rows);
    }
}
