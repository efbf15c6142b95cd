// JᵀJ of slopes, entry by entry. An entry is summed over the rows in which the first of its columns is no zero, which are listed once for a column. What is left out are zeros: the sum has the
// bits of that over all rows. `specs/Square.antt` has the definitions.

ghost use Rattle.std.specs.Prelude.{◌≡◌, ℕ, ◌+◌, ◌*◌, ◌≤◌, ◌<◌, length, get_or, take};
ghost use Rattle.numbers.specs.Double.{zero64};
ghost use Rattle.numbers.specs.Ops.{doubles};
ghost use Rattle.numbers.specs.Zeros as zeros;
ghost use Rattle.least_squares.specs.Filled.{Filled, FiniteAt};
ghost use Rattle.body_freedom.specs.Dof.{columns_times};
ghost use Rattle.body_freedom.specs.Square as spec;

// Column i times column k, summed from +0 over the first `count` rows of the list.
#[tactic(auto, unfolding(numbers::specs::Zeros::sum_over))]
fn sum_over(s: &[f64], n: usize, i: usize, k: usize, list: &[usize], count: usize) -> f64
    requires i_lt_n { (i < n) × (k < n) × (count ≤ length list.now) }
    requires by_index { (j : ℕ) → j < count → get_or list.now j 0 * n + n ≤ length s.now }
    ensures { result ≡ zeros.sum_over doubles zero64 (spec.products_in s.now n i k) (take count list.now) }
{
    let mut t = 0.0;
    for j in 0..count {
        let o = list[j] * n;
        t = t + s[o + i] * s[o + k];
    }
    t
}

// Whether x is -0.
fn is_minus(x: f64) -> bool
    ensures { result ≡ zeros.is_minus x }
{
    x == 0.0 && numbers::negative(x)
}

// Whether column i times column k is -0 in every row.
fn all_minus(s: &[f64], rows: usize, n: usize, i: usize, k: usize) -> bool
    requires i_lt_n { (i < n) × (k < n) }
    requires n_in_bounds { rows * n ≤ length s.now }
    ensures { result ≡ zeros.all_minus (spec.products_in s.now n i k) rows }
{
    for r in 0..rows {
        let o = r * n;
        if !is_minus(s[o + i] * s[o + k]) {
            return false;
        }
    }
    true
}

// Column i times column k, summed from -0 over all rows: the sum from +0 over the rows of the list, but -0 where every product is.
pub fn columns_times(
    s: &[f64],
    rows: usize,
    n: usize,
    i: usize,
    k: usize,
    list: &[usize],
    count: usize,
) -> f64
    requires i_lt_n { (i < n) × (k < n) }
    requires n_in_bounds { rows * n ≤ length s.now }
    requires rows_in_bounds { rows ≤ length list.now }
    requires finite_at { FiniteAt s.now 0 (rows * n) }
    requires filled { Filled s.now i n rows list.now count }
    ensures { result ≡ columns_times s.now rows n i k }
{
    let t = sum_over(s, n, i, k, list, count);
    if t == 0.0 && all_minus(s, rows, n, i, k) {
        -0.0
    } else {
        t
    }
}
