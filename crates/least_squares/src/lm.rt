// lm.rs: sums, slopes' matrix, damping and the step, over parts of the lent scratch. `specs/Lm.antt` has the definitions.

ghost use Rattle.std.specs.Prelude.{◌≡◌, ◌+◌, ◌*◌, ◌-◌, ◌≤◌, ◌<◌, min, max, length};
ghost use Rattle.numbers.specs.MaxAbs as largest;
ghost use Rattle.least_squares.specs.Memory.{part};
ghost use Rattle.least_squares.specs.Lm as spec;
ghost use Rattle.least_squares.specs.Triangle.{triangle, spread};
ghost use Rattle.least_squares.specs.Filled.{Filled, FiniteAt};
ghost use Rattle.least_squares.specs.LmPosts.{MatrixRow, Matrix, Copied, Damped, Stepped};

use crate::triangle::places;
use crate::zeros::filled;

// From m on: infinity for a row that is not finite, else the larger of m and its magnitude.
pub fn max_abs_step(m: f64, a: f64) -> f64
    ensures { result ≡ largest.max_abs_step m a }
{
    if numbers::is_finite(a) {
        numbers::max(m, numbers::abs(a))
    } else {
        1.0 / 0.0
    }
}

// The largest magnitude; infinity where an entry is not finite, 0 for none.
#[tactic(auto, unfolding(numbers::specs::MaxAbs::max_abs))]
pub fn max_abs(v: &[f64]) -> f64
    ensures { result ≡ largest.max_abs v.now }
{
    v.iter().fold(0.0, |m, &a| max_abs_step(m, a))
}

// The sum of the squares, from -0.
#[tactic(auto, unfolding(numbers::specs::Sum::sum_from, crate::specs::Lm::norm2))]
pub fn norm2(v: &[f64]) -> f64
    ensures { result ≡ spec.norm2 v.now }
{
    let mut t = -0.0;
    for &x in v {
        t += x * x;
    }
    t
}

// Returns the sum from +0 of the n products of the doubles from k on, those from i on and those from w on: of those only where the double from i on is no zero, in the columns of
// the list. The others are zeros, and a sum from +0 is the same without them.
fn gram(s: &[f64], k: usize, i: usize, w: usize, n: usize, list: &[usize]) -> f64
    requires n_in_bounds { (k + n ≤ length s.now) × (i + n ≤ length s.now) }
    requires n_in_bounds_2 { w + n ≤ length s.now }
    requires filled { Filled s.now i 1 n list.now (length list.now) }
    requires finite_at { FiniteAt s.now k n × FiniteAt s.now w n }
    ensures { result ≡ spec.gram_at s.now k i w n }
{
    let mut t = 0.0;
    for &c in list {
        t += s[k + c] * s[i + c] * s[w + c];
    }
    t
}

// Row i of J W⁻¹ Jᵀ up to the diagonal, at `at`: the slopes at 0, the weights at w. In each product the row with the smaller number comes first. The list is room for
// the columns in which row i is no zero: what it holds at entry is open.
fn matrix_row(s: &mut [f64], i: usize, at: usize, n: usize, w: usize, list: &mut [usize])
    requires i_bound { (i < 800) × (n ≤ 384) × (n ≤ length list.old) }
    requires n_bound { i * n + n ≤ at }
    requires i_bound_2 { at + (i + 1) ≤ w }
    requires n_in_bounds { w + n ≤ length s.old }
    requires finite_at { FiniteAt s.old 0 (i * n + n) × FiniteAt s.old w n }
    ensures { MatrixRow s.old s.new i at n w }
{
    let row = i * n;
    let m = filled(s, row, 1, n, list);
    let columns = &list[..m];
    for k in 0..i + 1 {
        s[at + k] = gram(s, k * n, row, w, n, columns);
    }
}

// J W⁻¹ Jᵀ, of which the lower triangle is formed: the slopes stand in the first places, the triangle directly behind them, the inverse weights directly behind it.
pub fn matrix(s: &mut [f64], n: usize, rows: usize)
    requires rows_bound { (rows ≤ 800) × (n ≤ 384) }
    requires n_in_bounds { rows * n + triangle rows + n ≤ length s.old }
    requires finite_at { FiniteAt s.old 0 (rows * n) × FiniteAt s.old (rows * n + triangle rows) n }
    ensures { Matrix s.old s.new n rows (rows * n) (rows * n + triangle rows) }
{
    let a = rows * n;
    let w = a + places(rows);
    let mut list = [0usize; 384];
    for i in 0..rows {
        matrix_row(s, i, a + places(i), n, w, &mut list);
    }
}

// The largest entry of the diagonal of the matrix with the lower triangle from a on, at least 1e-12.
pub fn diag_max(s: &[f64], a: usize, rows: usize) -> f64
    requires rows_bound { rows ≤ 800 }
    requires rows_in_bounds { a + triangle rows ≤ length s.now }
    ensures { result ≡ spec.diag_max (spread (part s.now a (triangle rows)) rows) rows }
{
    let mut m = 0.0;
    for i in 0..rows {
        m = numbers::max(m, s[a + places(i) + i]);
    }
    numbers::max(m, 1e-12)
}

// The k doubles from a on copied to b on, before or behind them: the two parts share no place. The loop takes less time than
// `copy_within`: a call of `sheet_solve` on examples/impossible.sheet takes a quarter less.
pub fn copy(s: &mut [f64], a: usize, b: usize, k: usize)
    requires k_bound { min a b + k ≤ max a b }
    requires k_in_bounds { max a b + k ≤ length s.old }
    ensures { Copied s.old s.new a b k }
{
    for i in 0..k {
        s[b + i] = s[a + i];
    }
}

// d added to the diagonal of the matrix from a on.
pub fn damp(s: &mut [f64], a: usize, rows: usize, d: f64)
    requires rows_bound { rows ≤ 800 }
    requires rows_in_bounds { a + rows * rows ≤ length s.old }
    ensures { Damped s.old s.new a rows d }
{
    for i in 0..rows {
        s[a + i * rows + i] += d;
    }
}

// The unknown c after the step: x less its inverse weight times column c of the slopes at j times y.
fn stepped_at(
    s: &[f64],
    n: usize,
    rows: usize,
    x: usize,
    j: usize,
    w: usize,
    y: usize,
    c: usize,
) -> f64
    requires rows_bound { (rows ≤ 800) × (n ≤ 384) }
    requires c_lt_n { c < n }
    requires n_in_bounds { j + rows * n ≤ length s.now }
    requires n_in_bounds_2 { (x + n ≤ length s.now) × (w + n ≤ length s.now) }
    requires rows_in_bounds { y + rows ≤ length s.now }
    ensures { result ≡ spec.stepped_at (part s.now x n) (part s.now j (rows * n)) (part s.now w n) (part s.now y rows) rows c }
{
    let mut t = 0.0;
    for i in 0..rows {
        t += s[j + (i * n + c)] * s[y + i];
    }
    s[x + c] - s[w + c] * t
}

// The unknowns after the step, at z, which stands behind all that they are made of: the unknowns at x, the slopes at j, the inverse weights at w and y.
pub fn step(s: &mut [f64], n: usize, rows: usize, x: usize, j: usize, w: usize, y: usize, z: usize)
    requires rows_bound { (rows ≤ 800) × (n ≤ 384) }
    requires n_bound { j + rows * n ≤ z }
    requires n_bound_2 { (x + n ≤ z) × (w + n ≤ z) }
    requires rows_bound_2 { y + rows ≤ z }
    requires n_in_bounds { z + n ≤ length s.old }
    ensures { Stepped s.old s.new n rows x j w y z }
{
    for c in 0..n {
        s[z + c] = stepped_at(s, n, rows, x, j, w, y, c);
    }
}
