// lm.rs, `solve_dense`: elimination with partial pivoting, in place. The slice s holds the n by n matrix a in its first n·n places, row after row, and the right side b in
// the n places behind it; anything may follow. `specs/Lm.antt` has the definitions, `specs/Dense.antt` what stands in memory.

ghost use Rattle.std.specs.Prelude.{◌≡◌, ◌+◌, ◌*◌, ◌-◌, ◌≤◌, ◌<◌, ◌&&◌, length};
ghost use Rattle.std.specs.Float.Ieee.{lt, neg};
ghost use Rattle.least_squares.specs.Dense.{system_at, PivotOf, Became, Reached, Dense};
ghost use Rattle.least_squares.specs.Lm as spec;

// The least scale, and the least pivot as a part of the scale.
const LEAST_SCALE: f64 = 1e-300;

const LEAST_PIVOT: f64 = 1e-15;

// A column's largest magnitude, and its row.
#[derive(Drop)]
struct Pivot {
    best: f64,
    row: usize,
}

// Whether the magnitude of x is below t, without a branch on its sign.
fn below(x: f64, t: f64) -> bool
    ensures { result ≡ (lt x t && lt (neg t) x) }
{
    x < t && -t < x
}

// Returns the largest magnitude.
fn largest(s: &[f64]) -> f64
    ensures { result ≡ spec.largest_to s.now (length s.now) }
{
    let mut t = 0.0;
    for &x in s {
        if below(x, t) {
            continue;
        }
        t = numbers::max(t, numbers::abs(x));
    }
    t
}

// The first row with the largest magnitude in column col, from row col on.
fn find_pivot(s: &[f64], n: usize, col: usize) -> Pivot
    requires n_in_bounds { n * n ≤ length s.now }
    requires col_lt_n { col < n }
    ensures { PivotOf s.now n col result.best result.row }
{
    let mut best = 0.0;
    let mut row = col;
    for r in col..n {
        let x = s[r * n + col];
        if below(x, best) {
            continue;
        }
        let v = numbers::abs(x);
        if v > best {
            best = v;
            row = r;
        }
    }
    Pivot { best, row }
}

// Rows p and col of the matrix exchanged.
#[tactic(auto, unfolding(crate::specs::Lm::swap_to))]
fn swap_rows(s: &mut [f64], n: usize, p: usize, col: usize)
    requires n_in_bounds { p * n + n ≤ length s.old }
    requires n_in_bounds_2 { col * n + n ≤ length s.old }
    ensures { s.new ≡ spec.swap_to s.old n p col n }
{
    let po = p * n;
    let co = col * n;
    for k in 0..n {
        s.swap(po + k, co + k);
    }
}

// f times row col taken off row r, from column col on.
#[tactic(auto, unfolding(crate::specs::Lm::take_off_to))]
fn take_off(s: &mut [f64], n: usize, r: usize, col: usize, f: f64)
    requires n_in_bounds { r * n + n ≤ length s.old }
    requires n_in_bounds_2 { col * n + n ≤ length s.old }
    requires col_le_n { col ≤ n }
    ensures { s.new ≡ spec.take_off_to s.old n r col f (n - col) }
{
    let ro = r * n;
    let co = col * n;
    for k in col..n {
        s[ro + k] -= f * s[co + k];
    }
}

// Rows p and col exchanged, in the matrix and in the right side.
fn place_pivot(s: &mut [f64], n: usize, p: usize, col: usize)
    requires n_in_bounds { n * n + n ≤ length s.old }
    requires p_lt_n { p < n }
    requires col_lt_n { col < n }
    ensures { Became s.old s.new n (spec.pivoted (system_at s.old n) n p col) }
{
    if p == col {
        return;
    }
    swap_rows(s, n, p, col);
    let b = n * n;
    s.swap(b + p, b + col);
}

// Row r less the multiple of row col that clears its column col.
fn clear_row(s: &mut [f64], n: usize, r: usize, col: usize)
    requires n_in_bounds { n * n + n ≤ length s.old }
    requires r_lt_n { r < n }
    requires col_lt_n { col < n }
    ensures { Became s.old s.new n (spec.clear_row (system_at s.old n) n r col) }
{
    let f = s[r * n + col] / s[col * n + col];
    if f == 0.0 {
        return;
    }
    take_off(s, n, r, col, f);
    let b = n * n;
    s[b + r] -= f * s[b + col];
}

// The rows below row col.
#[tactic(auto, unfolding(crate::specs::Lm::clear_to))]
fn clear_below(s: &mut [f64], n: usize, col: usize)
    requires n_in_bounds { n * n + n ≤ length s.old }
    requires col_lt_n { col < n }
    ensures { Became s.old s.new n (spec.clear_to (system_at s.old n) n col (n - (col + 1))) }
{
    for r in col + 1..n {
        clear_row(s, n, r, col);
    }
}

// Column col; false where its pivot is too small.
fn clear_column(s: &mut [f64], n: usize, col: usize, scale: f64) -> bool
    requires n_in_bounds { n * n + n ≤ length s.old }
    requires col_lt_n { col < n }
    ensures { Reached s.old s.new n (spec.clear_column scale n col (system_at s.old n)) result }
{
    let p = find_pivot(s, n, col);
    if p.best <= scale * LEAST_PIVOT {
        return false;
    }
    place_pivot(s, n, p.row, col);
    clear_below(s, n, col);
    true
}

// Every column; false at the first whose pivot is too small.
fn eliminate(s: &mut [f64], n: usize, scale: f64) -> bool
    requires { n * n + n ≤ length s.old }
    ensures { Reached s.old s.new n (spec.eliminate_to (system_at s.old n) scale n n) result }
{
    for col in 0..n {
        if !clear_column(s, n, col, scale) {
            return false;
        }
    }
    true
}

// The right side of row r less its entries right of the diagonal times the unknowns, which stand below it in b's place.
fn rest(s: &[f64], n: usize, r: usize) -> f64
    requires n_in_bounds { n * n + n ≤ length s.now }
    requires r_lt_n { r < n }
    ensures { result ≡ spec.rest_to (system_at s.now n) n r (n - (r + 1)) }
{
    let b = n * n;
    let ro = r * n;
    let mut t = s[b + r];
    for c in r + 1..n {
        t -= s[ro + c] * s[b + c];
    }
    t
}

// The unknowns, from the last up.
fn back(s: &mut [f64], n: usize)
    requires { n * n + n ≤ length s.old }
    ensures { Became s.old s.new n (spec.back_to (system_at s.old n) n n) }
{
    let b = n * n;
    for k in 0..n {
        let r = n - (k + 1);
        let t = rest(s, n, r);
        s[b + r] = t / s[r * n + r];
    }
}

// True if every double is finite.
fn all_finite(s: &[f64]) -> bool
    ensures { result ≡ spec.all_finite s.now }
{
    s.iter().all(|&x| numbers::is_finite(x))
}

// a y = b: whether there is an answer, which then stands in b's place. The matrix's place is scratch: what it holds at exit is open, and so is b's place where there is no answer.
pub fn solve_dense(s: &mut [f64], n: usize) -> bool
    requires { n * n + n ≤ length s.old }
    ensures { Dense s.old s.new n result }
{
    let b = n * n;
    let scale = numbers::max(largest(&s[..b]), LEAST_SCALE);
    if !eliminate(s, n, scale) {
        return false;
    }
    back(s, n);
    all_finite(&s[b..b + n])
}
