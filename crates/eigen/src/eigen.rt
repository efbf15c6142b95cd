// `sym_eigen` of math.rs on lent memory: an n by n matrix stands row after row in one slice.
ghost use Rattle.std.specs.Prelude.{◌≡◌, cond, ◌++◌, ◌+◌, ◌*◌, ◌-◌, ◌<◌, ◌≤◌, length, take, drop, eqb};
ghost use Rattle.numbers.specs.Double.{zero64, one64};
ghost use Rattle.eigen.specs.Eigen as spec;
ghost use Rattle.eigen.specs.EigenMemory as memory;

use vectors::root::sqrt;

// The entry ij of the identity.
fn one_at(i: usize, j: usize) -> f64
    ensures { result ≡ cond (eqb i j) one64 zero64 }
{
    if i == j { 1.0 } else { 0.0 }
}

// Writes row i of the identity at o.
fn unit_row(v: &mut [f64], o: usize, n: usize, i: usize)
    requires { o + n ≤ length v.old }
    ensures { v.new ≡ take o v.old ++ (spec.unit_row i n ++ drop (o + n) v.old) }
{
    for j in 0..n {
        v[o + j] = one_at(i, j);
    }
}

// Writes the identity.
fn unit(v: &mut [f64], n: usize)
    requires { length v.old ≡ n * n }
    ensures { v.new ≡ spec.unit_to n n }
{
    for i in 0..n {
        unit_row(v, i * n, n, i);
    }
}

// The squares of row i off the diagonal, added to s.
#[tactic(auto, unfolding(crate::specs::Eigen::off_row))]
fn off_row(m: &[f64], n: usize, i: usize, s: f64) -> f64
    requires m_len { length m.now ≡ n * n }
    requires i_lt_n { i < n }
    ensures { result ≡ spec.off_row m.now n i s n }
{
    let o = i * n;
    let mut t = s;
    for j in 0..n {
        if i != j {
            let x = m[o + j];
            t = t + x * x;
        }
    }
    t
}

// The sum of the squares off the diagonal.
#[tactic(auto, unfolding(crate::specs::Eigen::off_to))]
fn off(m: &[f64], n: usize) -> f64
    requires { length m.now ≡ n * n }
    ensures { result ≡ spec.off_to m.now n n }
{
    let mut s = -0.0;
    for i in 0..n {
        s = off_row(m, n, i, s);
    }
    s
}

// The sum of the squares on the diagonal.
#[tactic(auto, unfolding(crate::specs::Eigen::diag_to))]
fn diag(m: &[f64], n: usize) -> f64
    requires { length m.now ≡ n * n }
    ensures { result ≡ spec.diag_to m.now n n }
{
    let mut s = -0.0;
    for i in 0..n {
        let x = m[i * n + i];
        s = s + x * x;
    }
    s
}

// Whether what is off the diagonal is too small to count.
#[tactic(auto, unfolding(crate::specs::Eigen::settled))]
fn settled(m: &[f64], n: usize) -> bool
    requires { length m.now ≡ n * n }
    ensures { result ≡ spec.settled m.now n }
{
    let off = off(m, n);
    let scale = numbers::max(diag(m, n), 1e-300);
    off <= scale * 1e-30
}

// The tangent of the angle that clears the entry pq.
#[tactic(auto, unfolding(crate::specs::Eigen::tangent_of))]
pub fn tangent(app: f64, aqq: f64, apq: f64) -> f64
    ensures { result ≡ spec.tangent_of app aqq apq }
{
    let theta = (aqq - app) / (2.0 * apq);
    if theta == 0.0 {
        1.0
    } else {
        numbers::signum(theta) / (numbers::abs(theta) + sqrt(theta * theta + 1.0))
    }
}

// The cosine of the angle whose tangent is t.
#[tactic(auto, unfolding(crate::specs::Eigen::cosine_of))]
pub fn cosine(t: f64) -> f64
    ensures { result ≡ spec.cosine_of t }
{
    1.0 / sqrt(t * t + 1.0)
}

// Turns the entries at i and j.
fn turn_pair(l: &mut [f64], i: usize, j: usize, c: f64, s: f64)
    requires i_in_bounds { i < length l.old }
    requires j_in_bounds { j < length l.old }
    ensures { l.new ≡ spec.turn_pair c s l.old i j }
{
    let x = l[i];
    let y = l[j];
    l[i] = c * x - s * y;
    l[j] = s * x + c * y;
}

// Turns columns p and q of so many rows of n entries.
#[tactic(auto, unfolding(crate::specs::Eigen::turn_columns))]
fn turn_columns(l: &mut [f64], n: usize, rows: usize, p: usize, q: usize, c: f64, s: f64)
    requires l_len { length l.old ≡ rows * n }
    requires p_lt_n { p < n }
    requires q_lt_n { q < n }
    ensures { l.new ≡ spec.turn_columns n c s p q l.old rows }
{
    for k in 0..rows {
        let o = k * n;
        turn_pair(l, o + p, o + q, c, s);
    }
}

// Turns rows p and q.
#[tactic(auto, unfolding(crate::specs::Eigen::turn_rows))]
fn turn_rows(l: &mut [f64], n: usize, p: usize, q: usize, c: f64, s: f64)
    requires l_len { length l.old ≡ n * n }
    requires p_lt_n { p < n }
    requires q_lt_n { q < n }
    ensures { l.new ≡ spec.turn_rows n c s p q l.old n }
{
    let a = p * n;
    let b = q * n;
    for k in 0..n {
        turn_pair(l, a + k, b + k, c, s);
    }
}

// Turns m and v so that the entry pq of m vanishes, unless it is next to nothing already.
fn rotate(m: &mut [f64], v: &mut [f64], n: usize, rows: usize, p: usize, q: usize)
    requires m_len { length m.old ≡ n * n }
    requires rows { memory.Rows n rows v.old }
    requires p_lt_n { p < n }
    requires q_lt_n { q < n }
    ensures { spec.turned m.new v.new ≡ spec.rotate n p q (spec.turned m.old v.old) }
{
    let a = p * n;
    let b = q * n;
    let apq = m[a + q];
    if numbers::abs(apq) < 1e-300 {
        return;
    }
    let t = tangent(m[a + p], m[b + q], apq);
    let c = cosine(t);
    let s = t * c;
    turn_columns(m, n, n, p, q, c, s);
    turn_rows(m, n, p, q, c, s);
    turn_columns(v, n, rows, p, q, c, s);
}

// Clears row p right of the diagonal, entry by entry.
fn sweep_row(m: &mut [f64], v: &mut [f64], n: usize, rows: usize, p: usize)
    requires m_len { length m.old ≡ n * n }
    requires rows { memory.Rows n rows v.old }
    requires p_lt_n { p < n }
    ensures { spec.turned m.new v.new ≡ spec.sweep_row n p (spec.turned m.old v.old) (n - (p + 1)) }
{
    for q in p + 1..n {
        rotate(m, v, n, rows, p, q);
    }
}

// One sweep over the entries right of the diagonal.
#[tactic(auto, unfolding(crate::specs::Eigen::sweep_to))]
fn sweep(m: &mut [f64], v: &mut [f64], n: usize, rows: usize)
    requires m_len { length m.old ≡ n * n }
    requires rows { memory.Rows n rows v.old }
    ensures { spec.turned m.new v.new ≡ spec.sweep_to n (spec.turned m.old v.old) n }
{
    for p in 0..n {
        sweep_row(m, v, n, rows, p);
    }
}

// At most a hundred sweeps. v has so many rows of the vectors: all n, or none where the values alone are asked for.
pub fn sweeps(m: &mut [f64], v: &mut [f64], n: usize, rows: usize)
    requires m_len { length m.old ≡ n * n }
    requires rows { memory.Rows n rows v.old }
    ensures { spec.turned m.new v.new ≡ spec.sweeps n 100 (spec.turned m.old v.old) }
{
    for i in 0usize..100 {
        if settled(m, n) {
            return;
        }
        sweep(m, v, n, rows);
    }
}

// Copies the diagonal of m.
fn diagonal(m: &[f64], vals: &mut [f64], n: usize)
    requires m_len { length m.now ≡ n * n }
    requires vals_len { length vals.old ≡ n }
    ensures { vals.new ≡ memory.diagonal m.now n n }
{
    for i in 0..n {
        vals[i] = m[i * n + i];
    }
}

// Columns i and j of so many rows of n entries change places.
#[tactic(auto, unfolding(crate::specs::EigenMemory::swap_columns))]
fn swap_columns(l: &mut [f64], n: usize, rows: usize, i: usize, j: usize)
    requires l_len { length l.old ≡ rows * n }
    requires i_lt_n { i < n }
    requires j_lt_n { j < n }
    ensures { l.new ≡ memory.swap_columns n i j l.old rows }
{
    for k in 0..rows {
        let o = k * n;
        l.swap(o + i, o + j);
    }
}

// Moves the i-th value with its column forward past those that it stands before.
fn forward(vals: &mut [f64], v: &mut [f64], n: usize, rows: usize, i: usize)
    requires vals_len { length vals.old ≡ n }
    requires rows { memory.Rows n rows v.old }
    requires i_lt_n { i < n }
    ensures { memory.held vals.new v.new ≡ memory.forward n i (memory.held vals.old v.old) }
{
    for j in (0..i).rev() {
        if !numbers::before(vals[j + 1], vals[j]) {
            break;
        }
        vals.swap(j, j + 1);
        swap_columns(v, n, rows, j, j + 1);
    }
}

// Sorts the values upward, each with its column, of which v has so many rows: all n, or none where the values alone are asked for.
#[tactic(auto, unfolding(crate::specs::EigenMemory::sorted))]
pub fn sort(vals: &mut [f64], v: &mut [f64], n: usize, rows: usize)
    requires vals_len { length vals.old ≡ n }
    requires rows { memory.Rows n rows v.old }
    ensures { memory.held vals.new v.new ≡ memory.sorted n (memory.held vals.old v.old) n }
{
    for i in 0..n {
        forward(vals, v, n, rows, i);
    }
}

// The eigenvalues of the symmetric n by n matrix m into vals, and the unit vectors into the columns of v, in rising order. m holds the turned matrix at exit.
pub fn sym_eigen(m: &mut [f64], v: &mut [f64], vals: &mut [f64], n: usize)
    requires m_len { length m.old ≡ n * n }
    requires v_len { length v.old ≡ n * n }
    requires vals_len { length vals.old ≡ n }
    ensures { memory.SymEigen n m.old m.new v.new vals.new }
{
    unit(v, n);
    sweeps(m, v, n, n);
    diagonal(m, vals, n);
    sort(vals, v, n, n);
}
