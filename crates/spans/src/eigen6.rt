// `sym_eigen` of math.rs for the six-by-six of one body and the three-by-three inside it: arrays of arrays by value, of which the first n rows and columns count. They are
// laid end to end for the sweeps of `eigen`.
ghost use Rattle.std.specs.Prelude.{◌≡◌, ◌-◌, ◌*◌, ◌<◌, ◌≤◌, ◌++◌, length, replicate};
ghost use Rattle.numbers.specs.Double.{zero64};
ghost use Rattle.eigen.specs.Eigen as eigen;
ghost use Rattle.eigen.specs.EigenMemory.{held, held_pairs};
ghost use Rattle.spans.specs.Flat.{flat};
ghost use Rattle.spans.specs.Eigen6.{eigens6};

// An eigenvalue with its vector, of which the first n entries count.
#[derive(Clone, Copy)]
pub struct Eigen6 {
    pub value: f64,
    pub vector: [f64; 6],
}

// Writes the first n entries of the first n rows, row after row.
#[tactic(auto, unfolding(crate::specs::Flat::flat_to))]
fn lay_out(a: [[f64; 6]; 6], n: usize, m: &mut [f64])
    requires n_le_6 { n ≤ 6 }
    requires m_len { length m.old ≡ n * n }
    ensures { m.new ≡ flat n a }
{
    for i in 0..n {
        let o = i * n;
        m[o..o + n].copy_from_slice(&a[i][..n]);
    }
}

// Returns column i, of which the first n entries count.
fn column(v: &[f64], n: usize, i: usize) -> [f64; 6]
    requires n_le_6 { n ≤ 6 }
    requires v_len { length v.now ≡ n * n }
    requires i_lt_n { i < n }
    ensures { result ≡ eigen.column n v.now i n ++ replicate (6 - n) zero64 }
{
    let mut r = [0.0; 6];
    for k in 0..n {
        r[k] = v[k * n + i];
    }
    r
}

// Returns each value with its column.
fn pairs(vals: &[f64], v: &[f64], n: usize) -> [Eigen6; 6]
    requires n_le_6 { n ≤ 6 }
    requires vals_len { length vals.now ≡ n }
    requires v_len { length v.now ≡ n * n }
    ensures { result ≡ eigens6 n (held_pairs n (held vals.now v.now) n) }
{
    let mut r = [Eigen6 {
        value: 0.0,
        vector: [0.0; 6],
    }; 6];
    for i in 0..n {
        let vector = column(v, n, i);
        r[i] = Eigen6 {
            value: vals[i],
            vector,
        };
    }
    r
}

// The eigenvalues of the symmetric n by n matrix in the corner of `a`, rising, with their unit vectors, by cyclic Jacobi rotations. Unused pairs and entries are 0.
pub fn sym_eigen(a: [[f64; 6]; 6], n: usize) -> [Eigen6; 6]
    requires { n ≤ 6 }
    ensures { result ≡ eigens6 n (eigen.sym_eigen n (flat n a)) }
{
    let size = n * n;
    let mut matrix = [0.0; 36];
    let mut vectors = [0.0; 36];
    let mut values = [0.0; 6];
    let m = &mut matrix[..size];
    let v = &mut vectors[..size];
    let vals = &mut values[..n];
    lay_out(a, n, m);
    eigen::eigen::sym_eigen(m, v, vals, n);
    pairs(vals, v, n)
}
