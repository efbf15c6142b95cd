// Which doubles of a row or of a column are no zeros, listed, so that sums of products go over these alone. `specs/Filled.antt` has the definitions.

ghost use Rattle.std.specs.Prelude.{◌≡◌, cond, ℕ, ◌+◌, ◌*◌, ◌≤◌, ◌<◌, length};
ghost use Rattle.std.specs.Float.Ieee.{eq};
ghost use Rattle.numbers.specs.Double.{zero64};
ghost use Rattle.least_squares.specs.Filled.{FilledList};

// 1 for what is no zero.
fn counts(v: f64) -> usize
    ensures { result ≡ cond (eq v zero64) 0 1 }
{
    if v == 0.0 { 0 } else { 1 }
}

// Of k doubles, each `step` places behind the last and the first at o, writes the numbers of those that are no zeros to the
// first places of the list. Returns how many there are. The list's contents at entry do not affect the result. A number is
// written behind those listed in any case, without a branch, so that one place behind them is open.
#[tactic(auto, unfolding(numbers::specs::Zeros::listed))]
pub fn filled(s: &[f64], o: usize, step: usize, k: usize, list: &mut [usize]) -> usize
    requires by_index { (c : ℕ) → c < k → c * step + o < length s.now }
    requires k_in_bounds { k ≤ length list.old }
    ensures { FilledList s.now o step k list.old list.new result }
{
    let mut m = 0;
    for c in 0..k {
        list[m] = c;
        m += counts(s[c * step + o]);
    }
    m
}
