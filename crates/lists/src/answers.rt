// Whether an answer is the list's, and how many are not.

ghost use Rattle.std.specs.Prelude.{◌≡◌};
ghost use Rattle.lists.specs.Lists as spec;

use numbers::bits;
use std::ops::Add;

// Whether x is the double that a list's word n stands for.
pub fn same(x: f64, n: u64) -> bool
    ensures { result ≡ spec.same x n }
{
    bits(x) == n
}

// How many answers are wrong after one more.
pub fn counted(wrong: u64, right: bool) -> u64
    ensures { result ≡ spec.counted wrong right }
{
    if right { wrong } else { wrong.wrapping_add(1) }
}

// How many answers were compared, and how many of them are wrong.
#[derive(Clone, Copy, Default)]
pub struct Tally {
    pub answers: u64,
    pub wrong: u64,
}

// One answer.
impl From<bool> for Tally {
    ghost from_gives = { λ right tally. tally ≡ spec.tally_of right };

    fn from(right: bool) -> Tally {
        Tally {
            answers: 1,
            wrong: counted(0, right),
        }
    }
}

// The answers of both.
impl Add for Tally {
    type Output = Tally;

    ghost add_gives = { λ a b sum. sum ≡ spec.tally_sum a b };

    fn add(self, other: Tally) -> Tally {
        Tally {
            answers: self.answers.wrapping_add(other.answers),
            wrong: self.wrong.wrapping_add(other.wrong),
        }
    }
}
