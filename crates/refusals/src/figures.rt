// How many doubles of scratch `solve` and `dof` need and a running state has, for a sheet that passes tests 1 to 7 and 14.

ghost use Rattle.std.specs.Prelude.{◌≡◌, ◌+◌, ◌*◌, ◌≤◌};
ghost use Rattle.scene.specs.Scene.{SceneMade};
ghost use Rattle.format.specs.Format.{bodies_of, relations_of};
ghost use Rattle.format.specs.Faults as faults;
ghost use Rattle.refusals.specs.Refusals as spec;

use least_squares::triangle::places;
use records::record::u16_at;
use scene::scene::{Scene, Sheet, scene_of};

// The sheet with its bodies and relations, the layout of unknowns and the row count.
#[tactic(auto, using(format::proofs::RefusalLaws::sheet_passes, crate::proofs::FigureLaws::counted))]
pub fn scene_in(s: &[u8]) -> Sheet<'_>
    requires { faults.sheet_fault s.now ≡ 0 }
    ensures bytes { result.bytes.now ≡ s.now }
    ensures made { SceneMade s.now 24 (bodies_of s.now) (24 + 136 * bodies_of s.now) (relations_of s.now) result.scene }
{
    let m = u16_at(s, 2) as usize;
    let k = u16_at(s, 4) as usize;
    scene_of(s, 24, m, 24 + 136 * m, k)
}

// What both figures are: the squares are R²+R(R+1)/2 for `solve` and 2n² for `dof`.
fn figure(c: Scene, squares: usize) -> usize
    requires rows_bound { (c.rows ≤ 896) × (c.n ≤ 384) }
    requires m_bound { (c.m ≤ 64) × (squares ≤ 1605632) }
    requires n_bound { c.rows * c.n ≤ 344064 }
    ensures { result ≡ c.rows * c.n + squares + 8 * c.rows + 8 * c.n + 32 * c.m }
{
    c.rows * c.n + squares + 8 * c.rows + 8 * c.n + 32 * c.m
}

#[tactic(auto, using(crate::proofs::FigureLaws::few, crate::proofs::FigureLaws::row_count, crate::proofs::FigureLaws::unknown_count), unfolding(least_squares::specs::Triangle::triangle))]
pub fn solve_scratch(s: &[u8]) -> usize
    requires { faults.sheet_fault s.now ≡ 0 }
    ensures { result ≡ spec.solve_scratch s.now }
{
    let c = scene_in(s).scene;
    figure(c, c.rows * c.rows + places(c.rows))
}

#[tactic(auto, using(crate::proofs::FigureLaws::few, crate::proofs::FigureLaws::row_count, crate::proofs::FigureLaws::unknown_count))]
pub fn dof_scratch(s: &[u8]) -> usize
    requires { faults.sheet_fault s.now ≡ 0 }
    ensures { result ≡ spec.dof_scratch s.now }
{
    let c = scene_in(s).scene;
    figure(c, 2 * (c.n * c.n))
}

#[tactic(auto, using(crate::proofs::FigureLaws::few, crate::proofs::FigureLaws::row_count, crate::proofs::FigureLaws::unknown_count))]
pub fn state_length(s: &[u8]) -> usize
    requires { faults.sheet_fault s.now ≡ 0 }
    ensures { result ≡ spec.state_length s.now }
{
    let c = scene_in(s).scene;
    1 + 2 * c.n + c.rows
}
