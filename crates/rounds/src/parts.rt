// Where the parts of the lent scratch stand, each from where the last ended. `specs/Parts.antt` says what each is for.

ghost use Rattle.std.specs.Prelude.{◌≡◌, ◌+◌, ◌*◌, ◌≤◌};
ghost use Rattle.rounds.specs.Parts.{solve_parts, Arranged};

use least_squares::triangle::places;
use scene::scene::{Scene, Sheet};
use slopes::anew_slopes::SlopeParts;

// SolveParts of parts. `seen` has those that the filling of slopes is lent, as it finds them: from the unknowns at `x` on.
#[derive(Clone, Copy)]
pub struct SolveParts {
    pub first: usize,
    pub x: usize,
    pub slopes: usize,
    pub matrix: usize,
    pub weights: usize,
    pub damped: usize,
    pub right: usize,
    pub rows: usize,
    pub next: usize,
    pub ahead: usize,
    pub poses: usize,
    pub seen: SlopeParts,
}

pub fn solve_parts(scene: Scene) -> SolveParts
    requires { (scene.rows ≤ 896) × (scene.n ≤ 384) }
    ensures { result ≡ solve_parts scene }
{
    let rows = scene.rows;
    let n = scene.n;
    let slopes = n + n;
    let matrix = slopes + rows * n;
    let weights = matrix + places(rows);
    let damped = weights + n;
    let right = damped + rows * rows;
    let at = right + rows;
    let next = at + rows;
    let ahead = next + n;
    let poses = ahead + rows;
    let seen = SlopeParts {
        x: 0,
        slopes: n,
        poses: poses - n,
    };
    SolveParts {
        first: 0,
        x: n,
        slopes,
        matrix,
        weights,
        damped,
        right,
        rows: at,
        next,
        ahead,
        poses,
        seen,
    }
}

// What a run works on: a sheet, and the places of its parts in the lent scratch. They end behind the poses. It is handed on by reference: a copy is 432 bytes of stack.
#[derive(Clone, Copy)]
pub struct Solver<'a> {
    pub sheet: Sheet<'a>,
    pub parts: SolveParts,
    pub ghost arranged: { Arranged sheet.scene parts (parts.poses + 12 * sheet.scene.m) },
}
