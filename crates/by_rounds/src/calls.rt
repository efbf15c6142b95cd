// Solving by rounds with `solve`'s memory: a call that begins, and one that goes on from what the caller holds. `specs/Held.antt` says what they leave.

ghost use Rattle.std.specs.Prelude.{◌≡◌, true, ◌≤◌, length};
ghost use Rattle.relations.specs.Model.{body_number};
ghost use Rattle.scene.specs.Scene.{parameters_of};
ghost use Rattle.scene.specs.Sheet.{sheet_scene};
ghost use Rattle.scene.specs.Solve as definitions;
ghost use Rattle.rounds.specs.Parts.{need};
ghost use Rattle.portions.specs.Portions as portions;
ghost use Rattle.by_rounds.specs.State as state_spec;
ghost use Rattle.by_rounds.specs.Held as held;

use crate::held::{Reached, put_reached, take_held};
use crate::portion::{begin, on};
use rounds::parts::{Solver, solve_parts};
use scene::parameters::Parameters;
use scene::scene::Sheet;

// Begins, and makes a portion of rounds.
pub fn solve_begin(
    sheet: Sheet,
    s: &mut [f64],
    q: Parameters,
    drag: Option<usize>,
    portion: usize,
    state: &mut [f64],
    poses: &mut [f64],
    frames: &mut [f64],
    errors: &mut [f64],
) -> Reached
    requires q_value { definitions.in_range (parameters_of q) ≡ true }
    requires scene_in_bounds { need sheet.scene ≤ length s.old }
    requires room { held.Room sheet.scene state.old poses.old frames.old errors.old }
    ensures { held.Left (sheet_scene sheet.entry) (parameters_of q) sheet.entry.scene
        (portions.begin (sheet_scene sheet.entry) (parameters_of q) (body_number drag) portion)
        (portions.begin_made (sheet_scene sheet.entry) (parameters_of q) (body_number drag) portion)
        state.old state.new poses.old poses.new
        frames.old frames.new errors.old errors.new result }
{
    let parts = solve_parts(sheet.scene);
    let solver = Solver { sheet, parts };
    let g = begin(&solver, s, q, drag, portion);
    put_reached(&solver, s, q, g, state, poses, frames, errors)
}

// Goes on from what the caller holds, and makes a portion of rounds.
pub fn solve_on(
    sheet: Sheet,
    s: &mut [f64],
    q: Parameters,
    drag: Option<usize>,
    portion: usize,
    done: u32,
    run: u8,
    state: &mut [f64],
    poses: &mut [f64],
    frames: &mut [f64],
    errors: &mut [f64],
) -> Reached
    requires q_value { definitions.in_range (parameters_of q) ≡ true }
    requires scene_in_bounds { need sheet.scene ≤ length s.old }
    requires room { held.Room sheet.scene state.old poses.old frames.old errors.old }
    ensures { held.Left (sheet_scene sheet.entry) (parameters_of q) sheet.entry.scene
        (portions.on (sheet_scene sheet.entry) (parameters_of q) (body_number drag) portion
        (state_spec.held_in sheet.entry.scene.n sheet.entry.scene.rows done run state.old))
        (portions.on_made (sheet_scene sheet.entry) (parameters_of q) (body_number drag) portion
        (state_spec.held_in sheet.entry.scene.n sheet.entry.scene.rows done run state.old))
        state.old state.new poses.old poses.new
        frames.old frames.new errors.old errors.new result }
{
    let parts = solve_parts(sheet.scene);
    let solver = Solver { sheet, parts };
    let g = take_held(sheet.scene, s, parts, done, run, state);
    let h = on(&solver, s, q, drag, portion, g);
    put_reached(&solver, s, q, h, state, poses, frames, errors)
}
