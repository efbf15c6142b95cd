// solve.rs, `dof`: each body's freedom in 29 doubles, and the whole assembly's. body_freedom's `specs/Dof.antt` has the definitions, its `specs/Layout.antt` the 29 doubles.

ghost use Rattle.std.specs.Prelude.{◌≡◌, ◌+◌, ◌*◌, ◌≤◌, ◌<◌, length};
ghost use Rattle.body_freedom.specs.Dof as definitions;
ghost use Rattle.records.specs.Record as format;
ghost use Rattle.scene.specs.Scene.{poses_in};
ghost use Rattle.scene.specs.Sheet.{sheet_scene};
ghost use Rattle.body_freedom.specs.BodySlopes.{BodyApart, starts};
ghost use Rattle.freedom.specs.Freed as spec;

use crate::total::total;
use body_freedom::body::{body_dof, put_freedom, put_none};
use body_freedom::body_slopes::{BodyParts, body_parts, body_square, put_starts};
use scene::scene::{Sheet, half_size};

// Body i's freedom with the others held still, in 29 doubles; a fixed body has none. s is lent from the slopes on; the bodies stand at their frames in it.
fn put_body(sheet: Sheet, s: &mut [f64], freedoms: &mut [f64], i: usize, parts: BodyParts)
    requires i_lt_m { (i < sheet.scene.m) × (29 * i + 29 ≤ length freedoms.old) }
    requires body_apart { BodyApart sheet.scene parts (length s.old) }
    requires m_value { poses_in s.old parts.poses sheet.scene.m ≡ starts (sheet_scene sheet) }
    ensures { spec.BodyFreed (sheet_scene sheet.entry) s.old s.new parts.poses sheet.entry.scene.m i freedoms.old freedoms.new (definitions.freedom_of (sheet_scene sheet.entry) i (format.body_at sheet.entry.bytes.now (sheet.entry.scene.bodies + 136 * i))) }
{
    let body = sheet.body(i);
    if body.fixed {
        put_none(freedoms, 29 * i);
        return;
    }
    let square = body_square(sheet, s, i, parts);
    let center = body.center;
    let f = body_dof(square, center, half_size(body.size));
    put_freedom(freedoms, 29 * i, f);
}

// 29 doubles a body to `freedoms`. s is lent from the slopes on; what stands in it afterwards is open: it is scratch.
fn put_bodies(sheet: Sheet, s: &mut [f64], freedoms: &mut [f64])
    requires scene_in_bounds { spec.body_need sheet.scene ≤ length s.old }
    requires m_in_bounds { 29 * sheet.scene.m ≤ length freedoms.old }
    ensures { spec.BodiesFreed (sheet_scene sheet.entry) sheet.entry.scene.m s.old s.new freedoms.old freedoms.new }
{
    let m = sheet.scene.m;
    let parts = body_parts(sheet.scene);
    put_starts(sheet, s, parts.poses);
    for i in 0..m {
        put_body(sheet, s, freedoms, i, parts);
    }
}

// `dof`: 29 doubles a body to `freedoms`, and the whole assembly's freedom. The slopes stand behind the n unknowns, those of one body where those of all do. What stands
// in the scratch afterwards is open.
pub fn dof(sheet: Sheet, s: &mut [f64], freedoms: &mut [f64]) -> usize
    requires scene_in_bounds { spec.need sheet.scene ≤ length s.old }
    requires m_in_bounds { 29 * sheet.scene.m ≤ length freedoms.old }
    ensures { spec.Freed (sheet_scene sheet.entry) sheet.entry.scene.m s.old s.new freedoms.old freedoms.new result }
{
    let slopes = sheet.scene.n;
    put_bodies(sheet, &mut s[slopes..], freedoms);
    total(sheet, s)
}
