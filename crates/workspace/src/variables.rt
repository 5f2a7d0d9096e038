// The variables: a slot of 16 bytes for each name.
// A name goes by its number, and each function asks that it is one (`x < name_limit`), as `types` asks of a type's (`i < type_limit`): the number is read from a
// node, and what accepts the nodes bounds it. A type with this fact would be made at each such read, by the same proof, and taken apart here: its clause would
// be as long.
ghost use Rattle.std.specs.Prelude.{◌≡◌, [], ◌∷◌, ◌++◌, ◌+◌, ◌*◌, ◌<◌, ◌≤◌, length, drop};
ghost use Rattle.std.proofs.lemmas.List.Edits.{sets};
ghost use Rattle.memory.specs.Overlay.{find};
ghost use Rattle.workspace.specs.Parts.{workspace_size, frame_part};
ghost use Rattle.definition.specs.Record.{variables_body};
ghost use Rattle.workspace.specs.Variables.{name_limit, variables_in, variable_at, variable_size};
ghost use Rattle.workspace.specs.View.{Changes, setting};
ghost use Rattle.workspace.specs.Post.{PutsVariables};

use super::FRAME;
use value::Val;
use value::encoding::{get_val, put_val};

// The most names.
pub(crate) const NAME_LIMIT: usize = 512;

// The bytes of a slot: whether it is set, the value, one that is unused.
const SLOT: usize = 16;

// The bytes of all slots.
pub(crate) const BYTES: usize = NAME_LIMIT * SLOT;

// The bytes of a variable in a record: its name and the value.
pub const VARIABLE: usize = 16;

// The variable of a name, if it is set.
#[tactic(auto, using(crate::proofs::FrameLaws::reads_unset, crate::proofs::FrameLaws::reads_set))]
pub fn variable(ws: &[u8], x: usize) -> Option<Val>
    requires { (workspace_size ≤ length ws.now) × (x < name_limit) }
    ensures { result ≡ find x (variables_in (frame_part ws.now)) }
{
    let at = FRAME + x * SLOT;
    (layout::get::<1>(ws, at) != 0).then(|| get_val(ws, at + 1))
}

pub fn set_variable(ws: &mut [u8], x: usize, v: Val)
    requires { (workspace_size ≤ length ws.old) × (x < name_limit) }
    ensures { Changes ws.old (setting x v) ws.new }
{
    let at = FRAME + x * SLOT;
    layout::put::<1>(ws, at, 1);
    put_val(ws, at + 1, v);
}

// How many variables are set.
pub fn variable_count(ws: &[u8]) -> usize
    requires { workspace_size ≤ length ws.now }
    ensures { result ≡ length (variables_in (frame_part ws.now)) }
{
    (0..NAME_LIMIT)
        .filter(|x| variable(ws, *x).is_some())
        .count()
}

// A variable in a record's bytes.
#[tactic(auto, using(crate::proofs::CopyLaws::variable_put))]
fn put_variable(out: &mut [u8], at: usize, x: usize, v: Val)
    requires { at + variable_size ≤ length out.old }
    ensures { out.new ≡ sets out.old at (variables_body ((x, v) ∷ [])) }
{
    layout::put::<2>(out, at, x as u64);
    put_val(out, at + 2, v);
}

// The variable of a name, if it is set, at a place of out: the next place.
fn copy_variable(ws: &[u8], x: usize, out: &mut [u8], at: usize) -> usize
    requires { (workspace_size ≤ length ws.now) × (x < name_limit) × (at + length (variable_at (frame_part ws.now) x) * variable_size ≤ length out.old) }
    ensures { PutsVariables (variable_at (frame_part ws.now) x) out.old at out.new result }
{
    match variable(ws, x) {
        Some(v) => {
            put_variable(out, at, x, v);
            at + VARIABLE
        }
        None => at,
    }
}

// The Variables body of a record, at the front of out.
#[tactic(auto, using(crate::proofs::CopyLaws::copy_room, crate::proofs::CopyLaws::copy_done))]
pub fn copy_variables(ws: &[u8], out: &mut [u8])
    requires { (workspace_size ≤ length ws.now) × (length (variables_in (frame_part ws.now)) * variable_size ≤ length out.old) }
    ensures { out.new ≡ variables_body (variables_in (frame_part ws.now)) ++ drop (length (variables_in (frame_part ws.now)) * variable_size) out.old }
{
    let mut at = 0;
    for x in 0..NAME_LIMIT {
        at = copy_variable(ws, x, out, at);
    }
}
