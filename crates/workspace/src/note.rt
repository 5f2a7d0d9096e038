// The pending note: a flag, then the names taken, as a record's step has them.
ghost use Rattle.std.specs.Prelude.{◌≡◌, true, [], ◌≤◌, ◌<◌, length, None, Some};
ghost use Rattle.workspace.specs.Parts.{workspace_size, note_part};
ghost use Rattle.workspace.specs.Note.{pending_in, noted, taken, names_bytes, Few, Open};
ghost use Rattle.workspace.specs.View.{Changes, leaving, noting};

use super::NOTE;

// The bytes of a note: the flag, the count of names, at most 16 names (3 + 16 * 2), and up to a whole word.
pub(crate) const BYTES: usize = 40;

// Where the count of names stands, and the first name.
const COUNT: usize = NOTE + 1;

const NAMES: usize = NOTE + 3;

// Whether there is a note.
#[tactic(auto, using(crate::proofs::NoteLaws::reads_noted))]
pub fn has_note(ws: &[u8]) -> bool
    requires { workspace_size ≤ length ws.now }
    ensures { result ≡ noted (pending_in (note_part ws.now)) }
{
    layout::get::<1>(ws, NOTE) != 0
}

pub fn clear_note(ws: &mut [u8])
    requires { workspace_size ≤ length ws.old }
    ensures { Changes ws.old (leaving None) ws.new }
{
    layout::put::<1>(ws, NOTE, 0);
}

// A note without names.
pub fn start_note(ws: &mut [u8])
    requires { workspace_size ≤ length ws.old }
    ensures { Changes ws.old (leaving (Some [])) ws.new }
{
    layout::put::<1>(ws, NOTE, 1);
    layout::put::<2>(ws, COUNT, 0);
}

// One name more, after those that the note has.
#[tactic(auto, using(crate::proofs::NoteLaws::name_room))]
pub fn add_name(ws: &mut [u8], x: usize)
    requires { (workspace_size ≤ length ws.old) × (x < 65536) × Open (pending_in (note_part ws.old)) }
    ensures { Changes ws.old (noting x) ws.new }
{
    let count = layout::get::<2>(ws, COUNT);
    let at = NAMES + count as usize * 2;
    layout::put::<2>(ws, at, x as u64);
    layout::put::<2>(ws, COUNT, count + 1);
}

// How many names the note has, 0 where there is no note.
#[tactic(auto, using(crate::proofs::NoteLaws::counts_none, crate::proofs::NoteLaws::counts_names))]
pub fn name_count(ws: &[u8]) -> usize
    requires { workspace_size ≤ length ws.now }
    ensures { result ≡ length (taken (pending_in (note_part ws.now))) }
{
    if layout::get::<1>(ws, NOTE) == 0 {
        return 0;
    }
    layout::get::<2>(ws, COUNT) as usize
}

// The names of a note in the bytes that a record has of them.
pub fn names(ws: &[u8]) -> &[u8]
    requires { (workspace_size ≤ length ws.now) × (noted (pending_in (note_part ws.now)) ≡ true) × Few (pending_in (note_part ws.now)) }
    ensures { result.now ≡ names_bytes (taken (pending_in (note_part ws.now))) }
{
    let end = NAMES + name_count(ws) * 2;
    &ws[COUNT..end]
}
