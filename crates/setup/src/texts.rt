// The texts of a body of names or types, one after another, and the types that they spell.
// (`Texts` stays a clause: names and types, of a routine or a world, meet it alike, and a type that has it would stand in two functions.)
ghost use Rattle.std.specs.Prelude.{◌≡◌, [], ◌≤◌, ◌<◌, length, get_or};
ghost use Rattle.files.specs.Program.{texts_in};
ghost use Rattle.files.specs.Names.{names_in};
ghost use Rattle.index.specs.Texts.{Texts, text_count};
ghost use Rattle.workspace.specs.Parts.{workspace_size};
ghost use Rattle.setup.specs.Post.{Finds, Spells, Unspelled};

use index::texts::texts;
use spelling::{points_at, type_of};
use workspace::types::{TYPE_LIMIT, put_type};

// Text k.
pub fn text_numbered(body: &[u8], k: usize) -> &[u8]
    requires { (Texts body.now) × (k < text_count body.now) }
    ensures { result.now ≡ get_or (texts_in body.now) k [] }
{
    texts(body).nth(k).unwrap_or_default()
}

// The number of the name that has a text.
pub fn find_name(names: &[u8], wanted: &[u8]) -> Option<usize>
    requires { (1 ≤ names_in names.now) × (length names.now < 65536) × (1 ≤ length wanted.now) }
    ensures { Finds names.now wanted.now result }
{
    texts(names).position(|name| name == wanted)
}

// From a type on, what no text spells. (A loop of its own is compiled to one over many types at once, and every run and every constant goes through it.)
fn put_unspelled(ws: &mut [u8], from: usize)
    requires { (workspace_size ≤ length ws.old) × (from ≤ 512) }
    ensures { Unspelled from 512 ws.old ws.new }
{
    let ty = type_of(b"");
    for i in from..TYPE_LIMIT {
        put_type(ws, i, ty, None);
    }
}

// What each type of the body is and points at; past the last one, what no text spells.
pub fn put_types(types: &[u8], ws: &mut [u8])
    requires { (Texts types.now) × (workspace_size ≤ length ws.old) }
    ensures { Spells types.now 512 ws.old ws.new }
{
    let mut rest = texts(types);
    for i in 0..TYPE_LIMIT {
        match rest.next() {
            Some(text) => put_type(ws, i, type_of(text), points_at(text)),
            None => return put_unspelled(ws, i),
        }
    }
}
