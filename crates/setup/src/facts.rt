// What a run needs to know of its routine beside the bodies.
ghost use Rattle.std.specs.Prelude.{[], get_or};
ghost use Rattle.files.specs.Program.{program_of};
ghost use Rattle.setup.specs.Post.{Returning, Knows};

use crate::head::RETURNS;
use crate::texts::{find_name, text_numbered};
use files::checked::Routine;
use hosting::Facts;
use value::Ty;

// The type to which a routine casts a value that it returns, none for `void`.
#[tactic(auto, using(crate::proofs::BodyFacts::head_room, crate::proofs::BodyFacts::returns_void, crate::proofs::BodyFacts::returns_as_lem, layout::proofs::TextLaws::slices_same))]
fn returns_of(routine: Routine) -> Option<Ty>
    ensures { let p = program_of routine.entry.bytes.now in Returning (get_or p.types p.returns []) result }
{
    let i = layout::get::<2>(routine.head(), RETURNS) as usize;
    let text = text_numbered(routine.types(), i);
    if text == b"void".as_slice() {
        return None;
    }
    Some(spelling::type_of(text))
}

// The facts of a routine of so many blocks.
#[tactic(auto, using(crate::proofs::BodyFacts::names_good, crate::proofs::BodyFacts::names_short))]
pub fn facts_of(routine: Routine, blocks: usize) -> Facts
    ensures { Knows (program_of routine.entry.bytes.now) blocks result }
{
    let names = routine.names();
    Facts {
        blocks,
        returns: returns_of(routine),
        unreachable: find_name(names, b"__builtin_unreachable"),
        halted: find_name(names, b"__analysis_halted"),
    }
}
