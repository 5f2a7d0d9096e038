// A statement's step, written where the stream has room.
ghost use Rattle.std.specs.Prelude.{◌≡◌, not, ◌≤◌, length};
ghost use Rattle.definition.specs.Record.{step_fields};
ghost use Rattle.workspace.specs.Parts.{workspace_size, note_part};
ghost use Rattle.workspace.specs.Note.{pending_in, Few};
ghost use Rattle.stream.specs.Stream.{Sent};
ghost use Rattle.stream.specs.Pieces.{step_bytes};
ghost use Rattle.hosting.specs.Ending.{did_of};
ghost use Rattle.operations.specs.Registers.{how_in};
ghost use Rattle.outcomes.specs.Steps.{piece_of, step_as};

use hosting::Did;
use operations::results::SECOND;
use stream::{NotePiece, StepPiece};
use workspace::registers;

// Which statement: its address, its block, its number among all.
#[derive(Clone, Copy)]
pub struct Site {
    pub address: Option<u64>,
    pub block: usize,
    pub statement: usize,
}

// What a step tells beside its note. (No `From`: it is one value of two, and of another crate.)
fn piece(site: Site, did: Did) -> StepPiece
    ensures { result ≡ piece_of site did }
{
    StepPiece {
        address: site.address,
        block: site.block as u64,
        statement: site.statement as u64,
        wrote: did.wrote,
    }
}

// The step of a statement that did so much, with the pending note: the cursor after it. The first pass writes it. (Where it is and what it did come from two
// hands, the walk's place and its root.)
pub fn send(ws: &[u8], out: &mut [u8], site: Site, did: Did, at: u64) -> u64
    requires { (workspace_size ≤ length ws.now) × Few (pending_in (note_part ws.now)) }
    ensures { Sent (not (how_in ws.now).second) out.old at (step_bytes (step_fields (step_as site (did_of did) (pending_in (note_part ws.now))))) out.new result }
{
    let on = registers::word(ws, SECOND) == 0;
    let s = piece(site, did);
    match did.note {
        NotePiece::Nothing => {
            if workspace::note::has_note(ws) {
                let names = workspace::note::names(ws);
                return stream::step(out, at, on, s, NotePiece::NotFollowed, names);
            }
            stream::plain_step(out, at, on, s)
        }
        note => stream::noted_step(out, at, on, s, note),
    }
}
