// Asking the world: the one body of the three questions.
ghost use Rattle.std.specs.Prelude.{◌≤◌, List, ℕ, length};
ghost use Rattle.workspace.specs.Parts.{workspace_size};
ghost use Rattle.operations.specs.Asking.{Sends, Writer};

use crate::results::{ASKED, SECOND};
use workspace::{QUESTIONS, registers};

// A question is written with its answer, by a writer of its piece: in the first pass beside the tables, if it fits there, in the second in the record.
pub fn send<W: Fn(&mut [u8], u64, bool) -> u64>(ws: &mut [u8], out: &mut [u8], write: W)
    requires workspace_long { workspace_size ≤ length ws.old }
    requires callable { W.IsAlwaysCallable write }
    ensures { (bytes : List ℕ) → Writer W.Fn write bytes → Sends bytes ws.old out.old ws.new out.new }
{
    let asked = registers::word(ws, ASKED);
    let second = registers::word(ws, SECOND) != 0;
    let cursor = write(out, asked, second);
    write(&mut ws[QUESTIONS..], asked, !second);
    registers::set_word(ws, ASKED, cursor);
}
