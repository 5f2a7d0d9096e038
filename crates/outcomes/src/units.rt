// The units of a walk, and where its blocks stand.
// That the workspace is long enough is a clause, as in `workspace`, and `Balanced` too: it is of the workspace, which each call changes.
ghost use Rattle.std.specs.Prelude.{◌≡◌, ℕ, Some, ◌+◌, ◌<◌, ◌≤◌, length};
ghost use Rattle.index.specs.Blocks.{BlockTold, Placed};
ghost use Rattle.workspace.specs.Parts.{workspace_size, tables, blocks_part};
ghost use Rattle.operations.specs.Registers.{counts_in};
ghost use Rattle.outcomes.specs.Units.{Balanced};
ghost use Rattle.outcomes.specs.Post.{Pays, ahead_of};

use crate::leads::Spot;
use index::blocks::Place;
use operations::results;
use workspace::registers;

// The statement ahead of a spot: the one after it, or the first of a block that is entered.
pub fn ahead(spot: Spot) -> usize
    requires { (k : ℕ) → spot.statement ≡ Some k → k < 65536 }
    ensures { result ≡ ahead_of spot }
{
    spot.statement.map_or(0, |k| k + 1)
}

// The units that are left.
#[tactic(auto, using(operations::proofs::Registers::left_word))]
pub fn left(ws: &[u8]) -> u64
    requires { workspace_size ≤ length ws.now }
    ensures { result ≡ (counts_in ws.now).tally.left }
{
    registers::word(ws, results::LEFT)
}

// A unit is spent, on a block or on a statement: which of the two is all that is asked.
#[tactic(auto, using(operations::proofs::Registers::left_word, operations::proofs::Registers::entered_word, operations::proofs::Registers::steps_word))]
pub fn pay(ws: &mut [u8], block: bool)
    requires workspace_long { workspace_size ≤ length ws.old }
    requires balanced { (Balanced (counts_in ws.old).tally) × (0 < (counts_in ws.old).tally.left) }
    ensures { Pays block ws.old ws.new }
{
    let rest = registers::word(ws, results::LEFT) - 1;
    registers::set_word(ws, results::LEFT, rest);
    let spent = if block {
        results::ENTERED
    } else {
        results::STEPS
    };
    let more = registers::word(ws, spent) + 1;
    registers::set_word(ws, spent, more);
}

// The place of a block, by the index in the workspace.
pub fn place_of(ws: &[u8], block: usize) -> Place
    requires workspace_long { workspace_size ≤ length ws.now }
    requires block_told { BlockTold (blocks_part (tables ws.now)) block }
    ensures { Placed (blocks_part (tables ws.now)) block result }
{
    index::blocks::block(&ws[workspace::BLOCKS..workspace::QUESTIONS], block)
}
