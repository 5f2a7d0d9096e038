// What a run on the lent bytes is told by: its counts, how it goes, and with what an evaluation or a statement ends.
#![tactic(auto)]

use stream::{NotePiece, Reason};
use value::{Ty, Val};

// What an evaluation reads: the nodes of the routine, and the symbols and regions of the world.
#[derive(Clone, Copy)]
pub struct Reads<'a> {
    pub nodes: &'a [u8],
    pub symbols: &'a [u8],
    pub regions: &'a [u8],
}

// The cursors of the two streams, the units left, and those spent on blocks and on statements.
#[derive(Clone, Copy, Default)]
pub struct Tally {
    pub recorded: u64,
    pub asked: u64,
    pub left: u64,
    pub entered: u64,
    pub steps: u64,
}

// How many entries of memory the workspace holds, and the tally.
#[derive(Clone, Copy)]
pub struct Counts {
    pub stored: usize,
    pub tally: Tally,
}

// The depth limit, how many entries the index of regions has, and whether this is the pass that writes the questions.
#[derive(Clone, Copy)]
pub struct How {
    pub depth: u64,
    pub regions: usize,
    pub second: bool,
}

// Why an evaluation ends short: the workspace has no room for another written address, or a reason of the record, with what it names.
#[derive(Clone, Copy, PartialEq, Eq)]
pub enum Short {
    Full,
    Why(Reason, u64),
}

// What executing did: the name that it wrote, with the value, and its note, beside which stands no name that a call took.
#[derive(Clone, Copy, Default)]
pub struct Did {
    pub wrote: Option<(usize, Val)>,
    pub note: NotePiece,
}

// What a run needs to know of its routine beside the bodies: how many blocks it has, the type to which a returned value is cast, which is none where the
// return type is `void`, and the numbers of the two names by which an Intrinsic ends a run, where the routine has them.
#[derive(Clone, Copy)]
pub struct Facts {
    pub blocks: usize,
    pub returns: Option<Ty>,
    pub unreachable: Option<usize>,
    pub halted: Option<usize>,
}

// Why a run stopped. Unknown because the workspace is full is no stop of the definition: the run is refused.
#[derive(Clone, Copy)]
pub enum Stop {
    Returned(Option<Val>),
    Steps,
    Unknown(Option<u64>, Short),
    NoBlock(u64),
    NoBlocks,
    NoReturn(Option<u64>),
    Halted(Option<u64>, u64),
}

#[derive(Clone, Copy)]
pub struct Walked {
    pub stop: Stop,
    pub at: Counts,
}

// How many entries the index of regions has, and the facts of the routine.
#[derive(Clone, Copy)]
pub struct Indexed {
    pub regions: usize,
    pub facts: Facts,
}
