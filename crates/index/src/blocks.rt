// A routine's blocks by number, and the fields of blocks and statements. The index: for each block, in two bytes each, its place and its first statement.
// A block goes by its place beside all blocks, as a node by its number in `files::nodes`: its bytes alone would be cut for each field.
ghost use Rattle.std.specs.Prelude.{◌≡◌, ◌+◌, ◌-◌, ◌*◌, ◌≤◌, ◌<◌, length, get_or};
ghost use Rattle.std.specs.Iterator.{at_most};
ghost use Rattle.layout.specs.Number.{number_at};
ghost use Rattle.files.specs.Program.{case_of, flagged, listed, case_at};
ghost use Rattle.index.specs.Blocks.{blocks_room, BlockInside, Blocks, Stands, Steps, BlocksIndexed, BlockTold, Placed, Ends, States};

use files::blocks::{BLOCK, CASE, STATEMENT, cases};

// The bytes of the index: at most 2,730 blocks of at least 24 bytes.
pub const BLOCKS: usize = 10920;

// The bytes of an entry of the index.
const ENTRY: usize = 4;

// Where a block starts in its body, and which is its first statement.
#[derive(Clone, Copy, Default)]
pub struct Place {
    pub start: usize,
    pub first: usize,
}

#[derive(Clone, Copy)]
pub enum Terminator {
    Return,
    Goto(usize),
    Branch {
        address: Option<u64>,
        root: usize,
        taken: usize,
        next: usize,
    },
    Switch {
        address: Option<u64>,
        root: usize,
        count: usize,
    },
}

#[derive(Clone, Copy)]
pub struct Statement {
    pub address: Option<u64>,
    pub root: usize,
}

#[derive(Clone, Copy)]
pub struct Case {
    pub value: u64,
    pub target: usize,
}

// An address behind a flag that says whether there is one.
pub fn address_at(s: &[u8], at: usize) -> Option<u64>
    requires { at + 9 ≤ length s.now }
    ensures { result ≡ flagged (get_or s.now at 0) (number_at s.now (at + 1) 8) }
{
    (s[at] != 0).then(|| layout::get::<8>(s, at + 1))
}

// How many statements the block at a place has.
pub fn statement_count(blocks: &[u8], start: usize) -> usize
    requires { BlockInside blocks.now start }
    ensures { (result ≡ number_at blocks.now start 2) × (result < 65536) }
{
    layout::get::<2>(blocks, start) as usize
}

// The places of a body's blocks, one after another: where the next is only a block's own cases say.
#[derive(Drop)]
struct Places<'a> {
    blocks: &'a [u8],
    next: Place,
}

impl<'a> Iterator for Places<'a> {
    type Item = Place;

    ghost can_next = { λ s. Stands s.blocks.now s.next };

    ghost next_gives = { Steps };

    ghost remaining = { λ s. at_most (length s.blocks.now - s.next.start) };

    #[tactic(auto, using(crate::proofs::BlockIndex::stands_inside, crate::proofs::BlockIndex::stands_few, crate::proofs::BlockIndex::stands_on))]
    fn next(&mut self) -> Option<Place> {
        let here = self.next;
        if here.start >= self.blocks.len() {
            return None;
        }
        self.next = Place {
            start: here.start + BLOCK + cases(self.blocks, here.start),
            first: here.first + statement_count(self.blocks, here.start),
        };
        Some(here)
    }
}

// The index of the blocks, and how many there are. (Counted, as texts are.)
#[tactic(auto, using(crate::proofs::BlockIndex::blocks_filled))]
pub fn fill_blocks(blocks: &[u8], part: &mut [u8]) -> usize
    requires { (Blocks blocks.now) × (blocks_room ≤ length part.old) }
    ensures { BlocksIndexed blocks.now part.new result }
{
    let from = Place::default();
    let mut count = 0;
    for place in (Places { blocks, next: from }) {
        let at = count * ENTRY;
        layout::put::<2>(part, at, place.start as u64);
        layout::put::<2>(part, at + 2, place.first as u64);
        count += 1;
    }
    count
}

// The place of block k.
#[tactic(auto, using(crate::proofs::BlockIndex::block_placed))]
pub fn block(part: &[u8], k: usize) -> Place
    requires { BlockTold part.now k }
    ensures { Placed part.now k result }
{
    Place {
        start: layout::get::<2>(part, k * ENTRY) as usize,
        first: layout::get::<2>(part, k * ENTRY + 2) as usize,
    }
}

// The terminator of the block at a place: here the number of its kind becomes one of `Terminator`.
pub fn terminator_at(blocks: &[u8], start: usize) -> Terminator
    requires { BlockInside blocks.now start }
    ensures { Ends blocks.now start result }
{
    let address = address_at(blocks, start + 3);
    let root = layout::get::<4>(blocks, start + 12) as usize;
    let taken = layout::get::<4>(blocks, start + 16) as usize;
    let next = layout::get::<4>(blocks, start + 20) as usize;
    match blocks[start + 2] {
        0 => Terminator::Return,
        1 => Terminator::Goto(taken),
        2 => Terminator::Branch {
            address,
            root,
            taken,
            next,
        },
        _ => Terminator::Switch {
            address,
            root,
            count: taken,
        },
    }
}

// Case k of the Switch whose block starts at a place.
pub fn case_at(blocks: &[u8], start: usize, k: usize) -> Case
    requires { start + BLOCK + k * CASE + CASE ≤ length blocks.now }
    ensures { (result.value ≡ (case_at blocks.now (start + BLOCK) k).value) × (result.target ≡ (case_at blocks.now (start + BLOCK) k).target) }
{
    let at = start + BLOCK + k * CASE;
    Case {
        value: layout::get::<8>(blocks, at),
        target: layout::get::<4>(blocks, at + 8) as usize,
    }
}

// The target of the first of a Switch's cases that has a value, both as 64 bits. (Behind the cases, which are so many, the next block stands.)
pub fn case_of(blocks: &[u8], start: usize, count: usize, value: u64) -> Option<usize>
    requires { start + BLOCK + count * CASE ≤ length blocks.now }
    ensures { result ≡ case_of (listed (case_at blocks.now (start + BLOCK)) 0 count) value }
{
    (0..count)
        .map(|k| case_at(blocks, start, k))
        .find(|case| case.value == value)
        .map(|case| case.target)
}

// Statement k.
pub fn statement_at(statements: &[u8], k: usize) -> Statement
    requires { k * STATEMENT + STATEMENT ≤ length statements.now }
    ensures { States statements.now k result }
{
    let at = k * STATEMENT;
    Statement {
        address: address_at(statements, at),
        root: layout::get::<4>(statements, at + 9) as usize,
    }
}
