// Statements, and the blocks that they are dealt to.
ghost use Rattle.std.specs.Prelude.{◌≡◌, ◌&&◌, ◌+◌, ◌-◌, ◌*◌, ◌<◌, ◌≤◌, ◌/◌, leb, length, get_or, IfSome};
ghost use Rattle.layout.specs.Number.{number_at};
ghost use Rattle.files.specs.World.{unless_zero};
ghost use Rattle.files.specs.Blocks.{address_ok, statement_ok, statements_ok, terminator_ok, cases_of, block_ok, block_at, blocks_in};

use crate::nodes;

// The bytes of a statement, of a block without its cases, and of a case.
pub const STATEMENT: usize = 13;

pub const BLOCK: usize = 24;

pub const CASE: usize = 12;

// The number of a Switch, the last of the four terminators.
const SWITCH: u8 = 3;

// An address has its flag, or is 0.
fn is_address(flag: u8, at: u64) -> bool
    ensures { result ≡ address_ok flag at }
{
    (flag <= 1) & ((flag == 1) | (at == 0))
}

#[tactic(auto, unfolding(crate::specs::Blocks::statement_ok))]
fn check_statement(nodes: &[u8], b: &[u8], k: usize) -> bool
    requires { k * 13 + 13 ≤ length b.now }
    ensures { result ≡ statement_ok nodes.now b.now k }
{
    let i = k * STATEMENT;
    let flag = b[i];
    let at = layout::get::<8>(b, i + 1);
    let root = layout::get::<4>(b, i + 9) as usize;
    is_address(flag, at) & nodes::is_root(nodes, root)
}

#[tactic(auto, using(crate::proofs::BlockLaws::statements_odd))]
fn check_statements(nodes: &[u8], b: &[u8]) -> bool
    ensures { result ≡ statements_ok nodes.now b.now }
{
    if b.len() % STATEMENT != 0 {
        return false;
    }
    let count = b.len() / STATEMENT;
    (0..count).all(|k| check_statement(nodes, b, k))
}

// Whether a terminator has its address, root, taken and next, and 0 for those that are not its. (Its kind as the number that it has in the file: kinds from 2 on
// have an address and a root, so that a rule is one comparison; a reader gets `index::blocks::Terminator`. `rooted` is the answer about the root.)
fn is_terminator(
    kind: u8,
    flag: u8,
    at: u64,
    root: usize,
    taken: usize,
    next: usize,
    rooted: bool,
) -> bool
    ensures { result ≡ terminator_ok kind flag at root taken next rooted }
{
    (kind <= SWITCH)
        & is_address(flag, at)
        & ((2 <= kind) | (flag == 0))
        & ((2 <= kind) | (root == 0))
        & ((kind < 2) | rooted)
        & ((1 <= kind) | (taken == 0))
        & ((kind == 2) | (next == 0))
}

#[tactic(auto, unfolding(crate::specs::Blocks::block_ok))]
fn check_block(nodes: &[u8], b: &[u8], i: usize) -> bool
    requires { i + 24 ≤ length b.now }
    ensures { result ≡ block_ok nodes.now b.now i }
{
    let kind = b[i + 2];
    let flag = b[i + 3];
    let at = layout::get::<8>(b, i + 4);
    let root = layout::get::<4>(b, i + 12) as usize;
    let taken = layout::get::<4>(b, i + 16) as usize;
    let next = layout::get::<4>(b, i + 20) as usize;
    let rooted = nodes::is_root(nodes, root);
    is_terminator(kind, flag, at, root, taken, next, rooted)
}

// The bytes of a block's cases, 0 where it has none: only a Switch has some.
pub fn cases(b: &[u8], i: usize) -> usize
    requires { i + 24 ≤ length b.now }
    ensures { (result ≡ cases_of (get_or b.now (i + 2) 0) (number_at b.now (i + 16) 4)) × (result < 51539607552) }
{
    if b[i + 2] != SWITCH {
        return 0;
    }
    layout::get::<4>(b, i + 16) as usize * CASE
}

// The length of the block at i, where `left` statements are not dealt yet. (i is a place in the whole body, as in the definition that the contract names.)
#[tactic(auto, using(crate::proofs::ItemLaws::some_there), unfolding(crate::specs::Blocks::block_at))]
fn block_at(nodes: &[u8], b: &[u8], left: usize, i: usize) -> Option<usize>
    requires { i < length b.now }
    ensures block { result ≡ unless_zero (block_at nodes.now b.now left i) }
    ensures within { IfSome result (λ k. (24 ≤ k) × (i + k ≤ length b.now)) }
    ensures dealt { IfSome result (λ k. number_at b.now i 2 ≤ left) }
{
    if b.len() - i < BLOCK {
        return None;
    }
    if left < layout::get::<2>(b, i) as usize {
        return None;
    }
    if !check_block(nodes, b, i) {
        return None;
    }
    let more = cases(b, i);
    if b.len() - (i + BLOCK) < more {
        return None;
    }
    Some(more + BLOCK)
}

// Whether the blocks are as they must be, and take `count` statements: these are another body, of which only the number matters. (A loop by lengths: where the
// next block is only a block's own cases say.)
#[tactic(auto, unfolding(crate::specs::Blocks::blocks_in))]
fn check_blocks(nodes: &[u8], count: usize, b: &[u8]) -> bool
    ensures { result ≡ leb 1 (blocks_in nodes.now count b.now) }
{
    let mut left = count;
    let mut i = 0;
    while i < b.len() {
        let Some(k) = block_at(nodes, b, left, i) else {
            return false;
        };
        left = left - layout::get::<2>(b, i) as usize;
        i += k;
    }
    left == 0
}

pub fn check(nodes: &[u8], statements: &[u8], b: &[u8]) -> bool
    ensures { result ≡ (statements_ok nodes.now statements.now && leb 1 (blocks_in nodes.now (length statements.now / 13) b.now)) }
{
    if !check_statements(nodes, statements) {
        return false;
    }
    check_blocks(nodes, statements.len() / STATEMENT, b)
}
