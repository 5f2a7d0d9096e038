// Where a block's terminator leads. (`Dealt` is a clause, as is `Placing` where a terminator is run: a ghost field of a `Place` cannot name the bodies, and of a struct of both each contract
// would name the same bodies, through one field more.)
ghost use Rattle.std.specs.Prelude.{◌≡◌, ◌+◌, ◌*◌, ◌≤◌, length};
ghost use Rattle.files.specs.Program.{listed, case_at};
ghost use Rattle.hosting.specs.Ending.{end_of};
ghost use Rattle.outcomes.specs.Endings.{end_end};
ghost use Rattle.outcomes.specs.Placing.{Dealt};
ghost use Rattle.outcomes.specs.Post.{branches, switches, LastIs, AddressIs, Leads};

use crate::Bodies;
use hosting::{Short, Stop};
use index::blocks::Place;
use std::ops::ControlFlow;
use stream::Reason;
use value::Val;

// Where the walk is: before a statement of a block, or, with none, about to enter it. (The option stands first, so that its tag, and no number, shares a word with
// a tag of `ControlFlow`.)
#[derive(Clone, Copy, Default)]
pub struct Spot {
    pub statement: Option<usize>,
    pub block: usize,
}

// A Branch: a block for a value other than 0, else the next. (Its parameters are what the match on the terminator took apart.)
pub fn branch_to(root: usize, taken: usize, next: usize, v: Val) -> Result<usize, Short>
    ensures { end_of result ≡ end_end (branches root taken next v) }
{
    if !v.known {
        return Err(Short::Why(Reason::BranchUnknown, root as u64));
    }
    if v.number == 0 { Ok(next) } else { Ok(taken) }
}

// A Switch: the first case of the value, extended by its sign bit whatever its sign is. (The count is of the block's cases, behind which the next block stands.)
#[tactic(auto, using(crate::proofs::LeadLaws::switch_unknown_lem, crate::proofs::LeadLaws::switch_told))]
pub fn switch_to(
    blocks: &[u8],
    start: usize,
    count: usize,
    root: usize,
    v: Val,
) -> Result<usize, Short>
    requires { start + 24 + count * 12 ≤ length blocks.now }
    ensures { end_of result ≡ end_end (switches root (listed (case_at blocks.now (start + 24)) 0 count) v) }
{
    if !v.known {
        return Err(Short::Why(Reason::SwitchUnknown, root as u64));
    }
    let n = value::width::sign_extend(v.number, v.bits);
    index::blocks::case_of(blocks, start, count, n).ok_or(Short::Why(Reason::NoCase, n))
}

// The last statement's address.
#[tactic(auto, using(crate::proofs::LeadLaws::last_none, crate::proofs::LeadLaws::last_some, crate::proofs::LeadLaws::last_inside))]
fn last_address(bodies: &Bodies, place: Place) -> Option<u64>
    requires { Dealt bodies.now.statements.now bodies.now.blocks.now place }
    ensures { LastIs bodies.now.statements.now bodies.now.blocks.now place result }
{
    let last = index::blocks::statement_count(bodies.blocks, place.start).checked_sub(1)?;
    index::blocks::statement_at(bodies.statements, place.first + last).address
}

// A terminator without an address takes the last statement's.
#[tactic(auto, using(crate::proofs::LeadLaws::address_is))]
fn address_or(bodies: &Bodies, place: Place, address: Option<u64>) -> Option<u64>
    requires { Dealt bodies.now.statements.now bodies.now.blocks.now place }
    ensures { AddressIs bodies.now.statements.now bodies.now.blocks.now place address result }
{
    address.or(last_address(bodies, place))
}

// A block comes next, or the run stops.
#[tactic(auto, using(crate::proofs::LeadLaws::leads_to, crate::proofs::LeadLaws::leads_short))]
pub fn lead_on(
    bodies: &Bodies,
    place: Place,
    address: Option<u64>,
    lead: Result<usize, Short>,
) -> ControlFlow<Stop, Spot>
    requires { Dealt bodies.now.statements.now bodies.now.blocks.now place }
    ensures { Leads bodies.now.statements.now bodies.now.blocks.now place address lead result }
{
    match lead {
        Ok(block) => ControlFlow::Continue(Spot {
            block,
            statement: None,
        }),
        Err(s) => { ControlFlow::Break(Stop::Unknown(address_or(bodies, place, address), s)) }
    }
}
