// The walk over a routine's blocks, one unit at a time: a block is entered or a statement run, and the terminator that follows costs nothing.
// Clauses that come again: `ReadyIn`, `Rooted` and `Balanced` are of the workspace, which each call changes, so that no type can hold them; `Placing` is of a
// place in the bodies (outcomes::leads says why it is a clause); `RootsOf` is a part of `Rooted`, so that a ghost field of `Bodies` would say it again.
// What an evaluation reads is named as one (`reading`) in what a function ensures, and beside it the statements, the blocks or both, as each is of others of the
// five; `Placing` and `Rooted` are of three. `ws` and `out` go side by side as in `operations`, which says why.
ghost use Rattle.std.specs.Prelude.{◌≡◌, ℕ, Some, None, ◌+◌, ◌*◌, ◌<◌, ◌≤◌, length};
ghost use Rattle.workspace.specs.Parts.{tables, blocks_part};
ghost use Rattle.hosting.specs.Scene.{given_in, Ready};
ghost use Rattle.hosting.specs.Routine.{Rooted};
ghost use Rattle.hosting.specs.Walking.{WalksAll};
ghost use Rattle.operations.specs.Registers.{counts_in, how_in};
ghost use Rattle.operations.specs.Going.{ReadyIn};
ghost use Rattle.outcomes.specs.Sorts.{RootsOf};
ghost use Rattle.outcomes.specs.Placing.{Placing};
ghost use Rattle.outcomes.specs.Units.{Balanced};
ghost use Rattle.machine.specs.Post.{reading};
ghost use Rattle.machine.specs.Spots.{PlacedAt, Here};
ghost use Rattle.machine.specs.Walk.{Settles, RunsAt, UnitOf, Turns, WalksFrom};

use crate::{statements, terminators};
use hosting::{Counts, Facts, How, Stop, Walked};
use index::blocks::Place;
use operations::results;
use outcomes::leads::Spot;
use outcomes::{Bodies, units};
use std::ops::ControlFlow;

// Before a statement of the block at a place: it is there, or the terminator comes, at no cost.
fn settle(
    bodies: &Bodies,
    ws: &mut [u8],
    out: &mut [u8],
    place: Place,
    block: usize,
    k: usize,
) -> ControlFlow<Stop, Spot>
    requires ready_in { ReadyIn (given_in bodies.now.reads) ws.old }
    requires placing { Placing bodies.now.reads.nodes.now bodies.now.statements.now bodies.now.blocks.now place }
    ensures { reading bodies.now.reads Settles bodies.now.statements.now bodies.now.blocks.now place block k ws.old out.old result ws.new out.new }
{
    if k < index::blocks::statement_count(bodies.blocks, place.start) {
        return ControlFlow::Continue(Spot {
            block,
            statement: Some(k),
        });
    }
    terminators::terminate(bodies, ws, out, place)
}

// What a unit runs at a spot before the walk settles: the statement there, or nothing where a block is entered.
fn run_at(
    bodies: &Bodies,
    ws: &mut [u8],
    out: &mut [u8],
    facts: Facts,
    place: Place,
    spot: Spot,
) -> Option<Stop>
    requires ready_in { ReadyIn (given_in bodies.now.reads) ws.old }
    requires roots_of { (RootsOf bodies.now.reads.nodes.now bodies.now.statements.now) × ((k : ℕ) → spot.statement ≡ Some k → (place.first + k) * 13 + 13 ≤ length bodies.now.statements.now) }
    ensures { reading bodies.now.reads RunsAt bodies.now.statements.now facts place spot ws.old out.old result ws.new out.new }
{
    let k = spot.statement?;
    statements::statement(bodies, ws, out, facts, spot.block, place.first + k)
}

// What one unit buys: the block at a place is entered, or a statement of it run.
// Both come to the only call of `settle`: with two the compiler makes a function of it, and each unit pays for a call.
#[tactic(auto, using(crate::proofs::UnitLaws::statement_inside, crate::proofs::UnitLaws::on_ready))]
fn unit(
    bodies: &Bodies,
    ws: &mut [u8],
    out: &mut [u8],
    facts: Facts,
    place: Place,
    spot: Spot,
) -> ControlFlow<Stop, Spot>
    requires ready_in { ReadyIn (given_in bodies.now.reads) ws.old }
    requires placing { (Placing bodies.now.reads.nodes.now bodies.now.statements.now bodies.now.blocks.now place) × ((k : ℕ) → spot.statement ≡ Some k → Here bodies.now.blocks.now place k) }
    ensures { reading bodies.now.reads UnitOf bodies.now.statements.now bodies.now.blocks.now facts place spot ws.old out.old result ws.new out.new }
{
    match run_at(bodies, ws, out, facts, place, spot) {
        Some(stop) => ControlFlow::Break(stop),
        None => settle(bodies, ws, out, place, spot.block, units::ahead(spot)),
    }
}

// One turn of the walk: a unit is spent, and what it buys is done.
#[tactic(auto, using(crate::proofs::WalkLaws::turned, crate::proofs::UnitLaws::placing, crate::proofs::UnitLaws::here_at, outcomes::proofs::Paying::paid_ready, outcomes::proofs::Paying::pays_at, crate::proofs::IndexLaws::index_room))]
fn turn(
    bodies: &Bodies,
    ws: &mut [u8],
    out: &mut [u8],
    facts: Facts,
    spot: Spot,
) -> ControlFlow<Stop, Spot>
    requires ready_in { ReadyIn (given_in bodies.now.reads) ws.old }
    requires rooted { Rooted bodies.now.reads.nodes.now bodies.now.statements.now bodies.now.blocks.now (blocks_part (tables ws.old)) facts.blocks }
    requires placed_at { (PlacedAt bodies.now.blocks.now facts.blocks spot) × (spot.block < facts.blocks) }
    requires balanced { (Balanced (counts_in ws.old).tally) × (0 < (counts_in ws.old).tally.left) }
    ensures { Turns (given_in bodies.now.reads (how_in ws.old)) bodies.now.statements.now bodies.now.blocks.now facts spot ws.old out.old result ws.new out.new }
{
    let place = units::place_of(ws, spot.block);
    units::pay(ws, spot.statement.is_none());
    unit(bodies, ws, out, facts, place, spot)
}

// The walk from before block 0, a spot's default. (A loop over where the walk is: no range says which block comes next.)
#[tactic(auto, using(crate::proofs::WalkLaws::goes_less, crate::proofs::WalkLaws::stops_with, crate::proofs::WalkLaws::stops_spent, crate::proofs::WalkLaws::stops_missing))]
fn rounds(bodies: &Bodies, ws: &mut [u8], out: &mut [u8], facts: Facts) -> Stop
    requires ready_in { ReadyIn (given_in bodies.now.reads) ws.old }
    requires rooted { Rooted bodies.now.reads.nodes.now bodies.now.statements.now bodies.now.blocks.now (blocks_part (tables ws.old)) facts.blocks }
    requires balanced { Balanced (counts_in ws.old).tally }
    ensures { WalksFrom (given_in bodies.now.reads (how_in ws.old)) bodies.now.statements.now bodies.now.blocks.now facts ws.old out.old result ws.new out.new }
{
    let mut spot = Spot::default();
    while spot.block < facts.blocks {
        if units::left(ws) == 0 {
            return Stop::Steps;
        }
        match turn(bodies, ws, out, facts, spot) {
            ControlFlow::Break(stop) => return stop,
            ControlFlow::Continue(next) => spot = next,
        }
    }
    Stop::NoBlock(spot.block as u64)
}

// The routine is walked, if it has a block. The counts are in the registers until the walk ends.
#[tactic(auto, using(crate::proofs::IndexLaws::walks_none, crate::proofs::IndexLaws::enters_rooted, crate::proofs::IndexLaws::enters_balanced, crate::proofs::IndexLaws::walks_all, operations::proofs::Entering::enters_ready))]
pub fn walk(
    bodies: &Bodies,
    ws: &mut [u8],
    out: &mut [u8],
    how: How,
    facts: Facts,
    at: Counts,
) -> Walked
    requires ready { Ready (given_in bodies.now.reads how) ws.old at }
    requires rooted { Rooted bodies.now.reads.nodes.now bodies.now.statements.now bodies.now.blocks.now (blocks_part (tables ws.old)) facts.blocks }
    requires balanced { Balanced at.tally }
    ensures { WalksAll (given_in bodies.now.reads how) bodies.now.statements.now bodies.now.blocks.now facts at.tally.left ws.old out.old at result ws.new out.new }
{
    if facts.blocks == 0 {
        return Walked {
            stop: Stop::NoBlocks,
            at,
        };
    }
    results::enter(ws, how, at);
    let stop = rounds(bodies, ws, out, facts);
    Walked {
        stop,
        at: results::counts(ws),
    }
}
