// What writes a record: the walk over a routine, and the bodies. The first pass writes the steps, counts the questions' bytes and keeps the questions beside the
// tables. If they do not fit there, a second pass writes them.
// (`Tabled`, and that the workspace is long enough, are clauses: they are of the workspace, which each call changes. `index` goes beside `files`, since it tells
// of both that and them. `second` is which pass it is, and `ws` and `out` go side by side as in `operations`.)
#![tactic(auto)]

pub mod accepted;
pub mod bodies;
pub mod evaluation;

ghost use Rattle.std.specs.Prelude.{◌≡◌, true, false, ◌+◌, ◌<◌, ◌≤◌, length};
ghost use Rattle.files.specs.FileTable.{body};
ghost use Rattle.definition.specs.Run.{workspace_needed};
ghost use Rattle.workspace.specs.Parts.{workspace_size};
ghost use Rattle.workspace.specs.View.{Fit};
ghost use Rattle.stream.specs.Stream.{most};
ghost use Rattle.hosting.specs.Setting.{Tabled, given_of, how_of};
ghost use Rattle.hosting.specs.Walking.{WalksAll, stop_end};
ghost use Rattle.stream.specs.Bodies.{steps_place};
ghost use Rattle.passes.specs.Passing.{start_counts, full_of, Holds, Passes, WalksOf, Keeps, FirstPasses, QuestionsPut};
ghost use Rattle.passes.specs.Writing.{Ended, Exact, Completes};
ghost use Rattle.passes.specs.Accepted.{ran_of, steps_of};

use accepted::Accepted;
use files::call::Limits;
use hosting::{Counts, How, Indexed, Reads, Short, Stop, Tally, Walked};
use outcomes::Bodies;
use stream::{Lengths, STEPS_PLACE};
use workspace::QUESTIONS;

// The counts before anything is done.
fn no_counts(limit: u64) -> Counts
    ensures { result ≡ start_counts limit }
{
    let tally = Tally {
        left: limit,
        ..Tally::default()
    };
    Counts { stored: 0, tally }
}

// The walk itself, in a workspace that is set up.
#[tactic(auto, using(crate::proofs::Arrival::walk_told))]
fn walk_from(
    files: Accepted,
    ws: &mut [u8],
    out: &mut [u8],
    limits: Limits,
    index: Indexed,
    second: bool,
) -> Walked
    requires { Tabled files.routine.bytes.now files.world.bytes.now ws.old index × Fit ws.old 0 }
    ensures { WalksAll (given_of files.entry.routine.bytes.now files.entry.world.bytes.now (how_of limits.depth index.regions second)) (body files.entry.routine.bytes.now 4) (body files.entry.routine.bytes.now 5) index.facts limits.steps ws.old out.old (start_counts limits.steps) result ws.new out.new }
{
    let nodes = files.routine.nodes();
    let statements = files.routine.statements();
    let blocks = files.routine.blocks();
    let symbols = files.world.symbols();
    let regions = files.world.regions();
    let reads = Reads {
        nodes,
        symbols,
        regions,
    };
    let bodies = Bodies {
        reads,
        statements,
        blocks,
    };
    let how = How {
        depth: limits.depth as u64,
        regions: index.regions,
        second,
    };
    let facts = index.facts;
    let at = no_counts(limits.steps as u64);
    machine::walk::walk(&bodies, ws, out, how, facts, at)
}

// The walk with the variables that it starts with.
#[tactic(auto, using(crate::proofs::Arrival::tabled_typed, crate::proofs::Arrival::tabled_kept))]
fn walk_all(files: Accepted, ws: &mut [u8], out: &mut [u8], index: Indexed, second: bool) -> Walked
    requires workspace_long { (workspace_size ≤ length ws.old) × (length out.old < most) }
    requires tabled { Tabled files.routine.bytes.now files.world.bytes.now ws.old index }
    ensures { WalksOf files.entry.routine.bytes.now files.entry.world.bytes.now files.entry.call.bytes.now second out.old ws.old (stop_end (steps_of files.entry) result.stop) ws.new out.new result.at }
{
    setup::set_start(files.routine, files.call, ws);
    walk_from(files, ws, out, files.call.limits(), index, second)
}

// Whether the workspace had no room for another written address.
#[tactic(auto, unfolding(crate::specs::Passing::full_of))]
pub fn is_full(stop: Stop) -> bool
    ensures { result ≡ full_of stop }
{
    matches!(stop, Stop::Unknown(_, Short::Full))
}

// One pass: the walk, and then the variables at the end.
#[tactic(auto, using(crate::proofs::Arrival::pass_full, crate::proofs::Arrival::end_typed, crate::proofs::Arrival::pass_whole))]
fn pass(files: Accepted, ws: &mut [u8], out: &mut [u8], index: Indexed, second: bool) -> Walked
    requires workspace_long { (workspace_size ≤ length ws.old) × (length out.old < most) }
    requires tabled { Tabled files.routine.bytes.now files.world.bytes.now ws.old index }
    ensures { Passes (ran_of files.entry) second out.old ws.old (stop_end (steps_of files.entry) result.stop) ws.new out.new result.at }
{
    let r = walk_all(files, ws, out, index, second);
    let stop = r.stop;
    if is_full(stop) {
        return r;
    }
    setup::set_end(files.routine, ws);
    r
}

// The first pass. The steps go where they start in the buffer, or, in one that is shorter, at its end.
#[tactic(auto, using(crate::proofs::Streams::first_passed))]
pub fn first_pass(files: Accepted, buffer: &mut [u8], ws: &mut [u8], index: Indexed) -> Walked
    requires workspace_long { workspace_size ≤ length ws.old }
    requires tabled { Tabled files.routine.bytes.now files.world.bytes.now ws.old index }
    ensures { FirstPasses (ran_of files.entry) buffer.old ws.old (stop_end (steps_of files.entry) result.stop) buffer.new ws.new result.at }
{
    let start = buffer.len().min(STEPS_PLACE);
    pass(files, ws, &mut buffer[start..], index, false)
}

// The questions, from place q on: those that the first pass kept, else by a second pass over its tables.
#[tactic(auto, using(crate::proofs::Buffer::length_part, crate::proofs::Streams::questions_copied))]
fn put_questions(
    files: Accepted,
    buffer: &mut [u8],
    ws: &mut [u8],
    index: Indexed,
    q: usize,
    at: Counts,
) -> Counts
    requires workspace_long { workspace_size ≤ length ws.old }
    requires tabled { Tabled files.routine.bytes.now files.world.bytes.now ws.old index }
    requires holds { Holds (ran_of files) ws.old at × Keeps (ran_of files) ws.old at }
    requires after_steps { (steps_place ≤ q) × (q + at.tally.asked ≤ length buffer.old) }
    ensures { QuestionsPut (ran_of files.entry) buffer.old q buffer.new ws.new result }
{
    let tally = at.tally;
    if tally.asked <= (ws.len() - QUESTIONS) as u64 {
        let n = tally.asked as usize;
        buffer[q..q + n].copy_from_slice(&ws[QUESTIONS..QUESTIONS + n]);
        return at;
    }
    let r = pass(files, ws, &mut buffer[q..], index, true);
    r.at
}

// What is left to write after the first pass: the questions, then the other bodies and the pairs.
#[tactic(auto, using(crate::proofs::Completing::questions_room, crate::proofs::Completing::completes))]
pub fn put_rest(
    files: Accepted,
    buffer: &mut [u8],
    ws: &mut [u8],
    index: Indexed,
    r: Walked,
    l: Lengths,
)
    requires workspace_long { workspace_needed ≤ length ws.old }
    requires tabled { Tabled files.routine.bytes.now files.world.bytes.now ws.old index }
    requires ended { Ended (ran_of files) (steps_of files) r.stop ws.old r.at }
    requires exact { Exact (ran_of files) l (length buffer.old) }
    ensures { Completes (ran_of files.entry) buffer.old buffer.new }
{
    let q = l.questions_place() as usize;
    let stop = r.stop;
    let first = r.at;
    let at = put_questions(files, buffer, ws, index, q, first);
    bodies::put_bodies(buffer, ws, stop, files.call.limits().steps as u64, at, l);
}
