// The two entries: a run of a lifted routine, written as a record, and the value of a constant expression of one. (What is asked of the workspace stands in clauses,
// as in `passes`, which says why.)
#![tactic(auto)]

mod constants;

ghost use Rattle.std.specs.Prelude.{◌≡◌, ◌≤◌, length};
ghost use Rattle.files.specs.Refusal.{refused};
ghost use Rattle.definition.specs.Run.{workspace_needed};
ghost use Rattle.definition.specs.Answered.{Answered, ConstantAnswered, zeroed};
ghost use Rattle.hosting.specs.Setting.{Tabled};
ghost use Rattle.passes.specs.Accepted.{ran_of, steps_of};
ghost use Rattle.passes.specs.Writing.{Ended};
ghost use Rattle.emulate.specs.Answers.{AnswersFrom, length_in};
ghost use Rattle.emulate.specs.Giving.{ConstantGiven};

use files::checked::Routine;
use files::refusal::Refusal;
use hosting::{Indexed, Walked};
use passes::accepted::Accepted;
use passes::bodies;
use value::Val;

// 0 and the record's length, or a refusal's number and the number of the node that it is about, 0 where it is about none. (The fields that C reads.)
#[repr(C)]
#[derive(Clone, Copy, PartialEq, Eq)]
pub struct Answer {
    pub number: u32,
    pub length: u32,
}

impl From<Result<u32, Refusal>> for Answer {
    ghost from_gives = { λ r a. (a.number ≡ (refused r).number) × (a.length ≡ length_in r) };

    fn from(r: Result<u32, Refusal>) -> Answer {
        match r {
            Ok(length) => Answer { number: 0, length },
            Err(refusal) => Answer {
                number: refusal.into(),
                length: refusal.node(),
            },
        }
    }
}

// A run that has written too much, or whose record is too long: both buffers are zero throughout.
fn clear_both(buffer: &mut [u8], ws: &mut [u8])
    ensures { (buffer.new ≡ zeroed buffer.old) × (ws.new ≡ zeroed ws.old) }
{
    buffer.fill(0);
    ws.fill(0);
}

// The run goes on after the first pass.
fn run_on(
    files: Accepted,
    buffer: &mut [u8],
    ws: &mut [u8],
    index: Indexed,
    r: Walked,
) -> Result<u32, Refusal>
    requires workspace_long { workspace_needed ≤ length ws.old }
    requires tabled { Tabled files.routine.bytes.now files.world.bytes.now ws.old index }
    requires ended { Ended (ran_of files) (steps_of files) r.stop ws.old r.at }
    ensures { AnswersFrom files.entry.routine.bytes.now files.entry.world.bytes.now files.entry.call.bytes.now buffer.old ws.old (refused result).number (length_in result) buffer.new ws.new }
{
    let at = r.at;
    let l = bodies::measure(ws, at);
    if !bodies::fits(l, buffer.len() as u64) {
        clear_both(buffer, ws);
        return Err(Refusal::Record);
    }
    passes::put_rest(files, buffer, ws, index, r, l);
    ws.fill(0);
    Ok(bodies::end_of(l))
}

// The run of files that are accepted, in a workspace that is long enough. The tables are made once: a walk keeps them.
fn run_accepted(files: Accepted, buffer: &mut [u8], ws: &mut [u8]) -> Result<u32, Refusal>
    requires { workspace_needed ≤ length ws.old }
    ensures { Answered files.entry.routine.bytes.now files.entry.world.bytes.now files.entry.call.bytes.now buffer.old ws.old (refused result).number (length_in result) buffer.new ws.new }
{
    let index = setup::set_tables(files.routine, files.world, ws);
    let r = passes::first_pass(files, buffer, ws, index);
    let stop = r.stop;
    let full = passes::is_full(stop);
    if full {
        clear_both(buffer, ws);
        return Err(Refusal::Addresses);
    }
    run_on(files, buffer, ws, index, r)
}

// The length of a run's record, or what refuses the run.
fn record_length(
    routine: &[u8],
    world: &[u8],
    call: &[u8],
    buffer: &mut [u8],
    ws: &mut [u8],
) -> Result<u32, Refusal>
    ensures { Answered routine.now world.now call.now buffer.old ws.old (refused result).number (length_in result) buffer.new ws.new }
{
    let files = Accepted::check(routine, world, call)?;
    Refusal::Workspace.unless(workspace::SIZE <= ws.len())?;
    run_accepted(files, buffer, ws)
}

// A run: the record of what the routine does in this world when it is called so.
pub fn run(
    routine: &[u8],
    world: &[u8],
    call: &[u8],
    record: &mut [u8],
    workspace: &mut [u8],
) -> Answer
    ensures { Answered routine.now world.now call.now «record».old workspace.old result.number result.length «record».new workspace.new }
{
    record_length(routine, world, call, record, workspace).into()
}

// A known value or none, and a refusal's number: all 0 but that where there is no value. A node that is refused stands in `number`. (The fields that C reads.)
#[repr(C)]
#[derive(Clone, Copy, Default, PartialEq, Eq)]
pub struct Constant {
    pub refusal: u32,
    pub known: bool,
    pub signed: bool,
    pub bits: u32,
    pub number: u64,
}

// The value of the expression at a node, if it is known, or what refuses the call.
fn known_value(routine: &[u8], node: usize, ws: &mut [u8]) -> Result<Option<Val>, Refusal>
    ensures { ConstantGiven routine.now node ws.old result ws.new }
{
    let routine = Routine::check(routine)?;
    routine.check_constant(node)?;
    Refusal::Workspace.unless(workspace::SIZE <= ws.len())?;
    let outcome = passes::evaluation::evaluate(routine, node, ws);
    ws.fill(0);
    constants::known_only(outcome)
}

// The value of the expression at a node, which no variable and no world decides.
pub fn constant_value(routine: &[u8], node: u32, workspace: &mut [u8]) -> Constant
    ensures { ConstantAnswered routine.now node workspace.old result.refusal result.known result.signed result.bits result.number workspace.new }
{
    known_value(routine, node as usize, workspace).into()
}
