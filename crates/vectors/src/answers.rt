// A case run, and whether all that comes of it is what the original answered.
ghost use Rattle.std.specs.Prelude.{◌≡◌, IfSome, length};

use crate::cases::{Case, Constant, Run, Store};
use crate::coding::LONGEST;
use emulate::Answer;
use files::refusal::Refusal;

// The room of the buffers that are lent.
#[derive(Drop)]
pub struct Rooms {
    record: [u8; LONGEST],
    workspace: [u8; LONGEST],
}

impl Rooms {
    pub fn new() -> Self {
        Self {
            record: [0; LONGEST],
            workspace: [0; LONGEST],
        }
    }
}

// What a lent buffer holds before a call comes again after so many bytes.
const PERIOD: usize = 251;

// Two such turns: nowhere 0, so that a byte that was cleared is told from one that was left.
pub type Marks = [u8; 2 * PERIOD];

pub fn marks() -> Marks {
    let mut marks = [0; 2 * PERIOD];
    for (i, mark) in marks.iter_mut().enumerate() {
        *mark = (i % PERIOD + 1) as u8;
    }
    marks
}

// A buffer to lend, with what it holds before a call; none where it would be longer than any.
fn room<'a>(marks: &Marks, space: &'a mut [u8; LONGEST], size: usize) -> Option<&'a mut [u8]>
    ensures { IfSome result (λ buffer. length buffer.now ≡ size) }
{
    let buffer = space.get_mut(..size)?;
    for part in buffer.chunks_mut(PERIOD) {
        part.copy_from_slice(&marks[..part.len()]);
    }
    Some(buffer)
}

// Whether a buffer holds from a place on what it held before.
fn is_untouched(marks: &Marks, rest: &[u8], from: usize) -> bool {
    let turn = &marks[from % PERIOD..];
    rest.chunks(PERIOD).all(|part| turn.starts_with(part))
}

// Whether all bytes are 0: the first is, and each is as the one before it.
fn is_clear(bytes: &[u8]) -> bool {
    match bytes.split_first() {
        Some((first, rest)) => *first == 0 && bytes.starts_with(rest),
        None => true,
    }
}

// Whether a buffer holds what was written to its front, and beyond it zeros, or what stood there before.
fn holds(marks: &Marks, part: &[u8], front: &[u8], cleared: bool) -> bool {
    part.strip_prefix(front).is_some_and(|rest| {
        if cleared {
            is_clear(rest)
        } else {
            is_untouched(marks, rest, front.len())
        }
    })
}

// Refusals that come after the run has begun leave nothing of it in either buffer.
fn is_late(number: u32) -> bool {
    number == u32::from(Refusal::Addresses) || number == u32::from(Refusal::Record)
}

// Whether a workspace is as it must be after such an answer.
fn is_left(marks: &Marks, workspace: &[u8], number: u32) -> bool {
    holds(marks, workspace, b"", number == 0 || is_late(number))
}

fn run_agrees(marks: &Marks, rooms: &mut Rooms, case: Run, store: &Store) -> bool {
    let Some(buffer) = room(marks, &mut rooms.record, case.record) else {
        return false;
    };
    let Some(workspace) = room(marks, &mut rooms.workspace, case.workspace) else {
        return false;
    };
    let found = emulate::run(&store.routine, &store.world, &store.call, buffer, workspace);
    let Answer { number, length } = case.answer;
    // Only number 0 has a record; elsewhere the length may be a node's number.
    let record: &[u8] = if number == 0 { &store.record } else { b"" };
    found == case.answer
        && (number != 0 || record.len() == length as usize)
        && holds(marks, buffer, record, is_late(number))
        && is_left(marks, workspace, number)
}

fn constant_agrees(marks: &Marks, rooms: &mut Rooms, case: Constant, store: &Store) -> bool {
    let Some(workspace) = room(marks, &mut rooms.workspace, case.workspace) else {
        return false;
    };
    let found = emulate::constant_value(&store.routine, case.node, workspace);
    found == case.answer && is_left(marks, workspace, case.answer.refusal)
}

// Whether a case comes to what it says, with buffers of the lengths that it tells.
pub fn agrees(marks: &Marks, rooms: &mut Rooms, case: Case, store: &Store) -> bool {
    match case {
        Case::Run(run) => run_agrees(marks, rooms, run, store),
        Case::Constant(constant) => constant_agrees(marks, rooms, constant, store),
    }
}
