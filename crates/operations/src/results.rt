// What an evaluation comes to, put in the registers and taken from them.
ghost use Rattle.std.specs.Prelude.{◌≡◌, is_some, [], ◌==◌, ◌||◌, ◌≤◌, length};
ghost use Rattle.definition.specs.Act.{fields_written};
ghost use Rattle.definition.specs.Evaluate.{did};
ghost use Rattle.files.specs.Program.{number_of};
ghost use Rattle.stream.specs.Bodies.{reason_at};
ghost use Rattle.stream.specs.Pieces.{note_of};
ghost use Rattle.workspace.specs.Parts.{workspace_size};
ghost use Rattle.hosting.specs.Ending.{end_of, did_of, done_of};
ghost use Rattle.operations.specs.Registers.{counts_in, short_at, short_in, did_in, told_at, kind_in, told_in, end_in, told_end};
ghost use Rattle.operations.specs.Steps.{Gives, GivesShort, TellsPlace, Tells, Enters, EntersCounts, EntersHow, noted_end};

use files::kinds::Kind;
use hosting::{Counts, Did, How, Short, Tally};
use stream::{NotePiece, Reason};
use value::Val;
use workspace::{note, registers};

// The words of the registers: the counts of the run and how it goes.
pub const STORED: usize = 0;

pub const RECORDED: usize = 1;

pub const ASKED: usize = 2;

pub const LEFT: usize = 3;

pub const ENTERED: usize = 4;

pub const STEPS: usize = 5;

pub const DEPTH: usize = 6;

pub const REGIONS: usize = 7;

pub const SECOND: usize = 8;

// Why an evaluation ended short.
const REASON: usize = 9;

const NUMBER: usize = 10;

// What an Assign told: what it wrote, where or to which variable, and how many fields.
pub const TOLD: usize = 11;

const WHERE: usize = 12;

const FIELDS: usize = 13;

// The values: what an evaluation gave, and what an Assign wrote.
pub const RESULT: usize = 0;

pub const WROTE: usize = 1;

// What an Assign wrote: a variable, fields, or a value at an address. The numbers are those in the registers.
#[derive(Clone, Copy, PartialEq, Eq)]
pub enum Told {
    Wrote = 0,
    Fields = 1,
    Written = 2,
}

impl From<Told> for u64 {
    ghost from_gives = { λ told n. told_at n ≡ told };

    fn from(told: Told) -> u64 {
        told as u64
    }
}

// What a number tells. Numbers past the last one's stand for it too.
impl From<u64> for Told {
    ghost from_gives = { λ number told. told ≡ told_at number };

    #[tactic(auto, using(crate::proofs::Answering::told_zero, crate::proofs::Answering::told_one, crate::proofs::Answering::told_other))]
    fn from(number: u64) -> Told {
        match number {
            0 => Told::Wrote,
            1 => Told::Fields,
            _ => Told::Written,
        }
    }
}

#[tactic(auto, using(crate::proofs::Answering::told_last))]
pub fn last_told(ws: &[u8]) -> Told
    requires { workspace_size ≤ length ws.now }
    ensures { result ≡ kind_in ws.now }
{
    Told::from(registers::word(ws, TOLD))
}

// ---- put

// A value.
#[tactic(auto, using(crate::proofs::Answering::gives_value))]
pub fn is(ws: &mut [u8], v: Val) -> Option<()>
    requires { workspace_size ≤ length ws.old }
    ensures { Gives ws.old v (is_some result) ws.new }
{
    registers::set_value(ws, RESULT, v);
    Some(())
}

// A reason's number, 0 where the workspace is full, and what it names.
fn coded(short: Short) -> (u64, u64)
    ensures { short_at (reason_at result.0) result.1 ≡ short }
{
    match short {
        Short::Full => (0, 0),
        Short::Why(reason, number) => (u64::from(reason), number),
    }
}

pub fn ends(ws: &mut [u8], short: Short) -> Option<()>
    requires { workspace_size ≤ length ws.old }
    ensures { GivesShort ws.old short (is_some result) ws.new }
{
    let (code, number) = coded(short);
    registers::set_word(ws, REASON, code);
    registers::set_word(ws, NUMBER, number);
    None
}

// What an Assign told, and where or of which variable.
fn tells(ws: &mut [u8], told: Told, place: u64)
    requires { workspace_size ≤ length ws.old }
    ensures { TellsPlace ws.old told place ws.new }
{
    registers::set_word(ws, TOLD, u64::from(told));
    registers::set_word(ws, WHERE, place);
}

// A value was written, to a variable or at an address. (Inlined, so that the number of what is told is known.)
#[tactic(auto, using(crate::proofs::Answering::tells_value))]
#[inline(always)]
pub fn wrote(ws: &mut [u8], told: Told, place: u64, v: Val) -> Option<()>
    requires { workspace_size ≤ length ws.old }
    ensures { Tells ws.old (did_in ws.old told place v) (is_some result) ws.new }
{
    tells(ws, told, place);
    registers::set_value(ws, WROTE, v);
    Some(())
}

// So many fields were written from an address on. (As `wrote`, with a number beside where.)
#[tactic(auto, using(crate::proofs::Answering::tells_fields))]
pub fn fields(ws: &mut [u8], address: u64, count: u64) -> Option<()>
    requires { workspace_size ≤ length ws.old }
    ensures { Tells ws.old (did (fields_written address count)) (is_some result) ws.new }
{
    tells(ws, Told::Fields, address);
    registers::set_word(ws, FIELDS, count);
    Some(())
}

// ---- between the registers and what a caller hands over

// How the run goes, and its counts.
#[tactic(auto, using(crate::proofs::Answering::enters))]
pub fn enter(ws: &mut [u8], how: How, at: Counts)
    requires { workspace_size ≤ length ws.old }
    ensures { Enters ws.old how at ws.new }
{
    enter_counts(ws, at);
    enter_how(ws, how);
}

fn enter_counts(ws: &mut [u8], at: Counts)
    requires { workspace_size ≤ length ws.old }
    ensures { EntersCounts ws.old at ws.new }
{
    let t = at.tally;
    registers::set_word(ws, STORED, at.stored as u64);
    registers::set_word(ws, RECORDED, t.recorded);
    registers::set_word(ws, ASKED, t.asked);
    registers::set_word(ws, LEFT, t.left);
    registers::set_word(ws, ENTERED, t.entered);
    registers::set_word(ws, STEPS, t.steps);
}

#[tactic(auto, using(crate::proofs::Answering::enters_how))]
fn enter_how(ws: &mut [u8], how: How)
    requires { workspace_size ≤ length ws.old }
    ensures { EntersHow ws.old how ws.new }
{
    registers::set_word(ws, DEPTH, how.depth);
    registers::set_word(ws, REGIONS, how.regions as u64);
    registers::set_word(ws, SECOND, how.second as u64);
}

// The counts as they stand.
pub fn counts(ws: &[u8]) -> Counts
    requires { workspace_size ≤ length ws.now }
    ensures { result ≡ counts_in ws.now }
{
    let tally = Tally {
        recorded: registers::word(ws, RECORDED),
        asked: registers::word(ws, ASKED),
        left: registers::word(ws, LEFT),
        entered: registers::word(ws, ENTERED),
        steps: registers::word(ws, STEPS),
    };
    Counts {
        stored: registers::word(ws, STORED) as usize,
        tally,
    }
}

fn short(ws: &[u8]) -> Short
    requires { workspace_size ≤ length ws.now }
    ensures { result ≡ short_in ws.now }
{
    match Reason::try_from(registers::word(ws, REASON)) {
        Ok(reason) => Short::Why(reason, registers::word(ws, NUMBER)),
        Err(_) => Short::Full,
    }
}

// What an evaluation came to.
#[tactic(auto, using(crate::proofs::Answering::outcome_value))]
pub fn outcome(ws: &[u8], ok: Option<()>) -> Result<Val, Short>
    requires { workspace_size ≤ length ws.now }
    ensures { end_of result ≡ end_in (is_some ok) ws.now }
{
    match ok {
        Some(()) => Ok(registers::value(ws, RESULT)),
        None => Err(short(ws)),
    }
}

// What wrote no variable, with a note.
fn notes(note: NotePiece) -> Did
    ensures { did_of result ≡ did (note_of note []) }
{
    Did { wrote: None, note }
}

// What an Assign that did not end short did. (By the word itself: of a `match` on `last_told` the compiler makes the enum's number first.)
fn did(ws: &[u8]) -> Did
    requires { workspace_size ≤ length ws.now }
    ensures { did_of result ≡ told_in ws.now }
{
    let place = registers::word(ws, WHERE);
    let value = registers::value(ws, WROTE);
    let told = registers::word(ws, TOLD);
    if told == u64::from(Told::Wrote) {
        Did {
            wrote: Some((place as usize, value)),
            note: NotePiece::Nothing,
        }
    } else if told == u64::from(Told::Fields) {
        notes(NotePiece::Fields(place, registers::word(ws, FIELDS)))
    } else {
        notes(NotePiece::Written(place, value))
    }
}

// What an Assign came to.
pub fn executed(ws: &[u8], ok: Option<()>) -> Result<Did, Short>
    requires { workspace_size ≤ length ws.now }
    ensures { done_of result ≡ told_end (is_some ok) ws.now }
{
    match ok {
        Some(()) => Ok(did(ws)),
        None => Err(short(ws)),
    }
}

fn is_called(kind: Kind) -> bool
    ensures { result ≡ (number_of kind == 14 || number_of kind == 15) }
{
    matches!(kind, Kind::Call | Kind::Intrinsic)
}

// What a statement came to that is no Assign: a Call or an Intrinsic whose value is unknown is noted, unless a call left a note.
#[tactic(auto, using(crate::proofs::Answering::noted_unknown, crate::proofs::Answering::noted_nothing))]
pub fn noted(ws: &[u8], kind: Kind, ok: Option<()>) -> Result<Did, Short>
    requires { workspace_size ≤ length ws.now }
    ensures { done_of result ≡ noted_end (number_of kind) (is_some ok) ws.now }
{
    let Some(()) = ok else {
        return Err(short(ws));
    };
    let v = registers::value(ws, RESULT);
    let called = is_called(kind);
    if called & !v.known & !note::has_note(ws) {
        Ok(notes(NotePiece::Unknown))
    } else {
        Ok(notes(NotePiece::Nothing))
    }
}
