// Writers of the pieces of a record, each given a part of the record buffer, the cursor and whether the stream is on: registers of the workspace, which a caller
// reads for each piece, so that a struct of the three would be made for one call. (Counts are written too: of taken names, of a call's values.)
#![tactic(auto)]

ghost use Rattle.std.specs.Prelude.{◌≡◌, [], ◌∷◌, ◌&&◌, ◌+◌, ◌*◌, ◌≤◌, ◌<◌, length, take, leb};
ghost use Rattle.std.specs.Result.{result_ok};
ghost use Rattle.std.specs.Fn.{FnOnceTakesAtMut, FnOnceReturnsAtMut};
ghost use Rattle.std.proofs.lemmas.List.Edits.{sets};
ghost use Rattle.layout.specs.Number.{le};
ghost use Rattle.definition.specs.Fields.{no_val, code_of};
ghost use Rattle.definition.specs.Record.{wrote_fields, counts_body};
ghost use Rattle.stream.specs.Stream.{advanced, When, Sent};
ghost use Rattle.stream.specs.Pieces.{asked_in, question_bytes, symbol_entry, read_entry, call_bytes, note_number, note_kind_at, taken_count, told_count, step_bytes, step_from, step_with_numbers};
ghost use Rattle.stream.specs.Groups.{flagged_bytes, span_bytes, callee_bytes, place_bytes, wrote_bytes, note_bytes, head_bytes, names_bytes, cause_bytes, named_bytes};
ghost use Rattle.stream.specs.declared.NotePiece.TheVariants.{Nothing};
ghost use Rattle.stream.specs.Bodies.{kind_number, kind_at, reason_number, reason_at, reason_field, stop_bytes, stop_from, stop_with_numbers, stop_size, stop_place, pairs_of, lengths_of, questions_start, last_end};

use layout::put;
use value::Val;
use value::encoding::{self, put_val};

// The cursor after a piece of n bytes: past the most that 64 bits tell it does not go. (A function for the definition's name.)
#[tactic(auto, unfolding(crate::specs::Stream::advanced))]
fn advance(at: u64, n: u64) -> u64
    ensures { result ≡ advanced at n }
{
    at.saturating_add(n)
}

// Whether a piece of n bytes goes into a stream: it is on, and the piece fits behind the cursor.
#[tactic(auto, using(crate::proofs::StreamLaws::no_room, crate::proofs::StreamLaws::room))]
fn has_room(out: &[u8], at: u64, on: bool, n: u64) -> bool
    ensures { result ≡ (on && leb (at + n) (length out.now)) }
{
    let len = out.len() as u64;
    if len < n {
        return false;
    }
    on & (at <= len - n)
}

// A piece of n bytes goes into a stream, where it has room: where the cursor stands then. (The functions that call it have one form: each has a length and a
// writer of its own.)
#[inline(always)]
fn send<F: FnOnce(&mut [u8])>(out: &mut [u8], at: u64, on: bool, n: u64, put: F) -> u64
    requires { at + n ≤ length out.old → FnOnceTakesAtMut F.FnOnce put out.old }
    ensures { (result ≡ advanced at n) × When (on && leb (at + n) (length out.old)) (FnOnceReturnsAtMut F.FnOnce put out.old tt out.new) (out.new ≡ out.old) }
{
    let next = advance(at, n);
    if has_room(out, at, on, n) {
        put(out);
    }
    next
}

// ---- parts of pieces, each stored at an index (where two are some numbers behind one another, each has other widths)

// What stands where there is no value: zero throughout. (By a name of its own: a `Val::default()` would not say that there is none.)
pub fn no_value() -> Val
    ensures { result ≡ no_val }
{
    Val {
        known: false,
        signed: false,
        bits: 0,
        number: 0,
    }
}

// A number that may be none: a flag, and the number or 0.
#[tactic(auto, using(crate::proofs::StoreLaws::flagged_stored))]
fn put_flagged(part: &mut [u8], at: usize, number: Option<u64>)
    requires { at + 9 ≤ length part.old }
    ensures { part.new ≡ sets part.old at (flagged_bytes number) }
{
    put::<1>(part, at, number.is_some() as u64);
    put::<8>(part, at + 1, number.unwrap_or(0));
}

// The lowest bytes of a number, so many, with one store where they are as many as a store takes.
#[tactic(auto, using(crate::proofs::StoreLaws::low_stored))]
fn put_low(part: &mut [u8], at: usize, count: usize, number: u64)
    requires { (at + count ≤ length part.old) × (count ≤ 8) }
    ensures { part.new ≡ sets part.old at (le count number) }
{
    match count {
        1 => put::<1>(part, at, number),
        2 => put::<2>(part, at, number),
        4 => put::<4>(part, at, number),
        8 => put::<8>(part, at, number),
        _ => layout::put_number(part, at, count, number),
    }
}

// The first n bytes of another slice. (n beside it, since the contracts of a call and of a step speak of the first bytes of what they are given.)
fn put_bytes(part: &mut [u8], at: usize, from: &[u8], n: usize)
    requires { (at + n ≤ length part.old) × (n ≤ length from.now) }
    ensures { part.new ≡ sets part.old at (take n from.now) }
{
    part[at..at + n].copy_from_slice(&from[..n]);
}

// ---- questions (their fields one by one, as the definition's entries have them)

// What is asked of a symbol, by the record's numbers.
#[derive(Clone, Copy, PartialEq, Eq)]
pub enum Symbol {
    AddressOf = 1,
    SizeOf = 2,
}

// What is asked.
#[derive(Clone, Copy, PartialEq, Eq)]
pub enum Question {
    Of(Symbol),
    Read,
    Call,
}

// The record's number of a question.
impl From<Question> for u64 {
    ghost from_gives = { λ question n. n ≡ code_of (asked_in question) };

    fn from(question: Question) -> u64 {
        match question {
            Question::Of(symbol) => symbol as u64,
            Question::Read => 3,
            Question::Call => 4,
        }
    }
}

#[tactic(auto, using(crate::proofs::QuestionLaws::symbol_stored))]
fn put_symbol(part: &mut [u8], at: usize, kind: Symbol, name: usize, answer: Option<u64>)
    requires { at + 12 ≤ length part.old }
    ensures { part.new ≡ sets part.old at (question_bytes (symbol_entry kind name answer)) }
{
    put::<1>(part, at, u64::from(Question::Of(kind)));
    put::<2>(part, at + 1, name as u64);
    put_flagged(part, at + 3, answer);
}

// `address_of` or `size_of` of a name, with the answer.
#[tactic(auto, using(crate::proofs::StreamLaws::sent, crate::proofs::QuestionLaws::length_symbol))]
pub fn question_symbol(
    out: &mut [u8],
    at: u64,
    on: bool,
    kind: Symbol,
    name: usize,
    answer: Option<u64>,
) -> u64
    ensures { Sent on out.old at (question_bytes (symbol_entry kind name answer)) out.new result }
{
    send(
        out,
        at,
        on,
        12,
        |part| put_symbol(part, at as usize, kind, name, answer),
    )
}

// A `read` up to its answer.
#[tactic(auto, using(crate::proofs::QuestionLaws::span_stored))]
fn put_span(part: &mut [u8], at: usize, address: u64, size: u64)
    requires { at + 10 ≤ length part.old }
    ensures { part.new ≡ sets part.old at (span_bytes address size) }
{
    put::<1>(part, at, u64::from(Question::Read));
    put::<8>(part, at + 1, address);
    put::<1>(part, at + 9, size);
}

#[tactic(auto, using(crate::proofs::QuestionLaws::read_stored))]
fn put_read(part: &mut [u8], at: usize, address: u64, size: u64, count: u64, number: u64)
    requires { (at + (11 + count) ≤ length part.old) × (count ≤ 8) }
    ensures { part.new ≡ sets part.old at (question_bytes (read_entry address size count number)) }
{
    put_span(part, at, address, size);
    put::<1>(part, at + 10, count);
    put_low(part, at + 11, count as usize, number);
}

// `read`, with the answered bytes as a count and a little-endian number.
#[tactic(auto, using(crate::proofs::StreamLaws::sent, crate::proofs::QuestionLaws::length_read))]
pub fn question_read(
    out: &mut [u8],
    at: u64,
    on: bool,
    address: u64,
    size: u64,
    count: u64,
    number: u64,
) -> u64
    requires { count ≤ 8 }
    ensures { Sent on out.old at (question_bytes (read_entry address size count number)) out.new result }
{
    send(
        out,
        at,
        on,
        11 + count,
        |part| put_read(part, at as usize, address, size, count, number),
    )
}

// A `call` up to its values.
#[tactic(auto, using(crate::proofs::QuestionLaws::callee_stored))]
fn put_callee(part: &mut [u8], at: usize, name: usize, address: u64, depth: u64)
    requires { at + 15 ≤ length part.old }
    ensures { part.new ≡ sets part.old at (callee_bytes name address depth) }
{
    put::<1>(part, at, u64::from(Question::Call));
    put::<2>(part, at + 1, name as u64);
    put::<8>(part, at + 3, address);
    put::<4>(part, at + 11, depth);
}

#[tactic(auto, using(crate::proofs::QuestionLaws::call_stored))]
fn put_call(
    part: &mut [u8],
    at: usize,
    name: usize,
    address: u64,
    depth: u64,
    values: &[u8],
    count: usize,
)
    requires { (at + (17 + 14 * count) ≤ length part.old) × (14 * count ≤ length values.now) }
    ensures { part.new ≡ sets part.old at (call_bytes name address depth count (take (14 * count) values.now)) }
{
    put_callee(part, at, name, address, depth);
    put::<1>(part, at + 15, count as u64);
    let n = encoding::SIZE * count;
    put_bytes(part, at + 16, values, n);
    put::<1>(part, at + 16 + n, 0);
}

// `call`, with the values in bytes as the record has them. It has no answer.
#[tactic(auto, using(crate::proofs::StreamLaws::sent, crate::proofs::QuestionLaws::length_call))]
pub fn question_call(
    out: &mut [u8],
    at: u64,
    on: bool,
    name: usize,
    address: u64,
    depth: u64,
    values: &[u8],
    count: usize,
) -> u64
    requires { 14 * count ≤ length values.now }
    ensures { Sent on out.old at (call_bytes name address depth count (take (14 * count) values.now)) out.new result }
{
    let n = 17 + (encoding::SIZE * count) as u64;
    send(
        out,
        at,
        on,
        n,
        |part| put_call(part, at as usize, name, address, depth, values, count),
    )
}

// ---- steps

// A step's note. The names that a call took which is not followed stand beside it.
#[derive(Clone, Copy, Default)]
pub enum NotePiece {
    #[default]
    Nothing,
    Fields(u64, u64),
    Written(u64, Val),
    Unknown,
    NotFollowed,
}

// What kind of note it is in the record, by its numbers: a call that is not followed has two, one for where it took names.
#[derive(Clone, Copy, PartialEq, Eq)]
pub enum NoteKind {
    Nothing = 0,
    Fields = 1,
    Written = 2,
    Unknown = 3,
    NotFollowed = 4,
    Taken = 5,
}

// The record's number of a note.
impl From<NoteKind> for u64 {
    ghost from_gives = { λ kind n. n ≡ note_number kind };

    fn from(note: NoteKind) -> u64 {
        note as u64
    }
}

// What stands in a note's fields, each a number, and whether taken names stand beside it. (A field takes any number, also one that is no note's or that no note
// has there: a `NotePiece` tells of none of these.)
#[derive(Clone, Copy)]
pub struct NoteNumbers {
    pub kind: u64,
    pub address: u64,
    pub count: u64,
    pub value: Val,
    pub taken: bool,
}

// A number that stands for nothing here: no note, no stop or no reason has it.
#[derive(Clone, Copy, PartialEq, Eq)]
pub struct UnknownNumber;

// The note of a number.
impl TryFrom<u64> for NoteKind {
    type Error = UnknownNumber;

    ghost try_from_gives = { λ number r. result_ok r ≡ note_kind_at number };

    fn try_from(number: u64) -> Result<NoteKind, UnknownNumber> {
        match number {
            0 => Ok(NoteKind::Nothing),
            1 => Ok(NoteKind::Fields),
            2 => Ok(NoteKind::Written),
            3 => Ok(NoteKind::Unknown),
            4 => Ok(NoteKind::NotFollowed),
            5 => Ok(NoteKind::Taken),
            _ => Err(UnknownNumber),
        }
    }
}

// One statement run: its address, if it has one, and what it wrote. Its note stands beside it.
#[derive(Clone, Copy)]
pub struct StepPiece {
    pub address: Option<u64>,
    pub block: u64,
    pub statement: u64,
    pub wrote: Option<(usize, Val)>,
}

// Where a step was.
#[tactic(auto, using(crate::proofs::StepLaws::place_stored))]
fn put_place(part: &mut [u8], at: usize, s: StepPiece)
    requires { at + 17 ≤ length part.old }
    ensures { part.new ≡ sets part.old at (place_bytes s.address s.block s.statement) }
{
    put_flagged(part, at, s.address);
    put::<4>(part, at + 9, s.block);
    put::<4>(part, at + 13, s.statement);
}

// What it wrote.
fn put_wrote(part: &mut [u8], at: usize, wrote: Option<(usize, Val)>)
    requires { at + 17 ≤ length part.old }
    ensures { part.new ≡ sets part.old at (wrote_bytes (wrote_fields wrote)) }
{
    let (name, value) = wrote.unwrap_or((0, no_value()));
    put::<1>(part, at, wrote.is_some() as u64);
    put::<2>(part, at + 1, name as u64);
    put_val(part, at + 3, value);
}

// A note's fields up to the taken names, its kind a number. (Inlined, so that a kind that is known costs no more than a number that is.)
#[tactic(auto, using(crate::proofs::StepLaws::note_stored))]
#[inline(always)]
fn put_numbers(part: &mut [u8], at: usize, kind: u64, address: u64, count: u64, value: Val)
    requires { at + 27 ≤ length part.old }
    ensures { part.new ≡ sets part.old at (note_bytes kind address count value) }
{
    put::<1>(part, at, kind);
    put::<8>(part, at + 1, address);
    put::<4>(part, at + 9, count);
    put_val(part, at + 13, value);
}

// The same of a kind.
fn put_fields(part: &mut [u8], at: usize, kind: NoteKind, address: u64, count: u64, value: Val)
    requires { at + 27 ≤ length part.old }
    ensures { part.new ≡ sets part.old at (note_bytes (note_number kind) address count value) }
{
    put_numbers(part, at, u64::from(kind), address, count, value);
}

// Its note up to the taken names, which are so many.
fn put_note(part: &mut [u8], at: usize, note: NotePiece, count: usize)
    requires { at + 27 ≤ length part.old }
    ensures { part.new ≡ sets part.old at (head_bytes note count) }
{
    match note {
        NotePiece::Nothing => put_fields(part, at, NoteKind::Nothing, 0, 0, no_value()),
        NotePiece::Fields(address, n) => {
            put_fields(part, at, NoteKind::Fields, address, n, no_value())
        }
        NotePiece::Written(address, v) => put_fields(part, at, NoteKind::Written, address, 0, v),
        NotePiece::Unknown => put_fields(part, at, NoteKind::Unknown, 0, 0, no_value()),
        NotePiece::NotFollowed if count == 0 => {
            put_fields(part, at, NoteKind::NotFollowed, 0, 0, no_value())
        }
        NotePiece::NotFollowed => put_fields(part, at, NoteKind::Taken, 0, 0, no_value()),
    }
}

// The first of the names that stand in bytes behind their count.
#[tactic(auto, using(crate::proofs::StepLaws::names_stored))]
fn put_names(part: &mut [u8], at: usize, names: &[u8], count: usize)
    requires { (at + (2 + 2 * count) ≤ length part.old) × (2 + 2 * count ≤ length names.now) }
    ensures { part.new ≡ sets part.old at (names_bytes count names.now) }
{
    put::<2>(part, at, count as u64);
    put_bytes(part, at + 2, &names[2..], 2 * count);
}

#[tactic(auto, using(crate::proofs::StepLaws::step_stored))]
fn put_step(part: &mut [u8], at: usize, s: StepPiece, note: NotePiece, names: &[u8], count: usize)
    requires { (at + (63 + 2 * count) ≤ length part.old) × ((2 + 2 * count ≤ length names.now) × (count ≡ taken_count note names.now)) }
    ensures { part.new ≡ sets part.old at (step_bytes (step_from s note names.now)) }
{
    put_place(part, at, s);
    put_wrote(part, at + 17, s.wrote);
    put_note(part, at + 34, note, count);
    put_names(part, at + 61, names, count);
}

// The same with a note by its numbers.
#[tactic(auto, using(crate::proofs::StepLaws::numbers_stored))]
fn put_numbered(
    part: &mut [u8],
    at: usize,
    s: StepPiece,
    note: NoteNumbers,
    names: &[u8],
    count: usize,
)
    requires { (at + (63 + 2 * count) ≤ length part.old) × ((2 + 2 * count ≤ length names.now) × (count ≡ told_count note.taken names.now)) }
    ensures { part.new ≡ sets part.old at (step_bytes (step_with_numbers s note names.now)) }
{
    put_place(part, at, s);
    put_wrote(part, at + 17, s.wrote);
    put_numbers(
        part,
        at + 34,
        note.kind,
        note.address,
        note.count,
        note.value,
    );
    put_names(part, at + 61, names, count);
}

// A step that took no names, whose zeros are known beforehand. (Inlined, so that a note that is known is not matched: one function for the two that
// call this costs each statement 29 instructions.)
#[tactic(auto, using(crate::proofs::StepLaws::noted_stored))]
#[inline(always)]
fn put_noted(part: &mut [u8], at: usize, s: StepPiece, note: NotePiece)
    requires { at + 63 ≤ length part.old }
    ensures { part.new ≡ sets part.old at (step_bytes (step_from s note [])) }
{
    put_place(part, at, s);
    put_wrote(part, at + 17, s.wrote);
    put_note(part, at + 34, note, 0);
    put::<2>(part, at + 61, 0);
}

// How many names a step took.
fn taken_count(note: NotePiece, names: &[u8]) -> usize
    requires { 2 ≤ length names.now }
    ensures { (result ≡ taken_count note names.now) × (result < 65536) }
{
    match note {
        NotePiece::NotFollowed => layout::get::<2>(names, 0) as usize,
        _ => 0,
    }
}

// A step. The taken names stand in bytes as the record has them, behind their count.
#[tactic(auto, using(crate::proofs::StreamLaws::sent, crate::proofs::StepLaws::length_step))]
pub fn step(out: &mut [u8], at: u64, on: bool, s: StepPiece, note: NotePiece, names: &[u8]) -> u64
    requires { 2 + 2 * taken_count note names.now ≤ length names.now }
    ensures { Sent on out.old at (step_bytes (step_from s note names.now)) out.new result }
{
    let count = taken_count(note, names);
    let n = 63 + 2 * count as u64;
    send(
        out,
        at,
        on,
        n,
        |part| put_step(part, at as usize, s, note, names, count),
    )
}

// How many names stand beside a note by its numbers.
fn told_count(taken: bool, names: &[u8]) -> usize
    requires { 2 ≤ length names.now }
    ensures { (result ≡ told_count taken names.now) × (result < 65536) }
{
    if taken {
        layout::get::<2>(names, 0) as usize
    } else {
        0
    }
}

// A step with a note by its numbers, whatever they are. (`step` has the notes that a run makes. Both are put by the same parts, in one order.)
#[tactic(auto, using(crate::proofs::StreamLaws::sent, crate::proofs::StepLaws::length_numbered))]
pub fn step_by_number(
    out: &mut [u8],
    at: u64,
    on: bool,
    s: StepPiece,
    note: NoteNumbers,
    names: &[u8],
) -> u64
    requires { 2 + 2 * told_count note.taken names.now ≤ length names.now }
    ensures { Sent on out.old at (step_bytes (step_with_numbers s note names.now)) out.new result }
{
    let count = told_count(note.taken, names);
    let n = 63 + 2 * count as u64;
    send(
        out,
        at,
        on,
        n,
        |part| put_numbered(part, at as usize, s, note, names, count),
    )
}

// A step that took no names.
#[tactic(auto, using(crate::proofs::StreamLaws::sent, crate::proofs::StepLaws::length_noted))]
pub fn noted_step(out: &mut [u8], at: u64, on: bool, s: StepPiece, note: NotePiece) -> u64
    ensures { Sent on out.old at (step_bytes (step_from s note [])) out.new result }
{
    send(
        out,
        at,
        on,
        63,
        |part| put_noted(part, at as usize, s, note),
    )
}

// A step without a note. Most steps have none, and zeros that are known beforehand cost less: a call of `noted_step` would not let them be known.
#[tactic(auto, using(crate::proofs::StreamLaws::sent, crate::proofs::StepLaws::length_noted))]
pub fn plain_step(out: &mut [u8], at: u64, on: bool, s: StepPiece) -> u64
    ensures { Sent on out.old at (step_bytes (step_from s Nothing [])) out.new result }
{
    send(
        out,
        at,
        on,
        63,
        |part| put_noted(part, at as usize, s, NotePiece::Nothing),
    )
}

// ---- the bodies that are written at once, each at the front of its part

// The bytes of Stop and of Counts.
const STOP_SIZE: usize = 39;

const COUNTS_SIZE: usize = 12;

// Where they lie, behind the six pairs, and where the steps start behind them.
pub const STOP_PLACE: usize = 6 * 8;

pub const COUNTS_PLACE: usize = STOP_PLACE + STOP_SIZE;

pub const STEPS_PLACE: usize = COUNTS_PLACE + COUNTS_SIZE;

// What a run stopped for, by the record's numbers.
#[derive(Clone, Copy, PartialEq, Eq)]
pub enum Kind {
    Returned = 0,
    ReturnedNothing = 1,
    Steps = 2,
    Unknown = 3,
    NoBlock = 4,
    NoBlocks = 5,
    NoReturn = 6,
    Halted = 7,
}

// The record's number of a stop.
impl From<Kind> for u64 {
    ghost from_gives = { λ kind n. n ≡ kind_number kind };

    fn from(kind: Kind) -> u64 {
        kind as u64
    }
}

// The stop of a number.
impl TryFrom<u64> for Kind {
    type Error = UnknownNumber;

    ghost try_from_gives = { λ number r. result_ok r ≡ kind_at number };

    fn try_from(number: u64) -> Result<Kind, UnknownNumber> {
        match number {
            0 => Ok(Kind::Returned),
            1 => Ok(Kind::ReturnedNothing),
            2 => Ok(Kind::Steps),
            3 => Ok(Kind::Unknown),
            4 => Ok(Kind::NoBlock),
            5 => Ok(Kind::NoBlocks),
            6 => Ok(Kind::NoReturn),
            7 => Ok(Kind::Halted),
            _ => Err(UnknownNumber),
        }
    }
}

// Why an evaluation ended short, by the record's numbers. (Its 0 is for none.)
#[derive(Clone, Copy, PartialEq, Eq)]
pub enum Reason {
    BranchUnknown = 1,
    SwitchUnknown = 2,
    NoCase = 3,
    StructTo = 4,
    UnknownAddress = 5,
    UnknownValue = 6,
    NoWidth = 7,
    StoreTo = 8,
    ByZero = 9,
}

// The record's number of a reason.
impl From<Reason> for u64 {
    ghost from_gives = { λ reason n. n ≡ reason_number reason };

    fn from(reason: Reason) -> u64 {
        reason as u64
    }
}

// The reason of a number.
impl TryFrom<u64> for Reason {
    type Error = UnknownNumber;

    ghost try_from_gives = { λ number r. result_ok r ≡ reason_at number };

    fn try_from(number: u64) -> Result<Reason, UnknownNumber> {
        match number {
            1 => Ok(Reason::BranchUnknown),
            2 => Ok(Reason::SwitchUnknown),
            3 => Ok(Reason::NoCase),
            4 => Ok(Reason::StructTo),
            5 => Ok(Reason::UnknownAddress),
            6 => Ok(Reason::UnknownValue),
            7 => Ok(Reason::NoWidth),
            8 => Ok(Reason::StoreTo),
            9 => Ok(Reason::ByZero),
            _ => Err(UnknownNumber),
        }
    }
}

// Why a run stopped, in the record's fields.
#[derive(Clone, Copy)]
pub struct StopPiece {
    pub kind: Kind,
    pub reason: Option<Reason>,
    pub address: Option<u64>,
    pub number: u64,
    pub node: u64,
    pub name: u64,
    pub value: Val,
}

// A reason's number, 0 for none.
fn number_of(reason: Option<Reason>) -> u64
    ensures { result ≡ reason_field reason }
{
    reason.map_or(0, u64::from)
}

// What stands in a stop's fields, its kind and its reason by their numbers. (A field takes any number, also one that no kind and no reason has: a `StopPiece`
// tells of none of these.)
#[derive(Clone, Copy)]
pub struct StopNumbers {
    pub kind: u64,
    pub reason: u64,
    pub address: Option<u64>,
    pub number: u64,
    pub node: u64,
    pub name: u64,
    pub value: Val,
}

// A stop up to its address.
#[tactic(auto, using(crate::proofs::BodyLaws::cause_stored))]
fn put_cause(part: &mut [u8], s: StopNumbers)
    requires { 11 ≤ length part.old }
    ensures { part.new ≡ sets part.old 0 (cause_bytes s.kind s.reason s.address) }
{
    put::<1>(part, 0, s.kind);
    put::<1>(part, 1, s.reason);
    put_flagged(part, 2, s.address);
}

// The rest of it.
#[tactic(auto, using(crate::proofs::BodyLaws::named_stored))]
fn put_named(part: &mut [u8], s: StopNumbers)
    requires { stop_size ≤ length part.old }
    ensures { part.new ≡ sets part.old 11 (named_bytes s.number s.node s.name s.value) }
{
    put::<8>(part, 11, s.number);
    put::<4>(part, 19, s.node);
    put::<2>(part, 23, s.name);
    put_val(part, 25, s.value);
}

// Stop, by its numbers, whatever they are. (`stop` stands on this: it writes nothing of its own.)
#[tactic(auto, using(crate::proofs::BodyLaws::stop_stored))]
pub fn stop_by_number(part: &mut [u8], s: StopNumbers)
    requires { stop_size ≤ length part.old }
    ensures { part.new ≡ sets part.old 0 (stop_bytes (stop_with_numbers s)) }
{
    put_cause(part, s);
    put_named(part, s);
}

// Stop, which is of a kind.
#[tactic(auto, using(crate::proofs::BodyLaws::kind_stored))]
pub fn stop(part: &mut [u8], s: StopPiece)
    requires { stop_size ≤ length part.old }
    ensures { part.new ≡ sets part.old 0 (stop_bytes (stop_from s)) }
{
    stop_by_number(
        part,
        StopNumbers {
            kind: u64::from(s.kind),
            reason: number_of(s.reason),
            address: s.address,
            number: s.number,
            node: s.node,
            name: s.name,
            value: s.value,
        },
    );
}

// Counts: blocks entered, steps recorded, and units spent.
#[tactic(auto, using(crate::proofs::BodyLaws::counts_stored))]
pub fn counts(part: &mut [u8], entered: u64, recorded: u64)
    requires { (12 ≤ length part.old) × (entered + recorded < 4294967296) }
    ensures { part.new ≡ sets part.old 0 (counts_body entered recorded) }
{
    put::<4>(part, 0, entered);
    put::<4>(part, 4, recorded);
    put::<4>(part, 8, entered + recorded);
}

// The lengths of the bodies whose length is not fixed.
#[derive(Clone, Copy)]
pub struct Lengths {
    pub steps: u64,
    pub variables: u64,
    pub memory: u64,
    pub questions: u64,
}

impl Lengths {
    // Where the questions start, which are the last body.
    pub fn questions_place(self) -> u64
        requires { questions_start self < 18446744073709551616 }
        ensures { result ≡ questions_start self }
    {
        STEPS_PLACE as u64 + self.steps + self.variables + self.memory
    }

    // Where they end, which is the record's length.
    pub fn end(self) -> u64
        requires { last_end self < 18446744073709551616 }
        ensures { result ≡ last_end self }
    {
        self.questions_place() + self.questions
    }
}

// A pair. The next body starts where this one ends.
#[tactic(auto, using(crate::proofs::BodyLaws::pair_stored))]
fn put_pair(part: &mut [u8], at: usize, offset: u64, n: u64) -> u64
    requires { (at + 8 ≤ length part.old) × (offset + n < 4294967296) }
    ensures { (part.new ≡ sets part.old at (pairs_of offset (n ∷ []))) × (result ≡ offset + n) }
{
    put::<4>(part, at, offset);
    put::<4>(part, at + 4, n);
    offset + n
}

// Three pairs.
#[tactic(auto, using(crate::proofs::BodyLaws::three_stored))]
fn put_three(part: &mut [u8], at: usize, offset: u64, a: u64, b: u64, c: u64) -> u64
    requires { (at + 24 ≤ length part.old) × (offset + a + b + c < 4294967296) }
    ensures { (part.new ≡ sets part.old at (pairs_of offset (a ∷ b ∷ c ∷ []))) × (result ≡ offset + a + b + c) }
{
    let second = put_pair(part, at, offset, a);
    let third = put_pair(part, at + 8, second, b);
    put_pair(part, at + 16, third, c)
}

// The six pairs.
#[tactic(auto, using(crate::proofs::BodyLaws::pairs_stored))]
pub fn pairs(part: &mut [u8], l: Lengths)
    requires { (stop_place ≤ length part.old) × (last_end l < 4294967296) }
    ensures { part.new ≡ sets part.old 0 (pairs_of stop_place (lengths_of l)) }
{
    let next = put_three(
        part,
        0,
        STOP_PLACE as u64,
        STOP_SIZE as u64,
        COUNTS_SIZE as u64,
        l.steps,
    );
    put_three(part, 24, next, l.variables, l.memory, l.questions);
}
