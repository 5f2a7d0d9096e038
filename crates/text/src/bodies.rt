// The bytes that lines are made from, and what is read in them: specs/Read says where each field stands.
ghost use Rattle.std.specs.Prelude.{◌≡◌, ◌+◌, ◌*◌, ◌≤◌, ◌<◌, length, IfSome};
ghost use Rattle.layout.specs.Number.{number_at};
ghost use Rattle.files.specs.Program.{texts_in};
ghost use Rattle.index.specs.Texts.{text_count, TextsIndexed};
ghost use Rattle.value.specs.Encoding.{val_at};
ghost use Rattle.definition.specs.Listing.{name_text, wrote_text, why_text, stop_text};
ghost use Rattle.text.specs.Read.{address_in, wrote_in, note_in, why_in, stop_in, step_size, step_in, steps_in, StepThere, StopThere, VariableThere};
ghost use Rattle.text.specs.Left.{StepsLeft};

use crate::stops::{Stop, Why};
use index::blocks::address_at;
use layout::get;
use stream::{Kind, NoteKind, NotePiece, Reason};
use value::Val;
use value::encoding::get_val;

// A body of names, and its index.
#[derive(Clone, Copy)]
pub struct Names<'a> {
    pub body: &'a [u8],
    pub part: &'a [u8],
    ghost indexed: { TextsIndexed body.now part.now },
}

// A name of a body of names.
#[derive(Clone, Copy)]
pub struct Name<'a> {
    pub names: Names<'a>,
    pub number: usize,
    ghost there: { number < text_count names.body.now },
}

// The head of a routine, with its names.
#[derive(Clone, Copy)]
pub struct HeadBytes<'a> {
    pub names: Names<'a>,
    pub bytes: &'a [u8],
    ghost inside: { 10 ≤ length bytes.now },
    ghost named: { number_at bytes.now 0 2 < text_count names.body.now },
}

// The body of steps from a step on, with the names.
#[derive(Clone, Copy)]
pub struct StepBytes<'a> {
    pub names: Names<'a>,
    pub bytes: &'a [u8],
    ghost there: { StepThere (text_count names.body.now) bytes.now },
}

// The steps of a body, one after another, with the names: those not given yet are what is left of it. Where the next one stands only a step's own size says.
#[derive(Clone, Copy)]
pub struct Steps<'a> {
    names: Names<'a>,
    rest: &'a [u8],
    ghost left: { ∥ StepsLeft (text_count names.body.now) rest.now ∥₁ },
}

// The body of the stop, with the names.
#[derive(Clone, Copy)]
pub struct StopBytes<'a> {
    pub names: Names<'a>,
    pub bytes: &'a [u8],
    ghost there: { StopThere (text_count names.body.now) bytes.now },
}

// The body of variables from a variable on, with the names.
#[derive(Clone, Copy)]
pub struct VariableBytes<'a> {
    pub names: Names<'a>,
    pub bytes: &'a [u8],
    ghost there: { VariableThere (text_count names.body.now) bytes.now },
}

// An address behind a flag that says whether there is one. (Given the bytes by themselves, since of those in a field the proofs don't know the range.)
#[tactic(auto, using(crate::proofs::ReadLaws::address_is))]
fn address(s: &[u8], at: usize) -> Option<u64>
    requires { at + 9 ≤ length s.now }
    ensures { result ≡ address_in s.now at }
{
    address_at(s, at)
}

// How many bytes a step has.
#[tactic(auto, unfolding(crate::specs::Read::step_size))]
pub fn step_size(step: &[u8]) -> usize
    requires { 63 ≤ length step.now }
    ensures { (result ≡ step_size step.now) × (result < 131136) }
{
    63 + 2 * get::<2>(step, 61) as usize
}

impl<'a> Names<'a> {
    // The steps of a body, from the first on.
    pub fn steps(self, body: &'a [u8]) -> Steps<'a>
        requires { StepsLeft (text_count self.body.now) body.now }
        ensures { (result.names ≡ self.entry) × (steps_in result.rest.now ≡ steps_in body.now) }
    {
        Steps {
            names: self,
            rest: body,
        }
    }
}

impl<'a> Name<'a> {
    pub(crate) fn text(self) -> &'a [u8]
        ensures { result.now ≡ name_text (texts_in self.entry.names.body.now) self.entry.number }
    {
        index::texts::text(self.names.body, self.names.part, self.number)
    }
}

impl<'a> HeadBytes<'a> {
    pub(crate) fn name(self) -> Name<'a>
        ensures { (result.names ≡ self.entry.names) × (result.number ≡ number_at self.entry.bytes.now 0 2) }
    {
        Name {
            names: self.names,
            number: get::<2>(self.bytes, 0) as usize,
        }
    }

    pub(crate) fn address(self) -> u64
        ensures { result ≡ number_at self.entry.bytes.now 2 8 }
    {
        get::<8>(self.bytes, 2)
    }
}

impl<'a> StepBytes<'a> {
    ghost use Rattle.text.specs.Told.{note_kind_in, note_told, wrote_said};

    pub fn size(self) -> usize
        ensures { result ≡ step_size self.entry.bytes.now }
    {
        step_size(self.bytes)
    }

    pub(crate) fn address(self) -> Option<u64>
        ensures { result ≡ address_in self.entry.bytes.now 0 }
    {
        address(self.bytes, 0)
    }

    pub(crate) fn statement(self) -> u64
        ensures { result ≡ number_at self.entry.bytes.now 13 4 }
    {
        get::<4>(self.bytes, 13)
    }

    // The name of the variable that it wrote, and the value.
    #[tactic(auto, using(crate::proofs::ReadLaws::wrote_none, crate::proofs::ReadLaws::wrote_some))]
    pub(crate) fn wrote(self) -> Option<(Name<'a>, Val)>
        ensures { wrote_said result ≡ wrote_text (texts_in self.entry.names.body.now) (wrote_in self.entry.bytes.now) }
    {
        if get::<1>(self.bytes, 17) == 0 {
            return None;
        }
        let name = Name {
            names: self.names,
            number: get::<2>(self.bytes, 18) as usize,
        };
        Some((name, get_val(self.bytes, 20)))
    }

    #[tactic(auto, using(crate::proofs::StepText::kind_is))]
    fn note_kind(self) -> NoteKind
        ensures { result ≡ note_kind_in self.entry.bytes.now }
    {
        NoteKind::try_from(get::<1>(self.bytes, 34)).unwrap_or(NoteKind::NotFollowed)
    }

    pub(crate) fn note(self) -> NotePiece
        ensures { note_told self.entry.bytes.now result ≡ note_in self.entry.bytes.now }
    {
        match self.note_kind() {
            NoteKind::Nothing => NotePiece::Nothing,
            NoteKind::Fields => {
                NotePiece::Fields(get::<8>(self.bytes, 35), get::<4>(self.bytes, 43))
            }
            NoteKind::Written => {
                NotePiece::Written(get::<8>(self.bytes, 35), get_val(self.bytes, 47))
            }
            NoteKind::Unknown => NotePiece::Unknown,
            NoteKind::NotFollowed | NoteKind::Taken => NotePiece::NotFollowed,
        }
    }

    // How many names a call that is not followed took.
    pub(crate) fn taken_count(self) -> usize
        ensures { result ≡ number_at self.entry.bytes.now 61 2 }
    {
        get::<2>(self.bytes, 61) as usize
    }

    // One of them.
    pub(crate) fn taken(self, k: usize) -> Name<'a>
        requires { k < number_at self.bytes.now 61 2 }
        ensures { (result.names ≡ self.entry.names) × (result.number ≡ number_at self.entry.bytes.now (63 + k * 2) 2) }
    {
        Name {
            names: self.names,
            number: get::<2>(self.bytes, 63 + k * 2) as usize,
        }
    }
}

impl<'a> Iterator for Steps<'a> {
    ghost use Rattle.std.specs.Iterator.{YieldsFirstBy, item_count};

    type Item = StepBytes<'a>;

    ghost next_gives = { λ s r t. YieldsFirstBy (λ x. step_in x.bytes.now) (λ s. steps_in s.rest.now) s r t × (t.names ≡ s.names) × IfSome r (λ x. x.names ≡ s.names) };

    ghost remaining = { item_count (λ s. steps_in s.rest.now) };

    #[tactic(auto, using(crate::proofs::StepRest::no_steps, crate::proofs::StepRest::first_there, crate::proofs::StepRest::first_inside, crate::proofs::StepRest::rest_left, crate::proofs::StepRest::first_step))]
    fn next(&mut self) -> Option<StepBytes<'a>> {
        if self.rest.is_empty() {
            return None;
        }
        let step = StepBytes {
            names: self.names,
            bytes: self.rest,
        };
        self.rest = &self.rest[step.size()..];
        Some(step)
    }
}

impl<'a> StopBytes<'a> {
    ghost use Rattle.text.specs.Told.{why_said, stop_said, kind_in, reason_in};

    fn address(self) -> Option<u64>
        ensures { result ≡ address_in self.entry.bytes.now 2 }
    {
        address(self.bytes, 2)
    }

    fn number(self) -> u64
        ensures { result ≡ number_at self.entry.bytes.now 11 8 }
    {
        get::<8>(self.bytes, 11)
    }

    fn node(self) -> u64
        ensures { result ≡ number_at self.entry.bytes.now 19 4 }
    {
        get::<4>(self.bytes, 19)
    }

    // The kind of the stop; a number that is no kind's is taken for Halted. (This, `reason` and a step's `note_kind` have one form: a function of the three would
    // be given the type, the place and what other numbers are taken for, and say no less.)
    #[tactic(auto, using(crate::proofs::StopText::kind_is))]
    fn kind(self) -> Kind
        ensures { result ≡ kind_in self.entry.bytes.now }
    {
        Kind::try_from(get::<1>(self.bytes, 0)).unwrap_or(Kind::Halted)
    }

    #[tactic(auto, using(crate::proofs::StopText::reason_is))]
    fn reason(self) -> Reason
        ensures { result ≡ reason_in self.entry.bytes.now }
    {
        Reason::try_from(get::<1>(self.bytes, 1)).unwrap_or(Reason::ByZero)
    }

    fn why(self) -> Why<'a>
        ensures { why_said result ≡ why_text (texts_in self.entry.names.body.now) (why_in self.entry.bytes.now) }
    {
        match self.reason() {
            Reason::BranchUnknown => Why::BranchUnknown(self.node()),
            Reason::SwitchUnknown => Why::SwitchUnknown(self.node()),
            Reason::NoCase => Why::NoCase(self.number()),
            Reason::StructTo => Why::StructTo(self.node()),
            Reason::UnknownAddress => Why::UnknownAddress(self.node()),
            Reason::UnknownValue => Why::UnknownValue(self.number()),
            Reason::NoWidth => Why::NoWidth(Name {
                names: self.names,
                number: get::<2>(self.bytes, 23) as usize,
            }),
            Reason::StoreTo => Why::StoreTo(self.node()),
            Reason::ByZero => Why::ByZero,
        }
    }

    pub(crate) fn stop(self) -> Stop<'a>
        ensures { stop_said result ≡ stop_text (texts_in self.entry.names.body.now) (stop_in self.entry.bytes.now) }
    {
        match self.kind() {
            Kind::Returned => Stop::Returned(Some(get_val(self.bytes, 25))),
            Kind::ReturnedNothing => Stop::Returned(None),
            Kind::Steps => Stop::Steps(self.number()),
            Kind::Unknown => Stop::Unknown(self.address(), self.why()),
            Kind::NoBlock => Stop::NoBlock(self.number()),
            Kind::NoBlocks => Stop::NoBlocks,
            Kind::NoReturn => Stop::NoReturn(self.address()),
            Kind::Halted => Stop::Halted(self.address(), self.number()),
        }
    }
}

impl<'a> VariableBytes<'a> {
    // How many bytes a variable has.
    pub const SIZE: usize = 16;

    pub(crate) fn name(self) -> Name<'a>
        ensures { (result.names ≡ self.entry.names) × (result.number ≡ number_at self.entry.bytes.now 0 2) }
    {
        Name {
            names: self.names,
            number: get::<2>(self.bytes, 0) as usize,
        }
    }

    pub(crate) fn value(self) -> Val
        ensures { result ≡ val_at self.entry.bytes.now 2 }
    {
        get_val(self.bytes, 2)
    }
}
