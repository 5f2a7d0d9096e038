// The kinds of nodes, and what a kind lets a node be.
ghost use Rattle.std.specs.Prelude.{◌≡◌, ok_or, slice_get};
ghost use Rattle.files.specs.Nodes.{rule_of};
ghost use Rattle.files.specs.Program.{kinds, number_of};
ghost use Rattle.files.specs.Rules.{row};

// Each with its number in the file.
#[derive(Clone, Copy, PartialEq, Eq)]
pub enum Kind {
    Constant = 0,
    Var = 1,
    Register = 2,
    StringLiteral = 3,
    FunctionName = 4,
    ConditionTrue = 5,
    ConditionFalse = 6,
    ConstantCondition = 7,
    Cast = 8,
    Deref = 9,
    AddressOf = 10,
    Ternary = 11,
    Binary = 12,
    Assign = 13,
    Call = 14,
    Intrinsic = 15,
    Return = 16,
    StructInit = 17,
    // a field of a StructInit
    Field = 18,
    // a plain statement
    Plain = 19,
}

impl From<Kind> for u8 {
    ghost from_gives = { λ kind n. n ≡ number_of kind };

    fn from(kind: Kind) -> u8 {
        kind as u8
    }
}

// A number that is no kind's.
#[derive(Clone, Copy, PartialEq, Eq)]
pub struct UnknownKind(pub u8);

impl TryFrom<u8> for Kind {
    type Error = UnknownKind;

    ghost try_from_gives = { λ number kind. kind ≡ ok_or (slice_get kinds number) (record { 0 = number }) };

    fn try_from(number: u8) -> Result<Kind, UnknownKind> {
        match number {
            0 => Ok(Kind::Constant),
            1 => Ok(Kind::Var),
            2 => Ok(Kind::Register),
            3 => Ok(Kind::StringLiteral),
            4 => Ok(Kind::FunctionName),
            5 => Ok(Kind::ConditionTrue),
            6 => Ok(Kind::ConditionFalse),
            7 => Ok(Kind::ConstantCondition),
            8 => Ok(Kind::Cast),
            9 => Ok(Kind::Deref),
            10 => Ok(Kind::AddressOf),
            11 => Ok(Kind::Ternary),
            12 => Ok(Kind::Binary),
            13 => Ok(Kind::Assign),
            14 => Ok(Kind::Call),
            15 => Ok(Kind::Intrinsic),
            16 => Ok(Kind::Return),
            17 => Ok(Kind::StructInit),
            18 => Ok(Kind::Field),
            19 => Ok(Kind::Plain),
            _ => Err(UnknownKind(number)),
        }
    }
}

// What a reference is.
#[derive(Clone, Copy, PartialEq, Eq)]
pub enum Refers {
    Nothing,
    ToName,
    ToType,
    ToIndex,
}

// How many names and types a routine has: what a reference to one is below.
#[derive(Clone, Copy)]
pub struct Bounds {
    pub names: usize,
    pub types: usize,
}

// What a kind lets a node be: the flag's most, what the reference is, the width's least and most, the value's most, the least and the most children.
#[derive(Clone, Copy)]
pub struct Rule {
    pub flag: u8,
    pub refers: Refers,
    pub narrow: u32,
    pub wide: u32,
    pub value: u64,
    pub few: usize,
    pub many: usize,
}

const ANY32: u32 = 0xffff_ffff;

const ANY64: u64 = 0xffff_ffff_ffff_ffff;

const MANY: usize = 0xffff_ffff;

impl Rule {
    // Of a node without a width and without children.
    fn bare(flag: u8, refers: Refers, value: u64) -> Rule
        ensures { result ≡ record { flag = flag; refers = refers; narrow = 0; wide = 0; value = value; few = 0; many = 0 } }
    {
        Rule {
            flag,
            refers,
            narrow: 0,
            wide: 0,
            value,
            few: 0,
            many: 0,
        }
    }

    // With so many children.
    fn kids(self, few: usize, many: usize) -> Rule
        ensures { result ≡ record { flag = self.flag; refers = self.refers; narrow = self.narrow; wide = self.wide; value = self.value; few = few; many = many } }
    {
        Rule { few, many, ..self }
    }

    // With a width from narrow to wide.
    fn width(self, narrow: u32, wide: u32) -> Rule
        ensures { result ≡ record { flag = self.flag; refers = self.refers; narrow = narrow; wide = wide; value = self.value; few = self.few; many = self.many } }
    {
        Rule {
            narrow,
            wide,
            ..self
        }
    }
}

impl From<Kind> for Rule {
    ghost from_gives = { λ kind r. r ≡ row (rule_of (number_of kind)) };

    #[tactic(auto, unfolding(crate::specs::Nodes::rule_of))]
    fn from(kind: Kind) -> Rule {
        let none = Rule::bare(0, Refers::Nothing, 0);
        match kind {
            Kind::Constant => Rule::bare(0, Refers::Nothing, ANY64).width(1, 8),
            Kind::Var => Rule::bare(0, Refers::ToName, 0),
            Kind::Register => Rule::bare(255, Refers::ToIndex, ANY64).width(0, ANY32),
            Kind::StringLiteral => none,
            Kind::FunctionName => Rule::bare(0, Refers::ToName, ANY64),
            Kind::ConditionTrue => none,
            Kind::ConditionFalse => none,
            Kind::ConstantCondition => Rule::bare(1, Refers::Nothing, 0),
            Kind::Cast => Rule::bare(0, Refers::ToType, 0).kids(1, 1),
            Kind::Deref => none.kids(1, 1),
            Kind::AddressOf => none.kids(1, 1),
            Kind::Ternary => none.kids(3, 3),
            Kind::Binary => Rule::bare(17, Refers::Nothing, 0).kids(2, 2),
            Kind::Assign => none.kids(2, 2),
            Kind::Call => none.kids(1, 17),
            Kind::Intrinsic => Rule::bare(0, Refers::ToName, 0).kids(0, MANY),
            Kind::Return => none.kids(0, 1),
            Kind::StructInit => none.kids(0, MANY),
            Kind::Field => Rule::bare(0, Refers::ToType, ANY64).kids(1, 1),
            Kind::Plain => none,
        }
    }
}
