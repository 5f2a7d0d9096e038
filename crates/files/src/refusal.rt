// What refuses a run or a constant, with the numbers that a caller in C gets.
ghost use Rattle.std.specs.Prelude.{◌≡◌, true, false, MatchResult};
ghost use Rattle.files.specs.Refusal.{fault_of};

// In the order in which they are looked for: the first that holds is given.
#[derive(Clone, Copy, PartialEq, Eq)]
pub enum Refusal {
    RoutineTable,
    Names,
    Types,
    Head,
    // Three of a node, with its number: it is of no kind; its kind bars the width, the flag or the reference; a field that its kind does not use is not 0.
    Kind(u32),
    Barred(u32),
    Unused(u32),
    Trees,
    Blocks,
    World,
    Call,
    Workspace,
    Addresses,
    Record,
}

impl From<Refusal> for u32 {
    ghost from_gives = { λ r n. n ≡ (fault_of r).number };

    fn from(r: Refusal) -> u32 {
        match r {
            Refusal::RoutineTable => 1,
            Refusal::Names => 2,
            Refusal::Types => 3,
            Refusal::Head => 4,
            Refusal::Kind(_) => 5,
            Refusal::Barred(_) => 30,
            Refusal::Unused(_) => 31,
            Refusal::Trees => 6,
            Refusal::Blocks => 7,
            Refusal::World => 8,
            Refusal::Call => 9,
            Refusal::Workspace => 20,
            Refusal::Addresses => 21,
            Refusal::Record => 22,
        }
    }
}

impl Refusal {
    // The number of the node that is refused; 0 where it is no node.
    pub fn node(self) -> u32
        ensures { result ≡ (fault_of self).node }
    {
        match self {
            Refusal::Kind(node) | Refusal::Barred(node) | Refusal::Unused(node) => node,
            _ => 0,
        }
    }

    // Refuses what is not as it must be: here the answer of a check, a bool, becomes a result.
    pub fn unless(self, ok: bool) -> Result<(), Refusal>
        ensures { MatchResult result (λ _. ok ≡ true) (λ r. (ok ≡ false) × (r ≡ self)) }
    {
        if ok { Ok(()) } else { Err(self) }
    }
}
