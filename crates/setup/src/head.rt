// A routine's head: the variables that it tells.
ghost use Rattle.std.specs.Prelude.{◌≡◌, ◌≤◌, ◌<◌, length};
ghost use Rattle.std.proofs.Props.{props};
ghost use Rattle.setup.specs.Heads.{variable_count, parameter_count, Heads, Reads};

use files::head::{FIXED, VARIABLE};

// Where a head has the number of the type that the routine returns, and how many parameters there are.
pub(crate) const RETURNS: usize = 10;

const PARAMETERS: usize = 12;

// A name's number and a type's.
#[derive(Clone, Copy)]
pub struct Named {
    pub name: usize,
    pub ty: usize,
}

// Its bytes, which are as an accepted routine has them.
#[derive(Clone, Copy)]
pub struct Head<'a> {
    pub bytes: &'a [u8],
    pub ghost fine: { Heads bytes.now } by { Prim.hlevel props },
}

impl Head<'_> {
    pub(crate) fn variable_count(self) -> usize
        ensures { result ≡ variable_count self.entry.bytes.now }
    {
        (self.bytes.len() - FIXED) / VARIABLE
    }

    pub(crate) fn parameter_count(self) -> usize
        ensures { (result ≡ parameter_count self.entry.bytes.now) × (result ≤ variable_count self.entry.bytes.now) }
    {
        self.bytes[PARAMETERS] as usize
    }

    // Variable k.
    #[tactic(auto, using(crate::proofs::HeadLaws::reads))]
    pub(crate) fn variable_at(self, k: usize) -> Named
        requires { k < variable_count self.bytes.now }
        ensures { Reads self.entry.bytes.now k result }
    {
        let at = k * VARIABLE + FIXED;
        Named {
            name: layout::get::<2>(self.bytes, at) as usize,
            ty: layout::get::<2>(self.bytes, at + 2) as usize,
        }
    }
}
