// The three files of a run, each as a value that no check refuses, which gives its bodies by their names.
// Three types, alike in form: each has its own fact, and its own names for its bodies. One over the kind of file would ask a trait for both, and each file
// would still have to write them.
ghost use Rattle.std.specs.Prelude.{◌≡◌, ◌<◌, true};
ghost use Rattle.files.specs.Refusal.{routine_refusal, world_ok, call_ok};

use crate::call::{Body, Limits};
use crate::nodes::is_root;
use crate::refusal::Refusal;
use crate::{check_call, check_routine, check_world, table};

#[derive(Clone, Copy)]
pub struct Routine<'a> {
    pub bytes: &'a [u8],
    pub ghost accepted: { routine_refusal bytes.now ≡ 0 },
}

impl<'a> Routine<'a> {
    ghost use Rattle.std.specs.Prelude.{MatchResult};
    ghost use Rattle.files.specs.FileTable.{body};
    ghost use Rattle.files.specs.Refusal.{fault_of, refused, routine_fault, constant_fault};

    // The numbers of its bodies.
    pub(crate) const NAMES: usize = 0;

    pub(crate) const TYPES: usize = 1;

    pub(crate) const HEAD: usize = 2;

    pub(crate) const NODES: usize = 3;

    pub(crate) const STATEMENTS: usize = 4;

    pub(crate) const BLOCKS: usize = 5;

    // The routine of a file, or what refuses it.
    pub fn check(bytes: &'a [u8]) -> Result<Routine<'a>, Refusal>
        ensures { MatchResult result (λ r. r.bytes.now ≡ bytes.now) (λ e. routine_fault bytes.now ≡ fault_of e) }
    {
        check_routine(bytes)?;
        Ok(Routine { bytes })
    }

    fn body(self, k: usize) -> &'a [u8]
        requires { k < 6 }
        ensures { result.now ≡ body self.entry.bytes.now k }
    {
        table::body(self.bytes, k)
    }

    // What a constant expression at a node of it is refused by.
    #[tactic(auto, unfolding(crate::specs::Refusal::constant_fault))]
    pub fn check_constant(self, node: usize) -> Result<(), Refusal>
        ensures { refused result ≡ constant_fault self.entry.bytes.now node }
    {
        Refusal::Call.unless(is_root(self.nodes(), node))
    }

    pub fn names(self) -> &'a [u8]
        ensures { result.now ≡ body self.entry.bytes.now 0 }
    {
        self.body(Routine::NAMES)
    }

    pub fn types(self) -> &'a [u8]
        ensures { result.now ≡ body self.entry.bytes.now 1 }
    {
        self.body(Routine::TYPES)
    }

    pub fn head(self) -> &'a [u8]
        ensures { result.now ≡ body self.entry.bytes.now 2 }
    {
        self.body(Routine::HEAD)
    }

    pub fn nodes(self) -> &'a [u8]
        ensures { result.now ≡ body self.entry.bytes.now 3 }
    {
        self.body(Routine::NODES)
    }

    pub fn statements(self) -> &'a [u8]
        ensures { result.now ≡ body self.entry.bytes.now 4 }
    {
        self.body(Routine::STATEMENTS)
    }

    pub fn blocks(self) -> &'a [u8]
        ensures { result.now ≡ body self.entry.bytes.now 5 }
    {
        self.body(Routine::BLOCKS)
    }
}

#[derive(Clone, Copy)]
pub struct World<'a> {
    pub bytes: &'a [u8],
    pub ghost accepted: { world_ok bytes.now ≡ true },
}

impl<'a> World<'a> {
    ghost use Rattle.std.specs.Prelude.{false, MatchResult};
    ghost use Rattle.files.specs.FileTable.{body};

    // The numbers of its bodies.
    pub(crate) const NAMES: usize = 0;

    pub(crate) const SYMBOLS: usize = 1;

    pub(crate) const REGIONS: usize = 2;

    // The world of a file, if nothing refuses it.
    pub fn check(bytes: &'a [u8]) -> Result<World<'a>, Refusal>
        ensures { MatchResult result (λ w. w.bytes.now ≡ bytes.now) (λ e. (world_ok bytes.now ≡ false) × (e ≡ Refusal.World)) }
    {
        Refusal::World.unless(check_world(bytes))?;
        Ok(World { bytes })
    }

    fn body(self, k: usize) -> &'a [u8]
        requires { k < 3 }
        ensures { result.now ≡ body self.entry.bytes.now k }
    {
        table::body(self.bytes, k)
    }

    pub fn names(self) -> &'a [u8]
        ensures { result.now ≡ body self.entry.bytes.now 0 }
    {
        self.body(World::NAMES)
    }

    pub fn symbols(self) -> &'a [u8]
        ensures { result.now ≡ body self.entry.bytes.now 1 }
    {
        self.body(World::SYMBOLS)
    }

    pub fn regions(self) -> &'a [u8]
        ensures { result.now ≡ body self.entry.bytes.now 2 }
    {
        self.body(World::REGIONS)
    }
}

#[derive(Clone, Copy)]
pub struct Call<'a> {
    pub bytes: &'a [u8],
    pub ghost accepted: { call_ok bytes.now ≡ true },
}

impl<'a> Call<'a> {
    ghost use Rattle.std.specs.Prelude.{false, MatchResult};
    ghost use Rattle.files.specs.FileTable.{body};
    ghost use Rattle.files.specs.Call.{limits_of};

    // The number of its one body.
    pub(crate) const BODY: usize = 0;

    // The call of a file, if nothing refuses it.
    pub fn check(bytes: &'a [u8]) -> Result<Call<'a>, Refusal>
        ensures { MatchResult result (λ c. c.bytes.now ≡ bytes.now) (λ e. (call_ok bytes.now ≡ false) × (e ≡ Refusal.Call)) }
    {
        Refusal::Call.unless(check_call(bytes))?;
        Ok(Call { bytes })
    }

    // Its body, which tells the arguments.
    #[tactic(auto, using(crate::proofs::Accepted::call_body))]
    pub fn body(self) -> Body<'a>
        ensures { result.bytes.now ≡ body self.entry.bytes.now 0 }
    {
        Body {
            bytes: table::body(self.bytes, Call::BODY),
        }
    }

    #[tactic(auto, unfolding(crate::specs::Call::limits_of))]
    pub fn limits(self) -> Limits
        ensures { (result.steps ≡ (limits_of self.entry.bytes.now).steps) × (result.depth ≡ (limits_of self.entry.bytes.now).depth) }
    {
        self.body().limits()
    }
}
