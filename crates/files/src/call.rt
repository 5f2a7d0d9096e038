// A call's body: the limits of a run, and its arguments.
ghost use Rattle.std.specs.Prelude.{◌≡◌, ◌<◌, ◌≤◌, length, get_or};
ghost use Rattle.files.specs.Call.{call_body_ok, limits_in};

#[derive(Clone, Copy)]
pub struct Limits {
    pub steps: u32,
    pub depth: u32,
}

impl Limits {
    // The defaults.
    pub const STEPS: u32 = 10_000;

    pub const DEPTH: u32 = 8;
}

impl Default for Limits {
    ghost use Rattle.files.specs.Call.{usual};

    ghost is_default = { λ l. (l.steps ≡ usual.steps) × (l.depth ≡ usual.depth) };

    fn default() -> Self {
        Self {
            steps: Limits::STEPS,
            depth: Limits::DEPTH,
        }
    }
}

// The most that a call may ask for.
const MOST_STEPS: u32 = 1_000_000;

const MOST_DEPTH: u32 = 255;

// The bytes before the arguments, those of an argument, and those of a body with 16 of them.
const FIXED: usize = 8;

const ARGUMENT: usize = 8;

const LONGEST: usize = 136;

// A body that is long enough for the limits, behind which the arguments stand.
#[derive(Clone, Copy)]
pub struct Body<'a> {
    pub bytes: &'a [u8],
    pub ghost long: { 8 ≤ length bytes.now },
}

impl Body<'_> {
    pub fn limits(self) -> Limits
        ensures { (result.steps ≡ (limits_in self.entry.bytes.now).steps) × (result.depth ≡ (limits_in self.entry.bytes.now).depth) }
    {
        Limits {
            steps: layout::get::<4>(self.bytes, 0) as u32,
            depth: layout::get::<4>(self.bytes, 4) as u32,
        }
    }

    // How many arguments there are.
    #[tactic(auto, using(crate::proofs::ListedLaws::length_listed))]
    pub fn argument_count(self) -> usize
        ensures { result ≡ length (limits_in self.entry.bytes.now).arguments }
    {
        (self.bytes.len() - FIXED) / ARGUMENT
    }

    // Argument k.
    #[tactic(auto, using(crate::proofs::ListedLaws::length_listed))]
    pub fn argument(self, k: usize) -> u64
        requires { k < length (limits_in self.bytes.now).arguments }
        ensures { result ≡ get_or (limits_in self.entry.bytes.now).arguments k 0 }
    {
        layout::get::<8>(self.bytes, k * ARGUMENT + FIXED)
    }
}

#[tactic(auto, unfolding(crate::specs::Call::call_body_ok))]
pub fn check(b: &[u8]) -> bool
    ensures { result ≡ call_body_ok b.now }
{
    if b.len() < FIXED {
        return false;
    }
    let limits = Body { bytes: b }.limits();
    (b.len() <= LONGEST)
        & (b.len() % ARGUMENT == 0)
        & (limits.steps <= MOST_STEPS)
        & (limits.depth <= MOST_DEPTH)
}
