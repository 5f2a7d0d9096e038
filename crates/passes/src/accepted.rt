// The three files of a run, which no check refuses: they travel as one value.
use files::checked::{Call, Routine, World};
use files::refusal::Refusal;

#[derive(Clone, Copy)]
pub struct Accepted<'a> {
    pub routine: Routine<'a>,
    pub world: World<'a>,
    pub call: Call<'a>,
}

impl<'a> Accepted<'a> {
    ghost use Rattle.std.specs.Prelude.{◌≡◌, MatchResult};
    ghost use Rattle.files.specs.Refusal.{files_fault, fault_of};

    // The files, or what refuses them. (`files::check` says as much of files whose values nobody wants.)
    #[tactic(auto, unfolding(files::specs::Refusal::files_fault))]
    pub fn check(
        routine: &'a [u8],
        world: &'a [u8],
        call: &'a [u8],
    ) -> Result<Accepted<'a>, Refusal>
        ensures { MatchResult result (λ f. (f.routine.bytes.now ≡ routine.now) × (f.world.bytes.now ≡ world.now) × (f.call.bytes.now ≡ call.now)) (λ r. files_fault routine.now world.now call.now ≡ fault_of r) }
    {
        Ok(Accepted {
            routine: Routine::check(routine)?,
            world: World::check(world)?,
            call: Call::check(call)?,
        })
    }
}
