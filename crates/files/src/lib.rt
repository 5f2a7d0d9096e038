// The three files of a run: what stands in them, and the checks that refuse them.
#![tactic(auto)]

pub mod blocks;
pub mod call;
pub mod checked;
pub mod head;
pub mod kinds;
pub mod names;
pub mod nodes;
pub mod refusal;
pub mod table;
pub mod trees;
pub mod world;

ghost use Rattle.std.specs.Prelude.{◌≡◌, ◌<◌, true, [], ◌∷◌, leb, length, MatchResult};
ghost use Rattle.files.specs.Names.{names_in, types_in};
ghost use Rattle.files.specs.Refusal.{fault, fault_of, refused, names_of, types_of, unless, earliest, bodies_fault, routine_fault, world_ok, call_ok, files_fault, constant_fault};

use checked::{Call, Routine, World};
use kinds::Bounds;
use names::Texts;
use refusal::Refusal;
use table::body;

const ROUTINE: usize = 6;

const WORLD: usize = 3;

const CALL: usize = 1;

// How many names and types there are. (Not inlined: beside the node of another refusal the compiler would make theirs, which is none, at each byte of a text.)
#[inline(never)]
fn count_texts(names: &[u8], types: &[u8]) -> Result<Bounds, Refusal>
    ensures { MatchResult result (λ b. (leb 1 (names_in names.now) ≡ true) × (leb 1 (types_in types.now) ≡ true) × (names_of names.now ≡ b.names) × (types_of types.now ≡ b.types)) (λ e. earliest (unless (leb 1 (names_in names.now)) (fault 2) ∷ unless (leb 1 (types_in types.now)) (fault 3) ∷ []) ≡ fault_of e) }
{
    Ok(Bounds {
        names: names::count(names, Texts::NAMES).ok_or(Refusal::Names)?,
        types: names::count(types, Texts::TYPES).ok_or(Refusal::Types)?,
    })
}

// Refused by one of the six bodies of a routine.
fn check_bodies(
    names: &[u8],
    types: &[u8],
    head: &[u8],
    nodes: &[u8],
    statements: &[u8],
    blocks: &[u8],
) -> Result<(), Refusal>
    requires { length nodes.now < 65536 }
    ensures { refused result ≡ bodies_fault names.now types.now head.now nodes.now statements.now blocks.now }
{
    let bounds = count_texts(names, types)?;
    Refusal::Head.unless(head::check(head, bounds))?;
    nodes::check(nodes, bounds)?;
    Refusal::Trees.unless(trees::check(nodes))?;
    Refusal::Blocks.unless(blocks::check(nodes, statements, blocks))
}

// What a routine file is refused by.
#[tactic(auto, using(crate::proofs::TableLaws::routine_has), unfolding(crate::specs::Refusal::routine_fault))]
pub fn check_routine(routine: &[u8]) -> Result<(), Refusal>
    ensures { refused result ≡ routine_fault routine.now }
{
    Refusal::RoutineTable.unless(table::check(routine, ROUTINE))?;
    let names = body(routine, Routine::NAMES);
    let types = body(routine, Routine::TYPES);
    let head = body(routine, Routine::HEAD);
    let nodes = body(routine, Routine::NODES);
    let statements = body(routine, Routine::STATEMENTS);
    let blocks = body(routine, Routine::BLOCKS);
    check_bodies(names, types, head, nodes, statements, blocks)
}

#[tactic(auto, using(crate::proofs::TableLaws::world_has), unfolding(crate::specs::Refusal::world_ok))]
pub fn check_world(world: &[u8]) -> bool
    ensures { result ≡ world_ok world.now }
{
    if !table::check(world, WORLD) {
        return false;
    }
    let names = body(world, World::NAMES);
    let symbols = body(world, World::SYMBOLS);
    let regions = body(world, World::REGIONS);
    world::check(names, symbols, regions)
}

#[tactic(auto, using(crate::proofs::TableLaws::call_has), unfolding(crate::specs::Refusal::call_ok))]
pub fn check_call(call: &[u8]) -> bool
    ensures { result ≡ call_ok call.now }
{
    if !table::check(call, CALL) {
        return false;
    }
    call::check(body(call, Call::BODY))
}

// What the three files are refused by.
#[tactic(auto, unfolding(crate::specs::Refusal::files_fault))]
pub fn check(routine: &[u8], world: &[u8], call: &[u8]) -> Result<(), Refusal>
    ensures { refused result ≡ files_fault routine.now world.now call.now }
{
    Routine::check(routine)?;
    World::check(world)?;
    Call::check(call)?;
    Ok(())
}

// What a routine file and a node of it are refused by.
#[tactic(auto, unfolding(crate::specs::Refusal::constant_fault))]
pub fn check_constant(routine: &[u8], node: usize) -> Result<(), Refusal>
    ensures { refused result ≡ constant_fault routine.now node }
{
    Routine::check(routine)?.check_constant(node)
}
