// A workspace made ready: tables of a routine and a world, made once, and the variables at the start and at the end of a run. (Its length is a clause, as in
// `workspace`, which says why.)
#![tactic(auto)]

ghost use Rattle.std.specs.Prelude.{◌≡◌, [], ◌≤◌, length};
ghost use Rattle.files.specs.FileTable.{body};
ghost use Rattle.files.specs.Program.{program_of};
ghost use Rattle.workspace.specs.Parts.{workspace_size, tables};
ghost use Rattle.hosting.specs.Setting.{Tabled, Started, Finished, ConstantTabled};
ghost use Rattle.setup.specs.Heads.{Typed};
ghost use Rattle.setup.specs.Post.{TypesSet, Indexes, IndexesBlocks, Knows};

use files::checked::{Call, Routine, World};
use head::Head;
use hosting::{Facts, Indexed};

pub mod facts;
pub mod head;
pub mod indexes;
pub mod texts;
pub mod variables;

// Nothing set, no note and no name declared, and then the types of the routine. What else the workspace holds is written before it is read.
fn set_types(routine: Routine, ws: &mut [u8])
    requires { workspace_size ≤ length ws.old }
    ensures { (TypesSet routine.entry.bytes.now ws.new) × (length ws.new ≡ length ws.old) }
{
    ws[workspace::FRAME..workspace::TYPES].fill(0);
    texts::put_types(routine.types(), ws);
}

// The symbols and regions of the world.
fn set_world(routine: Routine, world: World, ws: &mut [u8]) -> usize
    requires { workspace_size ≤ length ws.old }
    ensures { Indexes (body routine.entry.bytes.now 0) (body world.entry.bytes.now 0) (body world.entry.bytes.now 1) (body world.entry.bytes.now 2) ws.old ws.new result }
{
    let names = routine.names();
    let world_names = world.names();
    let symbols = world.symbols();
    let regions = world.regions();
    indexes::set_indexes(names, world_names, symbols, regions, ws)
}

// Neither symbols nor regions.
#[tactic(auto, using(crate::proofs::BodyFacts::names_good, crate::proofs::BodyFacts::names_short, crate::proofs::BodyFacts::no_symbols, crate::proofs::BodyFacts::no_regions))]
fn set_no_world(routine: Routine, ws: &mut [u8]) -> usize
    requires { workspace_size ≤ length ws.old }
    ensures { Indexes (body routine.entry.bytes.now 0) [] [] [] ws.old ws.new result }
{
    indexes::set_indexes(routine.names(), b"", b"", b"", ws)
}

// The blocks, and the facts of the routine.
#[tactic(auto, using(crate::proofs::BodyFacts::blocks_good))]
fn set_facts(routine: Routine, ws: &mut [u8]) -> Facts
    requires { workspace_size ≤ length ws.old }
    ensures { (IndexesBlocks (body routine.entry.bytes.now 5) ws.old ws.new result.blocks) × (Knows (program_of routine.entry.bytes.now) result.blocks result) }
{
    let blocks = indexes::set_blocks(routine.blocks(), ws);
    facts::facts_of(routine, blocks)
}

// The head of a routine.
#[tactic(auto, using(crate::proofs::BodyFacts::head_heads))]
fn head_of(routine: Routine) -> Head
    ensures { result.bytes.now ≡ body routine.entry.bytes.now 2 }
{
    Head {
        bytes: routine.head(),
    }
}

// The tables of a routine and a world, whatever the workspace held.
pub fn set_tables(routine: Routine, world: World, ws: &mut [u8]) -> Indexed
    requires { workspace_size ≤ length ws.old }
    ensures { (Tabled routine.entry.bytes.now world.entry.bytes.now ws.new result) × (length ws.new ≡ length ws.old) }
{
    set_types(routine, ws);
    variables::declare_all(head_of(routine), ws);
    let regions = set_world(routine, world, ws);
    let facts = set_facts(routine, ws);
    Indexed { regions, facts }
}

// Nothing written to memory, no note, and the parameters set; the tables stay.
pub fn set_start(routine: Routine, call: Call, ws: &mut [u8])
    requires workspace_long { workspace_size ≤ length ws.old }
    requires typed { Typed (program_of routine.bytes.now).types (tables ws.old) }
    ensures { Started routine.entry.bytes.now call.entry.bytes.now ws.old ws.new }
{
    variables::empty(ws);
    variables::set_parameters(head_of(routine), call.body(), ws);
}

// Each declared name that was never set becomes unknown, of the type of the first of that name.
pub fn set_end(routine: Routine, ws: &mut [u8])
    requires workspace_long { workspace_size ≤ length ws.old }
    requires typed { Typed (program_of routine.bytes.now).types (tables ws.old) }
    ensures { Finished routine.entry.bytes.now ws.old ws.new }
{
    variables::add_unset(head_of(routine), ws);
}

// The tables of a routine alone: no world, no declared name, nothing set.
pub fn set_constant(routine: Routine, ws: &mut [u8]) -> usize
    requires { workspace_size ≤ length ws.old }
    ensures { (ConstantTabled routine.entry.bytes.now ws.new result) × (length ws.new ≡ length ws.old) }
{
    set_types(routine, ws);
    set_no_world(routine, ws)
}
