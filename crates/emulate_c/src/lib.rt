// The two entries as a host in C calls them: emulate's own, under the names that host/emulate.h declares.
#![tactic(auto)]

ghost use Rattle.definition.specs.Answered.{Answered, ConstantAnswered};

use emulate::{Answer, Constant};

// A run: the record of what the routine does in this world when it is called so.
#[unsafe(no_mangle)]
pub extern "C" fn run(
    routine: &[u8],
    world: &[u8],
    call: &[u8],
    record: &mut [u8],
    workspace: &mut [u8],
) -> Answer
    ensures { Answered routine.now world.now call.now «record».old workspace.old result.number result.length «record».new workspace.new }
{
    emulate::run(routine, world, call, record, workspace)
}

// The value of the expression at a node, which no variable and no world decides.
#[unsafe(no_mangle)]
pub extern "C" fn constant_value(routine: &[u8], node: u32, workspace: &mut [u8]) -> Constant
    ensures { ConstantAnswered routine.now node workspace.old result.refusal result.known result.signed result.bits result.number workspace.new }
{
    emulate::constant_value(routine, node, workspace)
}
