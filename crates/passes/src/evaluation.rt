// The evaluation of a constant expression, which is a node by its number: no world answers, and no variable is set.
ghost use Rattle.std.specs.Prelude.{◌≡◌, ◌≤◌, length};
ghost use Rattle.files.specs.Refusal.{constant_refusal};
ghost use Rattle.definition.specs.Constant.{constant_run};
ghost use Rattle.workspace.specs.Parts.{workspace_size};
ghost use Rattle.hosting.specs.Ending.{end_of};
ghost use Rattle.hosting.specs.Setting.{ConstantTabled};
ghost use Rattle.passes.specs.Evaluating.{Evaluates};

use files::call::Limits;
use files::checked::Routine;
use hosting::{How, Reads, Short};
use operations::results;
use value::Val;

// The expression at node n is evaluated, in a workspace that is set up.
fn evaluate_in(routine: Routine, n: usize, ws: &mut [u8], regions: usize) -> Result<Val, Short>
    requires constant_accepted { constant_refusal routine.bytes.now n ≡ 0 }
    requires constant_tabled { ConstantTabled routine.bytes.now ws.old regions }
    ensures { Evaluates (constant_run routine.entry.bytes.now n) (end_of result) }
{
    let nodes = routine.nodes();
    let none = &nodes[0..0];
    let reads = Reads {
        nodes,
        symbols: none,
        regions: none,
    };
    let mut out = [0; 1];
    let how = How {
        depth: 0,
        regions,
        second: false,
    };
    let at = super::no_counts(Limits::STEPS as u64);
    results::enter(ws, how, at);
    machine::eval(&reads, ws, &mut out, n)
}

pub fn evaluate(routine: Routine, n: usize, ws: &mut [u8]) -> Result<Val, Short>
    requires constant_accepted { constant_refusal routine.bytes.now n ≡ 0 }
    requires workspace_long { workspace_size ≤ length ws.old }
    ensures { Evaluates (constant_run routine.entry.bytes.now n) (end_of result) }
{
    let regions = setup::set_constant(routine, ws);
    evaluate_in(routine, n, ws, regions)
}
