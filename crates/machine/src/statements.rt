// What a statement of a block does: it spends no unit, and knows no order of the blocks.
// (`ReadyIn` is a clause, since the workspace changes, and so is `Fine`: it is of a node's number in a body.)
ghost use Rattle.std.specs.Prelude.{◌≡◌, ◌+◌, ◌*◌, ◌≤◌, length};
ghost use Rattle.files.specs.Nodes.{kind_of};
ghost use Rattle.hosting.specs.Scene.{given_in};
ghost use Rattle.hosting.specs.Stands.{Fine};
ghost use Rattle.operations.specs.Going.{ReadyIn};
ghost use Rattle.outcomes.specs.Sorts.{RootsOf};
ghost use Rattle.machine.specs.Post.{reading};
ghost use Rattle.machine.specs.Statements.{Acting, RunsStatement};

use files::nodes;
use hosting::{Facts, Reads, Short, Stop};
use outcomes::Bodies;
use outcomes::roots::{self, Acts, Sort};
use outcomes::steps::Site;

// `return;` or `return value;`.
#[tactic(auto, using(crate::proofs::OutcomeLaws::give_kid))]
fn give(reads: &Reads, ws: &mut [u8], out: &mut [u8], facts: Facts, n: usize) -> Result<Acts, Short>
    requires ready_in { ReadyIn (given_in reads.now) ws.old }
    requires fine { (Fine reads.now.nodes.now n) × (kind_of reads.now.nodes.now n ≡ 16) }
    ensures { reading reads.now Acting facts n ws.old out.old result ws.new out.new }
{
    if nodes::span(reads.nodes, n) == 1 {
        return Ok(Acts::Leaves);
    }
    let v = crate::eval(reads, ws, out, n + 1)?;
    Ok(Acts::Gives(roots::returned(facts.returns, v)))
}

// What the root of a statement does.
#[tactic(auto, using(crate::proofs::OutcomeLaws::gives_kind, crate::proofs::OutcomeLaws::halts_room))]
fn act(reads: &Reads, ws: &mut [u8], out: &mut [u8], facts: Facts, n: usize) -> Result<Acts, Short>
    requires ready_in { ReadyIn (given_in reads.now) ws.old }
    requires fine { Fine reads.now.nodes.now n }
    ensures { reading reads.now Acting facts n ws.old out.old result ws.new out.new }
{
    match roots::sort_of(reads.nodes, facts, n) {
        Sort::Gives => give(reads, ws, out, facts, n),
        Sort::Unreachable => Ok(Acts::Strays),
        Sort::Halts => Ok(Acts::Halts(nodes::value(reads.nodes, n + 1))),
        Sort::Plain => {
            let did = crate::execute(reads, ws, out, n)?;
            Ok(Acts::Does(did))
        }
    }
}

// Statement k, of a block.
#[tactic(auto, using(crate::proofs::StatementLaws::kept_acts, crate::proofs::StatementLaws::root_fine))]
pub fn statement(
    bodies: &Bodies,
    ws: &mut [u8],
    out: &mut [u8],
    facts: Facts,
    block: usize,
    k: usize,
) -> Option<Stop>
    requires ready_in { ReadyIn (given_in bodies.now.reads) ws.old }
    requires has_statement { (k * 13 + 13 ≤ length bodies.now.statements.now) × RootsOf bodies.now.reads.nodes.now bodies.now.statements.now }
    ensures { reading bodies.now.reads RunsStatement bodies.now.statements.now facts block k ws.old out.old result ws.new out.new }
{
    workspace::note::clear_note(ws);
    let s = index::blocks::statement_at(bodies.statements, k);
    let address = s.address;
    let o = act(&bodies.reads, ws, out, facts, s.root);
    let site = Site {
        address,
        block,
        statement: k,
    };
    roots::conclude(ws, out, site, o)
}
