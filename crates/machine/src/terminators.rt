// The terminator of a block. (`Placing` is a clause: outcomes::leads says why.)
ghost use Rattle.hosting.specs.Scene.{given_in};
ghost use Rattle.operations.specs.Going.{ReadyIn};
ghost use Rattle.outcomes.specs.Placing.{Placing};
ghost use Rattle.machine.specs.Post.{reading};
ghost use Rattle.machine.specs.Statements.{Terminates};

use hosting::Stop;
use index::blocks::{Place, Terminator};
use outcomes::Bodies;
use outcomes::leads::{self, Spot};
use std::ops::ControlFlow;

// The terminator of the block at a place.
#[tactic(auto, using(crate::proofs::TerminatorLaws::switch_cases))]
pub fn terminate(
    bodies: &Bodies,
    ws: &mut [u8],
    out: &mut [u8],
    place: Place,
) -> ControlFlow<Stop, Spot>
    requires ready_in { ReadyIn (given_in bodies.now.reads) ws.old }
    requires placing { Placing bodies.now.reads.nodes.now bodies.now.statements.now bodies.now.blocks.now place }
    ensures { reading bodies.now.reads Terminates bodies.now.statements.now bodies.now.blocks.now place ws.old out.old result ws.new out.new }
{
    let t = index::blocks::terminator_at(bodies.blocks, place.start);
    match t {
        Terminator::Return => ControlFlow::Break(Stop::Returned(None)),
        Terminator::Goto(block) => ControlFlow::Continue(Spot {
            block,
            statement: None,
        }),
        Terminator::Branch {
            address,
            root,
            taken,
            next,
        } => {
            let e = crate::eval(&bodies.reads, ws, out, root);
            let lead = e.and_then(|v| leads::branch_to(root, taken, next, v));
            leads::lead_on(bodies, place, address, lead)
        }
        Terminator::Switch {
            address,
            root,
            count,
        } => {
            let e = crate::eval(&bodies.reads, ws, out, root);
            let lead = e.and_then(|v| leads::switch_to(bodies.blocks, place.start, count, root, v));
            leads::lead_on(bodies, place, address, lead)
        }
    }
}
