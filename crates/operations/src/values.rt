// Operations that give a value, and do nothing else.
ghost use Rattle.std.specs.Prelude.{◌≡◌, is_some, ◌+◌, ◌*◌, ◌≤◌, true, false, length};
ghost use Rattle.value.specs.Value.{type, known_val, unknown_val, cast_to};
ghost use Rattle.value.specs.Operators.{binary_of, operator_of};
ghost use Rattle.files.specs.Nodes.{flag_of, ref_of, width_of};
ghost use Rattle.files.specs.Nodes as field;
ghost use Rattle.definition.specs.Evaluate.{chosen, value_of};
ghost use Rattle.workspace.specs.Parts.{workspace_size, tables};
ghost use Rattle.workspace.specs.Types.{type_at};
ghost use Rattle.operations.specs.At.{TypeAt};
ghost use Rattle.operations.specs.Registers.{result_in, told_in};
ghost use Rattle.operations.specs.Steps.{Gives, Answers};

use crate::results::{RESULT, Told, WROTE, ends, is, last_told};
use files::nodes;
use hosting::Short;
use stream::Reason;
use value::{ArithmeticError, BinaryOp, Ty, Val};
use workspace::{registers, types};

// A Constant's value.
#[tactic(auto, using(crate::proofs::Answering::constant_is))]
pub fn constant_of(nodes: &[u8], n: usize) -> Val
    requires node_inside { n * 20 + 20 ≤ length nodes.now }
    requires n_bound { width_of nodes.now n ≤ 8 }
    ensures { result ≡ known_val (field.value_of nodes.now n) (type (width_of nodes.now n * 8) true) }
{
    let width = nodes::width(nodes, n);
    let value = nodes::value(nodes, n);
    Val::known(value, Ty::new(width * 8, true))
}

#[tactic(auto, using(crate::proofs::Answering::gives_as))]
pub fn constant(nodes: &[u8], ws: &mut [u8], n: usize) -> Option<()>
    requires workspace_long { workspace_size ≤ length ws.old }
    requires node_inside { n * 20 + 20 ≤ length nodes.now }
    requires n_bound { width_of nodes.now n ≤ 8 }
    ensures { Gives ws.old (known_val (field.value_of nodes.now n) (type (width_of nodes.now n * 8) true)) (is_some result) ws.new }
{
    let v = constant_of(nodes, n);
    is(ws, v)
}

// A Register, which has a width only.
#[tactic(auto, using(crate::proofs::Answering::register_gives))]
pub fn register(nodes: &[u8], ws: &mut [u8], n: usize) -> Option<()>
    requires workspace_long { workspace_size ≤ length ws.old }
    requires node_inside { n * 20 + 20 ≤ length nodes.now }
    ensures { Gives ws.old (unknown_val (type (width_of nodes.now n) true)) (is_some result) ws.new }
{
    let width = nodes::width(nodes, n);
    is(ws, Val::unknown(Ty::new(width, true)))
}

#[tactic(auto, using(crate::proofs::Answering::gives_as))]
pub fn unknown(ws: &mut [u8], ty: Ty) -> Option<()>
    requires { workspace_size ≤ length ws.old }
    ensures { Gives ws.old (unknown_val ty) (is_some result) ws.new }
{
    is(ws, Val::unknown(ty))
}

#[tactic(auto, using(crate::proofs::Answering::gives_as))]
pub fn truth(ws: &mut [u8], number: u64) -> Option<()>
    requires { workspace_size ≤ length ws.old }
    ensures { Gives ws.old (known_val number (type 8 false)) (is_some result) ws.new }
{
    is(ws, Val::known(number, Ty::U8))
}

// A ConstantCondition.
#[tactic(auto, using(crate::proofs::Answering::decided_gives))]
pub fn decided(nodes: &[u8], ws: &mut [u8], n: usize) -> Option<()>
    requires workspace_long { workspace_size ≤ length ws.old }
    requires node_inside { n * 20 + 20 ≤ length nodes.now }
    ensures { Gives ws.old (known_val (flag_of nodes.now n) (type 8 false)) (is_some result) ws.new }
{
    let flag = nodes::flag(nodes, n);
    truth(ws, flag as u64)
}

// A Ternary's value, by those of its condition and its first arm; the second arm's is the last result.
#[tactic(auto, using(crate::proofs::Answering::chosen_unknown, crate::proofs::Answering::chosen_other))]
pub fn choose(ws: &mut [u8], condition: Val, then: Val) -> Option<()>
    requires { workspace_size ≤ length ws.old }
    ensures { Gives ws.old (chosen condition then (result_in ws.old)) (is_some result) ws.new }
{
    if !condition.known {
        return unknown(ws, then.ty());
    }
    if condition.number == 0 {
        let otherwise = registers::value(ws, RESULT);
        is(ws, otherwise)
    } else {
        is(ws, then)
    }
}

// A Binary's value, by those of its operands.
#[tactic(auto, using(crate::proofs::Answering::answers_value, crate::proofs::Answering::answers_zero))]
pub fn operate(nodes: &[u8], ws: &mut [u8], n: usize, l: Val, r: Val) -> Option<()>
    requires workspace_long { workspace_size ≤ length ws.old }
    requires node_inside { n * 20 + 20 ≤ length nodes.now }
    ensures { Answers ws.old (binary_of (operator_of (flag_of nodes.now n)) l r) (is_some result) ws.new }
{
    let flag = nodes::flag(nodes, n);
    match value::binary(BinaryOp::from(flag), l, r) {
        Ok(v) => is(ws, v),
        Err(ArithmeticError::DivisionByZero) => ends(ws, Short::Why(Reason::ByZero, 0)),
    }
}

// The value of an Assign that was executed: what it wrote to a variable.
#[tactic(auto, using(crate::proofs::Answering::values_wrote, crate::proofs::Answering::values_none))]
pub fn value_of(ws: &mut [u8]) -> Option<()>
    requires { workspace_size ≤ length ws.old }
    ensures { Gives ws.old (value_of (told_in ws.old).wrote) (is_some result) ws.new }
{
    match last_told(ws) {
        Told::Wrote => {
            let v = registers::value(ws, WROTE);
            is(ws, v)
        }
        _ => unknown(ws, Ty::I64),
    }
}

// The type that a node refers to.
pub fn type_of(nodes: &[u8], ws: &[u8], n: usize) -> Ty
    requires workspace_long { workspace_size ≤ length ws.now }
    requires typed { TypeAt nodes.now n }
    ensures { result ≡ type_at (tables ws.now) (ref_of nodes.now n) }
{
    types::type_of(ws, nodes::reference(nodes, n))
}

// A Cast of the last result.
pub fn cast(nodes: &[u8], ws: &mut [u8], n: usize) -> Option<()>
    requires workspace_long { workspace_size ≤ length ws.old }
    requires typed { TypeAt nodes.now n }
    ensures { Gives ws.old (cast_to (result_in ws.old) (type_at (tables ws.old) (ref_of nodes.now n))) (is_some result) ws.new }
{
    let ty = type_of(nodes, ws, n);
    let v = registers::value(ws, RESULT);
    is(ws, v.cast(ty))
}
