// The machine: the cycle of calls that evaluates and executes a routine's nodes in a lent workspace, with what they ask written to a lent part, and the walk over
// its statements and blocks, which evaluates by it. What of both evaluates nothing stands in `operations` and in `outcomes`.
// Results go on in the workspace's registers: a member gives Some where there is one, None where it ends short, which `?` hands on.
// From sibling to sibling a member goes by a loop: the stack grows with a tree's depth alone.
// What is only read goes from member to member by one reference, a word: by value it would take six, and room for them in each caller's frame.
// A node goes by its number beside it, as in `files::nodes`, which says why, and `ws` and `out` side by side as in `operations`.
// Each member says anew that the workspace is ready for what is read, and the node one of a tree, of a kind: these join two values each, of which one changes.
// A clause names a kind by its number, which is what the bytes have and the definition's `kind_of` gives.
#![tactic(auto)]

ghost use Rattle.std.specs.Prelude.{◌≡◌, is_some, ◌<◌, length};
ghost use Rattle.files.specs.Nodes.{kind_of};
ghost use Rattle.hosting.specs.Stands.{Fine, FineKids, FineArgs, FineFields};
ghost use Rattle.operations.specs.Registers.{result_in};
ghost use Rattle.hosting.specs.Scene.{given_in};
ghost use Rattle.operations.specs.Going.{ReadyIn};
ghost use Rattle.machine.specs.Post.{reading, ReadyBy, Evals, Executes, Evaluates, Assigns, EvaluatesKids, EvaluatesArgs, AssignsVal, AssignsStruct, StoresStruct, StoresFields};

pub mod statements;
pub mod terminators;
pub mod walk;

use files::kinds::Kind;
use files::nodes;
use hosting::{Did, Reads, Short};
use operations::calls::VALUES;
use operations::siblings::Siblings;
use operations::{calls, names, places, results, values};
use stream::Reason;
use value::{Ty, Val};
use workspace::registers;

// The value of the expression at node n.
#[tactic(auto, using(crate::proofs::Room::room_after, crate::proofs::Noting::gives_evals))]
pub fn eval(reads: &Reads, ws: &mut [u8], out: &mut [u8], n: usize) -> Result<Val, Short>
    requires ready_in { ReadyIn (given_in reads.now) ws.old }
    requires fine { Fine reads.now.nodes.now n }
    ensures { reading reads.now Evals n ws.old out.old result ws.new out.new }
{
    // Read for the proof: that a slice's length is a machine's number is known where the slice is read.
    let _nodes = reads.nodes;
    let ok = evaluate(reads, ws, out, n);
    results::outcome(ws, ok)
}

// What a statement that is the expression at node n does.
#[tactic(auto, using(hosting::proofs::Shapes::room, crate::proofs::Room::room_after, crate::proofs::Noting::gives_executes, files::proofs::KindLaws::of_kind))]
pub fn execute(reads: &Reads, ws: &mut [u8], out: &mut [u8], n: usize) -> Result<Did, Short>
    requires ready_in { ReadyIn (given_in reads.now) ws.old }
    requires fine { Fine reads.now.nodes.now n }
    ensures { reading reads.now Executes n ws.old out.old result ws.new out.new }
{
    if nodes::is(reads.nodes, n, Kind::Assign) {
        let ok = execute_assign(reads, ws, out, n);
        return results::executed(ws, ok);
    }
    let ok = evaluate(reads, ws, out, n);
    results::noted(ws, nodes::kind(reads.nodes, n), ok)
}

// An Assign that is a statement. One to a variable, as most are, does here what `assign` does, without a call of the cycle for itself.
#[tactic(auto, using(operations::proofs::Naming::undeclared_fit, operations::proofs::Naming::undeclared_symbols, hosting::proofs::Shapes::room, hosting::proofs::Shapes::assign_left, hosting::proofs::Shapes::assign_right, crate::proofs::Evaluating::ready_on, files::proofs::KindLaws::of_kind))]
fn execute_assign(reads: &Reads, ws: &mut [u8], out: &mut [u8], n: usize) -> Option<()>
    requires ready_by { reading reads.now ReadyBy ws.old }
    requires fine { Fine reads.now.nodes.now n }
    requires of_kind { kind_of reads.now.nodes.now n ≡ 13 }
    ensures { reading reads.now Assigns n ws.old out.old (is_some result) ws.new out.new }
{
    let left = n + 1;
    let right = places::next(reads.nodes, left);
    if !nodes::is(reads.nodes, left, Kind::Var) {
        return evaluate(reads, ws, out, n);
    }
    if nodes::is(reads.nodes, right, Kind::StructInit) {
        return evaluate(reads, ws, out, n);
    }
    evaluate(reads, ws, out, right)?;
    let v = registers::value(ws, results::RESULT);
    // The two parts of `names::write`: the second, which is long and rare, then stays a function of its own.
    if names::write_declared(reads.nodes, ws, left, v).is_some() {
        return Some(());
    }
    names::write_symbol(reads, ws, out, left, v)
}

// The expression at node n is evaluated. Of an Assign the registers also tell what it did.
#[cycle(evaluation)]
#[tactic(auto, using(hosting::proofs::Shapes::room, hosting::proofs::Shapes::constant_width, files::proofs::KindLaws::found, crate::proofs::Ranks::kind_falls, hosting::proofs::Shapes::address_kid, crate::proofs::Ranks::assigned_falls, crate::proofs::Evaluating::alone, crate::proofs::Evaluating::var_evals, crate::proofs::Evaluating::address_evals))]
fn evaluate(reads: &Reads, ws: &mut [u8], out: &mut [u8], n: usize) -> Option<()>
    requires ready_by { reading reads.now ReadyBy ws.old }
    requires fine { Fine reads.now.nodes.now n }
    ensures { (reading reads.now Evaluates n ws.old out.old (is_some result) ws.new out.new) × ((kind_of reads.now.nodes.now n ≡ 13) → reading reads.now Assigns n ws.old out.old (is_some result) ws.new out.new) }
{
    match nodes::kind(reads.nodes, n) {
        Kind::Constant => values::constant(reads.nodes, ws, n),
        Kind::Var => names::variable(reads, ws, out, n),
        Kind::Register => values::register(reads.nodes, ws, n),
        Kind::StringLiteral => values::unknown(ws, Ty::U64),
        Kind::FunctionName => values::unknown(ws, Ty::U64),
        Kind::ConditionTrue => values::truth(ws, 1),
        Kind::ConditionFalse => values::truth(ws, 0),
        Kind::ConstantCondition => values::decided(reads.nodes, ws, n),
        Kind::Cast => cast(reads, ws, out, n),
        Kind::Deref => deref(reads, ws, out, n),
        Kind::AddressOf => names::address(reads, ws, out, n + 1),
        Kind::Ternary => ternary(reads, ws, out, n),
        Kind::Binary => binary(reads, ws, out, n),
        Kind::Assign => assigned(reads, ws, out, n),
        Kind::Call => call(reads, ws, out, n),
        Kind::Intrinsic => intrinsic(reads, ws, out, n),
        Kind::Return => returned(reads, ws, out, n),
        Kind::StructInit => values::unknown(ws, Ty::U64),
        Kind::Field => values::unknown(ws, Ty::I64),
        Kind::Plain => values::unknown(ws, Ty::I64),
    }
}

// The expression at node n is evaluated. A value that is at hand is read without a call of the cycle, which would cost several times as much.
// A Binary does the same in its loop, where such a value need not be put in the registers.
#[cycle(evaluation)]
#[tactic(auto, using(crate::proofs::Ranks::operand_falls))]
fn operand(reads: &Reads, ws: &mut [u8], out: &mut [u8], n: usize) -> Option<()>
    requires ready_by { reading reads.now ReadyBy ws.old }
    requires fine { Fine reads.now.nodes.now n }
    ensures { reading reads.now Evaluates n ws.old out.old (is_some result) ws.new out.new }
{
    match names::at_hand(reads.nodes, ws, n) {
        Some(v) => results::is(ws, v),
        None => evaluate(reads, ws, out, n),
    }
}

// A Cast.
#[cycle(evaluation)]
#[tactic(auto, using(hosting::proofs::Shapes::room, hosting::proofs::Shapes::cast_kid, crate::proofs::Ranks::first_falls, crate::proofs::Evaluating::cast_short, hosting::proofs::Shapes::cast_type, crate::proofs::Room::room_after, crate::proofs::Evaluating::cast_evals))]
fn cast(reads: &Reads, ws: &mut [u8], out: &mut [u8], n: usize) -> Option<()>
    requires ready_by { reading reads.now ReadyBy ws.old }
    requires fine { Fine reads.now.nodes.now n }
    requires of_kind { kind_of reads.now.nodes.now n ≡ 8 }
    ensures { reading reads.now Evaluates n ws.old out.old (is_some result) ws.new out.new }
{
    operand(reads, ws, out, n + 1)?;
    values::cast(reads.nodes, ws, n)
}

// A Deref: what its target points at. A Cast to a pointer is not evaluated, what is under it is.
#[cycle(evaluation)]
#[tactic(auto, using(hosting::proofs::Shapes::room, hosting::proofs::Shapes::deref_kid, crate::proofs::Pointing::target_falls, operations::proofs::Targeting::target_fine, crate::proofs::Pointing::deref_short, crate::proofs::Pointing::deref_ready, crate::proofs::Pointing::deref_nowhere, crate::proofs::Pointing::deref_loads))]
fn deref(reads: &Reads, ws: &mut [u8], out: &mut [u8], n: usize) -> Option<()>
    requires ready_by { reading reads.now ReadyBy ws.old }
    requires fine { Fine reads.now.nodes.now n }
    requires of_kind { kind_of reads.now.nodes.now n ≡ 9 }
    ensures { reading reads.now Evaluates n ws.old out.old (is_some result) ws.new out.new }
{
    let pointer = places::target_of(reads.nodes, ws, n + 1);
    operand(reads, ws, out, pointer.node)?;
    let address = registers::value(ws, results::RESULT);
    if !address.known {
        return values::unknown(ws, pointer.ty);
    }
    places::load_at(reads.regions, ws, out, address.number, pointer.ty)
}

// A Ternary: both arms are evaluated. By a loop, since each call of the cycle in the code has room for its slices in the frame of a level.
// After three rounds the last two values that were kept are the condition's and the first arm's; what was kept before falls out.
#[cycle(evaluation)]
#[tactic(auto, using(hosting::proofs::Shapes::room, crate::proofs::Operands::ternary_start, crate::proofs::Operands::ternary_fine, crate::proofs::Operands::ternary_falls, crate::proofs::Operands::ternary_stopped, crate::proofs::Operands::ternary_done))]
fn ternary(reads: &Reads, ws: &mut [u8], out: &mut [u8], n: usize) -> Option<()>
    requires ready_by { reading reads.now ReadyBy ws.old }
    requires fine { Fine reads.now.nodes.now n }
    requires of_kind { kind_of reads.now.nodes.now n ≡ 11 }
    ensures { reading reads.now Evaluates n ws.old out.old (is_some result) ws.new out.new }
{
    let mut condition = Val::unknown(Ty::U64);
    let mut then = Val::unknown(Ty::U64);
    let mut i = n + 1;
    for _round in 0..3usize {
        condition = then;
        then = registers::value(ws, results::RESULT);
        evaluate(reads, ws, out, i)?;
        i = places::next(reads.nodes, i);
    }
    values::choose(ws, condition, then)
}

// A Binary, the left operand first. Both by one call of the cycle in the code, as in a Ternary: after two rounds the last two values are theirs.
#[cycle(evaluation)]
#[tactic(auto, using(hosting::proofs::Shapes::room, crate::proofs::Operands::binary_start, crate::proofs::Operands::binary_fine, crate::proofs::Operands::binary_falls, crate::proofs::Operands::binary_stopped, crate::proofs::Evaluating::ready_on, crate::proofs::Operands::binary_next, crate::proofs::Operands::operand_at_hand, crate::proofs::Operands::operand_evaluated, crate::proofs::Operands::binary_done))]
fn binary(reads: &Reads, ws: &mut [u8], out: &mut [u8], n: usize) -> Option<()>
    requires ready_by { reading reads.now ReadyBy ws.old }
    requires fine { Fine reads.now.nodes.now n }
    requires of_kind { kind_of reads.now.nodes.now n ≡ 12 }
    ensures { reading reads.now Evaluates n ws.old out.old (is_some result) ws.new out.new }
{
    let right = places::next(reads.nodes, n + 1);
    let mut l = Val::unknown(Ty::U64);
    let mut r = Val::unknown(Ty::U64);
    let mut i = n + 1;
    for _round in 0..2usize {
        l = r;
        r = match names::at_hand(reads.nodes, ws, i) {
            Some(v) => v,
            None => {
                evaluate(reads, ws, out, i)?;
                registers::value(ws, results::RESULT)
            }
        };
        i = right;
    }
    values::operate(reads.nodes, ws, n, l, r)
}

// An Assign as an expression is executed: its value is what it wrote to a variable.
#[cycle(evaluation)]
#[tactic(auto, using(crate::proofs::Ranks::assign_falls, crate::proofs::Assigning::assigned_short, crate::proofs::Assigning::assigned_fails, crate::proofs::Room::room_after, crate::proofs::Assigning::assigned_evals, crate::proofs::Assigning::assigned_tells))]
fn assigned(reads: &Reads, ws: &mut [u8], out: &mut [u8], n: usize) -> Option<()>
    requires ready_by { reading reads.now ReadyBy ws.old }
    requires fine { Fine reads.now.nodes.now n }
    requires of_kind { kind_of reads.now.nodes.now n ≡ 13 }
    ensures { (reading reads.now Evaluates n ws.old out.old (is_some result) ws.new out.new) × (reading reads.now Assigns n ws.old out.old (is_some result) ws.new out.new) }
{
    assign(reads, ws, out, n)?;
    values::value_of(ws)
}

// An Assign is executed: the right side is evaluated, unless it is a StructInit, and then the left.
#[cycle(evaluation)]
#[tactic(auto, using(hosting::proofs::Shapes::room, hosting::proofs::Shapes::assign_left, hosting::proofs::Shapes::assign_right, files::proofs::KindLaws::of_kind, crate::proofs::Ranks::first_falls, crate::proofs::Ranks::next_past, crate::proofs::Assigning::struct_executes, crate::proofs::Ranks::second_falls, crate::proofs::Evaluating::ready_on))]
fn assign(reads: &Reads, ws: &mut [u8], out: &mut [u8], n: usize) -> Option<()>
    requires ready_by { reading reads.now ReadyBy ws.old }
    requires fine { Fine reads.now.nodes.now n }
    requires of_kind { kind_of reads.now.nodes.now n ≡ 13 }
    ensures { reading reads.now Assigns n ws.old out.old (is_some result) ws.new out.new }
{
    let left = n + 1;
    let right = places::next(reads.nodes, left);
    if nodes::is(reads.nodes, right, Kind::StructInit) {
        return assign_struct(reads, ws, out, left, right);
    }
    operand(reads, ws, out, right)?;
    assign_val(reads, ws, out, left)
}

// The last result is assigned to what is at node left.
#[cycle(evaluation)]
#[tactic(auto, using(crate::proofs::Room::room_in, hosting::proofs::Shapes::room, files::proofs::KindLaws::of_kind, crate::proofs::Assigning::write_assigns, hosting::proofs::Shapes::deref_kid, crate::proofs::Pointing::target_falls, operations::proofs::Targeting::target_fine, crate::proofs::Evaluating::ready_on))]
fn assign_val(reads: &Reads, ws: &mut [u8], out: &mut [u8], left: usize) -> Option<()>
    requires ready_by { reading reads.now ReadyBy ws.old }
    requires fine { Fine reads.now.nodes.now left }
    ensures { reading reads.now AssignsVal left (result_in ws.old) ws.old out.old (is_some result) ws.new out.new }
{
    let v = registers::value(ws, results::RESULT);
    if nodes::is(reads.nodes, left, Kind::Var) {
        return names::write(reads, ws, out, left, v);
    }
    if !nodes::is(reads.nodes, left, Kind::Deref) {
        return results::ends(ws, Short::Why(Reason::StoreTo, left as u64));
    }
    let target = left + 1;
    let pointer = places::target_of(reads.nodes, ws, target);
    evaluate(reads, ws, out, pointer.node)?;
    places::store(ws, target, pointer.ty, v)
}

// The StructInit at node right is assigned through the pointer at node left.
#[cycle(evaluation)]
#[tactic(auto, using(hosting::proofs::Shapes::room, crate::proofs::Room::room_in, hosting::proofs::Shapes::deref_kid, files::proofs::KindLaws::of_kind, crate::proofs::Ranks::right_falls, crate::proofs::Storing::base_past, operations::proofs::Targeting::base_fine))]
fn assign_struct(
    reads: &Reads,
    ws: &mut [u8],
    out: &mut [u8],
    left: usize,
    right: usize,
) -> Option<()>
    requires ready_by { reading reads.now ReadyBy ws.old }
    requires fine { Fine reads.now.nodes.now left }
    requires fine_right { Fine reads.now.nodes.now right }
    requires left_lt_right { left < right }
    requires right_of_kind { kind_of reads.now.nodes.now right ≡ 17 }
    ensures { reading reads.now AssignsStruct left right ws.old out.old (is_some result) ws.new out.new }
{
    if !nodes::is(reads.nodes, left, Kind::Deref) {
        return results::ends(ws, Short::Why(Reason::StructTo, left as u64));
    }
    let base = places::base(reads.nodes, left + 1);
    evaluate(reads, ws, out, base)?;
    store_struct(reads, ws, out, base, right)
}

// The StructInit at node right is stored to the address that is the last result, which node base gave.
#[cycle(evaluation)]
#[tactic(auto, using(crate::proofs::Room::room_in, crate::proofs::Storing::unknown_stores, hosting::proofs::Shapes::room, hosting::proofs::Shapes::struct_fields, crate::proofs::Ranks::first_falls, crate::proofs::Storing::known_fails, crate::proofs::Room::room_after, crate::proofs::Storing::known_stores))]
fn store_struct(
    reads: &Reads,
    ws: &mut [u8],
    out: &mut [u8],
    base: usize,
    right: usize,
) -> Option<()>
    requires ready_by { reading reads.now ReadyBy ws.old }
    requires fine { Fine reads.now.nodes.now right }
    requires right_of_kind { kind_of reads.now.nodes.now right ≡ 17 }
    ensures { reading reads.now StoresStruct base right (result_in ws.old) ws.old out.old (is_some result) ws.new out.new }
{
    let v = registers::value(ws, results::RESULT);
    if !v.known {
        return results::ends(ws, Short::Why(Reason::UnknownAddress, base as u64));
    }
    let first = right + 1;
    let end = places::next(reads.nodes, right);
    store_fields(reads, ws, out, first, end, v.number)?;
    places::built(reads.nodes, ws, first, end, v.number)
}

// The fields from node n up to node end, each stored at its offset from an address.
#[cycle(evaluation)]
#[tactic(auto, using(hosting::proofs::Shapes::field_inside, operations::proofs::Rows::over_at, operations::proofs::Rows::over_more))]
fn store_fields(
    reads: &Reads,
    ws: &mut [u8],
    out: &mut [u8],
    n: usize,
    end: usize,
    address: u64,
) -> Option<()>
    requires ready_by { reading reads.now ReadyBy ws.old }
    requires fine_fields { FineFields reads.now.nodes.now n end }
    ensures { reading reads.now StoresFields n end address ws.old out.old (is_some result) ws.new out.new }
{
    for i in Siblings::new(reads.nodes, n, end) {
        evaluate(reads, ws, out, i + 1)?;
        places::store_field(reads.nodes, ws, i, address)?;
    }
    Some(())
}

// A Call: the arguments are evaluated, the world is asked, and the locals whose address is taken become unknown.
#[cycle(evaluation)]
#[tactic(auto, using(hosting::proofs::Shapes::room, hosting::proofs::Shapes::call_args, crate::proofs::Ranks::second_falls, crate::proofs::Calling::call_short, crate::proofs::Calling::call_evals))]
fn call(reads: &Reads, ws: &mut [u8], out: &mut [u8], n: usize) -> Option<()>
    requires ready_by { reading reads.now ReadyBy ws.old }
    requires fine { Fine reads.now.nodes.now n }
    requires of_kind { kind_of reads.now.nodes.now n ≡ 14 }
    ensures { reading reads.now Evaluates n ws.old out.old (is_some result) ws.new out.new }
{
    let mut vals = [0u8; VALUES];
    let first = places::next(reads.nodes, n + 1);
    let end = places::next(reads.nodes, n);
    let count = args(reads, ws, out, &mut vals, first, end)?;
    calls::called(reads.nodes, ws, out, &vals, count, n)
}

// The values of the expressions from node n up to node end, in vals, and how many they are, or none where one ends short.
// (How many is the result too, so that it is counted and not enumerated.)
#[cycle(evaluation)]
#[tactic(auto, using(operations::proofs::Rows::over_at, operations::proofs::Rows::over_more, crate::proofs::SiblingArgs::arg_ready, crate::proofs::SiblingArgs::args_room))]
fn args(
    reads: &Reads,
    ws: &mut [u8],
    out: &mut [u8],
    vals: &mut [u8; VALUES],
    n: usize,
    end: usize,
) -> Option<usize>
    requires ready_by { reading reads.now ReadyBy ws.old }
    requires fine_args { FineArgs reads.now.nodes.now n end 0 }
    ensures { reading reads.now EvaluatesArgs n end 0 ws.old out.old result vals.old vals.new ws.new out.new }
{
    let mut j = 0;
    for i in Siblings::new(reads.nodes, n, end) {
        evaluate(reads, ws, out, i)?;
        let v = registers::value(ws, results::RESULT);
        calls::put_val(vals, j, v);
        j += 1;
    }
    Some(j)
}

// An Intrinsic: its arguments are evaluated, and nothing is done with their values.
#[cycle(evaluation)]
#[tactic(auto, using(hosting::proofs::Shapes::room, hosting::proofs::Shapes::intrinsic_kids, crate::proofs::Ranks::first_falls, crate::proofs::Evaluating::intrinsic_evals))]
fn intrinsic(reads: &Reads, ws: &mut [u8], out: &mut [u8], n: usize) -> Option<()>
    requires ready_by { reading reads.now ReadyBy ws.old }
    requires fine { Fine reads.now.nodes.now n }
    requires of_kind { kind_of reads.now.nodes.now n ≡ 15 }
    ensures { reading reads.now Evaluates n ws.old out.old (is_some result) ws.new out.new }
{
    let end = places::next(reads.nodes, n);
    kids(reads, ws, out, n + 1, end)
}

// The expressions from node n up to node end, each evaluated in order. One whose value is at hand needs nothing done.
#[cycle(evaluation)]
fn kids(reads: &Reads, ws: &mut [u8], out: &mut [u8], n: usize, end: usize) -> Option<()>
    requires ready_by { reading reads.now ReadyBy ws.old }
    requires fine_kids { FineKids reads.now.nodes.now n end }
    ensures { reading reads.now EvaluatesKids n end ws.old out.old (is_some result) ws.new out.new }
{
    for i in Siblings::new(reads.nodes, n, end) {
        if names::at_hand(reads.nodes, ws, i).is_some() {
            continue;
        }
        evaluate(reads, ws, out, i)?;
    }
    values::unknown(ws, Ty::I64)
}

// A Return as an expression: its value.
#[cycle(evaluation)]
#[tactic(auto, using(hosting::proofs::Shapes::room, hosting::proofs::Shapes::returned_kid, crate::proofs::Ranks::first_falls, crate::proofs::Evaluating::returned_nothing, crate::proofs::Evaluating::returned_evals))]
fn returned(reads: &Reads, ws: &mut [u8], out: &mut [u8], n: usize) -> Option<()>
    requires ready_by { reading reads.now ReadyBy ws.old }
    requires fine { Fine reads.now.nodes.now n }
    requires of_kind { kind_of reads.now.nodes.now n ≡ 16 }
    ensures { reading reads.now Evaluates n ws.old out.old (is_some result) ws.new out.new }
{
    let end = places::next(reads.nodes, n);
    if end == n + 1 {
        values::unknown(ws, Ty::I64)
    } else {
        evaluate(reads, ws, out, n + 1)
    }
}
