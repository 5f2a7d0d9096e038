// Operations of a Call.
ghost use Rattle.std.specs.Prelude.{◌≡◌, is_some, ◌+◌, ◌*◌, ◌<◌, ◌≤◌, length};
ghost use Rattle.files.specs.Nodes.{kind_of};
ghost use Rattle.workspace.specs.Parts.{workspace_size};
ghost use Rattle.hosting.specs.Stands.{Fine, FineArgs};
ghost use Rattle.operations.specs.Taking.{PutsVal, Follows, Takes, TakesAll, NoteOpen, Calls};

use crate::places::next;
use crate::questions::send;
use crate::results::DEPTH;
use crate::siblings::Siblings;
use crate::values::unknown;
use files::kinds::Kind;
use files::nodes;
use value::{Ty, Val};
use workspace::{note, registers, types, variables};

// The bytes of a value.
const VALUE: usize = value::encoding::SIZE;

// The bytes of the values of a call's arguments, which are 16 at most.
pub const VALUES: usize = 16 * VALUE;

// A value among those of a call's arguments, at value k.
pub fn put_val(vals: &mut [u8; VALUES], k: usize, v: Val)
    requires { k < 16 }
    ensures { PutsVal vals.old k v vals.new }
{
    value::encoding::put_val(vals, k * VALUE, v);
}

// `call` is asked, if the callee is a FunctionName and the depth limit lets it be. The world answers none.
fn follow(nodes: &[u8], ws: &mut [u8], out: &mut [u8], vals: &[u8; VALUES], count: usize, n: usize)
    requires workspace_long { workspace_size ≤ length ws.old }
    requires fine { Fine nodes.now n }
    requires count_bound { count ≤ 16 }
    ensures { Follows nodes.now vals.now count n ws.old out.old ws.new out.new }
{
    if !nodes::is(nodes, n, Kind::FunctionName) {
        return;
    }
    let deepest = registers::word(ws, DEPTH) == 0;
    if deepest {
        return;
    }
    let name = nodes::reference(nodes, n);
    let address = nodes::value(nodes, n);
    send(
        ws,
        out,
        |part, at, on| stream::question_call(part, at, on, name, address, 1, vals, count),
    );
}

// The argument at node n takes the address of a local: it becomes unknown, and is noted.
#[tactic(auto, using(files::proofs::KindLaws::of_kind, files::proofs::KindLaws::no_such, crate::proofs::Taking::takes_other, crate::proofs::Taking::takes_no_name, crate::proofs::Taking::takes_undeclared, crate::proofs::Taking::under_below))]
fn take(nodes: &[u8], ws: &mut [u8], n: usize)
    requires workspace_long { workspace_size ≤ length ws.old }
    requires fine { Fine nodes.now n }
    requires note_open { NoteOpen ws.old }
    ensures { Takes nodes.now n ws.old ws.new }
{
    if !nodes::is(nodes, n, Kind::AddressOf) {
        return;
    }
    if !nodes::is(nodes, n + 1, Kind::Var) {
        return;
    }
    let name = nodes::reference(nodes, n + 1);
    if let Some(ty) = types::declared(ws, name) {
        variables::set_variable(ws, name, Val::unknown(ty));
        note::add_name(ws, name);
    }
}

// The same of each argument from node first up to node end.
#[tactic(auto, using(crate::proofs::Rows::over_at, crate::proofs::Rows::over_more, crate::proofs::Rows::over_on, crate::proofs::Taking::so_far_more))]
fn take_all(nodes: &[u8], ws: &mut [u8], first: usize, end: usize)
    requires workspace_long { workspace_size ≤ length ws.old }
    requires fine_args { FineArgs nodes.now first end 0 }
    ensures { TakesAll nodes.now first end ws.old ws.new }
{
    note::start_note(ws);
    for i in Siblings::new(nodes, first, end) {
        take(nodes, ws, i);
    }
}

// The call at node n, whose arguments have the first values of vals, so many. (How many stands beside them: a slice of these alone would tell it by a division.)
#[tactic(auto, using(hosting::proofs::Shapes::call_callee, hosting::proofs::Shapes::call_args, crate::proofs::Taking::called_does))]
pub fn called(
    nodes: &[u8],
    ws: &mut [u8],
    out: &mut [u8],
    vals: &[u8; VALUES],
    count: usize,
    n: usize,
) -> Option<()>
    requires workspace_long { workspace_size ≤ length ws.old }
    requires fine { Fine nodes.now n }
    requires of_kind { kind_of nodes.now n ≡ 14 }
    requires count_bound { count ≤ 16 }
    ensures { Calls nodes.now vals.now count n ws.old out.old (is_some result) ws.new out.new }
{
    let first = next(nodes, n + 1);
    let end = next(nodes, n);
    follow(nodes, ws, out, vals, count, n + 1);
    take_all(nodes, ws, first, end);
    unknown(ws, Ty::I64)
}
