// The variables of a head: declared, the parameters set at the start, and those that are not set made unknown at the end.
ghost use Rattle.std.specs.Prelude.{◌≡◌, ◌≤◌, ◌<◌, length, slice_get};
ghost use Rattle.workspace.specs.Parts.{workspace_size, tables};
ghost use Rattle.workspace.specs.View.{Changes};
ghost use Rattle.setup.specs.Heads.{variable_count, parameter_count, AllCoded, argument_if, adding};
ghost use Rattle.setup.specs.Each.{Callable, Visited};
ghost use Rattle.setup.specs.Post.{DeclaresSome, Empties, arguments_in, StartsSome, EndsSome};

use crate::head::{Head, Named};
use files::call::Body;
use value::{Ty, Val};
use workspace::types::{declare, type_of};
use workspace::variables::{set_variable, variable};

// A variable: which of the head's it is, its name and its type.
#[derive(Clone, Copy)]
struct Variable {
    k: usize,
    name: usize,
    ty: Ty,
}

// The first so many variables, one after another, each put into the workspace as a caller says. (The functions that call it have one form, and another step.)
fn each<F: Fn(&mut [u8], Variable)>(head: Head, count: usize, ws: &mut [u8], put: F)
    requires counted { count ≤ variable_count head.bytes.now }
    requires callable { Callable F.Fn put head.bytes.now ws.old count }
    ensures { Visited F.Fn put head.entry.bytes.now ws.old count ws.new }
{
    for k in 0..count {
        let Named { name, ty } = head.variable_at(k);
        let ty = type_of(ws, ty);
        put(ws, Variable { k, name, ty });
    }
}

// Each variable is declared with its type; the last of a name stands.
pub fn declare_all(head: Head, ws: &mut [u8])
    requires { (workspace_size ≤ length ws.old) × (AllCoded (tables ws.old)) }
    ensures { DeclaresSome head.entry.bytes.now (variable_count head.entry.bytes.now) ws.old ws.new }
{
    let count = head.variable_count();
    each(head, count, ws, |ws, v| declare(ws, v.name, v.ty));
}

// No variable is set, and there is no note.
pub fn empty(ws: &mut [u8])
    requires { workspace_size ≤ length ws.old }
    ensures { Empties ws.old ws.new }
{
    ws[workspace::FRAME..workspace::DECLARED].fill(0);
}

// The argument of parameter k, cast to a type; one that is missing is unknown.
fn argument_as(call: Body, k: usize, ty: Ty) -> Val
    ensures { result ≡ argument_if (slice_get (arguments_in call.entry.bytes.now) k) ty }
{
    if k < call.argument_count() {
        return Val::known(call.argument(k), Ty::I64).cast(ty);
    }
    Val::unknown(ty)
}

// The parameters are set; the last of a name stands.
pub fn set_parameters(head: Head, call: Body, ws: &mut [u8])
    requires { workspace_size ≤ length ws.old }
    ensures { StartsSome head.entry.bytes.now call.entry.bytes.now (parameter_count head.entry.bytes.now) ws.old ws.new }
{
    let count = head.parameter_count();
    each(
        head,
        count,
        ws,
        |ws, v| set_variable(ws, v.name, argument_as(call, v.k, v.ty)),
    );
}

// A name that is not set becomes unknown.
fn add_if_unset(ws: &mut [u8], x: usize, ty: Ty)
    requires { (workspace_size ≤ length ws.old) × (x < 512) }
    ensures { Changes ws.old (adding x ty) ws.new }
{
    if variable(ws, x).is_none() {
        set_variable(ws, x, Val::unknown(ty));
    }
}

// The variables that are not set become unknown; the first of a name stands.
pub fn add_unset(head: Head, ws: &mut [u8])
    requires { workspace_size ≤ length ws.old }
    ensures { EndsSome head.entry.bytes.now (variable_count head.entry.bytes.now) ws.old ws.new }
{
    let count = head.variable_count();
    each(head, count, ws, |ws, v| add_if_unset(ws, v.name, v.ty));
}
