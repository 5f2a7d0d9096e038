// The types of declared names and of the routine's type table, each as a code of one byte: 0 for none, else the width in bits, and 1 for a sign, 2 for _Bool.
// A name and a type go by their numbers, of which each function asks that they are few enough: `variables` says why.
ghost use Rattle.std.specs.Prelude.{◌≡◌, ◌<◌, ◌≤◌, length};
ghost use Rattle.layout.specs.Number.{number_at};
ghost use Rattle.workspace.specs.Parts.{workspace_size, tables};
ghost use Rattle.workspace.specs.Variables.{name_limit};
ghost use Rattle.workspace.specs.Types.{type_limit, code_of, code_if, type_of_code, type_if_code, declared_at, type_at, pointee_at, Coded, CodedIf};
ghost use Rattle.workspace.specs.Post.{Declares, PutsType};

use super::{DECLARED, TYPES};
use value::Ty;

// The most types, and the bytes of the codes of one: its own, and that of what it points at.
pub const TYPE_LIMIT: usize = 512;

const CODES: usize = 2;

// The bytes of the codes of all types.
pub(crate) const BYTES: usize = TYPE_LIMIT * CODES;

// The code of a type, and the type of a code.
#[tactic(auto, using(crate::proofs::CodeLaws::code_made))]
fn code(ty: Ty) -> u64
    requires { Coded ty }
    ensures { result ≡ code_of ty }
{
    ty.bits as u64 + ty.boolean as u64 * 2 + ty.signed as u64
}

#[tactic(auto, using(crate::proofs::CodeLaws::type_made))]
fn decoded(code: u64) -> Ty
    requires { code < 256 }
    ensures { result ≡ type_of_code code }
{
    Ty {
        bits: (code / 8 * 8) as u32,
        signed: code % 2 != 0,
        boolean: code / 2 % 2 != 0,
    }
}

#[tactic(auto, using(crate::proofs::CodeLaws::pointed_code, crate::proofs::CodeLaws::unpointed_code))]
fn pointee_code(pointee: Option<Ty>) -> u64
    requires { CodedIf pointee }
    ensures { result ≡ code_if pointee }
{
    pointee.map_or(0, code)
}

// The type whose code is at a place, if there is one.
#[tactic(auto, using(crate::proofs::CodeLaws::coded_none, crate::proofs::CodeLaws::coded_some))]
fn typed_at(ws: &[u8], at: usize) -> Option<Ty>
    requires { at < length ws.now }
    ensures { result ≡ type_if_code (number_at ws.now at 1) }
{
    let code = layout::get::<1>(ws, at);
    (code != 0).then(|| decoded(code))
}

// The type that a name is declared with, if it is declared.
#[tactic(auto, using(crate::proofs::TableLaws::reads_declared))]
pub fn declared(ws: &[u8], x: usize) -> Option<Ty>
    requires { (workspace_size ≤ length ws.now) × (x < name_limit) }
    ensures { result ≡ declared_at (tables ws.now) x }
{
    typed_at(ws, DECLARED + x)
}

// A type of the type table.
#[tactic(auto, using(crate::proofs::TableLaws::reads_type))]
pub fn type_of(ws: &[u8], i: usize) -> Ty
    requires { (workspace_size ≤ length ws.now) × (i < type_limit) }
    ensures { result ≡ type_at (tables ws.now) i }
{
    decoded(layout::get::<1>(ws, TYPES + i * CODES))
}

// What it points at.
#[tactic(auto, using(crate::proofs::TableLaws::reads_pointee))]
pub fn pointee(ws: &[u8], i: usize) -> Option<Ty>
    requires { (workspace_size ≤ length ws.now) × (i < type_limit) }
    ensures { result ≡ pointee_at (tables ws.now) i }
{
    typed_at(ws, TYPES + i * CODES + 1)
}

#[tactic(auto, using(crate::proofs::TableLaws::declares))]
pub fn declare(ws: &mut [u8], x: usize, ty: Ty)
    requires { (workspace_size ≤ length ws.old) × (x < name_limit) × Coded ty }
    ensures { Declares ws.old x ty ws.new }
{
    layout::put::<1>(ws, DECLARED + x, code(ty));
}

pub fn put_type(ws: &mut [u8], i: usize, ty: Ty, pointee: Option<Ty>)
    requires { (workspace_size ≤ length ws.old) × (i < type_limit) × Coded ty × CodedIf pointee }
    ensures { PutsType ws.old i ty pointee ws.new }
{
    let at = TYPES + i * CODES;
    layout::put::<1>(ws, at, code(ty));
    layout::put::<1>(ws, at + 1, pointee_code(pointee));
}
