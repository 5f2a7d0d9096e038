// Operations at names: variables, and the world's symbols.
ghost use Rattle.std.specs.Prelude.{◌≡◌, is_some, ◌<◌, ◌≤◌, length, IfSome};
ghost use Rattle.value.specs.Value.{unknown_val};
ghost use Rattle.files.specs.Nodes.{ref_of};
ghost use Rattle.definition.specs.Evaluate.{read_variable, type_or, width_in};
ghost use Rattle.stream.specs.Pieces.{question_bytes, symbol_entry};
ghost use Rattle.workspace.specs.Parts.{workspace_size, tables};
ghost use Rattle.workspace.specs.Types.{declared_at};
ghost use Rattle.workspace.specs.View.{Fit};
ghost use Rattle.hosting.specs.Scene.{given_in, SymbolsRead};
ghost use Rattle.hosting.specs.Stands.{Fine};
ghost use Rattle.operations.specs.At.{VarAt};
ghost use Rattle.operations.specs.Registers.{counts_in, end_in};
ghost use Rattle.operations.specs.Going.{ReadyIn, Goes};
ghost use Rattle.operations.specs.Steps.{Gives, AtHand};
ghost use Rattle.operations.specs.Asking.{Sends, AsksSymbol, symbol_val, Addresses, WritesSymbol, Writes, IfDeclared};

use crate::places::{load_at, store_value};
use crate::questions::send;
use crate::results::{Told, ends, is, wrote};
use crate::values::{constant_of, unknown};
use files::kinds::Kind;
use files::nodes;
use hosting::{Reads, Short};
use index::symbols;
use stream::{Reason, Symbol};
use value::{Ty, Val};
use workspace::{types, variables};

// ---- the world's symbols

// The question is written with its answer.
fn tell(ws: &mut [u8], out: &mut [u8], kind: Symbol, name: usize, answer: Option<u64>)
    requires { workspace_size ≤ length ws.old }
    ensures { Sends (question_bytes (symbol_entry kind name answer)) ws.old out.old ws.new out.new }
{
    send(
        ws,
        out,
        |part, at, on| stream::question_symbol(part, at, on, kind, name, answer),
    );
}

// `address_of` or `size_of` of the name at node n.
#[tactic(auto, using(workspace::proofs::LendLaws::symbols_lent, crate::proofs::Naming::symbol_inside, crate::proofs::Naming::symbol_asks))]
fn ask(reads: &Reads, ws: &mut [u8], out: &mut [u8], kind: Symbol, n: usize) -> Option<u64>
    requires workspace_long { workspace_size ≤ length ws.old }
    requires symbols_read { SymbolsRead reads.now.nodes.now reads.now.symbols.now (tables ws.old) }
    requires var_at { VarAt reads.now.nodes.now n }
    ensures { AsksSymbol reads.now.nodes.now reads.now.symbols.now kind n ws.old out.old result ws.new out.new }
{
    let name = nodes::reference(reads.nodes, n);
    let part = &ws[workspace::SYMBOLS..workspace::REGIONS];
    let answer = match kind {
        Symbol::AddressOf => symbols::address_of(reads.symbols, part, name),
        Symbol::SizeOf => symbols::size_of(reads.symbols, part, name),
    };
    tell(ws, out, kind, name, answer);
    answer
}

// The width in bits of a symbol of 1, 2, 4 or 8 bytes.
fn width_of(size: Option<u64>) -> Option<u32>
    ensures is { result ≡ width_in size }
    ensures small { IfSome result (λ bits. bits ≤ 64) }
{
    match size {
        Some(1) => Some(8),
        Some(2) => Some(16),
        Some(4) => Some(32),
        Some(8) => Some(64),
        _ => None,
    }
}

// ---- what is read

// What is unknown of a name: the type that it is declared with.
#[tactic(auto, using(crate::proofs::Naming::undefined_as, crate::proofs::Naming::undefined_nothing))]
fn undefined(ws: &mut [u8], name: usize) -> Option<()>
    requires workspace_long { workspace_size ≤ length ws.old }
    requires name_bound { name < 512 }
    ensures { Gives ws.old (unknown_val (type_or (declared_at (tables ws.old) name))) (is_some result) ws.new }
{
    let ty = types::declared(ws, name).unwrap_or(Ty::I64);
    unknown(ws, ty)
}

// The value of the symbol of the name at node n.
#[tactic(auto, using(crate::proofs::Naming::asked_room, crate::proofs::Naming::asked_symbols, crate::proofs::Naming::sized_fit, crate::proofs::Naming::sized_regions))]
fn symbol(reads: &Reads, ws: &mut [u8], out: &mut [u8], n: usize) -> Option<()>
    requires ready_in { ReadyIn (given_in reads.now) ws.old }
    requires var_at { VarAt reads.now.nodes.now n }
    ensures { Goes (given_in reads.now) (λ x. symbol_val x.env (ref_of reads.now.nodes.now n)) ws.old out.old (end_in (is_some result) ws.new) ws.new out.new }
{
    let Some(a) = ask(reads, ws, out, Symbol::AddressOf, n) else {
        return undefined(ws, nodes::reference(reads.nodes, n));
    };
    let size = ask(reads, ws, out, Symbol::SizeOf, n);
    let Some(bits) = width_of(size) else {
        return unknown(ws, Ty::I64);
    };
    load_at(reads.regions, ws, out, a, Ty::new(bits, true))
}

// The value of the variable at node n: what it is set to, else its symbol's.
pub fn variable(reads: &Reads, ws: &mut [u8], out: &mut [u8], n: usize) -> Option<()>
    requires ready_in { ReadyIn (given_in reads.now) ws.old }
    requires var_at { VarAt reads.now.nodes.now n }
    ensures { Goes (given_in reads.now) (λ x. read_variable x.env (ref_of reads.now.nodes.now n)) ws.old out.old (end_in (is_some result) ws.new) ws.new out.new }
{
    match variables::variable(ws, nodes::reference(reads.nodes, n)) {
        Some(v) => is(ws, v),
        None => symbol(reads, ws, out, n),
    }
}

// The value at node n, if it is at hand: a Constant's, or that of a variable that is set.
// Most operands are such, and nothing is to be evaluated for them: a caller that tries this first is spared a call of the evaluator.
#[tactic(auto, using(hosting::proofs::Shapes::room, hosting::proofs::Shapes::constant_width, files::proofs::KindLaws::found, crate::proofs::Naming::name_below, crate::proofs::Naming::variable_at_hand, crate::proofs::Naming::not_at_hand))]
pub fn at_hand(nodes: &[u8], ws: &[u8], n: usize) -> Option<Val>
    requires workspace_long { workspace_size ≤ length ws.now }
    requires fine { Fine nodes.now n }
    ensures { AtHand nodes.now n ws.now result }
{
    match nodes::kind(nodes, n) {
        Kind::Constant => Some(constant_of(nodes, n)),
        Kind::Var => variables::variable(ws, nodes::reference(nodes, n)),
        _ => None,
    }
}

// The address of what is at node n.
#[tactic(auto, using(files::proofs::KindLaws::of_kind, crate::proofs::Naming::unknown_address_lem))]
pub fn address(reads: &Reads, ws: &mut [u8], out: &mut [u8], n: usize) -> Option<()>
    requires workspace_long { workspace_size ≤ length ws.old }
    requires symbols_read { SymbolsRead reads.now.nodes.now reads.now.symbols.now (tables ws.old) }
    requires fine { Fine reads.now.nodes.now n }
    ensures { Addresses reads.now.nodes.now reads.now.symbols.now n ws.old out.old (is_some result) ws.new out.new }
{
    if !nodes::is(reads.nodes, n, Kind::Var) {
        return unknown(ws, Ty::U64);
    }
    match ask(reads, ws, out, Symbol::AddressOf, n) {
        Some(a) => is(ws, Val::known(a, Ty::U64)),
        None => unknown(ws, Ty::U64),
    }
}

// ---- what is written

// A name that is not declared is written: its symbol at its width, else the variable as it is.
#[tactic(auto, using(crate::proofs::Naming::asked_room, crate::proofs::Naming::asked_symbols, crate::proofs::Naming::sized_room, crate::proofs::Naming::sized_fit, crate::proofs::Naming::symbol_sets))]
pub fn write_symbol(reads: &Reads, ws: &mut [u8], out: &mut [u8], n: usize, v: Val) -> Option<()>
    requires fit { Fit ws.old (counts_in ws.old).stored }
    requires symbols_read { SymbolsRead reads.now.nodes.now reads.now.symbols.now (tables ws.old) }
    requires var_at { VarAt reads.now.nodes.now n }
    ensures { WritesSymbol reads.now.nodes.now reads.now.symbols.now n v ws.old out.old (is_some result) ws.new out.new }
{
    let name = nodes::reference(reads.nodes, n);
    let Some(a) = ask(reads, ws, out, Symbol::AddressOf, n) else {
        variables::set_variable(ws, name, v);
        return wrote(ws, Told::Wrote, name as u64, v);
    };
    let size = ask(reads, ws, out, Symbol::SizeOf, n);
    let Some(bits) = width_of(size) else {
        return ends(ws, Short::Why(Reason::NoWidth, name as u64));
    };
    let c = v.cast(Ty::new(bits, v.signed));
    store_value(ws, a, c)?;
    wrote(ws, Told::Wrote, name as u64, c)
}

// The variable at node n is assigned with its type, if it is declared; else nothing is done.
#[tactic(auto, using(crate::proofs::Naming::if_undeclared))]
pub fn write_declared(nodes: &[u8], ws: &mut [u8], n: usize, v: Val) -> Option<()>
    requires workspace_long { workspace_size ≤ length ws.old }
    requires var_at { VarAt nodes.now n }
    ensures { IfDeclared nodes.now n v ws.old (is_some result) ws.new }
{
    let name = nodes::reference(nodes, n);
    let ty = types::declared(ws, name)?;
    let c = v.cast(ty);
    variables::set_variable(ws, name, c);
    wrote(ws, Told::Wrote, name as u64, c)
}

// The variable at node n is assigned: one that is declared, with its type.
#[tactic(auto, using(crate::proofs::Naming::declared_written, crate::proofs::Naming::undeclared_fit, crate::proofs::Naming::undeclared_symbols, crate::proofs::Naming::symbol_writes))]
pub fn write(reads: &Reads, ws: &mut [u8], out: &mut [u8], n: usize, v: Val) -> Option<()>
    requires fit { Fit ws.old (counts_in ws.old).stored }
    requires symbols_read { SymbolsRead reads.now.nodes.now reads.now.symbols.now (tables ws.old) }
    requires var_at { VarAt reads.now.nodes.now n }
    ensures { Writes reads.now.nodes.now reads.now.symbols.now n v ws.old out.old (is_some result) ws.new out.new }
{
    if write_declared(reads.nodes, ws, n, v).is_some() {
        return Some(());
    }
    write_symbol(reads, ws, out, n, v)
}
