// What a statement's root is, and what comes of what it did: the step, and whether the run stops.
ghost use Rattle.std.specs.Prelude.{◌≡◌};
ghost use Rattle.workspace.specs.View.{Fit};
ghost use Rattle.hosting.specs.Stands.{Fine};
ghost use Rattle.hosting.specs.Routine.{returns_as, is_name};
ghost use Rattle.hosting.specs.Ending.{did_of};
ghost use Rattle.hosting.specs.Runs.{Kept};
ghost use Rattle.operations.specs.Registers.{counts_in};
ghost use Rattle.outcomes.specs.Endings.{acts_end, did_in, full_in, HaltIs};
ghost use Rattle.outcomes.specs.Sorts.{Sorted};
ghost use Rattle.outcomes.specs.Post.{Sends, Concludes};

use crate::steps::{Site, send};
use files::kinds::Kind;
use files::nodes;
use hosting::{Did, Facts, Short, Stop};
use operations::results::RECORDED;
use value::{Ty, Val};
use workspace::registers;

// What a statement's root did: something, or it ends the run, with no value or with one, or as an Intrinsic does. (One case with an option was tried: the value
// then lies where `Did` has a name, and a unit of the counting loop takes 280 instructions in place of 254.)
#[derive(Clone, Copy)]
pub enum Acts {
    Does(Did),
    Leaves,
    Gives(Val),
    Strays,
    Halts(u64),
}

// What a statement's root is.
#[derive(Clone, Copy, PartialEq, Eq)]
pub enum Sort {
    Gives,
    Unreachable,
    Halts,
    Plain,
}

// Whether a name is one that a routine may have. (A function for the definition's name.)
fn is_name(one: Option<usize>, name: usize) -> bool
    ensures { result ≡ is_name one name }
{
    one == Some(name)
}

// A Return, then the two Intrinsics that end a run; `__analysis_halted` has exactly one argument, a Constant.
#[tactic(auto, using(crate::proofs::SortLaws::sort_unreachable, crate::proofs::SortLaws::sort_other, crate::proofs::SortLaws::sort_many, crate::proofs::SortLaws::sort_unlike))]
pub fn sort_of(nodes: &[u8], facts: Facts, n: usize) -> Sort
    requires { Fine nodes.now n }
    ensures { Sorted nodes.now facts n result }
{
    if nodes::is(nodes, n, Kind::Return) {
        return Sort::Gives;
    }
    if !nodes::is(nodes, n, Kind::Intrinsic) {
        return Sort::Plain;
    }
    let name = nodes::reference(nodes, n);
    if is_name(facts.unreachable, name) {
        return Sort::Unreachable;
    }
    if !is_name(facts.halted, name) {
        return Sort::Plain;
    }
    if nodes::span(nodes, n) != 2 {
        return Sort::Plain;
    }
    if !nodes::is(nodes, n + 1, Kind::Constant) {
        return Sort::Plain;
    }
    Sort::Halts
}

// A returned value is cast to the return type.
pub fn returned(returns: Option<Ty>, v: Val) -> Val
    ensures { result ≡ returns_as returns v }
{
    returns.map_or(v, |ty| v.cast(ty))
}

// What its step tells. (A statement that stops the run did nothing.)
fn did_of(o: Result<Acts, Short>) -> Did
    ensures { did_of result ≡ did_in o }
{
    match o {
        Ok(Acts::Does(d)) => d,
        _ => Did::default(),
    }
}

// Whether the run stops after it.
fn halt_of(address: Option<u64>, o: Result<Acts, Short>) -> Option<Stop>
    ensures { HaltIs address o result }
{
    match o {
        Ok(Acts::Does(_)) => None,
        Ok(Acts::Leaves) => Some(Stop::Returned(None)),
        Ok(Acts::Gives(v)) => Some(Stop::Returned(Some(v))),
        Ok(Acts::Strays) => Some(Stop::NoReturn(address)),
        Ok(Acts::Halts(target)) => Some(Stop::Halted(address, target)),
        Err(s) => Some(Stop::Unknown(address, s)),
    }
}

// Whether it ended short as the workspace has no room left.
fn is_full(o: Result<Acts, Short>) -> bool
    ensures { result ≡ full_in o }
{
    matches!(o, Err(Short::Full))
}

// A step is recorded: the cursor of the steps moves past it.
fn recorded(ws: &mut [u8], out: &mut [u8], site: Site, did: Did)
    requires { Fit ws.old (counts_in ws.old).stored }
    ensures { Sends site (did_of did) ws.old out.old ws.new out.new }
{
    let cursor = send(ws, out, site, did, registers::word(ws, RECORDED));
    registers::set_word(ws, RECORDED, cursor);
}

// The step of what was done, unless the workspace has no room left.
#[tactic(auto, using(crate::proofs::ConcludeLaws::conclude_full, crate::proofs::ConcludeLaws::conclude_sent, crate::proofs::ConcludeLaws::kept_fit))]
pub fn conclude(ws: &mut [u8], out: &mut [u8], site: Site, o: Result<Acts, Short>) -> Option<Stop>
    requires { Kept (acts_end site.address o) (Fit ws.old (counts_in ws.old).stored) }
    ensures { Concludes site ws.old out.old o result ws.new out.new }
{
    let address = site.address;
    let halt = halt_of(address, o);
    if is_full(o) {
        return halt;
    }
    recorded(ws, out, site, did_of(o));
    halt
}
