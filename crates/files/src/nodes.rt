// Nodes: the fields of one, and what its kind lets them be. (All nodes and the number of one, not the bytes of one: whoever walks a tree goes on by number
// to its children and past its span. A struct of both, with the fact that the node is inside, was tried: it lies in the caller's frame, so that a walk
// down a tree takes 61 instructions in place of 54 and 48 bytes more of stack a level, and the contracts above get longer.)
ghost use Rattle.std.specs.Prelude.{◌≡◌, ◌==◌, ◌+◌, ◌*◌, ◌<◌, ◌≤◌, ◌/◌, false, not, length, ltb};
ghost use Rattle.std.specs.List.{find, range_with_len};
ghost use Rattle.files.specs.Nodes.{kind_of, flag_of, ref_of, width_of, span_of, value_of, ref_below, field_ok, used_ok, root_ok};
ghost use Rattle.files.specs.Program.{kind_numbered, number_of};
ghost use Rattle.files.specs.Refusal.{fault_of, refused, node_fault, nodes_fault};
ghost use Rattle.files.specs.Rules.{refers_number};

use crate::kinds::{Bounds, Kind, Refers, Rule};
use crate::refusal::Refusal;

// The bytes of a node.
pub const SIZE: usize = 20;

// The byte of a node's kind.
pub fn kind_number(nodes: &[u8], n: usize) -> u8
    requires { n * 20 + 20 ≤ length nodes.now }
    ensures { result ≡ kind_of nodes.now n }
{
    nodes[n * SIZE]
}

// Whether a node is of a kind.
pub fn is(nodes: &[u8], n: usize, kind: Kind) -> bool
    requires { n * 20 + 20 ≤ length nodes.now }
    ensures { result ≡ (kind_of nodes.now n == number_of kind) }
{
    kind_number(nodes, n) == u8::from(kind)
}

// The kind of a node; a plain statement where its number is none's.
#[tactic(auto, using(crate::proofs::KindLaws::kind_or_plain))]
pub fn kind(nodes: &[u8], n: usize) -> Kind
    requires { n * 20 + 20 ≤ length nodes.now }
    ensures { result ≡ kind_numbered (kind_of nodes.now n) }
{
    Kind::try_from(kind_number(nodes, n)).unwrap_or(Kind::Plain)
}

pub fn flag(nodes: &[u8], n: usize) -> u8
    requires { n * 20 + 20 ≤ length nodes.now }
    ensures { result ≡ flag_of nodes.now n }
{
    nodes[n * SIZE + 1]
}

pub fn reference(nodes: &[u8], n: usize) -> usize
    requires { n * 20 + 20 ≤ length nodes.now }
    ensures { (result ≡ ref_of nodes.now n) × (result < 65536) }
{
    layout::get::<2>(nodes, n * SIZE + 2) as usize
}

pub fn width(nodes: &[u8], n: usize) -> u32
    requires { n * 20 + 20 ≤ length nodes.now }
    ensures { result ≡ width_of nodes.now n }
{
    layout::get::<4>(nodes, n * SIZE + 4) as u32
}

// How many nodes it is with all under it.
pub fn span(nodes: &[u8], n: usize) -> usize
    requires { n * 20 + 20 ≤ length nodes.now }
    ensures { (result ≡ span_of nodes.now n) × (result < 4294967296) }
{
    layout::get::<4>(nodes, n * SIZE + 8) as usize
}

pub fn value(nodes: &[u8], n: usize) -> u64
    requires { n * 20 + 20 ≤ length nodes.now }
    ensures { result ≡ value_of nodes.now n }
{
    layout::get::<8>(nodes, n * SIZE + 12)
}

// Whether a reference is below its bound, by a bit for each thing that a reference can be: a branch would be guessed wrong where kinds alternate, and an array of
// four answers is compiled to one.
fn is_below(refers: Refers, r: usize, bounds: Bounds) -> bool
    ensures { result ≡ ltb r (ref_below (refers_number refers) bounds.names bounds.types) }
{
    let none = (r < 1) as u64;
    let name = (r < bounds.names) as u64;
    let ty = (r < bounds.types) as u64;
    let index = (r < 65536) as u64;
    let bits = none + name * 2 + ty * 4 + index * 8;
    (bits >> refers as u64) % 2 == 1
}

// Whether node n has a kind, and each field is what the kind lets it be.
#[tactic(auto, unfolding(crate::specs::Nodes::field_ok))]
fn check_node(b: &[u8], n: usize, bounds: Bounds) -> bool
    requires { n * 20 + 20 ≤ length b.now }
    ensures { result ≡ field_ok b.now bounds.names bounds.types n }
{
    let Ok(kind) = Kind::try_from(kind_number(b, n)) else {
        return false;
    };
    let rule = Rule::from(kind);
    let f = flag(b, n);
    let r = reference(b, n);
    let w = width(b, n);
    let v = value(b, n);
    let below = is_below(rule.refers, r, bounds);
    (f <= rule.flag) & below & (rule.narrow <= w) & (w <= rule.wide) & (v <= rule.value)
}

// Whether the width, the flag and the reference of node n are as its kind lets them be, where the kind uses them.
#[tactic(auto, unfolding(crate::specs::Nodes::used_ok))]
fn check_used(b: &[u8], n: usize, kind: Kind, bounds: Bounds) -> bool
    requires { (n * 20 + 20 ≤ length b.now) × (kind_of b.now n ≡ number_of kind) }
    ensures { result ≡ used_ok b.now bounds.names bounds.types n }
{
    let rule = Rule::from(kind);
    let w = width(b, n);
    let f = flag(b, n);
    let r = reference(b, n);
    let wide = (rule.wide == 0) | ((rule.narrow <= w) & (w <= rule.wide));
    let flagged = (rule.flag == 0) | (f <= rule.flag);
    let below = (rule.refers == Refers::Nothing) | is_below(rule.refers, r, bounds);
    wide & flagged & below
}

// What is wrong with node n, which check_node refuses: one node of a body is asked this, so that the others cost one test. (A body of a file is shorter than
// 65,536 bytes, so the node's number fits.)
fn fault(b: &[u8], n: usize, bounds: Bounds) -> Refusal
    requires short { length b.now < 65536 }
    requires inside { n * 20 + 20 ≤ length b.now }
    requires refused { field_ok b.now bounds.names bounds.types n ≡ false }
    ensures { fault_of result ≡ node_fault b.now bounds.names bounds.types n }
{
    let node = n as u32;
    let Ok(kind) = Kind::try_from(kind_number(b, n)) else {
        return Refusal::Kind(node);
    };
    if !check_used(b, n, kind, bounds) {
        return Refusal::Barred(node);
    }
    Refusal::Unused(node)
}

// The first whole node that is not as its kind lets it be.
fn first_faulty(b: &[u8], bounds: Bounds) -> Option<usize>
    ensures { result ≡ find (λ n. not (field_ok b.now bounds.names bounds.types n)) (range_with_len 0 (length b.now / 20)) }
{
    let count = b.len() / SIZE;
    (0..count).find(|n| !check_node(b, *n, bounds))
}

// What is wrong with that node, if there is one.
pub fn check(b: &[u8], bounds: Bounds) -> Result<(), Refusal>
    requires { length b.now < 65536 }
    ensures { refused result ≡ nodes_fault b.now bounds.names bounds.types }
{
    match first_faulty(b, bounds) {
        None => Ok(()),
        Some(n) => Err(fault(b, n, bounds)),
    }
}

// Whether n is a node and no field.
#[tactic(auto, unfolding(crate::specs::Nodes::root_ok))]
pub fn is_root(b: &[u8], n: usize) -> bool
    ensures { result ≡ root_ok b.now n }
{
    if b.len() / SIZE <= n {
        return false;
    }
    !is(b, n, Kind::Field)
}
