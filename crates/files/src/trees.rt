// Trees: children follow their parent, and a node's span counts it and all under it.
ghost use Rattle.std.specs.Prelude.{◌≡◌, ◌+◌, ◌*◌, ◌<◌, ◌≤◌, length};
ghost use Rattle.files.specs.Bytes.{one_less};
ghost use Rattle.files.specs.Nodes.{placed_ok, count_ok, trees, trees_ok};
ghost use Rattle.files.specs.Program.{number_of};
ghost use Rattle.files.specs.Rules.{parent_of};

use crate::kinds::{Kind, Rule};
use crate::nodes;

// The most nodes of a chain from parent to child.
const DEPTH: usize = 64;

// Whether a kind may stand under a parent: a field just under a StructInit. (Of a parent, or of none, nothing else matters: a bool, not its kind.)
fn is_placed(kind: Kind, in_struct: bool) -> bool
    ensures { result ≡ placed_ok (number_of kind) (parent_of in_struct) }
{
    (kind == Kind::Field) == in_struct
}

// Whether a kind may have so many children.
fn is_counted(kind: Kind, kids: usize) -> bool
    ensures { result ≡ count_ok (number_of kind) (kids + 1) }
{
    let rule = Rule::from(kind);
    (rule.few <= kids) & (kids <= rule.many)
}

// The trees side by side from node n up to node e, under a StructInit or not, with `depth` nodes left for a chain:
// how many there are; none where one is not as it must be. (A loop by lengths: where the next tree is only a tree's own span says. n and e beside all nodes:
// spans count nodes, and the definition that the contract names goes by their numbers.)
#[tactic(auto, using(crate::proofs::ItemLaws::some_less, crate::proofs::TreeLaws::trees_deep, crate::proofs::TreeLaws::trees_empty, crate::proofs::TreeLaws::trees_long, crate::proofs::TreeLaws::trees_end))]
fn count(b: &[u8], depth: usize, in_struct: bool, n: usize, e: usize) -> Option<usize>
    requires { (n ≤ e) × (e * 20 ≤ length b.now) }
    ensures { result ≡ one_less (trees b.now depth (parent_of in_struct) n e 0) }
{
    let mut at = n;
    let mut c = 0;
    while at < e {
        if depth < 1 {
            return None;
        }
        let kind = nodes::kind(b, at);
        let span = nodes::span(b, at);
        if span < 1 {
            return None;
        }
        if e - at < span {
            return None;
        }
        if !is_placed(kind, in_struct) {
            return None;
        }
        // A node without children, as most are, takes no call.
        let has_kids = 1 < span;
        let mut kids = 0;
        if has_kids {
            kids = count(b, depth - 1, kind == Kind::StructInit, at + 1, at + span)?;
        }
        if !is_counted(kind, kids) {
            return None;
        }
        at += span;
        c += 1;
    }
    Some(c)
}

// Whether the body is whole nodes, and they are trees as they must be.
#[tactic(auto, unfolding(crate::specs::Nodes::trees_ok))]
pub fn check(b: &[u8]) -> bool
    ensures { result ≡ trees_ok b.now }
{
    if b.len() % nodes::SIZE != 0 {
        return false;
    }
    count(b, DEPTH, false, 0, b.len() / nodes::SIZE).is_some()
}
