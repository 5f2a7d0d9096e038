// Nodes side by side: each after the first is the one past all that is under the one before. (Alike in form are index's places of blocks and of regions: one
// iterator for the three would ask a trait for an item's size and the law of it, which is what each of them is.)
ghost use Rattle.std.specs.Prelude.{◌≡◌, ◌-◌};
ghost use Rattle.std.specs.Iterator.{at_most};
ghost use Rattle.operations.specs.Rows.{Row, Steps};

use crate::places::next;

// Those from node `at` up to node `end`.
#[derive(Drop)]
pub struct Siblings<'a> {
    pub nodes: &'a [u8],
    pub at: usize,
    pub end: usize,
}

impl<'a> Siblings<'a> {
    pub fn new(nodes: &'a [u8], at: usize, end: usize) -> Self
        ensures { result ≡ record { nodes = nodes.entry; at = at; end = end } }
    {
        Siblings { nodes, at, end }
    }
}

impl<'a> Iterator for Siblings<'a> {
    type Item = usize;

    ghost can_next = { λ s. Row s.nodes.now s.at s.end };

    ghost next_gives = { Steps };

    ghost remaining = { λ s. at_most (s.end - s.at) };

    fn next(&mut self) -> Option<usize> {
        if self.at >= self.end {
            return None;
        }
        let here = self.at;
        self.at = next(self.nodes, here);
        Some(here)
    }
}
