// What comes of a statement and of a terminator beside what evaluating does: what a statement's root is, the step that is written, whether the run stops and why,
// where a terminator leads, and the units. Nothing here evaluates. (`ws` and `out` go side by side as in `operations`, which says why.)
#![tactic(auto)]

pub mod leads;
pub mod roots;
pub mod steps;
pub mod stops;
pub mod units;

use hosting::Reads;

// What a walk reads: what its evaluations do, and the statements and the blocks of the routine.
#[derive(Clone, Copy)]
pub struct Bodies<'a> {
    pub reads: Reads<'a>,
    pub statements: &'a [u8],
    pub blocks: &'a [u8],
}
