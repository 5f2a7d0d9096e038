// Routines with bool types, run by the definition. The original is no judge of them, and no edit of the definition waits for them.
#![tactic(auto)]

// A trivial function, so that the crate has one.
pub fn keep(x: u32) -> u32 {
    x
}
