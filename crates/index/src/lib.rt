// Lookups in accepted files: the texts of a body by number, the symbol of a name, the bytes at an address, a routine's blocks.
// Each is made cheap by an index in a lent part, which its fill function makes and which stays right while the part is as it was.
#![tactic(auto)]

pub mod blocks;
pub mod regions;
pub mod symbols;
pub mod texts;
