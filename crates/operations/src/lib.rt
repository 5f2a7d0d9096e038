// The machine's operations: what it does at a node once what is under it has been evaluated. None of them evaluates a node.
// What an evaluation comes to is handed on in the registers: a function gives Some where there is a value, None where it ends short. (A Result with the value
// in it took 2 KB of stack for each level of a tree.)
// The workspace and the part that is written to go side by side, not in one struct: a function without `out` writes no record, and its contract need not say so.
// A node goes by its number beside all nodes, and the workspace by its bytes, as in `files::nodes` and `workspace`, which say why.
// What a node is (`Fine`, `VarAt`, `TypeAt`) each function says that is given its number: it joins the nodes, which stay, and a number, another at each call.
// That the workspace fits what its registers count (`Fit`) is no invariant of a type: a store writes the bytes first, and their count after. `SymbolsRead` and
// `ReadyIn` join what is read and the workspace, which each call changes.
#![tactic(auto)]

pub mod calls;
pub mod names;
pub mod places;
mod questions;
pub mod results;
pub mod siblings;
pub mod values;
