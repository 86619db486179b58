// Walks one and two of document 01: what the module, each function and each comprehension bind.
// The targets of a block are met one after the other; each makes a binding, or is one more of a name that the block has (crate `target`).
// Statements, targets, clauses and parameters are gone through by functions that call one another (`walk`).
// `declare` does so for the module, for each Def and Lambda in node order, and for a comprehension.
// A part with the number of its first node (`at`), and the lists `binds`, `w` and `t`, stay parameters of their own: a part is cut anew at each call,
// and a struct of the three lists would be built anew at each call to lend them on, no plainer than their names.
#![tactic(auto)]

mod declare;
mod walk;

pub use declare::{add_compr, collect_defines_recursively, collect_module};
