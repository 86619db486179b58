// What one identifier means, and what is in reach at a point of walk three.
// `bring` takes a local into the current scope, copying it from scope to scope; `name` looks a name up and keeps the outcome;
// `enter` goes into a function and out again.
// The lists are lent apart beside the state, as document 01 asks, so that a step borrows shared what it only reads; `binds` may be longer than is used.
// A full list is found out by a test where a slot, a copy or an error is made.
// `store` takes the bare number of a scope or a binding, since its sections are laid out by number.
#![tactic(auto)]

mod bring;
mod enter;
mod name;

pub use enter::{enter_def, exit_def};
pub use name::resolve_ident;
