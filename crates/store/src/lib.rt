// The store of the walks: the bindings' records and the working lists w and t, and the reads and stores of them that the walks make; `sections` says what stands where.
// Each function here touches one section or two; what a step of the walks does to all of them is said and proved above.
// binds, w and t stay parameters of their own: most functions take one of them or two, and binds is lent by who calls `scope`.
// Names, bindings, slots, scopes and levels come as plain numbers of the file and of these lists; each function asks for the bound of its own section,
// and what it reads there is below `half_word`, which its callers' sums need.
// A place in t is a number of 16 bits, with no room for an Option: one more than a number, or 0. Flags and codes are the numbers that the packed records hold.
#![tactic(auto)]

mod ids;
mod meanings;
mod records;
pub mod sections;
mod slots;

pub use ids::{Block, Brought, Full, Marks, Resolution, Resolved, Slot, State, Walk};
pub use meanings::{
    current, first_of, global, hidden, known, last_of, load_shown, module_binding, owner,
    put_known, put_owner, put_range, put_scope, scope_at_level, scope_in, unscope,
};
pub use records::{bind_again, name_of, put_answer, put_binding, put_error, set_captured, slot_of};
pub use sections::{Table, Words};
pub use slots::{fresh_slot, hand, link_slot, put_copy, put_slot, set_param_count};
