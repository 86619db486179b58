// What an identifier comes to, and the state of the walks.
use answer::{BindingId, LocalSlotId, ModuleSlotId, ScopeId};

#[derive(Clone, Copy, Debug, PartialEq, Eq)]
pub enum Slot {
    Module(ModuleSlotId),
    Local(LocalSlotId),
}

// What an identifier comes to. The last two are no errors of a walk, which goes on: each is a record among the answer's errors.
#[derive(Clone, Copy, Debug, PartialEq, Eq)]
pub enum Resolution {
    Slot(Slot, BindingId),
    Global(usize),
    NotFound,
    LocalInType,
}

// How much stands in each list, and how many functions are around.
#[derive(Clone, Copy, Debug, PartialEq, Eq)]
pub struct State {
    pub bindings: usize,
    pub slots: usize,
    pub copies: usize,
    pub errors: usize,
    pub level: usize,
}

// A list was full.
#[derive(Clone, Copy, Debug, PartialEq, Eq)]
pub struct Full;

// The state of a walk, or that a list was full: then each further step hands that on.
pub type Walk = Result<State, Full>;

// An identifier's resolution, and the state after it. It and `Brought` are two structs: a field's name says in `lookup`'s contracts what it is.
#[derive(Clone, Copy, Debug, PartialEq, Eq)]
pub struct Resolved {
    pub st: State,
    pub res: Resolution,
}

// A local's slot in a scope, and the state after it was brought there.
#[derive(Clone, Copy, Debug, PartialEq, Eq)]
pub struct Brought {
    pub st: State,
    pub slot: LocalSlotId,
}

// The block that is collected: its scope, its first binding, and whether it binds locals.
#[derive(Clone, Copy, Debug, PartialEq, Eq)]
pub struct Block {
    pub scope: ScopeId,
    pub first: usize,
    pub local: bool,
}

// What is around a target.
#[derive(Clone, Copy, Debug, PartialEq, Eq)]
pub struct Marks {
    pub in_loop: bool,
    pub load: bool,
    pub param: bool,
}
