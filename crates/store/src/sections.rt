// Where each section of the working lists starts; store/specs/Sections has the same places for the proofs.
// Each is one array, not a struct of arrays: the relation to `lexical` (specs/Image, Meanings, Rel) speaks of these places in it.

// w: the nodes' answers from the front, then the slots, the copies and the errors in order of making, then the scopes.
pub const SLOTS: usize = 2048;

pub const COPIES: usize = 6144;

pub const ERRORS: usize = 10240;

pub const SCOPES: usize = 12288;

// t, by name: the innermost local (binding + 1) from the front, the module's binding (+ 1), the global (+ 1), whether it begins with `_`,
// and the binding (+ 1) that the block which is being collected has for it.
pub const MODULE: usize = 1024;

pub const GLOBALS: usize = 2048;

pub const HIDDEN: usize = 3072;

pub const BLOCK: usize = 4096;

// t, by binding: what its name meant before it, its scope, its last slot (slot record + 1).
pub const SAVED: usize = 5120;

pub const OWNERS: usize = 7424;

pub const TAILS: usize = 9728;

// t, by scope: its first binding, and the one after its last.
pub const FIRSTS: usize = 12032;

pub const LASTS: usize = 12288;

// t, by slot record: the slot record before it of the same binding (+ 1), and the slot's number in its scope.
pub const BACK: usize = 12544;

pub const NUMBERS: usize = 16640;

// t, by level: the scope; and last, whether a name bound by Load is shown.
pub const STACK: usize = 20736;

pub const LOADS_SHOWN: usize = 20863;

// How long the two lists are.
pub const W_LENGTH: usize = 12544;

pub const T_LENGTH: usize = 20864;

pub type Words = [u32; W_LENGTH];

pub type Table = [u16; T_LENGTH];
