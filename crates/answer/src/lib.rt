// Document 01's answer: the numbers that are counted apart, the counts, the buffers' full lengths, and the fields of every record.
// A record is one number; each has a module with a reader of each field and its writers. Any number is taken.
// A reader is one division and one remainder: a generic one would take the same two constants as const arguments, and be no plainer.
// A field of one bit is read as 0 or 1: `Part` speaks of every field alike, and a module entry takes a binding's bit as it stands.
#![tactic(auto)]

ghost use Rattle.std.specs.Prelude.{◌≡◌};
ghost use Rattle.base.specs.Refusals.{number_of};
ghost use Rattle.answer.specs.Refused.{refusal};

pub mod binding;
pub mod copy;
pub mod entry;
pub mod error;
mod ids;
pub mod node;
mod pair;
pub mod scope;
pub mod slot;
mod widths;

use base::Refusal;
pub use ids::{BindingId, LocalSlotId, ModuleSlotId, ScopeId};
pub use node::NodeClass;

// How long each buffer must be.
pub const NODES: usize = 2048;

pub const BINDINGS: usize = 2304;

pub const ENTRIES: usize = 2304;

pub const SCOPES: usize = 256;

pub const SLOTS: usize = 4096;

pub const COPIES: usize = 4096;

pub const ERRORS: usize = 2048;

// The number given back, and the counts. C reads it (include/vaibmusan.h), so why a file is refused is a number here.
#[repr(C)]
#[derive(Clone, Copy, Debug, PartialEq, Eq)]
pub struct Answer {
    pub number: u64,
    pub bindings: usize,
    pub module: usize,
    pub slots: usize,
    pub copies: usize,
    pub errors: usize,
}

impl Answer {
    // A refusal: its number, and no counts.
    pub fn refused(why: Refusal) -> Answer
        ensures { result ≡ refusal (number_of why) }
    {
        Answer {
            number: why.number(),
            bindings: 0,
            module: 0,
            slots: 0,
            copies: 0,
            errors: 0,
        }
    }
}
