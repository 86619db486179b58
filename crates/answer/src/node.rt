// A node: its class, its slot or global, its binding.
ghost use Rattle.std.specs.Prelude.{◌≡◌, [], ◌∷◌};
ghost use Rattle.answer.specs.Fields.{packed, cut, Part};
ghost use Rattle.answer.specs.Records.{node_widths};
ghost use Rattle.answer.specs.Classes.{class_number};

use crate::widths::PLACE;

// What an identifier comes to.
#[derive(Clone, Copy, Debug, PartialEq, Eq)]
pub enum NodeClass {
    Nothing,
    Module,
    Local,
    Global,
}

const CLASSES: u64 = 4;

const SLOT: u64 = PLACE;

const CLASS: u64 = SLOT * PLACE;

impl NodeClass {
    // Its number in a record.
    pub fn number(self) -> u64
        ensures { result ≡ class_number self }
    {
        match self {
            NodeClass::Nothing => 0,
            NodeClass::Module => 1,
            NodeClass::Local => 2,
            NodeClass::Global => 3,
        }
    }
}

pub fn class(r: u32) -> NodeClass
    ensures { Part node_widths 0 r (class_number result) }
{
    match u64::from(r) / CLASS % CLASSES {
        0 => NodeClass::Nothing,
        1 => NodeClass::Module,
        2 => NodeClass::Local,
        _ => NodeClass::Global,
    }
}

pub fn slot(r: u32) -> u64
    ensures { Part node_widths 1 r result }
{
    u64::from(r) / SLOT % PLACE
}

pub fn binding(r: u32) -> u64
    ensures { Part node_widths 2 r result }
{
    u64::from(r) % PLACE
}

// The record of these fields, each cut to its width.
pub fn make(class: u64, slot: u64, binding: u64) -> u32
    ensures { result ≡ packed node_widths (cut node_widths (class ∷ slot ∷ binding ∷ [])) }
{
    (class % CLASSES * CLASS + slot % PLACE * SLOT + binding % PLACE) as u32
}
