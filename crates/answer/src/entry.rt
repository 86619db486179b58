// A module entry: name, public, slot.
ghost use Rattle.std.specs.Prelude.{◌≡◌, [], ◌∷◌};
ghost use Rattle.answer.specs.Fields.{packed, cut, Part};
ghost use Rattle.answer.specs.Records.{entry_widths};

use crate::widths::{FLAG, PLACE, WORD};

const PUBLIC: u64 = PLACE;

const NAME: u64 = PUBLIC * FLAG;

pub fn name(r: u32) -> u64
    ensures { Part entry_widths 0 r result }
{
    u64::from(r) / NAME % WORD
}

pub fn public(r: u32) -> u64
    ensures { Part entry_widths 1 r result }
{
    u64::from(r) / PUBLIC % FLAG
}

pub fn slot(r: u32) -> u64
    ensures { Part entry_widths 2 r result }
{
    u64::from(r) % PLACE
}

// The record of these fields, each cut to its width.
pub fn make(name: u64, public: u64, slot: u64) -> u32
    ensures { result ≡ packed entry_widths (cut entry_widths (name ∷ public ∷ slot ∷ [])) }
{
    (name % WORD * NAME + public % FLAG * PUBLIC + slot % PLACE) as u32
}
