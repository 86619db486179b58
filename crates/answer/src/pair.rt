// Two fields of 16 bits, by place; `scope`, `slot` and `error` name them.
ghost use Rattle.std.specs.Prelude.{◌≡◌, [], ◌∷◌};
ghost use Rattle.answer.specs.Fields.{packed, cut, changed, Part};
ghost use Rattle.answer.specs.Records.{pair_widths};

use crate::widths::WORD;

pub fn high(r: u32) -> u64
    ensures { Part pair_widths 0 r result }
{
    u64::from(r) / WORD % WORD
}

pub fn low(r: u32) -> u64
    ensures { Part pair_widths 1 r result }
{
    u64::from(r) % WORD
}

// The record of these fields, each cut to its width.
pub fn make(high: u64, low: u64) -> u32
    ensures { result ≡ packed pair_widths (cut pair_widths (high ∷ low ∷ [])) }
{
    (high % WORD * WORD + low % WORD) as u32
}

// The record with this field replaced.
pub fn with_high(r: u32, v: u64) -> u32
    ensures { result ≡ changed pair_widths 0 v r }
{
    make(v, low(r))
}

// The record with this field replaced.
pub fn with_low(r: u32, v: u64) -> u32
    ensures { result ≡ changed pair_widths 1 v r }
{
    make(high(r), v)
}
