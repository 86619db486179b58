// A copy: the scope that it is made in, the slot outside, the slot inside.
ghost use Rattle.std.specs.Prelude.{◌≡◌, [], ◌∷◌};
ghost use Rattle.answer.specs.Fields.{packed, cut, Part};
ghost use Rattle.answer.specs.Records.{copy_widths};

const NUMBER: u64 = 256;

const PLACE: u64 = 4096;

const PARENT: u64 = PLACE;

const SCOPE: u64 = PARENT * PLACE;

pub fn scope(r: u32) -> u64
    ensures { Part copy_widths 0 r result }
{
    u64::from(r) / SCOPE % NUMBER
}

pub fn parent(r: u32) -> u64
    ensures { Part copy_widths 1 r result }
{
    u64::from(r) / PARENT % PLACE
}

pub fn child(r: u32) -> u64
    ensures { Part copy_widths 2 r result }
{
    u64::from(r) % PLACE
}

// The record of these fields, each cut to its width.
pub fn make(scope: u64, parent: u64, child: u64) -> u32
    ensures { result ≡ packed copy_widths (cut copy_widths (scope ∷ parent ∷ child ∷ [])) }
{
    (scope % NUMBER * SCOPE + parent % PLACE * PARENT + child % PLACE) as u32
}
