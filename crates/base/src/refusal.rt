// Why a file or its buffers are refused (document 01, "Numbers given back").
ghost use Rattle.std.specs.Prelude.{◌≡◌};
ghost use Rattle.base.specs.Refusals.{number_of, answered};

#[derive(Clone, Copy, Debug, PartialEq, Eq)]
pub enum Refusal {
    ShortBuffer,
    Header,
    Counts,
    Length,
    Names,
    Lists,
    Nodes,
    Children,
    Depth,
    Scopes,
    Params,
    ManySlots,
    ShortList,
}

impl Refusal {
    // The number that document 01 has for it.
    pub fn number(self) -> u64
        ensures { result ≡ number_of self }
    {
        match self {
            Refusal::ShortBuffer => 1,
            Refusal::Header => 2,
            Refusal::Counts => 3,
            Refusal::Length => 4,
            Refusal::Names => 5,
            Refusal::Lists => 6,
            Refusal::Nodes => 7,
            Refusal::Children => 8,
            Refusal::Depth => 9,
            Refusal::Scopes => 10,
            Refusal::Params => 11,
            Refusal::ManySlots => 12,
            Refusal::ShortList => 13,
        }
    }
}

// The number given back: 0 for what is accepted.
pub fn answered(verdict: Result<(), Refusal>) -> u64
    ensures { result ≡ answered verdict }
{
    match verdict {
        Ok(()) => 0,
        Err(refusal) => refusal.number(),
    }
}
