// What belongs to no layer.
#![tactic(auto)]

mod refusal;

ghost use Rattle.std.specs.Prelude.{◌≡◌, take, drop};

pub use refusal::{Refusal, answered};

// The stretch of len bytes that starts at byte at, or as much of it as there is.
pub fn part(s: &[u8], at: usize, len: usize) -> &[u8]
    ensures { result.now ≡ take len (drop at s.now) }
{
    if s.len() <= at {
        return &[];
    }
    if len < s.len() - at {
        let end = at + len;
        return &s[at..end];
    }
    &s[at..]
}
