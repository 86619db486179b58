// Following copies outward: from a slot of a scope to the scope and the slot that its value comes from.
#![tactic(auto)]

ghost use Rattle.std.specs.Prelude.{◌≡◌, ◌+◌, ◌<◌};
ghost use Rattle.lexical.specs.Follow.{copy_to, from_in};
ghost use Rattle.follow.specs.Place.{copy_of, copies_of, from_of, followed};

use answer::{LocalSlotId, ScopeId};

// A slot of a scope.
#[derive(Clone, Copy, Debug, PartialEq, Eq)]
pub struct Place {
    pub scope: ScopeId,
    pub slot: LocalSlotId,
}

// Whether a copy's record is of a slot of a scope.
#[tactic(auto, unfolding(lexical::specs::Follow::copy_to))]
fn fills(r: u32, scope: usize, slot: usize) -> bool
    ensures { result ≡ copy_to scope slot (copy_of r) }
{
    answer::copy::scope(r) as usize == scope && answer::copy::child(r) as usize == slot
}

// The parent slot of the first copy that fills a slot of a scope; none where no copy does.
pub fn copied_from(copies: &[u32], scope: usize, slot: usize) -> Option<LocalSlotId>
    ensures { result ≡ from_of (from_in scope slot (copies_of copies.now)) }
{
    // a `for`: what `find` asks of each record would have to be said again for it
    for r in copies {
        if fills(*r, scope, slot) {
            return Some(LocalSlotId(answer::copy::parent(*r) as usize));
        }
    }
    None
}

// From a slot of the innermost of some scopes, outermost first, to the slot that its value comes from.
pub fn follow(copies: &[u32], around: &[u32], slot: LocalSlotId) -> Place
    ensures { result ≡ followed copies.now around.now slot.0 }
{
    let Some((innermost, outer)) = around.split_last() else {
        return Place {
            scope: ScopeId(0),
            slot,
        };
    };
    let scope = *innermost as usize;
    match copied_from(copies, scope, slot.0) {
        None => Place {
            scope: ScopeId(scope),
            slot,
        },
        Some(parent) => follow(copies, outer, parent),
    }
}
