// The scope that a node has of its own.
ghost use Rattle.std.specs.Prelude.{◌≡◌};
ghost use Rattle.around.specs.Own.{own_scope};

use nodefile::kinds;

// Of the node that t starts with, if that is a Def or a Lambda.
pub fn own_scope(t: &[u8]) -> Option<u32>
    ensures { result ≡ own_scope t.now }
{
    if kinds::has_scope(t) {
        return Some(nodefile::value(t) as u32);
    }
    None
}
