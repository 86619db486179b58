// Number 7: each node judged from its own stretch of the node list.
ghost use Rattle.base.specs.Says.{Says};
ghost use Rattle.nodefile.specs.Kinds.{number};
ghost use Rattle.nodefile.specs.Kids.{Fits};
ghost use Rattle.shape.specs.Nodes.{BadNodes};
ghost use Rattle.shape.specs.Inside.Node.{BadValue, BadNode};

use nodefile::kinds::{self, Kind};

// Whether a part falls into whole nodes, one after the other.
fn kids_fit(kids: &[u8]) -> bool
    ensures { Says result (Fits kids.now) }
{
    let mut t = kids;
    // Nodes take unequal room: the walk goes by what is left.
    while t.len() >= 8 {
        let end = 8 * nodefile::size(t) as usize;
        if end == 0 || end > t.len() {
            return false;
        }
        t = &t[end..];
    }
    t.is_empty()
}

// No such name, or a value where none belongs.
fn bad_value(kind: Kind, value: u64, names: u64) -> bool
    ensures { Says result (BadValue names (number kind) value) }
{
    match kind {
        Kind::Name | Kind::Ident => value >= names,
        Kind::Def | Kind::Lambda => false,
        _ => value != 0,
    }
}

// Number 7 of the node that t starts with.
fn bad_node(t: &[u8], names: u64) -> bool
    ensures { Says result (BadNode names t.now) }
{
    let end = 8 * nodefile::size(t) as usize;
    match kinds::of(t) {
        None => true,
        Some(kind) => {
            nodefile::node_zero(t) != 0
                || bad_value(kind, nodefile::value(t), names)
                || end == 0
                || end > t.len()
                || !kids_fit(&t[8..end])
        }
    }
}

// Number 7 of the whole list.
pub fn bad_nodes(ns: &[u8], names: u64) -> bool
    ensures { Says result (BadNodes names ns.now) }
{
    let size = nodefile::size(ns) as usize;
    if 8 * size != ns.len() {
        return true;
    }
    let mut t = ns;
    // A node is judged with all that stands after it: the walk goes by what is left.
    while t.len() >= 8 {
        if bad_node(t, names) {
            return true;
        }
        t = &t[8..];
    }
    false
}
