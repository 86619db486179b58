// Number 11: the parameters of each Def and Lambda.
ghost use Rattle.std.specs.Prelude.{ℕ, ◌+◌, List, map};
ghost use Rattle.base.specs.Says.{Says};
ghost use Rattle.lexical.specs.Places.{Distinct};
ghost use Rattle.shape.specs.Nodes.{Sound};
ghost use Rattle.scoping.specs.Params.{ParamNames, BadParams};
ghost use Rattle.scoping.specs.Inside.Found.{cell_of, Found};
ghost use Rattle.scoping.specs.Inside.Naming.{Known, AllKnown, Fresh};

use nodefile::node::node;
use nodefile::{MOST_NAMES, kinds};

// Whether the Params among the children in a part have different names. Marks each name with the stamp, a new one for each part: no mark has to be cleared.
fn apart(kids: &[u8], marks: &mut [u8; MOST_NAMES], stamp: u8) -> bool
    requires { Known kids.now × Fresh marks.old stamp }
    ensures { ((vs : List ℕ) → ParamNames kids.now vs → Says result (Distinct vs)) × Fresh marks.new (stamp + 1) }
{
    let mut t = kids;
    // Nodes take unequal room: the walk goes by what is left.
    while t.len() >= 8 {
        let end = 8 * nodefile::size(t) as usize;
        if kinds::is_named_param(t) {
            let v = nodefile::value(&t[8..]) as usize;
            if marks[v] == stamp {
                return false;
            }
            marks[v] = stamp;
        }
        t = &t[end..];
    }
    true
}

// Number 11 of the whole list, by which node has each scope number.
pub fn bad_params(ns: &[u8], found: &[Option<u16>; 256]) -> bool
    requires { Sound ns.now × Found ns.now (map cell_of found.now) × AllKnown ns.now }
    ensures { Says result (BadParams ns.now) }
{
    let mut marks = [0u8; MOST_NAMES];
    for v in 1..256 {
        let Some(at) = found[v] else { return false };
        let t = node(ns, usize::from(at));
        let end = 8 * nodefile::size(t) as usize;
        if !apart(&t[8..end], &mut marks, v as u8) {
            return true;
        }
    }
    false
}
