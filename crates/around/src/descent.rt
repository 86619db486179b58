// Down from the root to a node.
ghost use Rattle.std.specs.Prelude.{◌≡◌, List, [], ◌∷◌, ◌++◌, ℕ, suc, ◌^◌, ◌<◌};
ghost use Rattle.around.specs.Own.{entered};
ghost use Rattle.around.specs.Scopes.{descend, counted, Holds};

use crate::{ends, own, place};

// One scope more behind the n that are there, if one is entered. (n counts on where out is full: it is the result.)
fn push(out: &mut [u32], n: usize, scope: Option<u32>) -> usize
    requires { n < 2 ^ 16 }
    ensures { (xs : List ℕ) → Holds xs n out.old out.old → Holds (xs ++ entered scope) result out.old out.new }
{
    let Some(scope) = scope else {
        return n;
    };
    place::put(out, n, scope);
    n + 1
}

// The scopes that are entered on the way down to node x, which is there, as many as fit, and zeros behind; scope 0 is the first.
pub fn descend(ns: &[u8], x: usize, out: &mut [u32]) -> usize
    requires { (x < counted ns.now) × (counted ns.now < 2 ^ 16) }
    ensures { Holds (0 ∷ descend (suc x) ns.now x 0 (counted ns.now) []) result out.old out.new }
{
    out.fill(0);
    let mut p = 0;
    let mut e = ns.len() / 8;
    let mut inner = None;
    let mut n = 1;
    // p goes from node to node by their sizes: no `for` counts so
    while p <= x {
        let t = nodefile::node::node(ns, p);
        let q = ends::end_in(nodefile::size(t) as usize, p, e);
        if q <= x {
            p = q;
            continue;
        }
        n = push(out, n, if q == e { inner } else { None });
        inner = own::own_scope(t);
        e = q;
        p += 1;
    }
    n
}
