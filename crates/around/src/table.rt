// All nodes, and the scope that each Def and Lambda stands in.
ghost use Rattle.std.specs.Prelude.{◌≡◌, ℕ, ◌+◌, ◌^◌, ◌≤◌, ◌<◌, length, replicate};
ghost use Rattle.around.specs.Outer.{outer_in, stored, levels};
ghost use Rattle.around.specs.Scopes.{counted};

use crate::{ends, own, place};

// How deep a tree may be (document 01, number 9; `scoping` has the limit for its own walk).
const LEVELS: usize = 64;

// The siblings from one node to another, and so many levels of nodes from them on down: the last of them stands in inner, the others in scope.
fn within(ns: &[u8], from: usize, to: usize, scope: u32, inner: u32, levels: usize, out: &mut [u32])
    requires { to < 2 ^ 16 }
    ensures { (f : ℕ) → to ≤ from + f → out.new ≡ stored (outer_in f levels ns.now from to scope inner) out.old }
{
    if levels == 0 {
        return;
    }
    let mut p = from;
    // p goes from sibling to sibling by their sizes: no `for` counts so
    while p < to {
        let t = nodefile::node::node(ns, p);
        let q = ends::end_in(nodefile::size(t) as usize, p, to);
        let here = if q == to { inner } else { scope };
        let own = own::own_scope(t);
        if let Some(own) = own {
            place::put(out, own as usize, here);
        }
        within(ns, p + 1, q, here, own.unwrap_or(here), levels - 1, out);
        p = q;
    }
}

// All nodes, and zeros where none of them is noted.
pub fn all(ns: &[u8], out: &mut [u32])
    requires { counted ns.now < 2 ^ 16 }
    ensures { out.new ≡ stored (outer_in (counted ns.now) levels ns.now 0 (counted ns.now) 0 0) (replicate (length out.old) 0) }
{
    out.fill(0);
    within(ns, 0, ns.len() / 8, 0, 0, LEVELS, out);
}
