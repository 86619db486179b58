// Number 9: depth.
ghost use Rattle.std.specs.Prelude.{ℕ, ◌<◌};
ghost use Rattle.base.specs.Says.{Says};
ghost use Rattle.lexical.specs.Tree.{Forest};
ghost use Rattle.nodefile.specs.Reads.{Reads};
ghost use Rattle.nodefile.specs.Height.{height};
ghost use Rattle.scoping.specs.Inside.Held.{Held};

// Whether the trees that t holds are more than `left` deep; as many nodes as levels are not. Each call has a level less, so 64 stand at most on the stack.
pub fn deeper(t: &[u8], left: usize) -> bool
    requires { Held t.now × (left < 65) }
    ensures { (at : ℕ) (f : Forest) → Reads t.now at f → Says result (left < height f) }
{
    let mut u = t;
    // Nodes take unequal room: the walk goes by what is left.
    while u.len() > 8 * left {
        if left == 0 {
            return true;
        }
        let end = 8 * nodefile::size(u) as usize;
        if deeper(&u[8..end], left - 1) {
            return true;
        }
        u = &u[end..];
    }
    false
}
