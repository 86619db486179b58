// Number 10: the scope numbers.
ghost use Rattle.std.specs.Prelude.{◌≡◌, false, ◌*◌, ◌%◌, ◌≤◌, map, length};
ghost use Rattle.nodefile.specs.Limits.{many_nodes};
ghost use Rattle.base.specs.Says.{Says};
ghost use Rattle.scoping.specs.Scopes.{BadScopes};
ghost use Rattle.scoping.specs.Inside.Found.{cell_of, Unset, Found};

use nodefile::kinds;

// Number 10 of the whole list; notes which node has each scope number.
pub fn bad_scopes(ns: &[u8], found: &mut [Option<u16>; 256]) -> bool
    requires { (length ns.now % 8 ≡ 0) × (length ns.now ≤ 8 * many_nodes) × Unset (map cell_of found.old) }
    ensures { Says result (BadScopes ns.now) × (result ≡ false → Found ns.now (map cell_of found.new)) }
{
    let mut node: u16 = 0;
    let mut count = 0;
    let mut top = 0;
    let mut t = ns;
    // By what is left, as the other walks over nodes go; node is counted, not used as an index.
    while t.len() >= 8 {
        if kinds::has_scope(t) {
            let v = nodefile::value(t) as usize;
            if v == 0 || v > 255 || found[v].is_some() {
                return true;
            }
            found[v] = Some(node);
            count += 1;
            top = top.max(v);
        }
        node += 1;
        t = &t[8..];
    }
    count < top
}
