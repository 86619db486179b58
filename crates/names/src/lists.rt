// Number 6: module entries and globals.
ghost use Rattle.std.specs.Prelude.{◌≡◌, ◌≤◌, ◌<◌, ℕ};
ghost use Rattle.base.specs.Says.{Says};
ghost use Rattle.base.specs.UpTo.{up_to};
ghost use Rattle.nodefile.specs.Limits.{many_names};
ghost use Rattle.names.specs.Lists.{BadList};

use nodefile::MOST_NAMES;

// Whether one of the n lines, whose name numbers name_of gives, has no such name, or a name stands twice among them.
pub fn bad_list<F: Fn(usize) -> u64>(name_of: F, n: usize, names: u64) -> bool
    requires known { names ≤ many_names }
    requires callable { F.IsAlwaysCallable name_of }
    ensures { (f : ℕ → ℕ) → ((k r : ℕ) → k < n → F.post name_of k r → r ≡ f k) → Says result (BadList names (up_to f n)) }
{
    // the names met, in fixed memory: a set of std would need a heap
    let mut seen = [false; MOST_NAMES];
    for k in 0..n {
        let name = name_of(k);
        if name >= names {
            return true;
        }
        let v = name as usize;
        if seen[v] {
            return true;
        }
        seen[v] = true;
    }
    false
}
