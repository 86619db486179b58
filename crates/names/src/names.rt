// Number 5: the names.
ghost use Rattle.std.specs.Prelude.{◌≡◌, ◌≤◌, ◌<◌};
ghost use Rattle.base.specs.Says.{Says};
ghost use Rattle.nodefile.specs.Limits.{many_names};
ghost use Rattle.names.specs.Names.{BadNames};
ghost use Rattle.names.specs.Inside.Chain.{hash_of, Below, Links, Met};

use nodefile::MOST_NAMES;

// A number below 1,024 for a spelling: two spellings with different numbers differ.
fn hash(s: &[u8]) -> usize
    ensures { (result ≡ hash_of s.now) × (result < many_names) }
{
    let mut h = 0;
    for x in s {
        h = (h * 31 + usize::from(*x)) % MOST_NAMES;
    }
    h
}

// Whether a name on the chain that starts at a link is spelled s.
fn met(
    nm: &[u8],
    pool: &[u8],
    links: &[Option<u16>; MOST_NAMES],
    from: Option<u16>,
    s: &[u8],
) -> bool
    requires { Links links.now × Below from many_names }
    ensures { Says result (Met nm.now pool.now links.now from s.now) }
{
    let mut next = from;
    while let Some(j) = next {
        let j = usize::from(j);
        // `same`: its clause is of the bytes
        if check::same(nodefile::spelled(nm, pool, j), s) {
            return true;
        }
        next = links[j];
    }
    false
}

// Whether one of the n names is empty, past the pool, or spelled as an earlier one. (`BadNames` is of the number, the names and the pool, as a file has them.)
pub fn bad_names(nm: &[u8], pool: &[u8], n: usize) -> bool
    requires { n ≤ many_names }
    ensures { Says result (BadNames n nm.now pool.now) }
{
    // the chains, in fixed memory: a map of std would need a heap
    let mut heads: [Option<u16>; MOST_NAMES] = [None; MOST_NAMES];
    let mut links: [Option<u16>; MOST_NAMES] = [None; MOST_NAMES];
    for j in 0..n {
        let offset = nodefile::name_offset(nm, j);
        let length = nodefile::name_length(nm, j);
        if length == 0 || offset + length > pool.len() as u64 {
            return true;
        }
        let s = nodefile::spelled(nm, pool, j);
        let h = hash(s);
        if met(nm, pool, &links, heads[h], s) {
            return true;
        }
        links[j] = heads[h];
        heads[h] = Some(j as u16);
    }
    false
}
