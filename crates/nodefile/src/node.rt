// A node of a file by its number; any bytes are taken.
ghost use Rattle.std.specs.Prelude.{◌≡◌, ◌*◌, ◌^◌, drop};
ghost use Rattle.nodefile.specs.Layout.{nodes_of};
ghost use Rattle.nodefile.specs.Listed.{kind_at, value_at, scope_count};
ghost use Rattle.nodefile.specs.Node.{Is};
ghost use Rattle.nodefile.specs.Kinds.{KindIs};

use crate::kinds::{self, Kind};

// The part of the node list that starts with node i.
pub fn node(list: &[u8], i: usize) -> &[u8]
    ensures { result.now ≡ drop (8 * i) list.now }
{
    if i > list.len() / 8 {
        return &[];
    }
    let start = 8 * i;
    &list[start..]
}

// The number of a kind, whether or not a kind has it.
pub fn kind(file: &[u8], i: usize) -> u64
    ensures { Is (kind_at (nodes_of file.now) i) 32 result }
{
    crate::kind(node(crate::nodes(file), i))
}

pub fn named_kind(file: &[u8], i: usize) -> Option<Kind>
    ensures { KindIs (kind_at (nodes_of file.now) i) result }
{
    kinds::of(node(crate::nodes(file), i))
}

pub fn value(file: &[u8], i: usize) -> u64
    ensures { Is (value_at (nodes_of file.now) i) (2 ^ 16) result }
{
    crate::value(node(crate::nodes(file), i))
}

// The number of Defs and Lambdas.
pub fn scope_count(file: &[u8]) -> usize
    ensures { Is (scope_count file.now) (2 ^ 16) result }
{
    let list = crate::nodes(file);
    (0..crate::node_count(file) as usize)
        .filter(|&i| kinds::has_scope(node(list, i)))
        .count()
}
