// The keys by which the nodes are grouped: one more than the binding, or the global, that an Ident is resolved to, and 0 for none, as `group` takes them.
ghost use Rattle.std.specs.Prelude.{◌≡◌, ◌≤◌, length};
ghost use Rattle.base.specs.UpTo.{up_to};
ghost use Rattle.nodefile.specs.Node.{kind_of};
ghost use Rattle.readers.specs.Keys.{key_of, key_at};

use answer::NodeClass;
use nodefile::kinds::{self, Kind};

// The key of the node that t starts with, by its record r: only an Ident has one.
// Whether the globals are asked for stays a bool: it guards the match alone, and `key_of` and its theorems take it so.
fn key(globals: bool, t: &[u8], r: u32) -> u32
    ensures { result ≡ key_of globals (kind_of t.now) r }
{
    if kinds::of(t) != Some(Kind::Ident) {
        return 0;
    }
    match answer::node::class(r) {
        NodeClass::Global if globals => (answer::node::slot(r) + 1) as u32,
        NodeClass::Module | NodeClass::Local if !globals => (answer::node::binding(r) + 1) as u32,
        _ => 0,
    }
}

// The keys of the nodes in the list, by the nodes' records.
pub fn put_keys(globals: bool, list: &[u8], nodes: &[u32], keys: &mut [u32])
    requires { length keys.old ≤ length nodes.now }
    ensures { keys.new ≡ up_to (key_at globals list.now nodes.now) (length keys.old) }
{
    for (i, to) in keys.iter_mut().enumerate() {
        *to = key(globals, nodefile::node::node(list, i), nodes[i]);
    }
}
