// Every reader of a variable: the Idents that are resolved to each binding, and to each global, in node order.
// The buffers stay parameters of their own: the C call lends them so, each as long as its caller likes.
#![tactic(auto)]

mod keys;

ghost use Rattle.std.specs.Prelude.{◌≤◌, length};
ghost use Rattle.base.specs.Says.{Says};
ghost use Rattle.base.specs.UpTo.{up_to};
ghost use Rattle.answer.specs.Buffers.{buffers};
ghost use Rattle.group.specs.Grouped.{Answers};
ghost use Rattle.readers.specs.Keys.{key_at, keys_of};
ghost use Rattle.readers.specs.Lists.{lists, Cleared, ShortListsOf};
ghost use Rattle.readers.specs.Readers.{Readers};
ghost use Rattle.readers.specs.Steps.{Kept, Listed};

use answer::Answer;
use base::Refusal;

// How long the buffers must be: the starts and counts of the bindings, those of the globals, and either list.
pub const BINDINGS: usize = answer::BINDINGS;

pub const GLOBALS: usize = 256;

pub const LIST: usize = answer::NODES;

// One group, with room for the keys. (`globals` is handed on to the keys, whose theorems take it as a Bool.)
fn group_keys(
    globals: bool,
    nodelist: &[u8],
    nodes: &[u32],
    keys: &mut [u32],
    buckets: usize,
    starts: &mut [u32],
    counts: &mut [u32],
    list: &mut [u32],
)
    requires { length keys.old ≤ length nodes.now }
    ensures { Answers (up_to (key_at globals nodelist.now nodes.now) (length keys.old)) buckets (length starts.old) (length counts.old) (length list.old) starts.new counts.new list.new }
{
    keys::put_keys(globals, nodelist, nodes, keys);
    group::group(keys, buckets, starts, counts, list);
}

// The readers of the globals, or of the bindings.
fn group_nodes(
    globals: bool,
    file: &[u8],
    nodes: &[u32],
    buckets: usize,
    starts: &mut [u32],
    counts: &mut [u32],
    list: &mut [u32],
)
    requires { Kept file.now nodes.now }
    ensures { Answers (keys_of globals file.now nodes.now) buckets (length starts.old) (length counts.old) (length list.old) starts.new counts.new list.new }
{
    let mut keys = [0u32; answer::NODES];
    let n = nodefile::node_count(file) as usize;
    group_keys(
        globals,
        nodefile::nodes(file),
        nodes,
        &mut keys[..n],
        buckets,
        starts,
        counts,
        list,
    );
}

// The readers of the bindings, so many, and of the file's globals.
fn group_both(
    file: &[u8],
    nodes: &[u32],
    bindings: usize,
    starts: &mut [u32],
    counts: &mut [u32],
    list: &mut [u32],
    global_starts: &mut [u32],
    global_counts: &mut [u32],
    global_list: &mut [u32],
)
    requires { Kept file.now nodes.now }
    ensures { Listed file.now nodes.now bindings (lists starts.old counts.old list.old global_starts.old global_counts.old global_list.old) (lists starts.new counts.new list.new global_starts.new global_counts.new global_list.new) }
{
    group_nodes(false, file, nodes, bindings, starts, counts, list);
    let globals = nodefile::global_count(file) as usize;
    group_nodes(
        true,
        file,
        nodes,
        globals,
        global_starts,
        global_counts,
        global_list,
    );
}

// Number 13.
fn short(
    starts: usize,
    counts: usize,
    list: usize,
    gstarts: usize,
    gcounts: usize,
    glist: usize,
) -> bool
    ensures { Says result (ShortListsOf starts counts list gstarts gcounts glist) }
{
    starts < BINDINGS
        || counts < BINDINGS
        || list < LIST
        || gstarts < GLOBALS
        || gcounts < GLOBALS
        || glist < LIST
}

// Zeros into the six buffers of the readers.
fn clear_lists(
    starts: &mut [u32],
    counts: &mut [u32],
    list: &mut [u32],
    global_starts: &mut [u32],
    global_counts: &mut [u32],
    global_list: &mut [u32],
)
    ensures { Cleared (lists starts.old counts.old list.old global_starts.old global_counts.old global_list.old) (lists starts.new counts.new list.new global_starts.new global_counts.new global_list.new) }
{
    starts.fill(0);
    counts.fill(0);
    list.fill(0);
    global_starts.fill(0);
    global_counts.fill(0);
    global_list.fill(0);
}

// The file resolved, and the Idents that are resolved to each binding and to each global; 0 and the records, or the number of a refusal and zeros.
pub fn readers(
    file: &[u8],
    nodes: &mut [u32],
    bindings: &mut [u64],
    module: &mut [u32],
    scopes: &mut [u32],
    slots: &mut [u32],
    copies: &mut [u32],
    errors: &mut [u32],
    starts: &mut [u32],
    counts: &mut [u32],
    list: &mut [u32],
    global_starts: &mut [u32],
    global_counts: &mut [u32],
    global_list: &mut [u32],
) -> Answer
    ensures { Readers file.now (buffers nodes.old bindings.old «module».old scopes.old slots.old copies.old errors.old) (lists starts.old counts.old list.old global_starts.old global_counts.old global_list.old) result (buffers nodes.new bindings.new «module».new scopes.new slots.new copies.new errors.new) (lists starts.new counts.new list.new global_starts.new global_counts.new global_list.new) }
{
    let few = short(
        starts.len(),
        counts.len(),
        list.len(),
        global_starts.len(),
        global_counts.len(),
        global_list.len(),
    );
    clear_lists(
        starts,
        counts,
        list,
        global_starts,
        global_counts,
        global_list,
    );
    let a = scope::resolve(file, nodes, bindings, module, scopes, slots, copies, errors);
    if a.number != 0 {
        return a;
    }
    if few {
        scope::clear(nodes, bindings, module, scopes, slots, copies, errors);
        return Answer::refused(Refusal::ShortList);
    }
    group_both(
        file,
        nodes,
        a.bindings,
        starts,
        counts,
        list,
        global_starts,
        global_counts,
        global_list,
    );
    a
}
