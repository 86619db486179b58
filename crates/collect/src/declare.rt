// The blocks: the module, each Def and Lambda in node order, and a comprehension. Nodes take unequal room: walks go by what is left.
ghost use Rattle.std.specs.Prelude.{◌≡◌, ℕ, ◌*◌, ◌≤◌, length};
ghost use Rattle.lexical.specs.Tree.{Forest, params};
ghost use Rattle.nodefile.specs.Reads.{Reads};
ghost use Rattle.store.specs.Sections.{mem, many_nodes};
ghost use Rattle.collect.specs.Cycle.{Pre1, Done};
ghost use Rattle.collect.specs.Declare.{module_is, plain_marks, PreFunction, FunctionDone, PreHere, HereDone, PreAll, AllDone, PreCompr, ComprDone};

use crate::walk;
use answer::ScopeId;
use nodefile::kinds::{self, Kind};
use store::{Block, Marks, Table, Walk, Words};

fn unmarked() -> Marks
    ensures { result ≡ plain_marks }
{
    Marks {
        in_loop: false,
        load: false,
        param: false,
    }
}

// Walk one: the module binds the root's targets.
pub fn collect_module(
    part: &[u8],
    st: Walk,
    binds: &mut [u64],
    w: &mut Words,
    t: &mut Table,
) -> Walk
    requires { Pre1 part.now 0 module_is st (mem binds.old w.old t.old) }
    ensures { Done part.now 0 module_is plain_marks st (mem binds.old w.old t.old) result (mem binds.new w.new t.new) }
{
    let block = Block {
        scope: ScopeId(0),
        first: 0,
        local: false,
    };
    walk::collect_node(part, 0, block, unmarked(), st, binds, w, t)
}

// How many of the nodes of a part are Params with a Name.
fn param_count(part: &[u8]) -> usize
    requires { (length part.now ≤ 8 * many_nodes) × ((at : ℕ) × (f : Forest) × Reads part.now at f) }
    ensures { (8 * result ≤ length part.now) × ((at : ℕ) (f : Forest) → Reads part.now at f → result ≡ params f) }
{
    let mut n = 0;
    let mut rest = part;
    while !rest.is_empty() {
        if kinds::is_named_param(rest) {
            n += 1;
        }
        rest = &rest[8 * nodefile::size(rest) as usize..];
    }
    n
}

// A Def's or a Lambda's variables: its parameters, and the targets of a Def's body. part: the children, without a Def's Name.
fn collect_defines_in_def(
    part: &[u8],
    at: usize,
    scope: usize,
    st: Walk,
    binds: &mut [u64],
    w: &mut Words,
    t: &mut Table,
) -> Walk
    requires { PreFunction part.now at scope st (mem binds.old w.old t.old) }
    ensures { FunctionDone part.now at scope st (mem binds.old w.old t.old) result (mem binds.new w.new t.new) }
{
    let st = st?;
    let first = st.bindings;
    let block = Block {
        scope: ScopeId(scope),
        first,
        local: true,
    };
    store::set_param_count(w, scope, param_count(part));
    let s = walk::collect_kids(part, at, block, unmarked(), Ok(st), binds, w, t)?;
    store::put_range(t, scope, first, s.bindings);
    Ok(s)
}

// The node that a part starts with: if it is a Def or a Lambda, its variables.
fn declare_node(
    part: &[u8],
    at: usize,
    st: Walk,
    binds: &mut [u64],
    w: &mut Words,
    t: &mut Table,
) -> Walk
    requires { PreHere part.now at st (mem binds.old w.old t.old) }
    ensures { HereDone part.now at st (mem binds.old w.old t.old) result (mem binds.new w.new t.new) }
{
    // How many nodes stand before its Params: itself, and a Def's Name.
    let before = match kinds::of(part) {
        Some(Kind::Def) => 2,
        Some(Kind::Lambda) => 1,
        _ => return st,
    };
    let end = 8 * nodefile::size(part) as usize;
    let scope = nodefile::value(part) as usize;
    collect_defines_in_def(&part[8 * before..end], at + before, scope, st, binds, w, t)
}

// Walk two: each Def and Lambda, in node order.
pub fn collect_defines_recursively(
    list: &[u8],
    st: Walk,
    binds: &mut [u64],
    w: &mut Words,
    t: &mut Table,
) -> Walk
    requires { PreAll list.now st (mem binds.old w.old t.old) }
    ensures { AllDone list.now st (mem binds.old w.old t.old) result (mem binds.new w.new t.new) }
{
    let mut s = st;
    for n in 0..list.len() / 8 {
        s = declare_node(&list[8 * n..], n, s, binds, w, t);
    }
    s
}

// A comprehension's variables: the targets of all its clauses, as inside a loop; then they are in reach.
pub fn add_compr(
    part: &[u8],
    at: usize,
    st: Walk,
    binds: &mut [u64],
    w: &mut Words,
    t: &mut Table,
) -> Walk
    requires { PreCompr part.now at st (mem binds.old w.old t.old) }
    ensures { ComprDone part.now at st (mem binds.old w.old t.old) result (mem binds.new w.new t.new) }
{
    let st = st?;
    let first = st.bindings;
    let block = Block {
        scope: ScopeId(store::scope_at_level(t, st.level)),
        first,
        local: true,
    };
    let marks = Marks {
        in_loop: true,
        ..unmarked()
    };
    let s = walk::collect_kids(part, at, block, marks, Ok(st), binds, w, t)?;
    store::scope_in(binds, t, first, s.bindings);
    Ok(s)
}
