// What names mean, by name; what belongs to a binding, a scope and a level. A line for each section's reads and stores: one function for all would take the section too, and its name says less.
ghost use Rattle.std.specs.Prelude.{◌≡◌, cond, ◌+◌, ◌/◌, ◌≤◌, ◌<◌, length, get_or, set, eqb};
ghost use Rattle.store.specs.Noted.{noted, binding_noted};
ghost use Rattle.store.specs.Scoping.{Opening, Opened, Closing, Closed};
ghost use Rattle.store.specs.Sections.{block_at, first_at, glob_at, half_word, hidden_at, last_at, many_bindings, many_names, mod_at, owner_at, saved_at, shown_at, stack_at, t_length};

use crate::records;
use crate::sections::{
    BLOCK, FIRSTS, GLOBALS, HIDDEN, LASTS, LOADS_SHOWN, MODULE, OWNERS, SAVED, STACK, Table,
};
use answer::BindingId;

// What a place of t holds: one more than a number, or 0 for none.
fn noted(t: &Table, i: usize) -> Option<usize>
    requires { i < t_length }
    ensures { result ≡ noted (get_or t.now i 0) }
{
    usize::from(t[i]).checked_sub(1)
}

// The innermost local of a name.
pub fn current(t: &Table, name: usize) -> Option<BindingId>
    requires { name < many_names }
    ensures { (result ≡ binding_noted (get_or t.now name 0)) × (get_or t.now name 0 < half_word) }
{
    noted(t, name).map(BindingId)
}

// The module's binding of a name.
pub fn module_binding(t: &Table, name: usize) -> Option<BindingId>
    requires { name < many_names }
    ensures { (result ≡ binding_noted (get_or t.now (mod_at + name) 0)) × (get_or t.now (mod_at + name) 0 < half_word) }
{
    noted(t, MODULE + name).map(BindingId)
}

// The global of a name.
pub fn global(t: &Table, name: usize) -> Option<usize>
    requires { name < many_names }
    ensures { (result ≡ noted (get_or t.now (glob_at + name) 0)) × (get_or t.now (glob_at + name) 0 < half_word) }
{
    noted(t, GLOBALS + name)
}

// Whether a name begins with `_`: 1 in t, which holds numbers alone.
pub fn hidden(t: &Table, name: usize) -> bool
    requires { name < many_names }
    ensures { result ≡ eqb (get_or t.now (hidden_at + name) 0) 1 }
{
    t[HIDDEN + name] == 1
}

// Whether a name bound by Load is shown.
pub fn load_shown(t: &Table) -> bool
    ensures { result ≡ eqb (get_or t.now shown_at 0) 1 }
{
    t[LOADS_SHOWN] == 1
}

// Where a block that is collected has its names: the module's stay, those of the others are overwritten. The flag is the block's, and chooses a place, not a step.
fn base(local: bool) -> usize
    ensures { (result ≡ cond local block_at mod_at) × (result ≤ block_at) }
{
    if local { BLOCK } else { MODULE }
}

// The binding that the block which is collected has for a name, plus one; where it has none, a number that is no larger than its first (so not an Option: the caller compares).
pub fn known(t: &Table, local: bool, name: usize) -> usize
    requires { name < many_names }
    ensures { (result ≡ get_or t.now (cond local block_at mod_at + name) 0) × (result < half_word) }
{
    usize::from(t[base(local) + name])
}

pub fn put_known(t: &mut Table, local: bool, name: usize, id: usize)
    requires { (name < many_names) × (id < many_bindings) }
    ensures { t.new ≡ set t.old (cond local block_at mod_at + name) (id + 1) }
{
    t[base(local) + name] = (id + 1) as u16;
}

pub fn put_owner(t: &mut Table, id: usize, scope: usize)
    requires { (id < many_bindings) × (scope < 256) }
    ensures { t.new ≡ set t.old (owner_at + id) scope }
{
    t[OWNERS + id] = scope as u16;
}

pub fn owner(t: &Table, id: usize) -> usize
    requires { id < many_bindings }
    ensures { (result ≡ get_or t.now (owner_at + id) 0) × (result < half_word) }
{
    usize::from(t[OWNERS + id])
}

// A scope's first binding, and the one after its last.
pub fn put_range(t: &mut Table, scope: usize, lo: usize, hi: usize)
    requires { (scope < 256) × (lo ≤ many_bindings) × (hi ≤ many_bindings) }
    ensures { t.new ≡ set (set t.old (first_at + scope) lo) (last_at + scope) hi }
{
    t[FIRSTS + scope] = lo as u16;
    t[LASTS + scope] = hi as u16;
}

pub fn first_of(t: &Table, scope: usize) -> usize
    requires { scope < 256 }
    ensures { (result ≡ get_or t.now (first_at + scope) 0) × (result < half_word) }
{
    usize::from(t[FIRSTS + scope])
}

pub fn last_of(t: &Table, scope: usize) -> usize
    requires { scope < 256 }
    ensures { (result ≡ get_or t.now (last_at + scope) 0) × (result < half_word) }
{
    usize::from(t[LASTS + scope])
}

pub fn put_scope(t: &mut Table, level: usize, scope: usize)
    requires { (level < 128) × (scope < 256) }
    ensures { t.new ≡ set t.old (stack_at + level) scope }
{
    t[STACK + level] = scope as u16;
}

pub fn scope_at_level(t: &Table, level: usize) -> usize
    requires { level < 128 }
    ensures { (result ≡ get_or t.now (stack_at + level) 0) × (result < half_word) }
{
    usize::from(t[STACK + level])
}

// A name means this binding from here on; what it meant is kept.
fn push(t: &mut Table, name: usize, id: usize)
    requires { (name < many_names) × (id < many_bindings) }
    ensures { t.new ≡ set (set t.old (saved_at + id) (get_or t.old name 0)) name (id + 1) }
{
    let was = t[name];
    t[SAVED + id] = was;
    t[name] = (id + 1) as u16;
}

// A name means again what it did before this binding.
fn pop(t: &mut Table, name: usize, id: usize)
    requires { (name < many_names) × (id < many_bindings) }
    ensures { t.new ≡ set t.old name (get_or t.old (saved_at + id) 0) }
{
    t[name] = t[SAVED + id];
}

// The names of bindings lo to hi mean these from here on: the last is pushed first, so that the first is innermost.
pub fn scope_in(binds: &[u64], t: &mut Table, lo: usize, hi: usize)
    requires { (many_bindings ≤ length binds.now) × Opening binds.now t.old lo hi }
    ensures { Opened binds.now t.old lo hi t.new }
{
    for k in (lo..hi).rev() {
        push(t, records::name_of(binds, k), k);
    }
}

// The names of bindings lo to hi mean again what they did before: the innermost goes first.
pub fn unscope(binds: &[u64], t: &mut Table, lo: usize, hi: usize)
    requires { (many_bindings ≤ length binds.now) × Closing binds.now t.old lo hi }
    ensures { Closed binds.now t.old lo hi t.new }
{
    for k in lo..hi {
        pop(t, records::name_of(binds, k), k);
    }
}
