// One target of a block that is collected: a name that the block has already, or a new one.
// `local` stays a bool and `known` one more than a binding, since the specs of a block speak of them so; `store` takes bare numbers.
#![tactic(auto)]

ghost use Rattle.std.specs.Prelude.{◌≡◌, true, false, cond, not, ◌&&◌, ◌||◌, ◌+◌, ◌≤◌, ◌<◌, length, get_or, eqb, MatchResult};
ghost use Rattle.store.specs.Sections.{mem, Long, hidden_at, many_bindings, many_names, shown_at};
ghost use Rattle.answer.specs.Classes.{class_number};
ghost use Rattle.target.specs.Target.{Again, AgainDone, Fresh, FreshDone, PreTarget, DoneTarget};

use answer::{NodeClass, ScopeId};
use store::{Block, Full, Marks, State, Table, Walk, Words};

// Whether a target makes its name Public.
fn visibility(t: &Table, name: usize, marks: Marks) -> bool
    requires { name < many_names }
    ensures { result ≡ marks.param || (not (eqb (get_or t.now (hidden_at + name) 0) 1) && (not marks.load || eqb (get_or t.now shown_at 0) 1)) }
{
    marks.param || (!store::hidden(t, name) && (!marks.load || store::load_shown(t)))
}

// The class of a name that a block binds.
fn class(local: bool) -> NodeClass
    ensures { class_number result ≡ cond local 2 1 }
{
    if local {
        NodeClass::Local
    } else {
        NodeClass::Module
    }
}

// A name that the block has: any, Public if this target is; and the Name's record.
fn bind_again(
    id: usize,
    at: usize,
    local: bool,
    public: bool,
    st: State,
    binds: &mut [u64],
    w: &mut Words,
) -> State
    requires { (many_bindings ≤ length binds.old) × Again id at local st binds.old w.old }
    ensures { (result ≡ st) × AgainDone id at local public st binds.old w.old binds.new w.new }
{
    store::bind_again(binds, id, public);
    store::put_answer(w, at, class(local), store::slot_of(binds, id), id);
    st
}

// The place after the last of a list, if the list has room for it.
fn room(count: usize, most: usize) -> Result<usize, Full>
    ensures { MatchResult result (λ n. (n ≡ count) × (count < most)) (λ _. most ≤ count) }
{
    if count >= most {
        return Err(Full);
    }
    Ok(count)
}

// A new local: a binding, a fresh slot of its scope, and the Name's record.
fn new_local(
    name: usize,
    at: usize,
    scope: ScopeId,
    any: bool,
    public: bool,
    st: State,
    binds: &mut [u64],
    w: &mut Words,
    t: &mut Table,
) -> Walk
    requires { Long (mem binds.old w.old t.old) × Fresh name at scope.0 true st (mem binds.old w.old t.old) }
    ensures { FreshDone name at scope.0 true any public st (mem binds.old w.old t.old) result (mem binds.new w.new t.new) }
{
    let id = room(st.bindings, answer::BINDINGS)?;
    let k = room(st.slots, answer::SLOTS)?;
    let num = store::fresh_slot(w, scope.0);
    store::put_binding(binds, id, name, at, false, public, any, true, num);
    store::put_answer(w, at, NodeClass::Local, num, id);
    store::put_slot(w, k, scope.0, name);
    store::put_known(t, true, name, id);
    store::put_owner(t, id, scope.0);
    store::link_slot(t, k, id, num);
    Ok(State {
        bindings: id + 1,
        slots: k + 1,
        ..st
    })
}

// A new module name: a binding, the next slot of the module, which is the number of its bindings so far, and the Name's record.
fn new_module(
    name: usize,
    at: usize,
    any: bool,
    public: bool,
    st: State,
    binds: &mut [u64],
    w: &mut Words,
    t: &mut Table,
) -> Walk
    requires { Long (mem binds.old w.old t.old) × Fresh name at 0 false st (mem binds.old w.old t.old) }
    ensures { FreshDone name at 0 false any public st (mem binds.old w.old t.old) result (mem binds.new w.new t.new) }
{
    let id = room(st.bindings, answer::BINDINGS)?;
    store::put_binding(binds, id, name, at, false, public, any, false, id);
    store::put_answer(w, at, NodeClass::Module, id, id);
    store::put_known(t, false, name, id);
    Ok(State {
        bindings: id + 1,
        ..st
    })
}

// One Name that binds.
pub fn collect_assign_ident(
    name: usize,
    at: usize,
    block: Block,
    marks: Marks,
    st: Walk,
    binds: &mut [u64],
    w: &mut Words,
    t: &mut Table,
) -> Walk
    requires { PreTarget name at block st (mem binds.old w.old t.old) }
    ensures { DoneTarget name at block marks st (mem binds.old w.old t.old) result (mem binds.new w.new t.new) }
{
    let st = st?;
    let public = visibility(t, name, marks);
    let known = store::known(t, block.local, name);
    if known > block.first {
        return Ok(bind_again(known - 1, at, block.local, public, st, binds, w));
    }
    if block.local {
        let scope = block.scope;
        return new_local(name, at, scope, marks.in_loop, public, st, binds, w, t);
    }
    new_module(name, at, marks.in_loop, public, st, binds, w, t)
}
