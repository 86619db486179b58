// A name is looked up: the scopes inside out, then the module, then the globals; and the outcome is kept.
ghost use Rattle.std.specs.Prelude.{◌≡◌, ◌+◌, ◌≤◌, ◌<◌, length, get_or, set};
ghost use Rattle.store.specs.Sections.{mem, Long, glob_at, many_bindings, many_names, many_nodes, many_slot_numbers};
ghost use Rattle.lookup.specs.Lookup.{Capturing, Captured, Locally, LocalDone, InModule, ModuleDone, Named, NamedDone, Keeping, Kept, Ident, IdentDone, as_global, SmallSlot, slot_answer, code_of, ErrorAdded};

use crate::bring;
use answer::{BindingId, ModuleSlotId, NodeClass};
use store::{Full, Resolution, Resolved, Slot, State, Table, Walk, Words};

// Why a name is an error.
#[derive(Clone, Copy, Debug, PartialEq, Eq)]
enum Fault {
    NotFound,
    LocalInType,
}

impl Fault {
    // Its code in an error's record (document 01, "Answer buffers").
    fn code(self) -> usize
        ensures { (result ≡ code_of self) × (result < 3) }
    {
        match self {
            Fault::NotFound => 1,
            Fault::LocalInType => 2,
        }
    }
}

// A local that another scope owns is captured.
fn capture_local(id: usize, level: usize, binds: &mut [u64], t: &Table)
    requires { (many_bindings ≤ length binds.old) × Capturing id level binds.old t.now }
    ensures { Captured id level binds.old t.now binds.new }
{
    if store::owner(t, id) != store::scope_at_level(t, level) {
        store::set_captured(binds, id);
    }
}

// A local, brought to the current scope; directly in a type it is refused.
fn get_local(
    id: BindingId,
    ty: bool,
    st: State,
    binds: &mut [u64],
    w: &mut Words,
    t: &mut Table,
) -> Result<Resolved, Full>
    requires { Long (mem binds.old w.old t.old) × Locally id.0 st (mem binds.old w.old t.old) }
    ensures { LocalDone id.0 ty st (mem binds.old w.old t.old) result (mem binds.new w.new t.new) }
{
    capture_local(id.0, st.level, binds, t);
    let brought = bring::bring(st.level, id, st, binds, w, t)?;
    let res = if ty {
        Resolution::LocalInType
    } else {
        Resolution::Slot(Slot::Local(brought.slot), id)
    };
    Ok(Resolved {
        st: brought.st,
        res,
    })
}

// A module name: captured inside a function.
fn get_module(id: BindingId, st: State, binds: &mut [u64]) -> Resolved
    requires { (many_bindings ≤ length binds.old) × InModule id.0 st binds.old }
    ensures { ModuleDone id.0 st binds.old result binds.new }
{
    let slot = store::slot_of(binds, id.0);
    let res = Resolution::Slot(Slot::Module(ModuleSlotId(slot)), id);
    if st.level == 0 {
        return Resolved { st, res };
    }
    store::set_captured(binds, id.0);
    Resolved { st, res }
}

// A global, or nothing.
#[tactic(auto, using(crate::proofs::Names::global_some, crate::proofs::Names::global_none))]
fn get_global(name: usize, t: &Table) -> Resolution
    requires { name < many_names }
    ensures { result ≡ as_global (get_or t.now (glob_at + name) 0) }
{
    match store::global(t, name) {
        Some(global) => Resolution::Global(global),
        None => Resolution::NotFound,
    }
}

// A name means the innermost binding: the scopes inside out, then the module, then the globals.
fn get_name(
    name: usize,
    ty: bool,
    st: State,
    binds: &mut [u64],
    w: &mut Words,
    t: &mut Table,
) -> Result<Resolved, Full>
    requires { Long (mem binds.old w.old t.old) × Named name st (mem binds.old w.old t.old) }
    ensures { NamedDone name ty st (mem binds.old w.old t.old) result (mem binds.new w.new t.new) }
{
    if let Some(id) = store::current(t, name) {
        return get_local(id, ty, st, binds, w, t);
    }
    if let Some(id) = store::module_binding(t, name) {
        return Ok(get_module(id, st, binds));
    }
    let res = get_global(name, t);
    Ok(Resolved { st, res })
}

fn put_slot(at: usize, slot: Slot, id: BindingId, w: &mut Words)
    requires { (at < many_nodes) × SmallSlot slot × (id.0 < many_slot_numbers) }
    ensures { w.new ≡ set w.old at (slot_answer slot id.0) }
{
    match slot {
        Slot::Module(k) => store::put_answer(w, at, NodeClass::Module, k.0, id.0),
        Slot::Local(k) => store::put_answer(w, at, NodeClass::Local, k.0, id.0),
    }
}

// An error, if there is room for it.
fn add_error(at: usize, fault: Fault, st: State, w: &mut Words) -> Walk
    requires { at < many_nodes }
    ensures { ErrorAdded at (code_of fault) st w.old result w.new }
{
    let e = st.errors;
    if e >= answer::ERRORS {
        return Err(Full);
    }
    store::put_error(w, e, at, fault.code());
    Ok(State {
        errors: e + 1,
        ..st
    })
}

// What an identifier came to, in its node's record or among the errors.
fn put_resolution(at: usize, res: Resolution, st: State, w: &mut Words) -> Walk
    requires { Keeping at res st w.old }
    ensures { Kept at res st w.old result w.new }
{
    match res {
        Resolution::Slot(slot, id) => {
            put_slot(at, slot, id, w);
            Ok(st)
        }
        Resolution::Global(g) => {
            store::put_answer(w, at, NodeClass::Global, g, 0);
            Ok(st)
        }
        Resolution::NotFound => add_error(at, Fault::NotFound, st, w),
        Resolution::LocalInType => add_error(at, Fault::LocalInType, st, w),
    }
}

// An Ident.
pub fn resolve_ident(
    name: usize,
    at: usize,
    ty: bool,
    st: Walk,
    binds: &mut [u64],
    w: &mut Words,
    t: &mut Table,
) -> Walk
    requires { Long (mem binds.old w.old t.old) × Ident name at st (mem binds.old w.old t.old) }
    ensures { IdentDone name at ty st (mem binds.old w.old t.old) result (mem binds.new w.new t.new) }
{
    let resolved = get_name(name, ty, st?, binds, w, t)?;
    put_resolution(at, resolved.res, resolved.st, w)
}
