// A local's slot in a scope: at hand there, or brought to the scope outside and copied from there.
ghost use Rattle.store.specs.Sections.{mem, Long};
ghost use Rattle.lookup.specs.Bring.{Copying, Copied, Bringing, Brings};

use answer::{BindingId, LocalSlotId, ScopeId};
use store::{Brought, Full, State, Table, Words};

// A binding's slot in the scope outside is copied into a fresh slot of this scope.
fn copy_parent(
    scope: ScopeId,
    parent: LocalSlotId,
    id: BindingId,
    st: State,
    binds: &[u64],
    w: &mut Words,
    t: &mut Table,
) -> Result<Brought, Full>
    requires { Long (mem binds.now w.old t.old) × Copying scope.0 parent.0 id.0 st (mem binds.now w.old t.old) }
    ensures { Copied scope.0 parent.0 id.0 st (mem binds.now w.old t.old) result (mem binds.now w.new t.new) }
{
    let c = st.copies;
    let k = st.slots;
    if k >= answer::SLOTS {
        return Err(Full);
    }
    let child = store::fresh_slot(w, scope.0);
    let name = store::name_of(binds, id.0);
    store::put_copy(w, c, scope.0, parent.0, child);
    store::put_slot(w, k, scope.0, name);
    store::link_slot(t, k, id.0, child);
    Ok(Brought {
        st: State {
            slots: k + 1,
            copies: c + 1,
            ..st
        },
        slot: LocalSlotId(child),
    })
}

// A local's slot in the scope at a level.
pub fn bring(
    level: usize,
    id: BindingId,
    st: State,
    binds: &[u64],
    w: &mut Words,
    t: &mut Table,
) -> Result<Brought, Full>
    requires { Long (mem binds.now w.old t.old) × Bringing level id.0 st (mem binds.now w.old t.old) }
    ensures { Brings level id.0 st (mem binds.now w.old t.old) result (mem binds.now w.new t.new) }
{
    let scope = store::scope_at_level(t, level);
    if let Some(slot) = store::hand(w, t, scope, id.0) {
        return Ok(Brought { st, slot });
    }
    if level == 0 {
        let own = store::slot_of(binds, id.0);
        return copy_parent(ScopeId(scope), LocalSlotId(own), id, st, binds, w, t);
    }
    let outside = bring(level - 1, id, st, binds, w, t)?;
    copy_parent(ScopeId(scope), outside.slot, id, outside.st, binds, w, t)
}
