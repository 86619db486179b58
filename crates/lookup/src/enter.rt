// Into a Def or a Lambda, and out of it.
ghost use Rattle.std.specs.Prelude.{◌≤◌, length};
ghost use Rattle.store.specs.Sections.{many_bindings};
ghost use Rattle.lookup.specs.Enter.{Entering, Entered, Leaving, Left};

use store::{State, Table, Walk};

// Its variables come into reach, innermost.
pub fn enter_def(scope: usize, st: Walk, binds: &[u64], t: &mut Table) -> Walk
    requires { (many_bindings ≤ length binds.now) × Entering scope st binds.now t.old }
    ensures { Entered scope st binds.now t.old result t.new }
{
    let st = st?;
    let level = st.level + 1;
    let lo = store::first_of(t, scope);
    let hi = store::last_of(t, scope);
    store::put_scope(t, level, scope);
    store::scope_in(binds, t, lo, hi);
    Ok(State { level, ..st })
}

// They go out of reach.
pub fn exit_def(scope: usize, st: Walk, binds: &[u64], t: &mut Table) -> Walk
    requires { (many_bindings ≤ length binds.now) × Leaving scope st binds.now t.old }
    ensures { Left scope st binds.now t.old result t.new }
{
    let st = st?;
    let lo = store::first_of(t, scope);
    let hi = store::last_of(t, scope);
    store::unscope(binds, t, lo, hi);
    Ok(State {
        level: st.level - 1,
        ..st
    })
}
