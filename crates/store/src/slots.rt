// Slots and copies, in order of making.
ghost use Rattle.std.specs.Prelude.{◌≡◌, ◌+◌, ◌<◌, get_or, set, Some};
ghost use Rattle.lexical.specs.Third.{hand_in};
ghost use Rattle.answer.specs.Records.{scope_slots, slot_scope};
ghost use Rattle.store.specs.Words.{pair_word, copied_word, more_word, params_word};
ghost use Rattle.store.specs.Hands.{hand_of, Slotted};
ghost use Rattle.store.specs.Sections.{back_at, copies_at, half_word, many_bindings, many_nodes, many_slots, num_at, scopes_at, slots_at, tail_at};

use crate::sections::{BACK, COPIES, NUMBERS, SCOPES, SLOTS, TAILS, Table, Words};
use answer::LocalSlotId;

// The slot that the next variable of a scope gets.
pub fn fresh_slot(w: &Words, scope: usize) -> usize
    requires { scope < 256 }
    ensures { (result ≡ scope_slots (get_or w.now (scopes_at + scope) 0)) × (result < half_word) }
{
    answer::scope::slots(w[SCOPES + scope]) as usize
}

// Slot record k: a fresh slot of a scope.
pub fn put_slot(w: &mut Words, k: usize, scope: usize, name: usize)
    requires { (k < many_slots) × (scope < 256) × (name < half_word) }
    ensures { w.new ≡ set (set w.old (slots_at + k) (pair_word scope name)) (scopes_at + scope) (more_word (get_or w.old (scopes_at + scope) 0)) }
{
    let n = w[SCOPES + scope];
    w[SLOTS + k] = answer::slot::make(scope as u64, name as u64);
    w[SCOPES + scope] = answer::scope::with_slots(n, answer::scope::slots(n) + 1);
}

// Slot record k holds binding id: its number in its scope, and the binding's slot before it.
pub fn link_slot(t: &mut Table, k: usize, id: usize, num: usize)
    requires { (k < many_slots) × (id < many_bindings) × (num < many_slots) }
    ensures { t.new ≡ set (set (set t.old (num_at + k) num) (back_at + k) (get_or t.old (tail_at + id) 0)) (tail_at + id) (k + 1) }
{
    let last = t[TAILS + id];
    t[NUMBERS + k] = num as u16;
    t[BACK + k] = last;
    t[TAILS + id] = (k + 1) as u16;
}

pub fn put_copy(w: &mut Words, c: usize, scope: usize, parent: usize, child: usize)
    requires { (c < many_slots) × (scope < 256) × (parent < many_slots) × (child < many_slots) }
    ensures { w.new ≡ set w.old (copies_at + c) (copied_word scope parent child) }
{
    w[COPIES + c] = answer::copy::make(scope as u64, parent as u64, child as u64);
}

pub fn set_param_count(w: &mut Words, scope: usize, n: usize)
    requires { (scope < 256) × (n < many_nodes) }
    ensures { w.new ≡ set w.old (scopes_at + scope) (params_word n (get_or w.old (scopes_at + scope) 0)) }
{
    let r = w[SCOPES + scope];
    w[SCOPES + scope] = answer::scope::with_params(r, n as u64);
}

// What is found at slot record c, else what was found before.
fn found(
    w: &Words,
    t: &Table,
    scope: usize,
    c: usize,
    best: Option<LocalSlotId>,
) -> Option<LocalSlotId>
    requires { c < many_slots }
    ensures { (slot_scope (get_or w.now (slots_at + c) 0) ≡ scope → result ≡ Some (record { 0 = get_or t.now (num_at + c) 0 })) × ((slot_scope (get_or w.now (slots_at + c) 0) ≡ scope → ⊥) → result ≡ best) }
{
    if answer::slot::scope(w[SLOTS + c]) as usize == scope {
        return Some(LocalSlotId(usize::from(t[NUMBERS + c])));
    }
    best
}

// Where a local stands in a scope: the first of its slot records there, found from the last one back.
pub fn hand(w: &Words, t: &Table, scope: usize, id: usize) -> Option<LocalSlotId>
    requires { (id < many_bindings) × Slotted w.now t.now }
    ensures { (g : Slotted w.now t.now) → result ≡ hand_of (hand_in scope id g.slots) }
{
    let mut best = None;
    let mut c = t[TAILS + id];
    while let Some(k) = usize::from(c).checked_sub(1) {
        best = found(w, t, scope, k, best);
        c = t[BACK + k];
    }
    best
}
