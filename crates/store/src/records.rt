// The bindings' records, the nodes' answers and the errors.
ghost use Rattle.std.specs.Prelude.{◌≡◌, ◌+◌, ◌<◌, length, get_or, set};
ghost use Rattle.lexical.specs.Records.{bit};
ghost use Rattle.answer.specs.Records.{binding_name, binding_slot};
ghost use Rattle.answer.specs.Classes.{class_number};
ghost use Rattle.store.specs.Words.{binding_word, captured_word, again_word, answer_word, pair_word};
ghost use Rattle.store.specs.Sections.{errors_at, half_word, many_nodes, many_slot_numbers};

use crate::sections::{ERRORS, Words};
use answer::NodeClass;

// A fresh binding's record: not captured.
pub fn put_binding(
    binds: &mut [u64],
    id: usize,
    name: usize,
    source: usize,
    from_module: bool,
    public: bool,
    any: bool,
    local: bool,
    slot: usize,
)
    requires { (id < length binds.old) × (name < half_word) × (source < half_word) × (slot < many_slot_numbers) }
    ensures { binds.new ≡ set binds.old id (binding_word name source (bit from_module) (bit public) (bit any) 0 (bit local) slot) }
{
    binds[id] = answer::binding::make(
        name as u64,
        source as u64,
        u64::from(from_module),
        u64::from(public),
        u64::from(any),
        0,
        u64::from(local),
        slot as u64,
    );
}

pub fn name_of(binds: &[u64], id: usize) -> usize
    requires { id < length binds.now }
    ensures { (result ≡ binding_name (get_or binds.now id 0)) × (result < half_word) }
{
    answer::binding::name(binds[id]) as usize
}

pub fn slot_of(binds: &[u64], id: usize) -> usize
    requires { id < length binds.now }
    ensures { (result ≡ binding_slot (get_or binds.now id 0)) × (result < many_slot_numbers) }
{
    answer::binding::slot(binds[id]) as usize
}

// The flag captured.
pub fn set_captured(binds: &mut [u64], id: usize)
    requires { id < length binds.old }
    ensures { binds.new ≡ set binds.old id (captured_word (get_or binds.old id 0)) }
{
    let r = binds[id];
    binds[id] = answer::binding::with_captured(r, 1);
}

fn again(r: u64, public: bool) -> u64
    ensures { result ≡ again_word public r }
{
    let any = answer::binding::with_any(r, 1);
    if public {
        return answer::binding::with_public(any, 1);
    }
    any
}

// A name that is bound again: any, and Public if this target is.
pub fn bind_again(binds: &mut [u64], id: usize, public: bool)
    requires { id < length binds.old }
    ensures { binds.new ≡ set binds.old id (again_word public (get_or binds.old id 0)) }
{
    let r = binds[id];
    binds[id] = again(r, public);
}

// A node's answer.
pub fn put_answer(w: &mut Words, at: usize, class: NodeClass, slot: usize, id: usize)
    requires { (at < many_nodes) × (slot < many_slot_numbers) × (id < many_slot_numbers) }
    ensures { w.new ≡ set w.old at (answer_word (class_number class) slot id) }
{
    w[at] = answer::node::make(class.number(), slot as u64, id as u64);
}

// Error number e.
pub fn put_error(w: &mut Words, e: usize, at: usize, code: usize)
    requires { (e < many_nodes) × (at < many_nodes) × (code < 3) }
    ensures { w.new ≡ set w.old (errors_at + e) (pair_word at code) }
{
    w[ERRORS + e] = answer::error::make(at as u64, code as u64);
}
