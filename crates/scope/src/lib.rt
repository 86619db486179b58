// The port of names.rs, payload.rs and scope.rs of the crate starlark 0.14.2: what every name of a script means, and in which slot it lives.
// Any bytes are taken. First the buffers are cleared; then their lengths and the file are judged; an accepted file's lists are noted (`note`),
// the three walks go over its nodes (`collect`, `idents`), and what they left in the working lists is copied out (`out`).
// The seven buffers stay parameters of their own: the C call lends them so, each as long as its caller likes.
#![tactic(auto)]

mod out;

ghost use Rattle.std.specs.Prelude.{◌≡◌};
ghost use Rattle.answer.specs.Buffers.{buffers, ShortOf, Zeroed};
ghost use Rattle.base.specs.Says.{Says};
ghost use Rattle.scope.specs.Answer.{Resolves};
ghost use Rattle.scope.specs.Records.{fresh, buffers_of};
ghost use Rattle.store.specs.Sections.{mem};
ghost use Rattle.scope.specs.Accepted.{PreAccepted, Accepting};
ghost use Rattle.scope.specs.Walks.{PreNodes, NodesDone, PreWalk, WalkDone};
ghost use Rattle.scope.specs.Copied.{PreCopy, Copied};

use answer::Answer;
use base::Refusal;
use store::{Full, State, Table, Words, sections};

// The walks' end: the state, and the number of module bindings.
#[derive(Clone, Copy, Debug, PartialEq, Eq)]
struct Walked {
    st: State,
    module: usize,
}

// The three walks over the nodes.
fn enter_module(
    list: &[u8],
    entries: usize,
    binds: &mut [u64],
    w: &mut Words,
    t: &mut Table,
) -> Result<Walked, Full>
    requires { PreNodes list.now entries (mem binds.old w.old t.old) }
    ensures { NodesDone list.now entries (mem binds.old w.old t.old) result (mem binds.new w.new t.new) }
{
    let st = State {
        bindings: entries,
        slots: 0,
        copies: 0,
        errors: 0,
        level: 0,
    };
    let a = collect::collect_module(list, Ok(st), binds, w, t)?;
    let b = collect::collect_defines_recursively(list, Ok(a), binds, w, t);
    let c = idents::resolve_node(list, 0, false, b, binds, w, t)?;
    Ok(Walked {
        st: c,
        module: a.bindings,
    })
}

// The file's lists, then the walks; binds: as many bindings as there can be.
fn walk(file: &[u8], binds: &mut [u64], w: &mut Words) -> Result<Walked, Full>
    requires { PreWalk file.now binds.old w.old }
    ensures { WalkDone file.now result binds.new w.new }
{
    let mut t = [0u16; sections::T_LENGTH];
    let entries = note::note_lists(file, binds, &mut t);
    enter_module(nodefile::nodes(file), entries, binds, w, &mut t)
}

// Zeros into every buffer of an answer.
pub fn clear(
    nodes: &mut [u32],
    bindings: &mut [u64],
    module: &mut [u32],
    scopes: &mut [u32],
    slots: &mut [u32],
    copies: &mut [u32],
    errors: &mut [u32],
)
    ensures { Zeroed (buffers nodes.old bindings.old «module».old scopes.old slots.old copies.old errors.old) (buffers nodes.new bindings.new «module».new scopes.new slots.new copies.new errors.new) }
{
    nodes.fill(0);
    bindings.fill(0);
    module.fill(0);
    scopes.fill(0);
    slots.fill(0);
    copies.fill(0);
    errors.fill(0);
}

// Number 1.
fn short(
    nodes: usize,
    bindings: usize,
    module: usize,
    scopes: usize,
    slots: usize,
    copies: usize,
    errors: usize,
) -> bool
    ensures { Says result (ShortOf nodes bindings «module» scopes slots copies errors) }
{
    nodes < answer::NODES
        || bindings < answer::BINDINGS
        || module < answer::ENTRIES
        || scopes < answer::SCOPES
        || slots < answer::SLOTS
        || copies < answer::COPIES
        || errors < answer::ERRORS
}

// What the walks left in w: the records of the nodes, the scopes, the slots, the copies and the errors.
fn copy_out(
    w: &Words,
    n: usize,
    st: State,
    nodes: &mut [u32],
    scopes: &mut [u32],
    slots: &mut [u32],
    copies: &mut [u32],
    errors: &mut [u32],
)
    requires { PreCopy n st nodes.old scopes.old slots.old copies.old errors.old }
    ensures { Copied w.now n st nodes.old scopes.old slots.old copies.old errors.old nodes.new scopes.new slots.new copies.new errors.new }
{
    out::copy_front(w, 0, n, nodes);
    out::copy_front(w, sections::SCOPES, answer::SCOPES, scopes);
    out::copy_front(w, sections::SLOTS, st.slots, slots);
    out::copy_front(w, sections::COPIES, st.copies, copies);
    out::copy_front(w, sections::ERRORS, st.errors, errors);
}

// The walks of an accepted file, and its records into buffers that are all zero.
fn resolve_accepted(
    file: &[u8],
    nodes: &mut [u32],
    bindings: &mut [u64],
    module: &mut [u32],
    scopes: &mut [u32],
    slots: &mut [u32],
    copies: &mut [u32],
    errors: &mut [u32],
) -> Answer
    requires { PreAccepted file.now (buffers nodes.old bindings.old «module».old scopes.old slots.old copies.old errors.old) }
    ensures { Accepting file.now (buffers nodes.old bindings.old «module».old scopes.old slots.old copies.old errors.old) result (buffers nodes.new bindings.new «module».new scopes.new slots.new copies.new errors.new) }
{
    let mut w = [0u32; sections::W_LENGTH];
    match walk(file, &mut bindings[..answer::BINDINGS], &mut w) {
        Err(Full) => {
            bindings.fill(0);
            Answer::refused(Refusal::ManySlots)
        }
        Ok(Walked { st, module: m }) => {
            let n = nodefile::node_count(file) as usize;
            copy_out(&w, n, st, nodes, scopes, slots, copies, errors);
            out::put_entries(&bindings[..m], module);
            Answer {
                number: 0,
                bindings: st.bindings,
                module: m,
                slots: st.slots,
                copies: st.copies,
                errors: st.errors,
            }
        }
    }
}

// Which variable each name of a file means, and in which slot it lives; 0 and the records, or the number of a refusal and zeros.
pub fn resolve(
    file: &[u8],
    nodes: &mut [u32],
    bindings: &mut [u64],
    module: &mut [u32],
    scopes: &mut [u32],
    slots: &mut [u32],
    copies: &mut [u32],
    errors: &mut [u32],
) -> Answer
    ensures { Resolves file.now (buffers nodes.old bindings.old «module».old scopes.old slots.old copies.old errors.old) result (buffers nodes.new bindings.new «module».new scopes.new slots.new copies.new errors.new) }
{
    let few = short(
        nodes.len(),
        bindings.len(),
        module.len(),
        scopes.len(),
        slots.len(),
        copies.len(),
        errors.len(),
    );
    clear(nodes, bindings, module, scopes, slots, copies, errors);
    if few {
        return Answer::refused(Refusal::ShortBuffer);
    }
    match judge::verdict(file) {
        Err(why) => Answer::refused(why),
        Ok(()) => resolve_accepted(file, nodes, bindings, module, scopes, slots, copies, errors),
    }
}

// What a file comes to, in buffers of its own. They are filled where they stand: to hand them out filled would copy 77 KB.
#[derive(Drop)]
pub struct Records {
    pub answer: Answer,
    pub nodes: [u32; answer::NODES],
    pub bindings: [u64; answer::BINDINGS],
    pub module: [u32; answer::ENTRIES],
    pub scopes: [u32; answer::SCOPES],
    pub slots: [u32; answer::SLOTS],
    pub copies: [u32; answer::COPIES],
    pub errors: [u32; answer::ERRORS],
}

impl Records {
    // No file's yet: all zero.
    pub fn new() -> Records
        ensures { buffers_of result ≡ fresh }
    {
        Records {
            answer: Answer {
                number: 0,
                bindings: 0,
                module: 0,
                slots: 0,
                copies: 0,
                errors: 0,
            },
            nodes: [0; answer::NODES],
            bindings: [0; answer::BINDINGS],
            module: [0; answer::ENTRIES],
            scopes: [0; answer::SCOPES],
            slots: [0; answer::SLOTS],
            copies: [0; answer::COPIES],
            errors: [0; answer::ERRORS],
        }
    }

    // A file resolved in them, whatever they hold.
    pub fn resolve(&mut self, file: &[u8])
        ensures { Resolves file.now (buffers_of self.old) self.new.answer (buffers_of self.new) }
    {
        self.answer = resolve(
            file,
            &mut self.nodes,
            &mut self.bindings,
            &mut self.module,
            &mut self.scopes,
            &mut self.slots,
            &mut self.copies,
            &mut self.errors,
        );
    }
}
