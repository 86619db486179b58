// What C and Rust call, crate vaibmusan_c exporting each under its own name: include/vaibmusan.h says the same in words. A slice is a pointer
// and a length; what takes more than a word is written through a reference, by a function that only calls another and stores its result.
#![tactic(auto)]

ghost use Rattle.std.specs.Prelude.{◌≡◌, length};
ghost use Rattle.judge.specs.Cond.{Judged};
ghost use Rattle.answer.specs.Buffers.{buffers};
ghost use Rattle.scope.specs.Answer.{Resolves};
ghost use Rattle.readers.specs.Lists.{lists};
ghost use Rattle.readers.specs.Readers.{Readers};
ghost use Rattle.around.specs.Scopes.{scopes_at, Holds};
ghost use Rattle.around.specs.Outer.{outer_table};
ghost use Rattle.follow.specs.Place.{followed};
ghost use Rattle.listing.specs.Text.{Listed};
ghost use Rattle.vaibmusan.specs.Border.{Stands, home_of};

use answer::{Answer, LocalSlotId};

// A stretch of the file.
#[repr(C)]
#[derive(Clone, Copy)]
pub struct Stretch {
    pub offset: usize,
    pub length: usize,
}

// A slot of a scope, in plain numbers.
#[repr(C)]
#[derive(Clone, Copy)]
pub struct Home {
    pub scope: usize,
    pub slot: usize,
}

// This library's version: a thousand times the first number, and the second.
const VERSION: u64 = 2;

pub fn vaib_version() -> u64
    ensures { result ≡ 2 }
{
    VERSION
}

pub fn vaib_judge(file: &[u8]) -> u64
    ensures { Judged file.now result }
{
    judge::judge(file)
}

// Where a name's spelling stands in the file; 0 and 0 where judging refuses the file or there is no such name.
fn stretch_of(file: &[u8], name: usize) -> Stretch
    ensures { Stands file.now name result }
{
    let spelling = judge::spelling(file, name);
    if spelling.len() == 0 {
        return Stretch {
            offset: 0,
            length: 0,
        };
    }
    let names = nodefile::names(file);
    let pool = nodefile::pool(file);
    let in_pool = nodefile::name_offset(names, name) as usize;
    Stretch {
        offset: file.len() - pool.len() + in_pool,
        length: spelling.len(),
    }
}

pub fn vaib_spelling(file: &[u8], name: usize, stretch: &mut Stretch)
    ensures { Stands file.now name stretch.new }
{
    *stretch = stretch_of(file, name);
}

pub fn vaib_resolve(
    file: &[u8],
    nodes: &mut [u32],
    bindings: &mut [u64],
    module: &mut [u32],
    scopes: &mut [u32],
    slots: &mut [u32],
    copies: &mut [u32],
    errors: &mut [u32],
    answer: &mut Answer,
)
    ensures { Resolves file.now (buffers nodes.old bindings.old «module».old scopes.old slots.old copies.old errors.old) answer.new (buffers nodes.new bindings.new «module».new scopes.new slots.new copies.new errors.new) }
{
    *answer = scope::resolve(file, nodes, bindings, module, scopes, slots, copies, errors);
}

// The file resolved, and the Idents that are resolved to each binding and to each global.
pub fn vaib_readers(
    file: &[u8],
    nodes: &mut [u32],
    bindings: &mut [u64],
    module: &mut [u32],
    scopes: &mut [u32],
    slots: &mut [u32],
    copies: &mut [u32],
    errors: &mut [u32],
    starts: &mut [u32],
    counts: &mut [u32],
    list: &mut [u32],
    global_starts: &mut [u32],
    global_counts: &mut [u32],
    global_list: &mut [u32],
    answer: &mut Answer,
)
    ensures { Readers file.now (buffers nodes.old bindings.old «module».old scopes.old slots.old copies.old errors.old) (lists starts.old counts.old list.old global_starts.old global_counts.old global_list.old) answer.new (buffers nodes.new bindings.new «module».new scopes.new slots.new copies.new errors.new) (lists starts.new counts.new list.new global_starts.new global_counts.new global_list.new) }
{
    *answer = readers::readers(
        file,
        nodes,
        bindings,
        module,
        scopes,
        slots,
        copies,
        errors,
        starts,
        counts,
        list,
        global_starts,
        global_counts,
        global_list,
    );
}

// The scopes around a node, outermost first, then zeros; the result is how many they are.
pub fn vaib_scopes_around(file: &[u8], node: usize, around: &mut [u32]) -> usize
    ensures { Holds (scopes_at file.now node) result around.old around.new }
{
    around::scopes(file, node, around)
}

// For each scope, at its number, the scope directly around it; zeros elsewhere.
pub fn vaib_outer_scopes(file: &[u8], outer: &mut [u32])
    ensures { outer.new ≡ outer_table file.now (length outer.old) }
{
    around::outer(file, outer);
}

// The scope and the slot where a chain of copies ends, in C's numbers (no `From`: the clause is of the whole way).
fn home_of(copies: &[u32], around: &[u32], slot: usize) -> Home
    ensures { result ≡ home_of (followed copies.now around.now slot) }
{
    let place = follow::follow(copies, around, LocalSlotId(slot));
    let scope = place.scope;
    let own = place.slot;
    Home {
        scope: scope.0,
        slot: own.0,
    }
}

pub fn vaib_follow(copies: &[u32], around: &[u32], slot: usize, home: &mut Home)
    ensures { home.new ≡ home_of (followed copies.now around.now slot) }
{
    *home = home_of(copies, around, slot);
}

// As much of the listing as the window `text` shows from byte `from` on.
pub fn vaib_listing(file: &[u8], from: usize, text: &mut [u8]) -> usize
    ensures { Listed file.now from (length text.old) text.new result }
{
    listing::listing(file, from, text)
}
