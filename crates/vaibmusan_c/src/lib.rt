// The static library for C and for Rust: each function of crate vaibmusan under its own name as a symbol, with the same contract.
// include/vaibmusan.h says the same in words. A slice is a pointer and a length.
#![tactic(auto)]

ghost use Rattle.std.specs.Prelude.{◌≡◌, length};
ghost use Rattle.judge.specs.Cond.{Judged};
ghost use Rattle.answer.specs.Buffers.{buffers};
ghost use Rattle.scope.specs.Answer.{Resolves};
ghost use Rattle.readers.specs.Lists.{lists};
ghost use Rattle.readers.specs.Readers.{Readers};
ghost use Rattle.around.specs.Scopes.{scopes_at, Holds};
ghost use Rattle.around.specs.Outer.{outer_table};
ghost use Rattle.follow.specs.Place.{followed};
ghost use Rattle.listing.specs.Text.{Listed};
ghost use Rattle.vaibmusan.specs.Border.{Stands, home_of};

use answer::Answer;
use vaibmusan::{Home, Stretch};

#[unsafe(no_mangle)]
pub extern "C" fn vaib_version() -> u64
    ensures { result ≡ 2 }
{
    vaibmusan::vaib_version()
}

#[unsafe(no_mangle)]
pub extern "C" fn vaib_judge(file: &[u8]) -> u64
    ensures { Judged file.now result }
{
    vaibmusan::vaib_judge(file)
}

#[unsafe(no_mangle)]
pub extern "C" fn vaib_spelling(file: &[u8], name: usize, stretch: &mut Stretch)
    ensures { Stands file.now name stretch.new }
{
    vaibmusan::vaib_spelling(file, name, stretch);
}

#[unsafe(no_mangle)]
pub extern "C" fn vaib_resolve(
    file: &[u8],
    nodes: &mut [u32],
    bindings: &mut [u64],
    module: &mut [u32],
    scopes: &mut [u32],
    slots: &mut [u32],
    copies: &mut [u32],
    errors: &mut [u32],
    answer: &mut Answer,
)
    ensures { Resolves file.now (buffers nodes.old bindings.old «module».old scopes.old slots.old copies.old errors.old) answer.new (buffers nodes.new bindings.new «module».new scopes.new slots.new copies.new errors.new) }
{
    vaibmusan::vaib_resolve(
        file, nodes, bindings, module, scopes, slots, copies, errors, answer,
    );
}

// The file resolved, and the Idents that are resolved to each binding and to each global.
#[unsafe(no_mangle)]
pub extern "C" fn vaib_readers(
    file: &[u8],
    nodes: &mut [u32],
    bindings: &mut [u64],
    module: &mut [u32],
    scopes: &mut [u32],
    slots: &mut [u32],
    copies: &mut [u32],
    errors: &mut [u32],
    starts: &mut [u32],
    counts: &mut [u32],
    list: &mut [u32],
    global_starts: &mut [u32],
    global_counts: &mut [u32],
    global_list: &mut [u32],
    answer: &mut Answer,
)
    ensures { Readers file.now (buffers nodes.old bindings.old «module».old scopes.old slots.old copies.old errors.old) (lists starts.old counts.old list.old global_starts.old global_counts.old global_list.old) answer.new (buffers nodes.new bindings.new «module».new scopes.new slots.new copies.new errors.new) (lists starts.new counts.new list.new global_starts.new global_counts.new global_list.new) }
{
    vaibmusan::vaib_readers(
        file,
        nodes,
        bindings,
        module,
        scopes,
        slots,
        copies,
        errors,
        starts,
        counts,
        list,
        global_starts,
        global_counts,
        global_list,
        answer,
    );
}

// The scopes around a node, outermost first, then zeros; the result is how many they are.
#[unsafe(no_mangle)]
pub extern "C" fn vaib_scopes_around(file: &[u8], node: usize, around: &mut [u32]) -> usize
    ensures { Holds (scopes_at file.now node) result around.old around.new }
{
    vaibmusan::vaib_scopes_around(file, node, around)
}

// For each scope, at its number, the scope directly around it; zeros elsewhere.
#[unsafe(no_mangle)]
pub extern "C" fn vaib_outer_scopes(file: &[u8], outer: &mut [u32])
    ensures { outer.new ≡ outer_table file.now (length outer.old) }
{
    vaibmusan::vaib_outer_scopes(file, outer);
}

#[unsafe(no_mangle)]
pub extern "C" fn vaib_follow(copies: &[u32], around: &[u32], slot: usize, home: &mut Home)
    ensures { home.new ≡ home_of (followed copies.now around.now slot) }
{
    vaibmusan::vaib_follow(copies, around, slot, home);
}

// As much of the listing as the window `text` shows from byte `from` on.
#[unsafe(no_mangle)]
pub extern "C" fn vaib_listing(file: &[u8], from: usize, text: &mut [u8]) -> usize
    ensures { Listed file.now from (length text.old) text.new result }
{
    vaibmusan::vaib_listing(file, from, text)
}
