// The lines of document 01's listing, a function for each kind; each takes its record as it stands in its buffer.
// A name is any bytes, which `Display` cannot print: so a line is put piece by piece, through window and cursor (`text::put` says why they are two).
#![tactic(auto)]

mod pieces;

ghost use Rattle.std.specs.Prelude.{[], ◌∷◌};
ghost use Rattle.text.specs.Window.{Puts};
ghost use Rattle.lines.specs.Lines.{refusal_line, counts_line, binding_line, entry_line, slot_name, scope_names, scope_line, copy_line, resolution_text, ident_line, error_line};

use answer::{Answer, NodeClass};
use nodefile::kinds::Kind;
use nodefile::node;
use pieces::{put_choice, put_name, put_number, put_source};
use text::Cursor;

pub fn put_refusal(out: &mut [u8], c: Cursor, number: u64) -> Cursor
    ensures { Puts (refusal_line number ∷ []) c out.old result out.new }
{
    let k = put_number(out, c, b"answer ", number);
    text::put_bytes(out, k, b"\n")
}

pub fn put_counts(out: &mut [u8], c: Cursor, a: Answer) -> Cursor
    ensures { Puts (counts_line a ∷ []) c out.old result out.new }
{
    let mut k = put_number(out, c, b"answer 0 bindings ", a.bindings as u64);
    k = put_number(out, k, b" module ", a.module as u64);
    k = put_number(out, k, b" slots ", a.slots as u64);
    k = put_number(out, k, b" copies ", a.copies as u64);
    k = put_number(out, k, b" errors ", a.errors as u64);
    text::put_bytes(out, k, b"\n")
}

// The record of binding i.
pub fn put_binding(out: &mut [u8], c: Cursor, file: &[u8], i: usize, r: u64) -> Cursor
    ensures { Puts (binding_line file.now i r ∷ []) c out.old result out.new }
{
    let mut k = put_number(out, c, b"B ", i as u64);
    k = text::put_bytes(out, k, b" ");
    k = put_name(out, k, file, answer::binding::name(r));
    k = put_choice(out, k, answer::binding::local(r), b" L ", b" M ");
    k = text::put_decimal(out, k, answer::binding::slot(r));
    k = put_choice(out, k, answer::binding::public(r), b" public", b" private");
    k = put_choice(out, k, answer::binding::any(r), b" any", b" once");
    k = put_choice(
        out,
        k,
        answer::binding::captured(r),
        b" captured ",
        b" free ",
    );
    k = put_source(
        out,
        k,
        answer::binding::from_module(r),
        answer::binding::source(r),
    );
    text::put_bytes(out, k, b"\n")
}

// A module entry.
pub fn put_entry(out: &mut [u8], c: Cursor, file: &[u8], r: u32) -> Cursor
    ensures { Puts (entry_line file.now r ∷ []) c out.old result out.new }
{
    let mut k = put_number(out, c, b"M ", answer::entry::slot(r));
    k = text::put_bytes(out, k, b" ");
    k = put_name(out, k, file, answer::entry::name(r));
    put_choice(
        out,
        k,
        answer::entry::public(r),
        b" public\n",
        b" private\n",
    )
}

// A slot's name, if the slot is the scope's.
fn put_slot(out: &mut [u8], c: Cursor, file: &[u8], scope: u64, r: u32) -> Cursor
    ensures { Puts (slot_name file.now scope r ∷ []) c out.old result out.new }
{
    if answer::slot::scope(r) != scope {
        return c;
    }
    let k = text::put_bytes(out, c, b" ");
    put_name(out, k, file, answer::slot::name(r))
}

// The names of a scope's slots, in order: the one loop of this crate (listing's lists have theirs).
fn put_names(out: &mut [u8], c: Cursor, file: &[u8], slots: &[u32], scope: u64) -> Cursor
    ensures { Puts (scope_names file.now slots.now scope ∷ []) c out.old result out.new }
{
    let mut k = c;
    for r in slots {
        k = put_slot(out, k, file, scope, *r);
    }
    k
}

// Scope s; slots: those of all scopes.
pub fn put_scope(out: &mut [u8], c: Cursor, file: &[u8], slots: &[u32], s: usize, r: u32) -> Cursor
    ensures { Puts (scope_line file.now slots.now s r ∷ []) c out.old result out.new }
{
    let mut k = put_number(out, c, b"S ", s as u64);
    k = put_number(out, k, b" ", answer::scope::params(r));
    k = text::put_bytes(out, k, b":");
    k = put_names(out, k, file, slots, s as u64);
    text::put_bytes(out, k, b"\n")
}

pub fn put_copy(out: &mut [u8], c: Cursor, r: u32) -> Cursor
    ensures { Puts (copy_line r ∷ []) c out.old result out.new }
{
    let mut k = put_number(out, c, b"C ", answer::copy::scope(r));
    k = put_number(out, k, b" ", answer::copy::parent(r));
    k = put_number(out, k, b" ", answer::copy::child(r));
    text::put_bytes(out, k, b"\n")
}

// An outcome: M or L, slot and binding; or G and the number of the global.
fn put_resolution(out: &mut [u8], c: Cursor, r: u32) -> Cursor
    ensures { Puts (resolution_text r ∷ []) c out.old result out.new }
{
    let word: &[u8] = match answer::node::class(r) {
        NodeClass::Global => {
            let g = put_number(out, c, b" G ", answer::node::slot(r));
            return text::put_bytes(out, g, b" -\n");
        }
        NodeClass::Module => b" M ",
        NodeClass::Nothing | NodeClass::Local => b" L ",
    };
    let mut k = text::put_bytes(out, c, word);
    k = text::put_decimal(out, k, answer::node::slot(r));
    k = put_number(out, k, b" ", answer::node::binding(r));
    text::put_bytes(out, k, b"\n")
}

// Node i: a line if it is an Ident with an outcome, else none.
pub fn put_ident(out: &mut [u8], c: Cursor, file: &[u8], i: usize, r: u32) -> Cursor
    ensures { Puts (ident_line file.now i r ∷ []) c out.old result out.new }
{
    if node::named_kind(file, i) != Some(Kind::Ident) {
        return c;
    }
    match answer::node::class(r) {
        NodeClass::Nothing => c,
        _ => {
            let k = put_number(out, c, b"I ", i as u64);
            put_resolution(out, k, r)
        }
    }
}

// An error, with its node's name.
pub fn put_error(out: &mut [u8], c: Cursor, file: &[u8], r: u32) -> Cursor
    ensures { Puts (error_line file.now r ∷ []) c out.old result out.new }
{
    let at = answer::error::node(r);
    let mut k = put_number(out, c, b"E ", at);
    k = put_number(out, k, b" ", answer::error::code(r));
    k = text::put_bytes(out, k, b" ");
    k = put_name(out, k, file, node::value(file, at as usize));
    text::put_bytes(out, k, b"\n")
}
