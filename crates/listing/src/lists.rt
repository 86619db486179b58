// The lists: a line for each record, in order.
ghost use Rattle.std.specs.Prelude.{ℕ, ◌<◌, List, [], ◌∷◌};
ghost use Rattle.text.specs.Bytes.{each};
ghost use Rattle.text.specs.Window.{Puts};
ghost use Rattle.listing.specs.Calls.{PutsBelow};
ghost use Rattle.listing.specs.Text.{binding_lines, entry_lines, scope_lines, copy_lines, ident_lines, error_lines};

use crate::read;
use text::Cursor;

// The texts of the records 0, 1, .. up to n, each put by `line`.
fn put_each<F: Fn(&mut [u8], Cursor, usize) -> Cursor>(
    out: &mut [u8],
    c: Cursor,
    n: usize,
    line: F,
) -> Cursor
    requires callable { (w : _) (k : Cursor) (i : ℕ) → i < n → F.pre line w k i }
    ensures { (texts : ℕ → List ℕ) → PutsBelow (F.post line) texts n → Puts (each texts n ∷ []) c out.old result out.new }
{
    let mut k = c;
    for i in 0..n {
        k = line(out, k, i);
    }
    k
}

pub fn put_bindings(out: &mut [u8], c: Cursor, file: &[u8], list: &[u64]) -> Cursor
    ensures { Puts (binding_lines file.now list.now ∷ []) c out.old result out.new }
{
    put_each(
        out,
        c,
        list.len(),
        |out, k, i| lines::put_binding(out, k, file, i, list[i]),
    )
}

pub fn put_entries(out: &mut [u8], c: Cursor, file: &[u8], list: &[u32]) -> Cursor
    ensures { Puts (entry_lines file.now list.now ∷ []) c out.old result out.new }
{
    put_each(
        out,
        c,
        list.len(),
        |out, k, i| lines::put_entry(out, k, file, list[i]),
    )
}

// Scope 0 and each Def's and Lambda's.
pub fn put_scopes(out: &mut [u8], c: Cursor, file: &[u8], scopes: &[u32], slots: &[u32]) -> Cursor
    ensures { Puts (scope_lines file.now scopes.now slots.now ∷ []) c out.old result out.new }
{
    let n = nodefile::node::scope_count(file) + 1;
    put_each(
        out,
        c,
        n,
        |out, k, s| lines::put_scope(out, k, file, slots, s, read::at(scopes, s)),
    )
}

pub fn put_copies(out: &mut [u8], c: Cursor, list: &[u32]) -> Cursor
    ensures { Puts (copy_lines list.now ∷ []) c out.old result out.new }
{
    put_each(
        out,
        c,
        list.len(),
        |out, k, i| lines::put_copy(out, k, list[i]),
    )
}

pub fn put_idents(out: &mut [u8], c: Cursor, file: &[u8], nodes: &[u32]) -> Cursor
    ensures { Puts (ident_lines file.now nodes.now ∷ []) c out.old result out.new }
{
    let n = nodefile::node_count(file) as usize;
    put_each(
        out,
        c,
        n,
        |out, k, i| lines::put_ident(out, k, file, i, read::at(nodes, i)),
    )
}

pub fn put_errors(out: &mut [u8], c: Cursor, file: &[u8], list: &[u32]) -> Cursor
    ensures { Puts (error_lines file.now list.now ∷ []) c out.old result out.new }
{
    put_each(
        out,
        c,
        list.len(),
        |out, k, i| lines::put_error(out, k, file, list[i]),
    )
}
