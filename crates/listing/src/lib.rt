// The text of document 01's listing, put into a window that the caller lends.
#![tactic(auto)]

mod lists;
mod read;

ghost use Rattle.answer.specs.Buffers.{buffers};
ghost use Rattle.std.specs.Prelude.{[], ◌∷◌, length};
ghost use Rattle.text.specs.Window.{Window, Puts};
ghost use Rattle.listing.specs.Text.{text_of, accepted_text, Listed};

use answer::Answer;
use text::Cursor;

// What is printed of an accepted file. The seven buffers are seven parameters: C lends each apart.
fn put_accepted(
    out: &mut [u8],
    c: Cursor,
    file: &[u8],
    answer: Answer,
    nodes: &[u32],
    bindings: &[u64],
    module: &[u32],
    scopes: &[u32],
    slots: &[u32],
    copies: &[u32],
    errors: &[u32],
) -> Cursor
    ensures { Puts (accepted_text file.now answer (buffers nodes.now bindings.now «module».now scopes.now slots.now copies.now errors.now) ∷ []) c out.old result out.new }
{
    let mut k = lines::put_counts(out, c, answer);
    k = lists::put_bindings(out, k, file, read::front(bindings, answer.bindings));
    k = lists::put_entries(out, k, file, read::front(module, answer.module));
    k = lists::put_scopes(out, k, file, scopes, read::front(slots, answer.slots));
    k = lists::put_copies(out, k, read::front(copies, answer.copies));
    k = lists::put_idents(out, k, file, nodes);
    lists::put_errors(out, k, file, read::front(errors, answer.errors))
}

// The listing of a file, given what `scope::resolve` answered: as much of it as the window `text` shows from byte `from` on, then zeros.
// The result is the number of the listing's bytes in the window; one below the window's length says that the listing has ended.
pub fn print(
    file: &[u8],
    answer: Answer,
    nodes: &[u32],
    bindings: &[u64],
    module: &[u32],
    scopes: &[u32],
    slots: &[u32],
    copies: &[u32],
    errors: &[u32],
    from: usize,
    text: &mut [u8],
) -> usize
    ensures { Window (text_of file.now answer (buffers nodes.now bindings.now «module».now scopes.now slots.now copies.now errors.now)) from (length text.old) text.new result }
{
    let c = text::start(from);
    if answer.number != 0 {
        let k = lines::put_refusal(text, c, answer.number);
        return text::finish(text, k);
    }
    let k = put_accepted(
        text, c, file, answer, nodes, bindings, module, scopes, slots, copies, errors,
    );
    text::finish(text, k)
}

// The listing of a file, resolved in arrays of its own; window and result as for `print`.
pub fn listing(file: &[u8], from: usize, text: &mut [u8]) -> usize
    ensures { Listed file.now from (length text.old) text.new result }
{
    let mut r = scope::Records::new();
    r.resolve(file);
    print(
        file,
        r.answer,
        &r.nodes,
        &r.bindings,
        &r.module,
        &r.scopes,
        &r.slots,
        &r.copies,
        &r.errors,
        from,
        text,
    )
}
