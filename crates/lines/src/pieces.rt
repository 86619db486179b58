// The pieces of a line.
ghost use Rattle.std.specs.Prelude.{[], ◌∷◌};
ghost use Rattle.text.specs.Bytes.{decimal};
ghost use Rattle.text.specs.Window.{Puts};
ghost use Rattle.lines.specs.Lines.{name_text, choice, source_text};

use text::Cursor;

// A name, as it is printed.
pub fn put_name(out: &mut [u8], c: Cursor, file: &[u8], name: u64) -> Cursor
    ensures { Puts (name_text file.now name ∷ []) c out.old result out.new }
{
    let s = nodefile::spelled(nodefile::names(file), nodefile::pool(file), name as usize);
    text::put_bytes(out, c, s)
}

// A word, then a number.
pub fn put_number(out: &mut [u8], c: Cursor, word: &[u8], n: u64) -> Cursor
    ensures { Puts (word.now ∷ decimal n ∷ []) c out.old result out.new }
{
    let k = text::put_bytes(out, c, word);
    text::put_decimal(out, k, n)
}

// One of two words, by a bit of a record: it is tested here once, not at each of the five callers.
pub fn put_choice(out: &mut [u8], c: Cursor, bit: u64, one: &[u8], zero: &[u8]) -> Cursor
    ensures { Puts (choice bit one.now zero.now ∷ []) c out.old result out.new }
{
    if bit == 1 {
        return text::put_bytes(out, c, one);
    }
    text::put_bytes(out, c, zero)
}

// A binding's source node; `-` if it is from the module.
pub fn put_source(out: &mut [u8], c: Cursor, entry: u64, source: u64) -> Cursor
    ensures { Puts (source_text entry source ∷ []) c out.old result out.new }
{
    if entry == 1 {
        return text::put_bytes(out, c, b"-");
    }
    text::put_decimal(out, c, source)
}
