// A window of a text: the text is put byte by byte, and as much of it is kept as the window shows. No text is ever held whole.
// A name in the text is any bytes, and `Display` writes text alone: so all that is put is bytes, numbers too.
#![tactic(auto)]

ghost use Rattle.text.specs.Bytes.{decimal};
ghost use Rattle.text.specs.Window.{Begun, Puts, Finished};
ghost use Rattle.std.specs.Prelude.{[], ◌∷◌};

// How many bytes of the text come before the window still, and how many the window holds.
#[derive(Clone, Copy, Debug, PartialEq, Eq)]
pub struct Cursor {
    pub skip: usize,
    pub at: usize,
}

// Before the first byte of a text whose window shows it from byte from on.
pub fn start(from: usize) -> Cursor
    ensures { Begun from result }
{
    Cursor { skip: from, at: 0 }
}

// The window is lent beside the cursor: a struct that held both would have the loan's ghost name in every contract, and be no plainer.
pub fn put(out: &mut [u8], c: Cursor, byte: u8) -> Cursor
    ensures { Puts ((byte ∷ []) ∷ []) c out.old result out.new }
{
    let Cursor { skip, at } = c;
    if skip > 0 {
        return Cursor { skip: skip - 1, at };
    }
    if at < out.len() {
        out[at] = byte;
        return Cursor { skip, at: at + 1 };
    }
    c
}

pub fn put_bytes(out: &mut [u8], c: Cursor, bytes: &[u8]) -> Cursor
    ensures { Puts (bytes.now ∷ []) c out.old result out.new }
{
    let Cursor { skip, at } = c;
    // all of them come before the window, or behind it
    if bytes.len() <= skip {
        return Cursor {
            skip: skip - bytes.len(),
            at,
        };
    }
    if out.len() <= at {
        return Cursor { skip: 0, at };
    }
    let mut k = c;
    for byte in bytes {
        k = put(out, k, *byte);
    }
    k
}

// A number in decimal, without leading zeros.
pub fn put_decimal(out: &mut [u8], c: Cursor, n: u64) -> Cursor
    ensures { Puts (decimal n ∷ []) c out.old result out.new }
{
    if n < 10 {
        return put(out, c, 48 + n as u8);
    }
    let k = put_decimal(out, c, n / 10);
    put(out, k, 48 + (n % 10) as u8)
}

// After the last byte: zeros behind, and the number of the text's bytes in the window.
pub fn finish(out: &mut [u8], c: Cursor) -> usize
    ensures { Finished c out.old result out.new }
{
    if c.at < out.len() {
        out[c.at..].fill(0);
    }
    c.at
}
