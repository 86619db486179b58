// A stream of byte strings, each preceded by its length (4 bytes, most significant first), and how a reader fills a buffer.
#![tactic(auto)]

ghost use Rattle.std.specs.Prelude.{◌≡◌, ◌<◌, ◌≤◌, length, take, IfOk, IfSome};
ghost use Rattle.std.specs.Io.KnownBytes.{Consumes, IsAtEnd};
ghost use Rattle.std.specs.Io.{ReadsAtMost};
ghost use Rattle.stream.specs.Frame.{Framed};

use std::io;

// How much of a file a program reads: none that is accepted is longer. Of a longer one standard input gives the first so many bytes, which have its
// answer (`judged_front`, crate judge); a stream ends at it. Each program has the room itself: no function can hand one out without a heap.
pub const MOST_BYTES: usize = 65536;

// How many byte strings a program takes from a stream; no stream has so many.
pub const MOST_STRINGS: u64 = 4294967295;

// Reads until buf is full or the input ends; how many bytes that put at the front of buf.
pub fn fill<R: io::Read>(input: &mut R, buf: &mut [u8]) -> io::Result<usize>
    ensures bound { ReadsAtMost result buf.new }
    ensures bytes { IfOk result (λ n. Consumes (R.remaining input.old) (R.remaining input.new) (take n buf.new)) }
    ensures front { IfOk result (λ n. IfSome (R.remaining input.old) (λ xs. take n buf.new ≡ take (length buf.old) xs)) }
    ensures end { IfOk result (λ n. n < length buf.old → IsAtEnd (R.remaining input.new)) }
    ensures kept { length buf.new ≡ length buf.old }
{
    let mut done = 0;
    while done < buf.len() {
        let n = input.read(&mut buf[done..])?;
        if n == 0 {
            return Ok(done);
        }
        done += n;
    }
    Ok(done)
}

// Reads the next one into the front of buf, and says how long it is; none at the end of the stream, or where one is longer than buf or cut short.
pub fn next<R: io::Read>(input: &mut R, buf: &mut [u8]) -> io::Result<Option<usize>>
    ensures within { IfOk result (λ r. IfSome r (λ n. n ≤ length buf.new)) }
    ensures whole { IfOk result (λ r. IfSome r (λ n. n ≡ length (take n buf.new))) }
    ensures framed { IfOk result (λ r. IfSome r (λ n. Framed (R.remaining input.old) (R.remaining input.new) n (take n buf.new))) }
    ensures kept { length buf.new ≡ length buf.old }
{
    let mut head = [0u8; 4];
    let got = fill(input, &mut head)?;
    if got != 4 {
        return Ok(None);
    }
    let length = bits::field(&head, 0, 32) as usize;
    if length > buf.len() {
        return Ok(None);
    }
    let n = fill(input, &mut buf[..length])?;
    if n != length {
        return Ok(None);
    }
    Ok(Some(length))
}
