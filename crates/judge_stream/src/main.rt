// Judges a stream of files on standard input, each preceded by its length (4 bytes, most significant first): a line with its number for each.
// It ends with the stream, or at a file of more than 65,536 bytes.
#![tactic(auto)]

use std::io;

fn main(rt: HostRuntime) -> io::Result<()> {
    let mut input = rt.stdin();
    let mut buf = [0u8; stream::MOST_BYTES];
    // a loop as in scope_stream: a closure for its body would need a clause that ties its calls to the bytes that were left
    for _ in 0..stream::MOST_STRINGS {
        let Some(length) = stream::next(&mut input, &mut buf)? else {
            return Ok(());
        };
        let number = judge::judge(&buf[..length]);
        println!(rt; "{number}")?;
    }
    Ok(())
}
