// Lists the node file on standard input: document 01's listing, or `answer N` alone.
#![tactic(auto)]

use std::io;

// A file longer than any that is accepted has the answer of its first 65,536 bytes (`judged_front`, crate judge).
fn main(rt: HostRuntime) -> io::Result<()> {
    let mut space = [0u8; stream::MOST_BYTES];
    let n = stream::fill(&mut rt.stdin(), &mut space)?;
    lister::show_all(&rt, &space[..n])
}
