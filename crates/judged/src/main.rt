// Judges the node file on standard input and writes `answer N`.
#![tactic(auto)]

ghost use Rattle.std.specs.Prelude.{IfOk, IfSome};
ghost use Rattle.judge.specs.Cond.{Judged};

use std::io;

// The answer to all that the input holds: a file longer than any that is accepted has the answer of its first 65,536 bytes (`judged_front`, crate judge).
fn answer<R: io::Read>(input: &mut R) -> io::Result<u64>
    ensures { IfOk result (λ n. IfSome (R.remaining input.old) (λ xs. Judged xs n)) }
{
    let mut space = [0u8; stream::MOST_BYTES];
    let n = stream::fill(input, &mut space)?;
    Ok(judge::judge(&space[..n]))
}

fn main(rt: HostRuntime) -> io::Result<()> {
    let number = answer(&mut rt.stdin())?;
    println!(rt; "answer {number}")
}
