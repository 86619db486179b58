// Judges each file of a fixed list on standard input and holds the answer against the one that the list gives: both are numbers, as the list has them.
// The list: how many cases, 4 bytes; then for each its answer, 1 byte, its length, 4 bytes, and its bytes, at most 65,536.
#![tactic(auto)]

ghost use Rattle.std.specs.Prelude.{◌<◌, IfOk};

use std::io;

// How many cases follow.
fn count(input: &mut impl io::Read) -> io::Result<u64>
    ensures { IfOk result (λ n. n < 4294967296) }
{
    let mut head = [0u8; 4];
    stream::fill(input, &mut head)?;
    Ok(bits::field(&head, 0, 32))
}

// The answer to the next file, which is read into a part of a buffer.
fn answer_in(input: &mut impl io::Read, part: &mut [u8]) -> io::Result<u64> {
    let got = stream::fill(input, part)?;
    Ok(judge::judge(&part[..got]))
}

// The answer to the next file, which has so many bytes.
fn answer(input: &mut impl io::Read, length: usize) -> io::Result<u64> {
    let mut space = [0u8; stream::MOST_BYTES];
    let n = length.min(stream::MOST_BYTES);
    answer_in(input, &mut space[..n])
}

fn report(rt: &impl Print, case: u64, expected: u64, answered: u64) -> io::Result<()> {
    println!(rt; "case {case}: expected {expected}, answered {answered}")
}

// Whether the next case is answered as expected; if not, a line says so.
fn right(rt: &impl Print, input: &mut impl io::Read, case: u64) -> io::Result<bool> {
    let mut head = [0u8; 5];
    stream::fill(input, &mut head)?;
    let expected = bits::field(&head, 0, 8);
    let answered = answer(input, bits::field(&head, 8, 32) as usize)?;
    if answered != expected {
        report(rt, case, expected, answered)?;
    }
    Ok(answered == expected)
}

fn summary(rt: &impl Print, cases: u64, bad: u64) -> io::Result<()> {
    println!(rt; "{cases} cases, {bad} wrong")
}

fn main(rt: HostRuntime) -> io::Result<()> {
    let mut input = rt.stdin();
    let cases = count(&mut input)?;
    let mut bad = 0u64;
    for case in 0..cases {
        if !right(&rt, &mut input, case)? {
            bad += 1;
        }
    }
    summary(&rt, cases, bad)
}
