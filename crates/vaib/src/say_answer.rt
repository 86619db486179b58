// `answer`: eight numbers of 32 bits, then the seven answer buffers at their full lengths, every element most significant byte first: 77,856 bytes.
use answer::Answer;
use scope::Records;
use sheet::Word;
use std::io;

// No list is longer than 4,096 elements.
const LONGEST: usize = 4096;

fn say<T: Word>(rt: &impl Print, list: &[T]) -> io::Result<()> {
    let n = list.len();
    if n > LONGEST {
        return Ok(());
    }
    let mut out = [0u8; 8 * LONGEST];
    sheet::put(&mut out, 0, list);
    rt.write_all(&out[..T::WIDTH * n / 8])
}

// A number of the answer as 32 bits; none is so large that it would be cut (`try_from` would bring an error that cannot be).
fn low(x: usize) -> u32 {
    (x % 4294967296) as u32
}

fn say_numbers(rt: &impl Print, a: Answer) -> io::Result<()> {
    let numbers = [
        low(a.number as usize),
        low(a.bindings),
        low(a.module),
        low(a.slots),
        low(a.copies),
        low(a.errors),
        0,
        0,
    ];
    say(rt, &numbers)
}

pub fn show(rt: &impl Print, file: &[u8]) -> io::Result<()> {
    let mut records = Records::new();
    records.resolve(file);
    say_numbers(rt, records.answer)?;
    say(rt, &records.nodes)?;
    say(rt, &records.bindings)?;
    say(rt, &records.module)?;
    say(rt, &records.scopes)?;
    say(rt, &records.slots)?;
    say(rt, &records.copies)?;
    say(rt, &records.errors)
}
