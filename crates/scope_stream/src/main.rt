// Lists a stream of files on standard input, each preceded by its length (4 bytes, most significant first): for each its listing, then a line for
// each Name (`N node M|L slot binding`) and for each slot in order of making (`T scope name`), then the byte 255 four times.
// It ends with the stream, or at a file of more than 65,536 bytes.
#![tactic(auto)]

use answer::NodeClass;
use nodefile::kinds::Kind;
use nodefile::node;
use scope::Records;
use std::io;

// The letter of a Name's class (the program's own: a class has no text).
fn letter(record: u32) -> char {
    match answer::node::class(record) {
        NodeClass::Module => 'M',
        _ => 'L',
    }
}

// The record of a Name: its binding's slot.
fn name_line(rt: &impl Print, node: usize, record: u32) -> io::Result<()> {
    let class = letter(record);
    let slot = answer::node::slot(record);
    let binding = answer::node::binding(record);
    println!(rt; "N {node} {class} {slot} {binding}")
}

fn name_lines(rt: &impl Print, file: &[u8], records: &[u32]) -> io::Result<()> {
    for (i, record) in records.iter().enumerate() {
        if node::named_kind(file, i) == Some(Kind::Name) {
            name_line(rt, i, *record)?;
        }
    }
    Ok(())
}

fn slot_line(rt: &impl Print, file: &[u8], record: u32) -> io::Result<()> {
    let scope = answer::slot::scope(record);
    print!(rt; "T {scope} ")?;
    rt.write_all(nodefile::spelled(
        nodefile::names(file),
        nodefile::pool(file),
        answer::slot::name(record) as usize,
    ))?;
    rt.write_all(b"\n")
}

fn slot_lines(rt: &impl Print, file: &[u8], records: &[u32], count: usize) -> io::Result<()> {
    for record in records.iter().take(count) {
        slot_line(rt, file, *record)?;
    }
    Ok(())
}

// The listing, then the lines for Names and slots.
fn list(rt: &impl Print, file: &[u8]) -> io::Result<()> {
    let mut records = Records::new();
    records.resolve(file);
    lister::show_all(rt, file)?;
    if records.answer.number == 0 {
        name_lines(rt, file, &records.nodes)?;
        slot_lines(rt, file, &records.slots, records.answer.slots)?;
    }
    rt.write_all(b"\xff\xff\xff\xff")
}

fn main(rt: HostRuntime) -> io::Result<()> {
    let mut input = rt.stdin();
    let mut buf = [0u8; stream::MOST_BYTES];
    // a loop as in judge_stream: a closure for its body would need a clause that ties its calls to the bytes that were left
    for _ in 0..stream::MOST_STRINGS {
        let Some(length) = stream::next(&mut input, &mut buf)? else {
            return Ok(());
        };
        list(&rt, &buf[..length])?;
    }
    Ok(())
}
