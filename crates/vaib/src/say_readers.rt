// `readers`: for each binding and each global where its readers start in the list, how many they are, and their nodes.
use std::io;

// So many elements of a list from one on, or as many of them as there are (`base::part` is of bytes, and this crate stands on no other reader of parts).
fn part(list: &[u32], from: usize, count: usize) -> &[u32] {
    let rest = &list[from.min(list.len())..];
    &rest[..count.min(rest.len())]
}

fn say_nodes(rt: &impl Print, nodes: &[u32]) -> io::Result<()> {
    for node in nodes {
        print!(rt; " {node}")?;
    }
    rt.write_all(b"\n")
}

// One binding or global.
fn say_line(
    rt: &impl Print,
    letter: char,
    k: usize,
    start: u32,
    count: u32,
    list: &[u32],
) -> io::Result<()> {
    print!(rt; "{letter} {k} {start} {count}:")?;
    say_nodes(rt, part(list, start as usize, count as usize))
}

fn say_lines(
    rt: &impl Print,
    letter: char,
    starts: &[u32],
    counts: &[u32],
    list: &[u32],
) -> io::Result<()> {
    for (k, (start, count)) in starts.iter().zip(counts).enumerate() {
        say_line(rt, letter, k, *start, *count, list)?;
    }
    Ok(())
}

pub fn show(rt: &impl Print, file: &[u8]) -> io::Result<()> {
    let mut nodes = [0u32; answer::NODES];
    let mut bindings = [0u64; answer::BINDINGS];
    let mut module = [0u32; answer::ENTRIES];
    let mut scopes = [0u32; answer::SCOPES];
    let mut slots = [0u32; answer::SLOTS];
    let mut copies = [0u32; answer::COPIES];
    let mut errors = [0u32; answer::ERRORS];
    let mut starts = [0u32; readers::BINDINGS];
    let mut counts = [0u32; readers::BINDINGS];
    let mut list = [0u32; readers::LIST];
    let mut global_starts = [0u32; readers::GLOBALS];
    let mut global_counts = [0u32; readers::GLOBALS];
    let mut global_list = [0u32; readers::LIST];
    let a = readers::readers(
        file,
        &mut nodes,
        &mut bindings,
        &mut module,
        &mut scopes,
        &mut slots,
        &mut copies,
        &mut errors,
        &mut starts,
        &mut counts,
        &mut list,
        &mut global_starts,
        &mut global_counts,
        &mut global_list,
    );
    let number = a.number;
    if number != 0 {
        return println!(rt; "answer {number}");
    }
    let bindings = a.bindings;
    let globals = nodefile::global_count(file) as usize;
    println!(rt; "answer 0 bindings {bindings} globals {globals}")?;
    say_lines(rt, 'R', part(&starts, 0, bindings), &counts, &list)?;
    say_lines(
        rt,
        'G',
        part(&global_starts, 0, globals),
        &global_counts,
        &global_list,
    )
}
