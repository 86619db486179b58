// What is said to someone who needs the words.
use std::io;

// One line on standard error, for a command that names no word.
pub fn line(rt: &impl Eprint) -> io::Result<()> {
    eprintln!(rt;
        "usage: vaib list | judge | answer | readers < NODE-FILE   (vaib --help says more)"
    )
}

pub fn help(rt: &impl Print) -> io::Result<()> {
    println!(rt; "vaib WORD < NODE-FILE\n")?;
    println!(rt;
        "  list     the listing: bindings, module entries, scopes, copies, Idents, errors"
    )?;
    println!(rt; "  judge    `answer N`: 0, or the number of the first condition that is broken")?;
    println!(rt; "  answer   the answer and its seven buffers as 77,856 bytes")?;
    println!(rt; "  readers  the Idents that read each binding and each global\n")?;
    println!(rt; "A refused file prints `answer N` alone; docs/01-scope.md has the numbers.")
}
