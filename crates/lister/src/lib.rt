// A file's listing on standard output, a window at a time, since a listing may be longer than any buffer.
#![tactic(auto)]

use std::io;

const WINDOW: usize = 65536;

// No listing has so many windows.
const WINDOWS: usize = 16384;

// The next window of the listing; true if there may be more behind it.
fn show(rt: &impl Print, file: &[u8], from: usize) -> io::Result<bool> {
    let mut window = [0u8; WINDOW];
    let n = listing::listing(file, from, &mut window);
    rt.write_all(&window[..n])?;
    Ok(n == WINDOW)
}

// The windows, one after the other.
pub fn show_all(rt: &impl Print, file: &[u8]) -> io::Result<()> {
    for i in 0..WINDOWS {
        if !show(rt, file, i * WINDOW)? {
            return Ok(());
        }
    }
    Ok(())
}
