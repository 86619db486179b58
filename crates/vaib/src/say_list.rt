// `list`: document 01's listing, as `scopelist` writes it.
use std::io;

pub fn show(rt: &impl Print, file: &[u8]) -> io::Result<()> {
    lister::show_all(rt, file)
}
