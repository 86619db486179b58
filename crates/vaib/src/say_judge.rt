// `judge`: the number of a file, judging alone.
use std::io;

pub fn show(rt: &impl Print, file: &[u8]) -> io::Result<()> {
    let number = judge::judge(file);
    println!(rt; "answer {number}")
}
