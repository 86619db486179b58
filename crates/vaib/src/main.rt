// The program for people and scripts: `vaib WORD < FILE`, a node file on standard input. Each word has a file of its own; `usage` has them all.
#![tactic(auto)]

mod say_answer;
mod say_judge;
mod say_list;
mod say_readers;
mod usage;
mod word;

use std::env::Env;
use std::io;
use word::{Asked, Word};

// What a word makes of the file. One longer than any that is accepted has the answer of its first 65,536 bytes (`judged_front`, crate judge).
fn run(rt: &impl Print, input: &mut impl io::Read, word: Word) -> io::Result<()> {
    let mut space = [0u8; stream::MOST_BYTES];
    let n = stream::fill(input, &mut space)?;
    let file = &space[..n];
    match word {
        Word::List => say_list::show(rt, file),
        Word::Judge => say_judge::show(rt, file),
        Word::Answer => say_answer::show(rt, file),
        Word::Readers => say_readers::show(rt, file),
    }
}

// What the first argument asks for. One that is missing, or longer than any word, asks for nothing known.
fn asked(rt: &impl Env) -> Asked {
    let mut space = [0u8; 32];
    match rt.arg(1, &mut space) {
        Ok(n) => word::read(&space[..n]),
        Err(_) => Asked::Unknown,
    }
}

fn main(rt: HostRuntime) -> io::Result<()> {
    match asked(&rt) {
        Asked::Run(word) => run(&rt, &mut rt.stdin(), word),
        Asked::Help => usage::help(&rt),
        Asked::Unknown => usage::line(&rt),
    }
}
