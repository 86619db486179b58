// The words, as they stand on the command line.

// What is made of a node file.
#[derive(Clone, Copy)]
pub enum Word {
    List,
    Judge,
    Answer,
    Readers,
}

// What the command line asks for.
#[derive(Clone, Copy)]
pub enum Asked {
    Run(Word),
    Help,
    Unknown,
}

pub fn read(text: &[u8]) -> Asked {
    match text {
        b"list" => Asked::Run(Word::List),
        b"judge" => Asked::Run(Word::Judge),
        b"answer" => Asked::Run(Word::Answer),
        b"readers" => Asked::Run(Word::Readers),
        b"--help" => Asked::Help,
        _ => Asked::Unknown,
    }
}
