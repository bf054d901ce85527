// Commands.

/// The word of a program: its place, counted from 1, and whether it names a file.
#[derive(Clone, Copy, Debug, PartialEq, Eq)]
pub struct ProgramWord {
    pub at: u32,
    pub file: bool,
}

/// The options of a run. A cut of None is the lesser of the program's rounds and 10.
#[derive(Clone, Copy, Debug, PartialEq, Eq)]
pub struct RunOptions {
    pub cut: Option<u32>,
    pub vertical: bool,
    pub workers: u32,
    pub show: bool,
}

/// What is written of a made graph and its stream.
#[derive(Clone, Copy, Debug, PartialEq, Eq)]
pub enum MakeForm {
    Graph,
    Stream,
    Run(RunOptions),
}

/// A command. The files of a graph and a stream are told by the places of their words, counted
/// from 1.
#[derive(Clone, Copy, Debug, PartialEq, Eq)]
pub enum Command {
    Run {
        program: ProgramWord,
        graph: u32,
        stream: u32,
        options: RunOptions,
    },
    Once {
        program: ProgramWord,
        graph: u32,
        options: RunOptions,
    },
    Check {
        program: ProgramWord,
    },
    Make {
        seed: u64,
        vertices: u32,
        pairs: u32,
        batches: u32,
        edits: u32,
        form: MakeForm,
    },
}

/// The place, counted from 1, of the first word that is wrong or missing.
#[derive(Clone, Copy, Debug, PartialEq, Eq)]
pub struct WordsRefusal {
    pub at: u32,
}
