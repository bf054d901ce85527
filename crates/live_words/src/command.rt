// The command `live`.
use crate::places::Places;
use cli_words::{ProgramWord, RunOptions};

/// The command `live`. The files of a graph, of streams and of questions are told by the places of
/// their words, counted from 1.
#[derive(Drop)]
pub struct LiveCommand {
    pub program: ProgramWord,
    pub graph: u32,
    pub streams: Places,
    pub asks: Places,
    pub options: RunOptions,
}
