// The form of the command's line.
ghost use Rattle.std.specs.Prelude.{◌≡◌, IfOk};
ghost use Rattle.cli_words.specs.Words.{texts};
ghost use Rattle.live_words.specs.Lines.{is_live as is_live_of, live_line, live_of};
ghost use Rattle.live_words.specs.Ranges.{IsLiveInRange};

use crate::command::LiveCommand;
use crate::options::read_options;
use crate::words::{file_at, program_at, word_at};
use cli_words::WordsRefusal;

/// Whether the first word is `live`.
pub fn is_live(words: &[String]) -> bool
    ensures { result ≡ is_live_of (texts words.now) }
{
    match word_at(words, 1) {
        "live" => true,
        _ => false,
    }
}

// live PROGRAM GRAPH, and options.
fn read_line(words: &[String]) -> Result<LiveCommand, WordsRefusal>
    ensures command { result ≡ live_line (texts words.now) }
    ensures range { IfOk result IsLiveInRange }
{
    let program = program_at(words, 2)?;
    let graph = file_at(words, 3)?;
    let given = read_options(words, 4)?;
    let options = given.run_options();
    Ok(LiveCommand {
        program,
        graph,
        streams: given.streams,
        asks: given.asks,
        options,
    })
}

/// The command of words, or the place of the first word that is wrong or missing. There are 1 to
/// 16 streams and at most 16 question files. Takes no memory.
pub fn read_live(words: &[String]) -> Result<LiveCommand, WordsRefusal>
    ensures command { result ≡ live_of (texts words.now) }
    ensures range { IfOk result IsLiveInRange }
{
    if is_live(words) {
        read_line(words)
    } else {
        Err(WordsRefusal { at: 1 })
    }
}
