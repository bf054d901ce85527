// The streams and the questions of a live run.
ghost use Rattle.std.specs.Prelude.{◌≡◌, ◌+◌, ◌≤◌, ◌^◌, IfErr, IfOk, IfSome, ⊤};
ghost use Rattle.cli_words.specs.Words.{texts};
ghost use Rattle.command_files.specs.Files.{content};
ghost use Rattle.command_files.specs.Reads.{Reads};
ghost use Rattle.command_files.specs.Stops.{BlamesShelf, IsOfReading};
ghost use Rattle.live_words.specs.Ranges.{IsLiveInRange};
ghost use Rattle.live_opening.specs.Begun.{AreLiveTexts, AreTextsOf};
ghost use Rattle.live_opening.specs.Files.{text_count, text_files};

use crate::names::file_names;
use bolt_io::Shelf;
use command_files::Stop;
use live_streams::{LiveTexts, read_live_texts};
use live_words::LiveCommand;
use std::alloc::Global;

/// Reads the streams and then the questions of the command, to a program with that many lanes.
pub fn read_texts<S: Shelf>(
    alloc: Global,
    shelf: &mut S,
    words: &[String],
    command: &LiveCommand,
    lanes: u32,
) -> Result<LiveTexts, Stop>
    requires room { S.opened shelf.old + text_count command.now ≤ 2 ^ 31 }
    requires range { IsLiveInRange command.now }
    ensures told { IfOk result (λ read. IfSome (S.told shelf.old) (λ t.
        AreTextsOf (texts words.now) command.now lanes (content t) read)) }
    ensures known { IfOk result (AreLiveTexts command.now lanes) }
    ensures reads { Reads (text_files (texts words.now) command.now) (λ _. ⊤)
        (text_count command.now) (λ _. text_count command.now) (S.told shelf.old)
        (S.told shelf.new) (S.opened shelf.old) (S.opened shelf.new) result }
    ensures cause { BlamesShelf result (S.faults shelf.old) (S.faults shelf.new) }
    ensures reading { IfErr result IsOfReading }
{
    let streams = file_names(alloc, words, "--stream=", command.streams.as_slice())?;
    let asks = file_names(alloc, words, "--ask=", command.asks.as_slice())?;
    read_live_texts(alloc, shelf, streams.as_slice(), asks.as_slice(), lanes)
}
