// A live run that is opened.
ghost use Rattle.std.specs.Prelude.{◌≡◌, ◌+◌, ◌<◌, ◌≤◌, ◌^◌, IfErr, IfOk, IfSome, IsOk, ⊤};
ghost use Rattle.cli_words.specs.Words.{texts};
ghost use Rattle.command_files.specs.Files.{content};
ghost use Rattle.command_files.specs.Reads.{Reads};
ghost use Rattle.command_files.specs.Stops.{BlamesShelf, IsOfReading};
ghost use Rattle.live_words.specs.Ranges.{IsLiveInRange};
ghost use Rattle.run_model.specs.Program.{lanes};
ghost use Rattle.live_opening.specs.Begun.{run_in, AreTextsOf, IsBegun, IsLive};
ghost use Rattle.live_opening.specs.Files.{live_count, live_files, live_slots, text_count};
ghost use Rattle.live_opening.specs.Files.{text_files};
ghost use Rattle.live_opening.specs.Runs.{live_run, IsLiveRefusal};

use crate::engine::Begun;
use crate::start::begin;
use crate::texts::read_texts;
use batch_steps::Reply;
use bolt_base::Bytes;
use bolt_io::Shelf;
use command_files::Stop;
use live_streams::LiveTexts;
use live_words::LiveCommand;
use round_engine::Engine;
use std::alloc::Global;
use std::thread::Threads;

/// A live run before its first batch: its opening lines, its engine, and what was read of its
/// streams and its files of questions.
#[derive(Drop)]
pub struct LiveRun {
    pub text: Bytes,
    pub engine: Engine,
    pub texts: LiveTexts,
}

// The number of lanes of an engine's program.
fn lane_count(engine: &Engine) -> u32
    ensures { result ≡ lanes engine.now.program }
{
    engine.accepted().program().entries().ranges.len() as u32
}

// Reads the streams and the questions of a run whose engine was opened.
fn with_texts<S: Shelf>(
    alloc: Global,
    shelf: &mut S,
    words: &[String],
    command: &LiveCommand,
    begun: Begun,
) -> Result<LiveRun, Stop>
    requires room { S.opened shelf.old + text_count command.now ≤ 2 ^ 31 }
    requires range { IsLiveInRange command.now }
    requires begun { IsBegun begun }
    ensures engine { IfOk result (λ run. run.engine ≡ begun.engine) }
    ensures live { IfOk result (IsLive command.now) }
    ensures told { IfOk result (λ run. IfSome (S.told shelf.old) (λ t. AreTextsOf
        (texts words.now) command.now (lanes run.engine.program) (content t) run.texts)) }
    ensures reads { Reads (text_files (texts words.now) command.now) (λ _. ⊤)
        (text_count command.now) (λ _. text_count command.now) (S.told shelf.old)
        (S.told shelf.new) (S.opened shelf.old) (S.opened shelf.new) result }
    ensures cause { BlamesShelf result (S.faults shelf.old) (S.faults shelf.new) }
    ensures reading { IfErr result IsOfReading }
{
    let Begun { text, engine } = begun;
    let lanes = lane_count(&engine);
    let texts = read_texts(alloc, shelf, words, command, lanes)?;
    Ok(LiveRun {
        text,
        engine,
        texts,
    })
}

/// Opens the run of the command `live`, or tells the reply that refuses it. The program is read and
/// judged first, then the graph, then the number of cells. Where none of them is refused, all
/// streams and then all questions are read to their ends.
pub fn open_live<S: Shelf, R: Threads + Sync>(
    rt: &R,
    alloc: Global,
    words: &[String],
    command: &LiveCommand,
    shelf: &mut S,
) -> Result<Result<LiveRun, Reply>, Stop>
    requires room { S.opened shelf.old < 2 ^ 30 }
    requires range { IsLiveInRange command.now }
    ensures run { IfOk result (λ r. IfSome (S.told shelf.old) (λ t.
        live_run (texts words.now) command.now (content t)
        ≡ run_in (λ (run : LiveRun). run.engine) r)) }
    ensures live { IfOk result (λ r. IfOk r (IsLive command.now)) }
    ensures told { IfOk result (λ r. IfOk r (λ run. IfSome (S.told shelf.old) (λ t. AreTextsOf
        (texts words.now) command.now (lanes run.engine.program) (content t) run.texts))) }
    ensures status { IfOk result (λ r. IfErr r IsLiveRefusal) }
    ensures reads { Reads (live_files (texts words.now) command.now) IsOk
        (live_count command.now) (live_slots command.now) (S.told shelf.old)
        (S.told shelf.new) (S.opened shelf.old) (S.opened shelf.new) result }
    ensures cause { BlamesShelf result (S.faults shelf.old) (S.faults shelf.new) }
    ensures reading { IfErr result IsOfReading }
{
    match begin(rt, alloc, words, command, shelf)? {
        Ok(begun) => Ok(Ok(with_texts(alloc, shelf, words, command, begun)?)),
        Err(reply) => Ok(Err(reply)),
    }
}
