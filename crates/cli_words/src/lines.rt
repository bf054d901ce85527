// The forms of command lines.
ghost use Rattle.std.specs.Prelude.{◌≡◌, ◌+◌, ◌*◌, ◌≤◌, IfOk};
ghost use Rattle.cli_words.specs.Words.{texts};
ghost use Rattle.cli_words.specs.Lines.{run_of, once_of, check_of, form_of};
ghost use Rattle.cli_words.specs.Lines.{edits_at as edits_at_of};
ghost use Rattle.cli_words.specs.Lines.{make_of, command_of};
ghost use Rattle.cli_words.specs.Ranges.{IsBetween, IsFormInRange, IsCommandInRange};

use crate::command::{Command, MakeForm, WordsRefusal};
use crate::options::{Offer, read_options};
use crate::words::{file_at, number_at, program_at, word_at};

/// The most vertices of a made graph.
const MOST_VERTICES: u64 = 1_000_000;

/// The most pairs that are drawn for a made graph.
const MOST_PAIRS: u64 = 4_000_000;

/// The most batches of a made stream.
const MOST_BATCHES: u64 = 100_000;

/// The most edits of a batch of a made stream.
const MOST_EDITS: u64 = 1_000_000;

/// The most pairs of a made graph and edits of its stream together.
const MOST_CHANGES: u64 = 8_000_000;

// run PROGRAM GRAPH STREAM, and options.
fn read_run(words: &[String]) -> Result<Command, WordsRefusal>
    ensures command { result ≡ run_of (texts words.now) }
    ensures range { IfOk result IsCommandInRange }
{
    let program = program_at(words, 2)?;
    let graph = file_at(words, 3)?;
    let stream = file_at(words, 4)?;
    let given = read_options(words, 5, Offer::Run)?;
    Ok(Command::Run {
        program,
        graph,
        stream,
        options: given.filled(true),
    })
}

// once PROGRAM GRAPH, and options.
fn read_once(words: &[String]) -> Result<Command, WordsRefusal>
    ensures command { result ≡ once_of (texts words.now) }
    ensures range { IfOk result IsCommandInRange }
{
    let program = program_at(words, 2)?;
    let graph = file_at(words, 3)?;
    let given = read_options(words, 4, Offer::Once)?;
    Ok(Command::Once {
        program,
        graph,
        options: given.filled(true),
    })
}

// check PROGRAM.
fn read_check(words: &[String]) -> Result<Command, WordsRefusal>
    ensures command { result ≡ check_of (texts words.now) }
    ensures range { IfOk result IsCommandInRange }
{
    let program = program_at(words, 2)?;
    let _nothing = read_options(words, 3, Offer::Nothing)?;
    Ok(Command::Check { program })
}

// What is written: graph, stream, or run and options.
fn read_form(words: &[String]) -> Result<MakeForm, WordsRefusal>
    ensures form { result ≡ form_of (texts words.now) }
    ensures range { IfOk result IsFormInRange }
{
    match word_at(words, 7) {
        "graph" => {
            let _nothing = read_options(words, 8, Offer::Nothing)?;
            Ok(MakeForm::Graph)
        }
        "stream" => {
            let _nothing = read_options(words, 8, Offer::Nothing)?;
            Ok(MakeForm::Stream)
        }
        "run" => {
            let given = read_options(words, 8, Offer::Run)?;
            Ok(MakeForm::Run(given.filled(false)))
        }
        _ => Err(WordsRefusal { at: 7 }),
    }
}

// The number of edits at a place, which with the pairs are few enough.
fn edits_at(words: &[String], at: u32, pairs: u64, batches: u64) -> Result<u64, WordsRefusal>
    requires place { 1 ≤ at }
    requires pairs { pairs ≤ MOST_PAIRS }
    requires batches { batches ≤ MOST_BATCHES }
    ensures number { result ≡ edits_at_of pairs batches (texts words.now) at }
    ensures within { IfOk result (IsBetween 1 MOST_EDITS) }
    ensures changes { IfOk result (λ edits. pairs + batches * edits ≤ MOST_CHANGES) }
{
    let edits = number_at(words, at, 1, MOST_EDITS)?;
    if pairs + batches * edits <= MOST_CHANGES {
        Ok(edits)
    } else {
        Err(WordsRefusal { at })
    }
}

// make SEED N M B E, and a form.
fn read_make(words: &[String]) -> Result<Command, WordsRefusal>
    ensures command { result ≡ make_of (texts words.now) }
    ensures range { IfOk result IsCommandInRange }
{
    let seed = number_at(words, 2, 0, u64::MAX)?;
    let vertices = number_at(words, 3, 1, MOST_VERTICES)?;
    let pairs = number_at(words, 4, 1, MOST_PAIRS)?;
    let batches = number_at(words, 5, 0, MOST_BATCHES)?;
    let edits = edits_at(words, 6, pairs, batches)?;
    let form = read_form(words)?;
    Ok(Command::Make {
        seed,
        vertices: vertices as u32,
        pairs: pairs as u32,
        batches: batches as u32,
        edits: edits as u32,
        form,
    })
}

/// The command of words, or the place of the first word that is wrong or missing. The numbers of a
/// command are in their ranges. Takes no memory.
pub fn read_words(words: &[String]) -> Result<Command, WordsRefusal>
    ensures command { result ≡ command_of (texts words.now) }
    ensures range { IfOk result IsCommandInRange }
{
    match word_at(words, 1) {
        "run" => read_run(words),
        "once" => read_once(words),
        "check" => read_check(words),
        "make" => read_make(words),
        _ => Err(WordsRefusal { at: 1 }),
    }
}
