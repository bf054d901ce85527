// Reads all files of a live run.
ghost use Rattle.std.specs.Prelude.{◌≡◌, ◌+◌, ◌≤◌, ◌^◌, ◌++◌, length, map, IfErr, IfOk, IfSome, ⊤};
ghost use Rattle.std.specs.List.{All};
ghost use Rattle.command_files.specs.Files.{content};
ghost use Rattle.command_files.specs.Reads.{Reads};
ghost use Rattle.command_files.specs.Stops.{BlamesShelf, IsOfReading};
ghost use Rattle.live_text.specs.Questions.{AreWithin};
ghost use Rattle.live_course.specs.Made.{AreSound};
ghost use Rattle.live_streams.specs.Texts.{questions_of, streams_of, whole_files};

use crate::questions::{QuestionFiles, read_question_files};
use crate::streams::{StreamFiles, read_stream_files};
use bolt_io::Shelf;
use command_files::Stop;
use std::alloc::Global;

/// What a live run is given: the batches of each stream, and the questions of each file of
/// questions.
#[derive(Debug, Drop)]
pub struct LiveTexts {
    pub streams: StreamFiles,
    pub questions: QuestionFiles,
}

/// Reads all streams to their ends, and then all questions to a program with that many lanes.
pub fn read_live_texts<S: Shelf>(
    alloc: Global,
    shelf: &mut S,
    streams: &[&str],
    asks: &[&str],
    lanes: u32,
) -> Result<LiveTexts, Stop>
    requires { S.opened shelf.old + length streams.now + length asks.now ≤ 2 ^ 31 }
    ensures streams { IfOk result (λ texts. IfSome (S.told shelf.old)
        (λ t. texts.streams ≡ streams_of (map (λ n. n.now) streams.now) (content t))) }
    ensures questions { IfOk result (λ texts. IfSome (S.told shelf.old)
        (λ t. texts.questions ≡ questions_of lanes (map (λ n. n.now) asks.now) (content t))) }
    ensures sound { IfOk result (λ texts. AreSound texts.streams) }
    ensures lanes { IfOk result (λ texts. All (AreWithin lanes) texts.questions) }
    ensures count { IfOk result (λ texts. length texts.streams ≡ length streams.now) }
    ensures asked { IfOk result (λ texts. length texts.questions ≡ length asks.now) }
    ensures reads { Reads (λ c. whole_files (map (λ n. n.now) streams.now) c
        ++ whole_files (map (λ n. n.now) asks.now) c) (λ _. ⊤)
        (length streams.now + length asks.now) (λ _. length streams.now + length asks.now)
        (S.told shelf.old) (S.told shelf.new) (S.opened shelf.old) (S.opened shelf.new) result }
    ensures cause { BlamesShelf result (S.faults shelf.old) (S.faults shelf.new) }
    ensures reading { IfErr result IsOfReading }
{
    let streams = read_stream_files(alloc, shelf, streams)?;
    let questions = read_question_files(alloc, shelf, asks, lanes)?;
    Ok(LiveTexts { streams, questions })
}
