// The question reader.
ghost use Rattle.std.specs.Prelude.{◌≡◌, ◌<◌, [], ◌++◌, IfOk, OnOk, IfSome};
ghost use Rattle.std.specs.Option.{option_to_list};
ghost use Rattle.std.specs.Result.{result_err};
ghost use Rattle.bolt_io.specs.declared.whole.TheConstants.{MOST_BYTES};
ghost use Rattle.bolt_io.specs.Told.{left};
ghost use Rattle.text_lines.specs.Feed.{IsAtEnd, ahead, readable};
ghost use Rattle.text_lines.specs.Reading.{FeedReads};
ghost use Rattle.live_text.specs.Questions.{AreWithin, questions_in, questions as questions_of};
ghost use Rattle.live_text.specs.Reading.{ReadsQuestions};

use crate::question::{Question, QuestionList};
use crate::question_lines::question_line;
use bolt_base::Memory;
use bolt_io::Shelf;
use std::alloc::Global;
use text_lines::{FeedError, LineFeed};

// Appends a question, if there is one.
fn take_question(questions: &mut QuestionList, question: Option<Question>) -> Result<(), Memory>
    ensures { OnOk result (questions.new ≡ questions.old ++ option_to_list question) }
{
    if let Some(question) = question {
        questions.push(question)?;
    }
    Ok(())
}

// Appends the questions of the lines that are still to come.
fn take_lines<S: Shelf>(
    questions: &mut QuestionList,
    feed: &mut LineFeed,
    shelf: &mut S,
    lanes: u32,
) -> Result<(), FeedError>
    requires slot { feed.old.slot < S.opened shelf.old }
    ensures read { OnOk result (IfSome (ahead (S.told shelf.old) feed.old)
        (λ lines. questions.new ≡ questions.old ++ questions_in lanes lines)) }
    ensures lanes { OnOk result
        (AreWithin lanes questions.old → AreWithin lanes questions.new) }
    ensures end { OnOk result (IsAtEnd (S.told shelf.new) feed.new) }
    ensures reads { FeedReads S.told S.opened S.faults shelf.old shelf.new feed.old feed.new
        (result_err result) }
    ensures fewer { OnOk result (feed.new.taken < MOST_BYTES) }
{
    'lines: loop {
        let Some(found) = feed.find(shelf)? else {
            return Ok(());
        };
        let question = question_line(lanes, feed.text(found));
        take_question(questions, question)?;
        feed.skip(found);
    }
}

/// The questions of a slot's text to a program with that many lanes; the text is read to its end.
/// `Turns` comes exactly where 2^40 bytes were taken and another read is needed.
pub fn read_questions<S: Shelf>(
    alloc: Global,
    shelf: &mut S,
    slot: u32,
    lanes: u32,
) -> Result<QuestionList, FeedError>
    requires slot { slot < S.opened shelf.old }
    ensures questions { IfOk result (λ questions. IfSome (S.told shelf.old)
        (λ t. questions ≡ questions_of lanes (readable t slot))) }
    ensures lanes { IfOk result (AreWithin lanes) }
    ensures end { OnOk result (IfSome (S.told shelf.new) (λ t. left t slot ≡ [])) }
    ensures reads { ReadsQuestions S.told S.opened S.faults shelf.old shelf.new slot result }
{
    let mut questions = QuestionList::new(alloc);
    let mut feed = LineFeed::new(alloc, slot);
    take_lines(&mut questions, &mut feed, shelf, lanes)?;
    Ok(questions)
}
