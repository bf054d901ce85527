// The lines of a question text.
ghost use Rattle.std.specs.Prelude.{◌≡◌};
ghost use Rattle.std.specs.Option.{option_map};
ghost use Rattle.lexical.specs.Words.{split_words};
ghost use Rattle.live_text.specs.Questions.{lane_word as lane_word_of};
ghost use Rattle.live_text.specs.Questions.{value_question as value_question_of};
ghost use Rattle.live_text.specs.Questions.{total_question as total_question_of};
ghost use Rattle.live_text.specs.Questions.{at_least_question as at_least_question_of};
ghost use Rattle.live_text.specs.Questions.{one_word as one_word_of, two_words as two_words_of};
ghost use Rattle.live_text.specs.Questions.{three_words as three_words_of};
ghost use Rattle.live_text.specs.Questions.{form_of as form_of_words};
ghost use Rattle.live_text.specs.Questions.{question_line as question_line_of};

use crate::question::Question;
use board::Query;
use lexical::{before_comment, next_word};
use text_lines::{vertex_word, whole_word};

// The lane that a word names, where there is one of that number.
#[tactic(auto, unfolding(crate::specs::Questions::lane_word))]
fn lane_word(word: &[u8], lanes: u32) -> Option<u32>
    ensures { result ≡ lane_word_of lanes word.now }
{
    let lane = vertex_word(word)?;
    if lane < lanes { Some(lane) } else { None }
}

fn value_question(vertex: Option<u32>) -> Question
    ensures { result ≡ value_question_of vertex }
{
    match vertex {
        None => Question::Unknown,
        Some(vertex) => Question::Ask(Query::Value(vertex)),
    }
}

fn total_question(lane: Option<u32>) -> Question
    ensures { result ≡ total_question_of lane }
{
    match lane {
        None => Question::Unknown,
        Some(lane) => Question::Ask(Query::Total(lane)),
    }
}

fn at_least_question(lane: Option<u32>, least: Option<i64>) -> Question
    ensures { result ≡ at_least_question_of lane least }
{
    match (lane, least) {
        (Some(lane), Some(least)) => Question::Ask(Query::AtLeast(lane, least)),
        _ => Question::Unknown,
    }
}

#[tactic(auto, unfolding(crate::specs::Questions::one_word))]
fn one_word(word: &[u8]) -> Question
    ensures { result ≡ one_word_of word.now }
{
    if word == b"prefix".as_slice() {
        Question::Ask(Query::Prefix)
    } else {
        Question::Unknown
    }
}

#[tactic(auto, unfolding(crate::specs::Questions::two_words))]
fn two_words(lanes: u32, first: &[u8], second: &[u8]) -> Question
    ensures { result ≡ two_words_of lanes first.now second.now }
{
    if first == b"value".as_slice() {
        value_question(vertex_word(second))
    } else if first == b"total".as_slice() {
        total_question(lane_word(second, lanes))
    } else {
        Question::Unknown
    }
}

#[tactic(auto, unfolding(crate::specs::Questions::three_words))]
fn three_words(lanes: u32, first: &[u8], second: &[u8], third: &[u8]) -> Question
    ensures { result ≡ three_words_of lanes first.now second.now third.now }
{
    if first == b"atleast".as_slice() {
        at_least_question(lane_word(second, lanes), whole_word(third))
    } else {
        Question::Unknown
    }
}

fn form_of(lanes: u32, text: &[u8]) -> Option<Question>
    ensures { result ≡ form_of_words lanes (split_words text.now) }
{
    let (first, rest) = next_word(text)?;
    let Some((second, rest)) = next_word(rest) else {
        return Some(one_word(first));
    };
    let Some((third, rest)) = next_word(rest) else {
        return Some(two_words(lanes, first, second));
    };
    match next_word(rest) {
        None => Some(three_words(lanes, first, second, third)),
        Some(_more) => Some(Question::Unknown),
    }
}

/// What a line asks a program with that many lanes; an empty line asks nothing. None is a long
/// line.
pub fn question_line(lanes: u32, line: Option<&[u8]>) -> Option<Question>
    ensures { result ≡ question_line_of lanes (option_map (λ l. l.now) line.entry) }
{
    match line {
        None => Some(Question::Unknown),
        Some(line) => form_of(lanes, before_comment(line)),
    }
}
