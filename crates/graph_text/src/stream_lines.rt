// The lines of a stream of edits.
ghost use Rattle.std.specs.Prelude.{◌≡◌};
ghost use Rattle.std.specs.Option.{option_map};
ghost use Rattle.lexical.specs.Words.{split_words};
ghost use Rattle.graph_text.specs.StreamText.{add_line as add_line_of, cut_line as cut_line_of};
ghost use Rattle.graph_text.specs.StreamText.{attr_line as attr_line_of, one_word as one_word_of};
ghost use Rattle.graph_text.specs.StreamText.{three_words as three_words_of};
ghost use Rattle.graph_text.specs.StreamText.{four_words as four_words_of};
ghost use Rattle.graph_text.specs.StreamText.{form_of as form_of_words};
ghost use Rattle.graph_text.specs.StreamText.{stream_line as stream_line_of};

use bolt_base::{Edge, Edit};
use lexical::{before_comment, next_word};
use text_lines::{vertex_word, whole_word};

/// What a line of a stream says.
#[derive(Clone, Copy, Debug)]
pub enum StreamLine {
    /// Nothing but blanks and a comment.
    Empty,
    /// An edit.
    Edit(Edit),
    /// The end of a batch.
    Commit,
    /// None of the forms.
    Unknown,
}

fn add_line(src: Option<u32>, dst: Option<u32>, weight: Option<i64>) -> StreamLine
    ensures { result ≡ add_line_of src dst weight }
{
    match (src, dst, weight) {
        (Some(src), Some(dst), Some(weight)) => StreamLine::Edit(Edit::Add(Edge {
            src,
            dst,
            weight,
        })),
        _ => StreamLine::Unknown,
    }
}

fn cut_line(src: Option<u32>, dst: Option<u32>) -> StreamLine
    ensures { result ≡ cut_line_of src dst }
{
    match (src, dst) {
        (Some(src), Some(dst)) => StreamLine::Edit(Edit::Cut { src, dst }),
        _ => StreamLine::Unknown,
    }
}

fn attr_line(vertex: Option<u32>, attr: Option<i64>) -> StreamLine
    ensures { result ≡ attr_line_of vertex attr }
{
    match (vertex, attr) {
        (Some(vertex), Some(attr)) => StreamLine::Edit(Edit::Attr { vertex, attr }),
        _ => StreamLine::Unknown,
    }
}

#[tactic(auto, unfolding(crate::specs::StreamText::one_word))]
fn one_word(word: &[u8]) -> StreamLine
    ensures { result ≡ one_word_of word.now }
{
    if word == b"commit".as_slice() {
        StreamLine::Commit
    } else {
        StreamLine::Unknown
    }
}

#[tactic(auto, unfolding(crate::specs::StreamText::three_words))]
fn three_words(sign: &[u8], second: &[u8], third: &[u8]) -> StreamLine
    ensures { result ≡ three_words_of sign.now second.now third.now }
{
    if sign == b"+".as_slice() {
        add_line(vertex_word(second), vertex_word(third), Some(1))
    } else if sign == b"-".as_slice() {
        cut_line(vertex_word(second), vertex_word(third))
    } else if sign == b"v".as_slice() {
        attr_line(vertex_word(second), whole_word(third))
    } else {
        StreamLine::Unknown
    }
}

#[tactic(auto, unfolding(crate::specs::StreamText::four_words))]
fn four_words(sign: &[u8], second: &[u8], third: &[u8], fourth: &[u8]) -> StreamLine
    ensures { result ≡ four_words_of sign.now second.now third.now fourth.now }
{
    if sign == b"+".as_slice() {
        add_line(vertex_word(second), vertex_word(third), whole_word(fourth))
    } else {
        StreamLine::Unknown
    }
}

fn form_of(text: &[u8]) -> StreamLine
    ensures { result ≡ form_of_words (split_words text.now) }
{
    let Some((first, rest)) = next_word(text) else {
        return StreamLine::Empty;
    };
    let Some((second, rest)) = next_word(rest) else {
        return one_word(first);
    };
    let Some((third, rest)) = next_word(rest) else {
        return StreamLine::Unknown;
    };
    let Some((fourth, rest)) = next_word(rest) else {
        return three_words(first, second, third);
    };
    match next_word(rest) {
        None => four_words(first, second, third, fourth),
        Some(_more) => StreamLine::Unknown,
    }
}

/// What a line says; None is a long line.
pub fn stream_line(line: Option<&[u8]>) -> StreamLine
    ensures { result ≡ stream_line_of (option_map (λ l. l.now) line.entry) }
{
    match line {
        None => StreamLine::Unknown,
        Some(line) => form_of(before_comment(line)),
    }
}
