// The lines of a graph text.
ghost use Rattle.std.specs.Prelude.{◌≡◌};
ghost use Rattle.std.specs.Option.{option_map};
ghost use Rattle.lexical.specs.Words.{split_words};
ghost use Rattle.graph_text.specs.GraphText.{vertices_line as vertices_line_of};
ghost use Rattle.graph_text.specs.GraphText.{attr_line as attr_line_of, edge_line as edge_line_of};
ghost use Rattle.graph_text.specs.GraphText.{two_words as two_words_of};
ghost use Rattle.graph_text.specs.GraphText.{three_words as three_words_of};
ghost use Rattle.graph_text.specs.GraphText.{form_of as form_of_words, graph_line as graph_line_of};

use bolt_base::Edge;
use lexical::{before_comment, next_word};
use text_lines::{vertex_word, whole_word};

/// What a line of a graph text says.
#[derive(Clone, Copy, Debug)]
pub enum GraphLine {
    /// Nothing but blanks and a comment.
    Empty,
    /// The number of vertices.
    Vertices(u32),
    /// The attribute of a vertex.
    Attr { vertex: u32, attr: i64 },
    /// An edge.
    Edge(Edge),
    /// None of the forms.
    Unknown,
}

fn vertices_line(count: Option<u32>) -> GraphLine
    ensures { result ≡ vertices_line_of count }
{
    match count {
        None => GraphLine::Unknown,
        Some(n) => GraphLine::Vertices(n),
    }
}

fn attr_line(vertex: Option<u32>, attr: Option<i64>) -> GraphLine
    ensures { result ≡ attr_line_of vertex attr }
{
    match (vertex, attr) {
        (Some(vertex), Some(attr)) => GraphLine::Attr { vertex, attr },
        _ => GraphLine::Unknown,
    }
}

fn edge_line(src: Option<u32>, dst: Option<u32>, weight: Option<i64>) -> GraphLine
    ensures { result ≡ edge_line_of src dst weight }
{
    match (src, dst, weight) {
        (Some(src), Some(dst), Some(weight)) => GraphLine::Edge(Edge { src, dst, weight }),
        _ => GraphLine::Unknown,
    }
}

#[tactic(auto, unfolding(crate::specs::GraphText::two_words))]
fn two_words(first: &[u8], second: &[u8]) -> GraphLine
    ensures { result ≡ two_words_of first.now second.now }
{
    if first == b"vertices".as_slice() {
        vertices_line(vertex_word(second))
    } else {
        edge_line(vertex_word(first), vertex_word(second), Some(1))
    }
}

#[tactic(auto, unfolding(crate::specs::GraphText::three_words))]
fn three_words(first: &[u8], second: &[u8], third: &[u8]) -> GraphLine
    ensures { result ≡ three_words_of first.now second.now third.now }
{
    if first == b"attr".as_slice() {
        attr_line(vertex_word(second), whole_word(third))
    } else {
        edge_line(vertex_word(first), vertex_word(second), whole_word(third))
    }
}

fn form_of(text: &[u8]) -> GraphLine
    ensures { result ≡ form_of_words (split_words text.now) }
{
    let Some((first, rest)) = next_word(text) else {
        return GraphLine::Empty;
    };
    let Some((second, rest)) = next_word(rest) else {
        return GraphLine::Unknown;
    };
    let Some((third, rest)) = next_word(rest) else {
        return two_words(first, second);
    };
    match next_word(rest) {
        None => three_words(first, second, third),
        Some(_more) => GraphLine::Unknown,
    }
}

/// What a line says; None is a long line.
pub fn graph_line(line: Option<&[u8]>) -> GraphLine
    ensures { result ≡ graph_line_of (option_map (λ l. l.now) line.entry) }
{
    match line {
        None => GraphLine::Unknown,
        Some(line) => form_of(before_comment(line)),
    }
}
