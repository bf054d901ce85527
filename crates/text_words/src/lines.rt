//! The lines of a program text.
ghost use Rattle.std.specs.Prelude.{◌≡◌, ◌<◌, ◌≤◌, ◌∷◌, length, drop};
ghost use Rattle.lexical.specs.Lines.{front_line, line_length as line_length_of, lines_from};

use lexical::{comment_at, line_feed_at, without_carriage_return};

#[tactic(auto, unfolding(lexical::specs::Lines::front_line))]
fn front(text: &[u8]) -> &[u8]
    ensures value { result.now ≡ front_line text.now }
    ensures within { length result.now ≤ length text.now }
{
    let n = line_feed_at(text);
    if n == text.len() {
        text
    } else {
        without_carriage_return(&text[..n])
    }
}

#[tactic(auto, unfolding(lexical::specs::Lines::line_length))]
fn line_length(text: &[u8]) -> usize
    ensures value { result ≡ line_length_of text.now }
    ensures within { result ≤ length text.now }
{
    comment_at(front(text))
}

/// A line, by its places in the text.
#[derive(Clone, Copy, Debug)]
pub struct Line {
    /// Of its first byte.
    pub at: usize,
    /// Behind what stands before its comment.
    pub stop: usize,
    /// Of the next line.
    pub next: usize,
}

/// The line that begins at a place.
pub fn line_at(text: &[u8], from: usize) -> Line
    requires { from < length text.now }
    ensures found { lines_from 0 from (drop from text.now)
        ≡ (result.at, result.stop) ∷ lines_from 0 result.next (drop result.next text.now) }
    ensures within { result.next ≤ length text.now }
    ensures inside { result.stop ≤ length text.now }
    ensures begins { result.at ≤ result.stop }
    ensures forward { from < result.next }
{
    let (_before, rest) = text.split_at(from);
    let n = line_feed_at(rest);
    let stop = from + line_length(rest);
    let next = if n == rest.len() {
        text.len()
    } else {
        from + n + 1
    };
    Line {
        at: from,
        stop,
        next,
    }
}
