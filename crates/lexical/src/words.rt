//! The words of a line.
ghost use Rattle.std.specs.Prelude.{◌≡◌, ◌+◌, ◌≤◌, ◌∷◌, [], length, drop, MatchOption, IfSome};
ghost use Rattle.lexical.specs.Words.{split_words, words_from};
ghost use Rattle.lexical.specs.Seen.{word_of};

use crate::bytes::{blanks_len, word_len};

/// A word and its place in the line.
#[derive(Clone, Copy, Debug)]
pub struct Word<'a> {
    pub at: usize,
    pub bytes: &'a [u8],
}

/// The first word of a text, and what stands behind it.
pub fn next_word(text: &[u8]) -> Option<(&[u8], &[u8])>
    ensures { MatchOption result (split_words text.now ≡ [])
        (λ r. split_words text.now ≡ r.0.now ∷ split_words r.1.now) }
{
    let start = blanks_len(text);
    if start == text.len() {
        return None;
    }
    let (_blanks, rest) = text.split_at(start);
    let n = word_len(rest);
    Some(rest.split_at(n))
}

/// The first word from a place on.
pub fn word_from(line: &[u8], from: usize) -> Option<Word<'_>>
    requires { from ≤ length line.now }
    ensures found { MatchOption result (words_from 0 from (drop from line.now) ≡ [])
        (λ w. words_from 0 from (drop from line.now)
        ≡ word_of w
        ∷ words_from 0 (w.at + length w.bytes.now) (drop (w.at + length w.bytes.now) line.now)) }
    ensures within { IfSome result (λ w. w.at + length w.bytes.now ≤ length line.now) }
{
    let (_before, text) = line.split_at(from);
    let start = blanks_len(text);
    if start == text.len() {
        return None;
    }
    let at = from + start;
    let (_blanks, rest) = line.split_at(at);
    let n = word_len(rest);
    Some(Word {
        at,
        bytes: &rest[..n],
    })
}
