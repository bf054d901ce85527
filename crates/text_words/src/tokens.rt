//! The tokens of a line.
ghost use Rattle.std.specs.Prelude.{◌≡◌, ◌+◌, ◌-◌, ◌<◌, ◌≤◌, ◌∷◌, [], length, drop, slice_index};
ghost use Rattle.std.specs.Prelude.{MatchOption, IfSome};
ghost use Rattle.std.specs.List.{prefix_len};
ghost use Rattle.std.specs.Char.{is_ascii_digit};
ghost use Rattle.text_words.specs.Seen.{seen};
ghost use Rattle.text_words.specs.Tokens.{front_number as front_number_of};
ghost use Rattle.text_words.specs.Tokens.{number_behind as number_behind_of};
ghost use Rattle.text_words.specs.Tokens.{first_token as first_token_of, tokens_from};
ghost use Rattle.vertex_expr.specs.Names.{is_name_byte as is_name};

use crate::token::Token;
use lexical::{capped_number, is_blank};

pub fn is_name_byte(b: u8) -> bool
    ensures { result ≡ is_name b }
{
    b.is_ascii_lowercase() || b.is_ascii_digit() || b == b'_'
}

fn digits_len(text: &[u8]) -> usize
    ensures value { result ≡ prefix_len is_ascii_digit text.now }
    ensures within { result ≤ length text.now }
{
    text.iter().take_while(|b| b.is_ascii_digit()).count()
}

fn name_len(text: &[u8]) -> usize
    ensures value { result ≡ prefix_len is_name text.now }
    ensures within { result ≤ length text.now }
{
    text.iter().take_while(|b| is_name_byte(**b)).count()
}

/// The number of the digits in front.
fn front_number(text: &[u8]) -> u64
    ensures { result ≡ front_number_of text.now }
{
    let n = digits_len(text);
    capped_number(&text[..n])
}

fn number_behind(text: &[u8]) -> Option<u64>
    ensures { result ≡ number_behind_of text.now }
{
    if digits_len(text) == 0 {
        None
    } else {
        Some(front_number(text))
    }
}

/// The token in front, and how many bytes it has.
#[tactic(auto, unfolding(crate::specs::Tokens::first_token))]
fn first_token(text: &[u8]) -> (Token<'_>, usize)
    requires { 0 < length text.now }
    ensures token { first_token_of (slice_index text.now 0) (drop 1 text.now)
        ≡ (seen result.0, result.1) }
    ensures some { 0 < result.1 }
    ensures within { result.1 ≤ length text.now }
{
    let b = text[0];
    if b.is_ascii_digit() {
        (Token::Number(front_number(text)), digits_len(text))
    } else if b.is_ascii_lowercase() {
        let n = name_len(text);
        (Token::Word(&text[..n]), n)
    } else if b == b'-' {
        (Token::Dash(number_behind(&text[1..])), 1)
    } else if b == b'<' && text.len() > 1 && text[1] == b'=' {
        (Token::AtMost, 2)
    } else {
        (Token::Mark(b), 1)
    }
}

#[derive(Clone, Copy, Debug)]
pub struct PlacedToken<'a> {
    pub token: Token<'a>,
    pub at: usize,
    pub next: usize,
}

/// The first token from a place on.
pub fn next_token(text: &[u8], from: usize) -> Option<PlacedToken<'_>>
    requires { from ≤ length text.now }
    ensures found { MatchOption result (tokens_from 0 from (drop from text.now) ≡ [])
        (λ f. tokens_from 0 from (drop from text.now)
        ≡ (seen f.token, f.at) ∷ tokens_from 0 f.next (drop f.next text.now)) }
    ensures within { IfSome result (λ f. f.next ≤ length text.now) }
    ensures forward { IfSome result (λ f. from < f.next) }
    ensures inside { IfSome result (λ f. f.at < f.next) }
{
    let mut at = from;
    'blanks: while at < text.len() {
        if !is_blank(text[at]) {
            let (_blanks, rest) = text.split_at(at);
            let (token, len) = first_token(rest);
            return Some(PlacedToken {
                token,
                at,
                next: at + len,
            });
        }
        at += 1;
    }
    None
}
