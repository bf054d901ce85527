//! The fields of a line, from left to right.
ghost use Rattle.std.specs.Prelude.{◌≡◌, ◌+◌, ◌≤◌, ◌<◌, ◌^◌, length, IfOk};
ghost use Rattle.std.specs.List.{prefix_len, list_all};
ghost use Rattle.vertex_expr.specs.Names.{is_name_byte as is_name, is_name as is_name_word};
ghost use Rattle.lexical.specs.Seen.{word_of};
ghost use Rattle.text_words.specs.Says.{SaysAlways};
ghost use Rattle.text_words.specs.Fields.{is_ascii, ascii_word as ascii_word_of};
ghost use Rattle.text_words.specs.Fields.{word_at as word_of_line, ended_at as ended_of};
ghost use Rattle.text_words.specs.Fields.{whole_of as whole_number, number_at as number_of_line};
ghost use Rattle.text_words.specs.Fields.{signed_at as signed_of_line, name_at as name_of_line};

use crate::error::LangError;
use crate::tokens::is_name_byte;
use lexical::{Word, decimal, word_from};

fn ascii_len(bytes: &[u8]) -> usize
    ensures value { result ≡ prefix_len is_ascii bytes.now }
    ensures within { result ≤ length bytes.now }
{
    bytes.iter().take_while(|b| **b < 128).count()
}

fn is_all_ascii(bytes: &[u8]) -> bool
    ensures { result ≡ list_all is_ascii bytes.now }
{
    bytes.iter().all(|b| *b < 128)
}

pub fn ascii_word(word: Word) -> Result<Word, LangError>
    requires { word.at + length word.bytes.now < 2 ^ 32 }
    ensures says { SaysAlways (λ w. word_of w) result (ascii_word_of (word_of word.entry)) }
    ensures same { IfOk result (λ w. w ≡ word.entry) }
{
    if is_all_ascii(word.bytes) {
        Ok(word)
    } else {
        Err(LangError::Syntax {
            at: (word.at + ascii_len(word.bytes)) as u32,
        })
    }
}

/// The next word.
#[tactic(auto, unfolding(crate::specs::Fields::word_at))]
pub fn word_at(line: &[u8], from: usize) -> Result<Word<'_>, LangError>
    requires within { from ≤ length line.now }
    requires short { length line.now < 2 ^ 32 }
    ensures says { SaysAlways (λ w. word_of w) result (word_of_line line.now from) }
    ensures within { IfOk result (λ w. w.at + length w.bytes.now ≤ length line.now) }
{
    match word_from(line, from) {
        None => Err(LangError::Syntax {
            at: line.len() as u32,
        }),
        Some(word) => ascii_word(word),
    }
}

/// That nothing more stands in the line.
#[tactic(auto, unfolding(crate::specs::Fields::ended_at))]
pub fn ended_at(line: &[u8], from: usize) -> Result<(), LangError>
    requires within { from ≤ length line.now }
    requires short { length line.now < 2 ^ 32 }
    ensures { SaysAlways (λ _. tt) result (ended_of line.now from) }
{
    match word_from(line, from) {
        None => Ok(()),
        Some(word) => {
            let word = ascii_word(word)?;
            Err(LangError::Syntax { at: word.at as u32 })
        }
    }
}

fn is_all_name(bytes: &[u8]) -> bool
    ensures { result ≡ list_all is_name bytes.now }
{
    bytes.iter().all(|b| is_name_byte(*b))
}

#[tactic(auto, unfolding(crate::specs::Fields::whole_of, crate::specs::Fields::unsigned_of))]
fn whole_of(word: &[u8]) -> Option<i128>
    ensures { result ≡ whole_number word.now }
{
    if !word.is_empty() && word[0] == b'-' {
        let (_sign, digits) = word.split_at(1);
        let number = decimal(digits)?;
        Some(-i128::from(number))
    } else {
        let number = decimal(word)?;
        Some(i128::from(number))
    }
}

/// A number from `low` to `high`, and the place behind it.
#[tactic(auto, unfolding(crate::specs::Fields::number_at, crate::specs::Fields::unsigned_of))]
pub fn number_at(line: &[u8], from: usize, low: u64, high: u64) -> Result<(u64, usize), LangError>
    requires within { from ≤ length line.now }
    requires short { length line.now < 2 ^ 32 }
    ensures says { SaysAlways (λ r. r) result (number_of_line line.now from low high) }
    ensures within { IfOk result (λ r. r.1 ≤ length line.now) }
    ensures bounded { IfOk result (λ r. r.0 ≤ high) }
{
    let word = word_at(line, from)?;
    let Some(number) = decimal(word.bytes) else {
        return Err(LangError::Syntax { at: word.at as u32 });
    };
    if low <= number && number <= high {
        Ok((number, word.at + word.bytes.len()))
    } else {
        Err(LangError::TooBig { at: word.at as u32 })
    }
}

/// A whole number from `low` to `high`, and the place behind it.
#[tactic(auto, unfolding(crate::specs::Fields::signed_at))]
pub fn signed_at(line: &[u8], from: usize, low: i64, high: i64) -> Result<(i64, usize), LangError>
    requires within { from ≤ length line.now }
    requires short { length line.now < 2 ^ 32 }
    ensures says { SaysAlways (λ r. r) result (signed_of_line line.now from low high) }
    ensures within { IfOk result (λ r. r.1 ≤ length line.now) }
{
    let word = word_at(line, from)?;
    let Some(number) = whole_of(word.bytes) else {
        return Err(LangError::Syntax { at: word.at as u32 });
    };
    if i128::from(low) <= number && number <= i128::from(high) {
        Ok((number as i64, word.at + word.bytes.len()))
    } else {
        Err(LangError::TooBig { at: word.at as u32 })
    }
}

#[tactic(auto, unfolding(vertex_expr::specs::Names::is_name))]
fn is_name(word: &[u8]) -> bool
    ensures { result ≡ is_name_word word.now }
{
    if word.is_empty() || word.len() > 32 {
        return false;
    }
    if word[0].is_ascii_lowercase() {
        is_all_name(word)
    } else {
        false
    }
}

#[tactic(auto, unfolding(crate::specs::Fields::name_at))]
pub fn name_at(line: &[u8], from: usize) -> Result<Word<'_>, LangError>
    requires within { from ≤ length line.now }
    requires short { length line.now < 2 ^ 32 }
    ensures says { SaysAlways (λ w. word_of w) result (name_of_line line.now from) }
    ensures within { IfOk result (λ w. w.at + length w.bytes.now ≤ length line.now) }
{
    let word = word_at(line, from)?;
    if is_name(word.bytes) {
        Ok(word)
    } else {
        Err(LangError::Syntax { at: word.at as u32 })
    }
}
