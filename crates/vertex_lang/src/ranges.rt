// The fields of entries that are numbers.
ghost use Rattle.std.specs.Prelude.{◌≤◌, ◌<◌, ◌^◌, length, IfOk};
ghost use Rattle.text_words.specs.Says.{SaysAlways};
ghost use Rattle.vertex_lang.specs.Entries.{range_at as range_of_line};
ghost use Rattle.vertex_lang.specs.Entries.{combine_at as combine_of_line};
ghost use Rattle.vertex_lang.specs.Entries.{index_at as index_of_line, place_at as place_of_line};

use lexical::decimal;
use text_words::{Keyword, LangError, signed_at, word_at};
use vertex_expr::{Combine, LaneRange};

/// LO and HI, with the greatest LO and the least HI, and the place behind them.
#[tactic(auto, unfolding(crate::specs::Entries::range_at))]
pub fn range_at(
    line: &[u8],
    from: usize,
    lo_most: i64,
    hi_least: i64,
) -> Result<(LaneRange, usize), LangError>
    requires within { from ≤ length line.now }
    requires short { length line.now < 2 ^ 32 }
    ensures says { SaysAlways (λ r. r) result (range_of_line line.now from lo_most hi_least) }
    ensures within { IfOk result (λ r. r.1 ≤ length line.now) }
{
    let (lo, next) = signed_at(line, from, i64::MIN, lo_most)?;
    let (hi, end) = signed_at(line, next, lo.max(hi_least), i64::MAX)?;
    Ok((LaneRange { lo, hi }, end))
}

/// How contributions are combined, and the place behind it.
#[tactic(auto, unfolding(crate::specs::Entries::combine_at))]
pub fn combine_at(line: &[u8], from: usize) -> Result<(Combine, usize), LangError>
    requires within { from ≤ length line.now }
    requires short { length line.now < 2 ^ 32 }
    ensures says { SaysAlways (λ r. r) result (combine_of_line line.now from) }
    ensures within { IfOk result (λ r. r.1 ≤ length line.now) }
{
    let word = word_at(line, from)?;
    let next = word.at + word.bytes.len();
    if word.bytes == b"sum".as_slice() {
        Ok((Combine::Sum, next))
    } else if word.bytes == b"min".as_slice() {
        let (empty, end) = signed_at(line, next, i64::MIN, i64::MAX)?;
        Ok((Combine::Min { empty }, end))
    } else if word.bytes == b"max".as_slice() {
        let (empty, end) = signed_at(line, next, i64::MIN, i64::MAX)?;
        Ok((Combine::Max { empty }, end))
    } else {
        Err(LangError::Syntax { at: word.at as u32 })
    }
}

/// The place behind K, which has to be `next`.
#[tactic(auto, unfolding(crate::specs::Entries::index_at, text_words::specs::Fields::unsigned_of))]
pub fn index_at(line: &[u8], from: usize, keyword: Keyword, next: usize) -> Result<usize, LangError>
    requires within { from ≤ length line.now }
    requires short { length line.now < 2 ^ 32 }
    ensures says { SaysAlways (λ r. r) result (index_of_line line.now from keyword next) }
    ensures within { IfOk result (λ r. r ≤ length line.now) }
{
    let word = word_at(line, from)?;
    let at = word.at as u32;
    let Some(number) = decimal(word.bytes) else {
        return Err(LangError::Syntax { at });
    };
    if number < next as u64 {
        Err(LangError::Repeat { at })
    } else if (next as u64) < number {
        Err(LangError::Missing { word: keyword })
    } else {
        Ok(word.at + word.bytes.len())
    }
}

/// The place behind K, which has to be a lane and `next`.
#[tactic(auto, unfolding(crate::specs::Entries::place_at, text_words::specs::Fields::unsigned_of))]
pub fn place_at(
    line: &[u8],
    from: usize,
    keyword: Keyword,
    next: usize,
    lanes: usize,
) -> Result<usize, LangError>
    requires within { from ≤ length line.now }
    requires short { length line.now < 2 ^ 32 }
    ensures says { SaysAlways (λ r. r) result (place_of_line line.now from keyword next lanes) }
    ensures within { IfOk result (λ r. r ≤ length line.now) }
{
    let word = word_at(line, from)?;
    let at = word.at as u32;
    let Some(number) = decimal(word.bytes) else {
        return Err(LangError::Syntax { at });
    };
    if lanes as u64 <= number {
        Err(LangError::TooBig { at })
    } else if number < next as u64 {
        Err(LangError::Repeat { at })
    } else if (next as u64) < number {
        Err(LangError::Missing { word: keyword })
    } else {
        Ok(word.at + word.bytes.len())
    }
}
