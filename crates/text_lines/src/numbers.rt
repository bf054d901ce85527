// Numbers as words.
ghost use Rattle.std.specs.Prelude.{◌≡◌, ◌==◌, slice_index};
ghost use Rattle.text_lines.specs.Numbers.{vertex_word as vertex_of, positive_word, negative_word};
ghost use Rattle.text_lines.specs.Numbers.{whole_word as whole_of};

use lexical::decimal;

/// The number of a vertex word: digits whose number is below 2^32.
#[tactic(auto, unfolding(crate::specs::Numbers::vertex_word))]
pub fn vertex_word(word: &[u8]) -> Option<u32>
    ensures { result ≡ vertex_of word.now }
{
    let number = decimal(word)?;
    if number < 1 << 32 {
        Some(number as u32)
    } else {
        None
    }
}

#[tactic(auto, unfolding(crate::specs::Numbers::positive_word))]
fn positive(word: &[u8]) -> Option<i64>
    ensures { result ≡ positive_word word.now }
{
    let number = decimal(word)?;
    if number < 1 << 63 {
        Some(number as i64)
    } else {
        None
    }
}

#[tactic(auto, unfolding(crate::specs::Numbers::negative_word))]
fn negative(digits: &[u8]) -> Option<i64>
    ensures { result ≡ negative_word digits.now }
{
    let number = decimal(digits)?;
    if number <= 1 << 63 {
        Some(-i128::from(number) as i64)
    } else {
        None
    }
}

fn has_minus(word: &[u8]) -> bool
    ensures { result ≡ (slice_index word.now 0 == 45) }
{
    !word.is_empty() && word[0] == b'-'
}

/// The number of a whole word: an optional `-` and digits, whose number fits an `i64`.
pub fn whole_word(word: &[u8]) -> Option<i64>
    ensures { result ≡ whole_of word.now }
{
    if has_minus(word) {
        let (_sign, digits) = word.split_at(1);
        negative(digits)
    } else {
        positive(word)
    }
}
