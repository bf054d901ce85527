// Words by their places, counted from 1.
ghost use Rattle.std.specs.Prelude.{◌≡◌, ◌≤◌, None, Some, MatchOption, IfOk};
ghost use Rattle.cli_words.specs.Words.{texts, word_at as word_of, is_file as is_file_of};
ghost use Rattle.cli_words.specs.Words.{behind as behind_of};
ghost use Rattle.cli_words.specs.Words.{is_shipped as is_shipped_of, program_of};
ghost use Rattle.cli_words.specs.Words.{file_at as file_at_of};
ghost use Rattle.cli_words.specs.Words.{program_at as program_at_of, number_at as number_at_of};
ghost use Rattle.cli_words.specs.Ranges.{IsBetween};

use crate::command::{ProgramWord, WordsRefusal};
use crate::numbers::number_in;
use bolt_ship::shipped;

/// The word at a place. A word that is missing counts as empty.
pub fn word_at(words: &[String], at: u32) -> &str
    requires place { 1 ≤ at }
    ensures { result.now ≡ word_of (texts words.now) at }
{
    let k = at as usize - 1;
    if k < words.len() {
        words[k].as_str()
    } else {
        ""
    }
}

/// What stands in a word behind a prefix.
pub fn behind<'a>(word: &'a [u8], prefix: &[u8]) -> Option<&'a [u8]>
    ensures { MatchOption result (behind_of prefix.now word.now ≡ None)
        (λ rest. behind_of prefix.now word.now ≡ Some rest.now) }
{
    word.strip_prefix(prefix)
}

// Whether a word can name a file: it isn't empty and doesn't begin with two dashes.
fn is_file(word: &[u8]) -> bool
    ensures { result ≡ is_file_of word.now }
{
    word.len() != 0 && !word.starts_with(b"--")
}

// Whether a word is the name of a shipped program.
#[tactic(auto, unfolding(crate::specs::Words::is_shipped))]
fn is_shipped(word: &str) -> bool
    ensures { result ≡ is_shipped_of word.now }
{
    shipped(word).is_some()
}

// A program's word: a shipped name, or `file:` and a word that can name a file.
fn program(word: &str, at: u32) -> Option<ProgramWord>
    ensures { result ≡ program_of word.now at }
{
    if is_shipped(word) {
        return Some(ProgramWord { at, file: false });
    }
    let name = behind(word.as_bytes(), b"file:")?;
    if is_file(name) {
        Some(ProgramWord { at, file: true })
    } else {
        None
    }
}

/// The program's word at a place.
pub fn program_at(words: &[String], at: u32) -> Result<ProgramWord, WordsRefusal>
    requires place { 1 ≤ at }
    ensures { result ≡ program_at_of (texts words.now) at }
{
    match program(word_at(words, at), at) {
        Some(program) => Ok(program),
        None => Err(WordsRefusal { at }),
    }
}

/// The place, if its word can name a file.
pub fn file_at(words: &[String], at: u32) -> Result<u32, WordsRefusal>
    requires place { 1 ≤ at }
    ensures { result ≡ file_at_of (texts words.now) at }
{
    if is_file(word_at(words, at).as_bytes()) {
        Ok(at)
    } else {
        Err(WordsRefusal { at })
    }
}

/// The number at a place, from `least` to `most`.
pub fn number_at(words: &[String], at: u32, least: u64, most: u64) -> Result<u64, WordsRefusal>
    requires place { 1 ≤ at }
    ensures number { result ≡ number_at_of least most (texts words.now) at }
    ensures within { IfOk result (IsBetween least most) }
{
    match number_in(word_at(words, at).as_bytes(), least, most) {
        Some(number) => Ok(number),
        None => Err(WordsRefusal { at }),
    }
}
