// Words by their places, counted from 1.
ghost use Rattle.std.specs.Prelude.{◌≡◌, ◌≤◌, None, Some, MatchOption, IfOk, IfSome};
ghost use Rattle.cli_words.specs.Options.{count_of};
ghost use Rattle.cli_words.specs.Ranges.{IsBetween};
ghost use Rattle.cli_words.specs.Words.{texts, word_at as word_of, is_file as is_file_of};
ghost use Rattle.cli_words.specs.Words.{behind as behind_of};
ghost use Rattle.cli_words.specs.Words.{is_shipped as is_shipped_of, program_of};
ghost use Rattle.cli_words.specs.Words.{file_at as file_at_of, program_at as program_at_of};

use bolt_ship::shipped;
use cli_words::{ProgramWord, WordsRefusal};
use lexical::decimal;

/// The greatest cut and the most workers.
const MOST_COUNT: u64 = 64;

/// The word at a place. A word that is missing counts as empty.
pub fn word_at(words: &[String], at: u32) -> &str
    requires place { 1 ≤ at }
    ensures { result.now ≡ word_of (texts words.now) at }
{
    let k = at as usize - 1;
    if k < words.len() {
        words[k].as_str()
    } else {
        ""
    }
}

/// What stands in a word behind a prefix.
pub fn behind<'a>(word: &'a [u8], prefix: &[u8]) -> Option<&'a [u8]>
    ensures { MatchOption result (behind_of prefix.now word.now ≡ None)
        (λ rest. behind_of prefix.now word.now ≡ Some rest.now) }
{
    word.strip_prefix(prefix)
}

/// Whether a word can name a file: it isn't empty and doesn't begin with two dashes.
pub fn is_file(word: &[u8]) -> bool
    ensures { result ≡ is_file_of word.now }
{
    word.len() != 0 && !word.starts_with(b"--")
}

// Whether a word is the name of a shipped program.
#[tactic(auto, unfolding(cli_words::specs::Words::is_shipped))]
fn is_shipped(word: &str) -> bool
    ensures { result ≡ is_shipped_of word.now }
{
    shipped(word).is_some()
}

// A program's word: a shipped name, or `file:` and a word that can name a file.
fn program(word: &str, at: u32) -> Option<ProgramWord>
    ensures word { result ≡ program_of word.now at }
    ensures there { IfSome result (λ program. program.at ≡ at) }
{
    if is_shipped(word) {
        return Some(ProgramWord { at, file: false });
    }
    let name = behind(word.as_bytes(), b"file:")?;
    if is_file(name) {
        Some(ProgramWord { at, file: true })
    } else {
        None
    }
}

/// The program's word at a place.
pub fn program_at(words: &[String], at: u32) -> Result<ProgramWord, WordsRefusal>
    requires place { 1 ≤ at }
    ensures word { result ≡ program_at_of (texts words.now) at }
    ensures there { IfOk result (λ program. program.at ≡ at) }
{
    match program(word_at(words, at), at) {
        Some(program) => Ok(program),
        None => Err(WordsRefusal { at }),
    }
}

/// The place, if its word can name a file.
pub fn file_at(words: &[String], at: u32) -> Result<u32, WordsRefusal>
    requires place { 1 ≤ at }
    ensures word { result ≡ file_at_of (texts words.now) at }
    ensures there { IfOk result (λ place. place ≡ at) }
{
    if is_file(word_at(words, at).as_bytes()) {
        Ok(at)
    } else {
        Err(WordsRefusal { at })
    }
}

/// The number of a word of digits, where it is from 1 to 64.
pub fn count_in(word: &[u8]) -> Option<u32>
    ensures count { result ≡ count_of word.now }
    ensures within { IfSome result (IsBetween 1 MOST_COUNT) }
{
    let count = decimal(word)?;
    if 1 <= count && count <= MOST_COUNT {
        Some(count as u32)
    } else {
        None
    }
}
