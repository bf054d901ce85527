// The words of a command line.
ghost use Rattle.std.specs.Prelude.{◌≡◌, ◌≤◌};
ghost use Rattle.cli_words.specs.Words.{texts, word_at as word_at_of};

/// The word at a place, counted from 1. A word that is missing counts as empty.
pub fn word_at(words: &[String], at: u32) -> &str
    requires place { 1 ≤ at }
    ensures { result.now ≡ word_at_of (texts words.now) at }
{
    let k = at as usize - 1;
    if k < words.len() {
        words[k].as_str()
    } else {
        ""
    }
}
