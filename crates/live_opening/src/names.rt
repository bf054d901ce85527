// The files that options name.
ghost use Rattle.std.specs.Prelude.{◌≡◌, ◌≤◌, map, IfOk};
ghost use Rattle.std.specs.List.{All};
ghost use Rattle.cli_words.specs.Words.{texts};
ghost use Rattle.live_opening.specs.Files.{name_behind as name_behind_of, names_behind};

use bolt_base::{Items, Memory};
use command_opening::word_at;
use std::alloc::Global;

/// The names of some files.
pub type Names<'a> = Items<&'a str>;

// The name that stands behind an option in the word at a place.
fn name_behind<'a>(words: &'a [String], option: &str, at: u32) -> &'a str
    requires place { 1 ≤ at }
    ensures { result.now ≡ name_behind_of option.now (texts words.now) at }
{
    match word_at(words, at).strip_prefix(option) {
        Some(name) => name,
        None => "",
    }
}

/// The names that stand behind an option in the words at some places, in order.
pub fn file_names<'a>(
    alloc: Global,
    words: &'a [String],
    option: &str,
    places: &[u32],
) -> Result<Names<'a>, Memory>
    requires places { All (λ at. 1 ≤ at) places.now }
    ensures names { IfOk result (λ names. map (λ n. n.now) names
        ≡ names_behind option.now (texts words.now) places.now) }
{
    let mut names = Names::new(alloc);
    for place in places {
        names.push(name_behind(words, option, *place))?;
    }
    Ok(names)
}
