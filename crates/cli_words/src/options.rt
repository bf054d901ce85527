// The options of a command.
ghost use Rattle.std.specs.Prelude.{◌≡◌, ◌<◌, ◌≤◌, ◌^◌, IfSome, IfOk};
ghost use Rattle.cli_words.specs.Words.{texts};
ghost use Rattle.cli_words.specs.Options.{counted as counted_of, setting_of};
ghost use Rattle.cli_words.specs.Options.{is_offered as is_offered_of};
ghost use Rattle.cli_words.specs.Options.{unless_given as unless_given_of, with_setting};
ghost use Rattle.cli_words.specs.Options.{option_taken, options_at, filled};
ghost use Rattle.cli_words.specs.Ranges.{IsInRange, AreGivenInRange, AreInRange};

use crate::command::{RunOptions, WordsRefusal};
use crate::numbers::number_in;
use crate::words::{behind, word_at};

/// The most iterations that are kept.
const MOST_CUT: u64 = 64;

/// The most workers.
const MOST_WORKERS: u64 = 64;

/// What an option's word says.
#[derive(Clone, Copy, Debug)]
pub enum Setting {
    Cut(u32),
    Vertical(bool),
    Workers(u32),
    Show(bool),
}

/// Which options a command has.
#[derive(Clone, Copy, Debug)]
pub enum Offer {
    /// None.
    Nothing,
    /// Workers and what is shown.
    Once,
    /// All.
    Run,
}

/// The options that were given.
#[derive(Clone, Copy, Debug)]
pub struct Given {
    cut: Option<u32>,
    vertical: Option<bool>,
    workers: Option<u32>,
    show: Option<bool>,
}

// The options that have a number.
fn counted(word: &[u8]) -> Option<Setting>
    ensures setting { result ≡ counted_of word.now }
    ensures range { IfSome result IsInRange }
{
    if let Some(digits) = behind(word, b"--cut=") {
        let cut = number_in(digits, 1, MOST_CUT)?;
        return Some(Setting::Cut(cut as u32));
    }
    let digits = behind(word, b"--workers=")?;
    let workers = number_in(digits, 1, MOST_WORKERS)?;
    Some(Setting::Workers(workers as u32))
}

// What an option's word says, if it is one.
fn parse_setting(word: &str) -> Option<Setting>
    ensures setting { result ≡ setting_of word.now }
    ensures range { IfSome result IsInRange }
{
    match word {
        "--vertical=on" => Some(Setting::Vertical(true)),
        "--vertical=off" => Some(Setting::Vertical(false)),
        "--show=all" => Some(Setting::Show(true)),
        "--show=none" => Some(Setting::Show(false)),
        _ => counted(word.as_bytes()),
    }
}

impl Offer {
    // Whether the command has this option.
    fn has(self, setting: Setting) -> bool
        ensures { result ≡ is_offered_of self setting }
    {
        match self {
            Offer::Nothing => false,
            Offer::Once => match setting {
                Setting::Cut(_) => false,
                Setting::Vertical(_) => false,
                _ => true,
            },
            Offer::Run => true,
        }
    }
}

// The options, unless the one that is new in them had been given.
fn unless_given<T: Copy>(old: Option<T>, given: Given) -> Option<Given>
    ensures { result ≡ unless_given_of old given }
{
    match old {
        None => Some(given),
        Some(_) => None,
    }
}

impl Given {
    // The options with one more, unless it was given.
    fn with(self, setting: Setting) -> Option<Given>
        ensures given { result ≡ with_setting self setting }
        ensures range { IsInRange setting → AreGivenInRange self → IfSome result AreGivenInRange }
    {
        match setting {
            Setting::Cut(cut) => unless_given(
                self.cut,
                Given {
                    cut: Some(cut),
                    ..self
                },
            ),
            Setting::Vertical(vertical) => unless_given(
                self.vertical,
                Given {
                    vertical: Some(vertical),
                    ..self
                },
            ),
            Setting::Workers(workers) => unless_given(
                self.workers,
                Given {
                    workers: Some(workers),
                    ..self
                },
            ),
            Setting::Show(show) => unless_given(
                self.show,
                Given {
                    show: Some(show),
                    ..self
                },
            ),
        }
    }

    /// The options of a run, which shows values or not where no option says so.
    pub fn filled(self, show: bool) -> RunOptions
        ensures options { result ≡ filled show self }
        ensures range { AreGivenInRange self → AreInRange result }
    {
        RunOptions {
            cut: self.cut,
            vertical: self.vertical.unwrap_or(true),
            workers: self.workers.unwrap_or(1),
            show: self.show.unwrap_or(show),
        }
    }
}

// The options with that of a word, if the command has it and it wasn't given.
fn with_word(offer: Offer, given: Given, word: &str) -> Option<Given>
    ensures given { result ≡ option_taken offer given word.now }
    ensures range { AreGivenInRange given → IfSome result AreGivenInRange }
{
    let setting = parse_setting(word)?;
    if offer.has(setting) {
        given.with(setting)
    } else {
        None
    }
}

/// The options in the words from a place on, to the last word.
pub fn read_options(words: &[String], first: u32, offer: Offer) -> Result<Given, WordsRefusal>
    requires first { 1 ≤ first }
    requires small { first < 2 ^ 16 }
    ensures given { result ≡ options_at offer (texts words.now) first }
    ensures range { IfOk result AreGivenInRange }
{
    let mut given = Given {
        cut: None,
        vertical: None,
        workers: None,
        show: None,
    };
    let mut at = first;
    'words: while at as usize <= words.len() {
        match with_word(offer, given, word_at(words, at)) {
            Some(more) => given = more,
            None => return Err(WordsRefusal { at }),
        }
        at += 1;
    }
    Ok(given)
}
