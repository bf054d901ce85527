// The options of `live`.
ghost use Rattle.std.specs.Prelude.{◌≡◌, ◌<◌, ◌≤◌, ◌^◌, length, IfSome, IfOk};
ghost use Rattle.cli_words.specs.Options.{counted as counted_of};
ghost use Rattle.cli_words.specs.Ranges.{AreInRange};
ghost use Rattle.cli_words.specs.Words.{texts, behind as behind_of};
ghost use Rattle.live_words.specs.Lines.{run_options};
ghost use Rattle.live_words.specs.Options.{names_file as names_file_of, shared};
ghost use Rattle.live_words.specs.Options.{live_setting_of, unless_given as unless_given_of};
ghost use Rattle.live_words.specs.Options.{with_setting, option_taken, none_given, options_at};
ghost use Rattle.live_words.specs.Ranges.{IsInRange, AreGivenInRange};

use crate::places::Places;
use crate::words::{behind, count_in, is_file, word_at};
use cli_words::{RunOptions, WordsRefusal};

/// What an option's word says.
#[derive(Clone, Copy, Debug)]
pub enum LiveSetting {
    /// It names a stream's file.
    Stream,
    /// It names a question file.
    Ask,
    Cut(u32),
    Vertical(bool),
    Workers(u32),
}

/// The options that were given.
#[derive(Drop)]
pub struct LiveGiven {
    pub streams: Places,
    pub asks: Places,
    cut: Option<u32>,
    vertical: Option<bool>,
    workers: Option<u32>,
}

// Whether a word is an option of this name with a file.
fn names_file(word: &[u8], option: &[u8]) -> bool
    ensures { result ≡ names_file_of (behind_of option.now word.now) }
{
    match behind(word, option) {
        Some(name) => is_file(name),
        None => false,
    }
}

// The options that have a number.
fn counted(word: &[u8]) -> Option<LiveSetting>
    ensures setting { result ≡ shared (counted_of word.now) }
    ensures range { IfSome result IsInRange }
{
    if let Some(digits) = behind(word, b"--cut=") {
        let cut = count_in(digits)?;
        return Some(LiveSetting::Cut(cut));
    }
    let digits = behind(word, b"--workers=")?;
    let workers = count_in(digits)?;
    Some(LiveSetting::Workers(workers))
}

// What an option's word says, if it is one. What is shown is no option of `live`.
fn parse_setting(word: &str) -> Option<LiveSetting>
    ensures setting { result ≡ live_setting_of word.now }
    ensures range { IfSome result IsInRange }
{
    if names_file(word.as_bytes(), b"--stream=") {
        return Some(LiveSetting::Stream);
    }
    if names_file(word.as_bytes(), b"--ask=") {
        return Some(LiveSetting::Ask);
    }
    match word {
        "--vertical=on" => Some(LiveSetting::Vertical(true)),
        "--vertical=off" => Some(LiveSetting::Vertical(false)),
        "--show=all" => None,
        "--show=none" => None,
        _ => counted(word.as_bytes()),
    }
}

// The options, unless the one that is new in them had been given.
fn unless_given<T: Copy>(old: Option<T>, given: LiveGiven) -> Option<LiveGiven>
    ensures { result ≡ unless_given_of old given }
{
    match old {
        None => Some(given),
        Some(_) => None,
    }
}

impl LiveGiven {
    // No option.
    fn none() -> LiveGiven
        ensures { result ≡ none_given }
    {
        LiveGiven {
            streams: Places::none(),
            asks: Places::none(),
            cut: None,
            vertical: None,
            workers: None,
        }
    }

    // The options with that of the word at a place, unless it was given or there are 16 files.
    fn with(self, setting: LiveSetting, at: u32) -> Option<LiveGiven>
        ensures given { result ≡ with_setting self setting at }
        ensures range { IsInRange setting → 1 ≤ at → AreGivenInRange self
            → IfSome result AreGivenInRange }
    {
        match setting {
            LiveSetting::Stream => {
                let streams = self.streams.with(at)?;
                Some(LiveGiven { streams, ..self })
            }
            LiveSetting::Ask => {
                let asks = self.asks.with(at)?;
                Some(LiveGiven { asks, ..self })
            }
            LiveSetting::Cut(cut) => unless_given(
                self.cut,
                LiveGiven {
                    cut: Some(cut),
                    ..self
                },
            ),
            LiveSetting::Vertical(vertical) => unless_given(
                self.vertical,
                LiveGiven {
                    vertical: Some(vertical),
                    ..self
                },
            ),
            LiveSetting::Workers(workers) => unless_given(
                self.workers,
                LiveGiven {
                    workers: Some(workers),
                    ..self
                },
            ),
        }
    }

    /// The options of the run.
    pub fn run_options(&self) -> RunOptions
        ensures options { result ≡ run_options self.now }
        ensures range { AreGivenInRange self.now → AreInRange result }
    {
        RunOptions {
            cut: self.cut,
            vertical: self.vertical.unwrap_or(true),
            workers: self.workers.unwrap_or(1),
            show: true,
        }
    }
}

// The options with that of the word at a place, if it is one and can be given.
fn with_word(given: LiveGiven, word: &str, at: u32) -> Option<LiveGiven>
    ensures given { result ≡ option_taken given word.now at }
    ensures range { 1 ≤ at → AreGivenInRange given → IfSome result AreGivenInRange }
{
    let setting = parse_setting(word)?;
    given.with(setting, at)
}

/// The options in the words from a place on, to the last word. There is at least one stream.
pub fn read_options(words: &[String], first: u32) -> Result<LiveGiven, WordsRefusal>
    requires first { 1 ≤ first }
    requires small { first < 2 ^ 16 }
    ensures given { result ≡ options_at (texts words.now) first }
    ensures range { IfOk result AreGivenInRange }
    ensures some { IfOk result (λ given. 1 ≤ length given.streams) }
{
    let mut given = LiveGiven::none();
    let mut at = first;
    'words: while at as usize <= words.len() {
        match with_word(given, word_at(words, at), at) {
            Some(more) => given = more,
            None => return Err(WordsRefusal { at }),
        }
        at += 1;
    }
    if given.streams.as_slice().is_empty() {
        Err(WordsRefusal { at })
    } else {
        Ok(given)
    }
}
