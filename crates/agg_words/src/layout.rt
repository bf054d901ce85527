// How the words of a table are laid out.
ghost use Rattle.std.specs.Prelude.{◌≡◌, ◌+◌};
ghost use Rattle.agg_words.specs.Rule.{first_mark_word, mark_words};

/// How many aggregate words, marked bits and units a table has.
#[derive(Clone, Copy, Debug)]
pub struct Layout {
    pub words: u32,
    pub bits: u32,
    pub units: u32,
}

impl Layout {
    // Where a mark word stands: behind the aggregate words, and behind at least one word.
    pub(crate) fn place_of(&self, mark_word: u32) -> usize
        ensures { result ≡ first_mark_word self.now + mark_word }
    {
        self.words.max(1) as usize + mark_word as usize
    }

    // How many words the marked bits take, 64 to a word.
    pub(crate) fn mark_words(&self) -> u32
        ensures { result ≡ mark_words self.now.bits }
    {
        self.bits.div_ceil(64)
    }
}
