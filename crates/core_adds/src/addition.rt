// Amounts for words.
ghost use Rattle.std.specs.Prelude.{◌≡◌, ◌<◌, ◌^◌};

use bolt_base::Items;
use std::marker::Model;

/// An amount modulo 2^64 for a word of the aggregates. Contracts see it as both numbers.
#[derive(Clone, Copy, Debug)]
pub struct Addition {
    word: usize,
    amount: u64,
}

impl Model for Addition {
    ghost use Rattle.bolt_base.specs.Residue.{Amount};
    ghost use Rattle.core_adds.specs.Coded.{coded_amount};

    ghost Value = { Amount };

    ghost coded = { coded_amount };

    ghost view = { λ a. record { word = a.word; amount = a.amount } };

    ghost inverse = { λ a. record { word = a.word; amount = a.amount } };
}

impl Addition {
    /// This amount for this word.
    pub fn new(word: usize, amount: u64) -> Addition
        ensures { result ≡ record { word = word; amount = amount } }
    {
        Addition { word, amount }
    }

    /// The word.
    pub fn word(&self) -> usize
        ensures { result ≡ self.now.word }
    {
        self.word
    }

    /// The amount.
    pub fn amount(&self) -> u64
        ensures { result ≡ self.now.amount }
    {
        self.amount
    }
}

/// Additions in the order in which they are made.
pub type AdditionList = Items<Addition>;
/// The additions of each piece.
pub type PieceList = Items<AdditionList>;
