// Why a text is no program.
use bolt_base::Memory;
use std::alloc::AllocError;
use thiserror::Error;

/// The first words of the entries of a program text.
#[derive(Clone, Copy, Debug, PartialEq, Eq)]
pub enum Keyword {
    Program,
    Vertices,
    Degree,
    Edges,
    Weight,
    Attr,
    Rounds,
    Combine,
    Param,
    Lane,
    Init,
    Contribute,
    Apply,
}

/// Why a text is no program. A place is that of a byte of the text, from 0.
#[derive(Clone, Copy, Debug, PartialEq, Eq, Error)]
pub enum LangError {
    /// What begins here can't stand here, or the line ends here too early.
    #[error("syntax at byte {at}")]
    Syntax { at: u32 },
    /// No entry and no operand has this name here.
    #[error("unknown name at byte {at}")]
    Unknown { at: u32 },
    /// The entry, the name or the number stands in the text already.
    #[error("repeated at byte {at}")]
    Repeat { at: u32 },
    /// An entry with this word should stand before.
    #[error("{word:?} is missing")]
    Missing { word: Keyword },
    /// A number outside its range, or one item too many.
    #[error("too big at byte {at}")]
    TooBig { at: u32 },
    /// Want of memory.
    #[error("out of memory")]
    Memory,
}

impl From<AllocError> for LangError {
    ghost use Rattle.std.specs.Prelude.{◌≡◌};
    ghost use Rattle.text_words.specs.declared.error.LangError.TheVariants.{Memory};

    ghost from_gives = { λ _ e. e ≡ Memory };

    fn from(_: AllocError) -> LangError {
        LangError::Memory
    }
}

impl From<Memory> for LangError {
    ghost use Rattle.std.specs.Prelude.{◌≡◌};
    ghost use Rattle.text_words.specs.declared.error.LangError.TheVariants.{Memory};

    ghost from_gives = { λ _ e. e ≡ Memory };

    fn from(_: Memory) -> LangError {
        LangError::Memory
    }
}
