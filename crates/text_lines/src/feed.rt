// What a feed of lines answers.
use bolt_base::{Bytes, Memory};
use bolt_io::ShelfFault;
use std::alloc::AllocError;

/// A line of a text, with its number, counted from 1.
#[derive(Debug, Drop)]
pub enum Line {
    /// A line of at most 255 bytes, its comment included, without its end.
    Text { number: u64, bytes: Bytes },
    /// A line of more than 255 bytes.
    Long { number: u64 },
}

/// Why a feed answered no line.
#[derive(Clone, Copy, Debug, PartialEq, Eq)]
pub enum FeedError {
    /// The shelf failed, and counted it.
    Shelf(ShelfFault),
    /// So many bytes were taken, the most that are, and another read is needed.
    Turns { taken: u64 },
    /// Memory was wanting.
    Memory,
}

impl From<ShelfFault> for FeedError {
    ghost use Rattle.std.specs.Prelude.{◌≡◌};
    ghost use Rattle.text_lines.specs.declared.feed.FeedError.TheVariants.{Shelf};

    ghost from_gives = { λ f e. e ≡ Shelf f };

    fn from(fault: ShelfFault) -> Self {
        FeedError::Shelf(fault)
    }
}

impl From<Memory> for FeedError {
    ghost use Rattle.std.specs.Prelude.{◌≡◌};
    ghost use Rattle.text_lines.specs.declared.feed.FeedError.TheVariants.{Memory as NoMemory};

    ghost from_gives = { λ _ e. e ≡ NoMemory };

    fn from(_: Memory) -> Self {
        FeedError::Memory
    }
}

impl From<AllocError> for FeedError {
    ghost use Rattle.std.specs.Prelude.{◌≡◌};
    ghost use Rattle.text_lines.specs.declared.feed.FeedError.TheVariants.{Memory as NoMemory};

    ghost from_gives = { λ _ e. e ≡ NoMemory };

    fn from(_: AllocError) -> Self {
        FeedError::Memory
    }
}
