// Why a command stops before its text ends.
ghost use Rattle.std.specs.Prelude.{◌≡◌};
ghost use Rattle.command_files.specs.Stops.{status_of, bad_or_stop as bad_or_stop_of};

use bolt_io::{OpenFault, SinkFault};
use graph_text::{BadLine, FeedError, GraphRefusal};

#[derive(Clone, Copy, Debug, PartialEq, Eq)]
pub enum Stop {
    /// The shelf failed, and counted it.
    ShelfFailed,
    /// The sink failed, and counted it.
    SinkFailed,
    /// Memory was wanting.
    Memory,
    /// A file gave 2^40 bytes without an end.
    TooLong,
}

impl Stop {
    /// The status with which a command ends that stops so.
    pub fn status(self) -> u8
        ensures { result ≡ status_of self }
    {
        match self {
            Stop::ShelfFailed => 5,
            Stop::SinkFailed => 6,
            Stop::Memory => 7,
            Stop::TooLong => 8,
        }
    }
}

/// The bad line for which a graph is refused, or what its reading stops a command for.
pub fn bad_or_stop(refusal: GraphRefusal) -> Result<BadLine, Stop>
    ensures { result ≡ bad_or_stop_of refusal }
{
    match refusal {
        GraphRefusal::Line { number, cause } => Ok(BadLine {
            line: number,
            cause,
        }),
        GraphRefusal::Shelf(_) => Err(Stop::ShelfFailed),
        GraphRefusal::Turns { .. } => Err(Stop::TooLong),
        GraphRefusal::Memory => Err(Stop::Memory),
    }
}

impl From<bolt_base::Memory> for Stop {
    ghost use Rattle.command_files.specs.declared.stop.Stop.TheVariants.{Memory};
    ghost use Rattle.std.specs.Prelude.{◌≡◌};

    ghost from_gives = { λ _ e. e ≡ Memory };

    fn from(_: bolt_base::Memory) -> Self {
        Stop::Memory
    }
}

impl From<OpenFault> for Stop {
    ghost use Rattle.command_files.specs.Stops.{open_stop};
    ghost use Rattle.std.specs.Prelude.{◌≡◌};

    ghost from_gives = { λ fault e. e ≡ open_stop fault };

    fn from(fault: OpenFault) -> Self {
        match fault {
            OpenFault::Failed => Stop::ShelfFailed,
            OpenFault::Memory => Stop::Memory,
        }
    }
}

impl From<SinkFault> for Stop {
    ghost use Rattle.command_files.specs.Stops.{sink_stop};
    ghost use Rattle.std.specs.Prelude.{◌≡◌};

    ghost from_gives = { λ fault e. e ≡ sink_stop fault };

    fn from(fault: SinkFault) -> Self {
        match fault {
            SinkFault::Failed => Stop::SinkFailed,
            SinkFault::Memory => Stop::Memory,
        }
    }
}

impl From<FeedError> for Stop {
    ghost use Rattle.command_files.specs.Stops.{feed_stop};
    ghost use Rattle.std.specs.Prelude.{◌≡◌};

    ghost from_gives = { λ error e. e ≡ feed_stop error };

    fn from(error: FeedError) -> Self {
        match error {
            FeedError::Shelf(_) => Stop::ShelfFailed,
            FeedError::Turns { .. } => Stop::TooLong,
            FeedError::Memory => Stop::Memory,
        }
    }
}
