// What can go wrong at a shelf or a sink.

/// Why a file wasn't opened.
#[derive(Clone, Copy, Debug, PartialEq, Eq)]
pub enum OpenFault {
    /// The shelf failed, and counted it.
    Failed,
    /// Memory was wanting.
    Memory,
}

/// Why no bytes were read.
#[derive(Clone, Copy, Debug, PartialEq, Eq)]
pub enum ShelfFault {
    /// The shelf failed, and counted it.
    Failed,
}

/// Why nothing was written.
#[derive(Clone, Copy, Debug, PartialEq, Eq)]
pub enum SinkFault {
    /// The sink failed, and counted it.
    Failed,
    /// Memory was wanting.
    Memory,
}
