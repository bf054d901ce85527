// Values at an iteration, as rows.
ghost use Rattle.std.proofs.Props.{props};
ghost use Rattle.refine_rows.specs.ValueRows.{IsLaidRow, IsOldRow};

use agg_history::{History, Overlay};

/// The values of the old graph at an iteration.
#[derive(Clone, Copy)]
pub struct OldRow<'a> {
    pub(crate) history: &'a History,
    pub(crate) lanes: u32,
    pub(crate) iteration: u32,
    ghost fits: { IsOldRow history.now lanes iteration } by { Prim.hlevel props },
}

/// The values of the new graph at an iteration that is refined.
#[derive(Clone, Copy)]
pub struct LaidRow<'a> {
    pub(crate) history: &'a History,
    pub(crate) overlay: &'a Overlay,
    pub(crate) lanes: u32,
    pub(crate) iteration: u32,
    ghost fits: { IsLaidRow history.now overlay.now lanes iteration } by { Prim.hlevel props },
}
