// A place at a table.
use crate::view::View;
use atomic_table::Seat;
use std::marker::Model;

/// A place at a table: some of its units, and what was done with them. It has no bytes. The units
/// of a seat that is dropped are lost, so no seat of the table ever holds all units again.
#[derive(Drop)]
pub struct AggSeat {
    pub(crate) seat: Seat<u8, View>,
}

impl Model for AggSeat {
    ghost use Rattle.std.specs.Prelude.{◌≡◌, []};
    ghost use Rattle.agg_words.specs.Facts.{SeatFacts};

    ghost Value = { SeatFacts };

    ghost view = { λ s. record { table = s.seat.table_id; view = s.seat.me.0 } };

    ghost invariant = { λ s. s.seat.me.1 ≡ [] };
}
