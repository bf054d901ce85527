// What follows from the rule alone.
ghost use Rattle.agg_words.specs.Laws.{FullSeatTellsAll, ClearSeatTellsZeros};

/// Wherever the rule holds, every view but that of a seat with all units is empty, and the words
/// and the bits are what this seat's view says: all 0 where it is clear. It does nothing when it
/// runs.
pub fn full_seat_tells_all()
    ensures full { FullSeatTellsAll }
    ensures clear { ClearSeatTellsZeros }
{}
