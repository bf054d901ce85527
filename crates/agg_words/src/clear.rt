// Clearing a table.
ghost use Rattle.std.specs.Prelude.{◌≡◌, ℕ, ◌<◌, [], ◌++◌, All};
ghost use Rattle.bolt_base.specs.Residue.{sum_at};
ghost use Rattle.agg_words.specs.View.{taken_back, times, without_words_of};
ghost use Rattle.agg_words.specs.Known.{IsClear};

use crate::seat::AggSeat;
use crate::table::AggWords;

impl AggWords {
    /// Takes every aggregate word, in order, and wipes every mark word.
    pub fn clear(&self, seat: &mut AggSeat)
        requires table { seat.old.table ≡ self.now.table }
        requires units { seat.old.view.units ≡ self.now.layout.units }
        ensures table { seat.new.table ≡ seat.old.table }
        ensures clear { IsClear self.now.layout seat.new.view }
        ensures amounts { seat.new.view.amounts
            ≡ seat.old.view.amounts ++ taken_back self.now.layout.words seat.old.view.amounts }
    {
        self.clear_words(seat);
        self.clear_marks(seat);
    }

    /// Takes every aggregate word, in order.
    pub fn clear_words(&self, seat: &mut AggSeat)
        requires table { seat.old.table ≡ self.now.table }
        requires units { seat.old.view.units ≡ self.now.layout.units }
        ensures seat { seat.new ≡ record seat.old {
          view = record seat.old.view {
            amounts = seat.old.view.amounts
                ++ taken_back self.now.layout.words seat.old.view.amounts;
          };
        } }
        ensures zero { (w : ℕ) → w < self.now.layout.words
            → sum_at w seat.new.view.amounts ≡ 0 }
    {
        for word in 0..self.layout().words {
            self.take(seat, word);
        }
    }

    /// Wipes every mark word.
    pub fn clear_marks(&self, seat: &mut AggSeat)
        requires table { seat.old.table ≡ self.now.table }
        requires units { seat.old.view.units ≡ self.now.layout.units }
        ensures seat { seat.new ≡ record seat.old {
          view = record seat.old.view {
            marks = [];
            met = [];
          };
        } }
    {
        // This shows that every mark and every met bit lies in one of the mark words.
        self.know(seat);
        for mark_word in 0..self.layout().mark_words() {
            self.wipe(seat, mark_word);
        }
    }

    /// Wipes the mark word of each of these bits. Where each mark is one of them, no bit is left.
    pub fn wipe_bits(&self, seat: &mut AggSeat, bits: &[u32])
        requires table { seat.old.table ≡ self.now.table }
        requires units { seat.old.view.units ≡ self.now.layout.units }
        requires bits { All (λ bit. bit < self.now.layout.bits) bits.now }
        ensures seat { seat.new
            ≡ record seat.old { view = without_words_of seat.old.view bits.now } }
        ensures none { All (λ bit. 0 < times bit bits.now) seat.old.view.marks
            → (seat.new.view.marks ≡ []) × (seat.new.view.met ≡ []) }
    {
        // This shows that every met bit is among the marks.
        self.know(seat);
        for &bit in bits {
            self.wipe(seat, bit / 64);
        }
    }
}
