// A table of aggregate words and mark words.
ghost use Rattle.std.specs.Prelude.{◌≡◌, ℕ, ◌/◌, ◌<◌, ◌≤◌, IfOk, if◌then◌else◌};
ghost use Rattle.std.specs.Int.{cast_signed, w64};
ghost use Rattle.bolt_base.specs.Residue.{sum_at};
ghost use Rattle.agg_words.specs.View.{IsGone, bare, joined, with_amount, with_bit, with_fewer};
ghost use Rattle.agg_words.specs.View.{with_met, with_taken, without_word};
ghost use Rattle.agg_words.specs.Rule.{mark_words};
ghost use Rattle.agg_words.specs.Known.{IsClear, IsKnown, MarksOnce};
ghost use Rattle.agg_words.specs.Facts.{word_count};

use crate::layout::Layout;
use crate::seat::AggSeat;
use crate::steps::{Add, Cut, Glue, Look, Mark, Meet, Operand, Take, Wipe, Words};
use crate::view::View;
use atomic_table::Table;
use bolt_base::Memory;
use std::alloc::Global;
use std::marker::{Brand, Model};

/// A table of aggregate words, each a number modulo 2^64, and of bits that can be marked. Threads
/// share it by `&` and step with seats of their own. Each call but `new` takes no memory and waits
/// for no other thread.
#[derive(Drop)]
pub struct AggWords {
    table: Table<u8, View, Layout, Words, Global>,
    layout: Layout,
}

impl Model for AggWords {
    ghost use Rattle.agg_words.specs.Facts.{TableFacts, IsLaidOut};

    ghost Value = { TableFacts };

    ghost view = { λ t. record { table = t.table.shared.table_id; layout = t.layout } };

    ghost invariant = { λ t. IsLaidOut t.layout t.table.shared.key t.table.shared.table_id };
}

impl AggWords {
    /// A table whose words are all 0 and whose bits are all clear, and the seat with all units. It
    /// has 8 bytes for each aggregate word and for each 64 bits, and one word where there is no
    /// aggregate word. While it is made it takes as much again.
    pub fn new(
        alloc: Global,
        words: u32,
        bits: u32,
        units: u32,
    ) -> Result<(AggWords, AggSeat), Memory>
        requires { 1 ≤ units }
        ensures layout { IfOk result (λ r. r.0.layout
            ≡ record { words = words; bits = bits; units = units }) }
        ensures seat { IfOk result (λ r. r.1 ≡ record { table = r.0.table; view = bare units }) }
        ensures clear { IfOk result (λ r. IsClear r.0.layout r.1.view) }
        ensures size { IfOk result (λ r. r.0.table.words ≡ word_count r.0.layout) }
    {
        let layout = Layout { words, bits, units };
        let count = layout.place_of(layout.mark_words());
        let zeros = Vec::from_elem(alloc, 0u64, count)?;
        let (table, seat) = Table::of_words(alloc, zeros.as_slice(), &layout)?;
        Ok((AggWords { table, layout }, AggSeat { seat }))
    }

    /// How the table is laid out.
    pub fn layout(&self) -> Layout
        ensures { result ≡ self.now.layout }
    {
        self.layout
    }

    /// A further seat with so many of the units.
    pub fn split(&self, seat: &mut AggSeat, units: u32) -> AggSeat
        requires table { seat.old.table ≡ self.now.table }
        requires some { 1 ≤ units }
        requires more { units < seat.old.view.units }
        ensures rest { seat.new ≡ record seat.old { view = with_fewer seat.old.view units } }
        ensures cut { result ≡ record { table = seat.old.table; view = bare units } }
    {
        self.split_as::<Brand>(seat, units)
    }

    fn split_as<O: Operand>(&self, seat: &mut AggSeat, units: u32) -> AggSeat
        requires told { O.number ≡ units }
        requires table { seat.old.table ≡ self.now.table }
        requires some { 1 ≤ units }
        requires more { units < seat.old.view.units }
        ensures rest { seat.new ≡ record seat.old { view = with_fewer seat.old.view units } }
        ensures cut { result ≡ record { table = seat.old.table; view = bare units } }
    {
        let cut = self.table.shared.split_seat::<Cut<O>>(&mut seat.seat);
        AggSeat { seat: cut }
    }

    /// Puts another seat's units, amounts, marks and met bits behind this one's.
    pub fn join(&self, seat: &mut AggSeat, other: AggSeat)
        requires table { seat.old.table ≡ self.now.table }
        requires other_table { other.table ≡ self.now.table }
        ensures seat { seat.new ≡ record seat.old { view = joined seat.old.view other.view } }
        ensures once { MarksOnce self.now.layout seat.new.view }
        ensures full { seat.new.view.units ≡ self.now.layout.units
            → IsKnown self.now.layout seat.new.view }
    {
        let AggSeat { seat: second } = other;
        self.table.shared.join_seat::<Glue>(&mut seat.seat, second);
        // A join of two seats tells nothing of the rule, and a look does.
        self.know(seat);
    }

    /// Loads word 0, which changes nothing. It shows that each mark of the seat is a bit of the
    /// table and stands once, and with all units that each met bit is among the marks.
    pub fn know(&self, seat: &mut AggSeat)
        requires table { seat.old.table ≡ self.now.table }
        ensures same { seat.new ≡ seat.old }
        ensures once { MarksOnce self.now.layout seat.new.view }
        ensures full { seat.new.view.units ≡ self.now.layout.units
            → IsKnown self.now.layout seat.new.view }
    {
        self.know_as::<Brand>(seat);
    }

    fn know_as<O: Operand>(&self, seat: &mut AggSeat)
        requires told { O.layout ≡ self.now.layout }
        requires table { seat.old.table ≡ self.now.table }
        ensures same { seat.new ≡ seat.old }
        ensures once { MarksOnce self.now.layout seat.new.view }
        ensures full { seat.new.view.units ≡ self.now.layout.units
            → IsKnown self.now.layout seat.new.view }
    {
        self.table.shared.load::<Look<O>>(&mut seat.seat, 0);
    }

    /// Adds to an aggregate word by one `fetch_add`, modulo 2^64.
    pub fn add(&self, seat: &mut AggSeat, word: u32, amount: u64)
        requires table { seat.old.table ≡ self.now.table }
        requires word { word < self.now.layout.words }
        requires unit { 1 ≤ seat.old.view.units }
        ensures { seat.new ≡ record seat.old { view = with_amount seat.old.view word amount } }
    {
        self.table
            .shared
            .fetch_add::<Add>(&mut seat.seat, word as usize, amount);
    }

    /// Makes an aggregate word 0 by one swap, and answers the sum modulo 2^64 of all amounts for
    /// it, read as two's complement.
    pub fn take(&self, seat: &mut AggSeat, word: u32) -> i64
        requires table { seat.old.table ≡ self.now.table }
        requires word { word < self.now.layout.words }
        requires units { seat.old.view.units ≡ self.now.layout.units }
        ensures sum { result ≡ cast_signed w64 (sum_at word seat.old.view.amounts) }
        ensures seat { seat.new ≡ record seat.old { view = with_taken seat.old.view word } }
        ensures zero { sum_at word seat.new.view.amounts ≡ 0 }
    {
        let sum = self
            .table
            .shared
            .swap::<Take>(&mut seat.seat, word as usize, 0);
        sum.cast_signed()
    }

    /// Marks a bit: loads its word, and steps by `fetch_or` where it isn't set there. True where
    /// the bit was clear at this step, and stands in the seat's marks now; false where it was set,
    /// and the seat has met it.
    pub fn mark(&self, seat: &mut AggSeat, bit: u32) -> bool
        requires table { seat.old.table ≡ self.now.table }
        requires bit { bit < self.now.layout.bits }
        requires unit { 1 ≤ seat.old.view.units }
        ensures seat { seat.new ≡ record seat.old { view = with_bit result seat.old.view bit } }
        ensures once { MarksOnce self.now.layout seat.new.view }
        ensures full { seat.new.view.units ≡ self.now.layout.units
            → IsKnown self.now.layout seat.new.view }
    {
        if self.meet_as::<Brand>(seat, bit) {
            return false;
        }
        self.mark_as::<Brand>(seat, bit)
    }

    // Whether a bit is set, by one load. Where it is, the seat has met it.
    fn meet_as<O: Operand>(&self, seat: &mut AggSeat, bit: u32) -> bool
        requires told { (O.number ≡ bit) × (O.layout ≡ self.now.layout) }
        requires table { seat.old.table ≡ self.now.table }
        requires bit { bit < self.now.layout.bits }
        requires unit { 1 ≤ seat.old.view.units }
        ensures seat { seat.new ≡ record seat.old {
          view = if result then with_met seat.old.view bit else seat.old.view;
        } }
        ensures once { MarksOnce self.now.layout seat.new.view }
        ensures full { seat.new.view.units ≡ self.now.layout.units
            → IsKnown self.now.layout seat.new.view }
    {
        let word = self.layout.place_of(bit / 64);
        let found = self.table.shared.load::<Meet<O>>(&mut seat.seat, word);
        found >> (bit % 64) & 1 == 1
    }

    fn mark_as<O: Operand>(&self, seat: &mut AggSeat, bit: u32) -> bool
        requires told { (O.number ≡ bit) × (O.layout ≡ self.now.layout) }
        requires table { seat.old.table ≡ self.now.table }
        requires bit { bit < self.now.layout.bits }
        requires unit { 1 ≤ seat.old.view.units }
        ensures seat { seat.new ≡ record seat.old { view = with_bit result seat.old.view bit } }
        ensures once { MarksOnce self.now.layout seat.new.view }
        ensures full { seat.new.view.units ≡ self.now.layout.units
            → IsKnown self.now.layout seat.new.view }
    {
        let word = self.layout.place_of(bit / 64);
        let mask = 1u64 << (bit % 64);
        let found = self
            .table
            .shared
            .fetch_or::<Mark<O>>(&mut seat.seat, word, mask);
        found >> (bit % 64) & 1 == 0
    }

    /// Clears the 64 bits from `64 * mark_word` on by one swap.
    pub fn wipe(&self, seat: &mut AggSeat, mark_word: u32)
        requires table { seat.old.table ≡ self.now.table }
        requires word { mark_word < mark_words self.now.layout.bits }
        requires units { seat.old.view.units ≡ self.now.layout.units }
        ensures seat { seat.new ≡ record seat.old { view = without_word seat.old.view mark_word } }
        ensures clear { (bit : ℕ) → bit / 64 ≡ mark_word → IsGone seat.new.view bit }
    {
        self.wipe_as::<Brand>(seat, mark_word);
    }

    fn wipe_as<O: Operand>(&self, seat: &mut AggSeat, mark_word: u32)
        requires told { O.number ≡ mark_word }
        requires table { seat.old.table ≡ self.now.table }
        requires word { mark_word < mark_words self.now.layout.bits }
        requires units { seat.old.view.units ≡ self.now.layout.units }
        ensures { seat.new ≡ record seat.old { view = without_word seat.old.view mark_word } }
    {
        let word = self.layout.place_of(mark_word);
        self.table.shared.swap::<Wipe<O>>(&mut seat.seat, word, 0);
    }

    /// Ends the table.
    pub fn close(self, seat: AggSeat)
        requires table { seat.table ≡ self.table }
        requires units { seat.view.units ≡ self.layout.units }
    {
        drop(seat);
        drop(self);
    }
}
