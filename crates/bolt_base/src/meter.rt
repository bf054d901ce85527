// Counts the edges that are read.
ghost use Rattle.std.specs.Prelude.{◌≡◌, ℕ, ◌+◌, ◌<◌, ◌≤◌, ◌^◌};

use std::marker::Model;

/// A count of reads, and a number of units, at least 1, that splits share. A meter can't be
/// dropped.
pub trait Meter: Sized {
    /// How many reads were counted.
    ghost counted: { Self → ℕ };

    /// The units that it holds.
    ghost held: { Self → ℕ };

    /// Counts one read.
    fn tick(&mut self)
        requires { counted self.old + 1 < 2 ^ 64 }
        ensures count { counted self.new ≡ counted self.old + 1 }
        ensures units { held self.new ≡ held self.old };

    /// How many reads were counted.
    fn count(&self) -> u64
        ensures { result ≡ counted self.now };

    /// The units that it holds.
    fn units(&self) -> u32
        ensures value { result ≡ held self.now }
        ensures some { 1 ≤ held self.now };

    /// A piece with these units, which counts from 0. The units before were below 2^32, so that the
    /// piece can be joined again.
    fn split(&mut self, units: u32) -> Self
        requires some { 1 ≤ units }
        requires fewer { units < held self.old }
        ensures piece { held result ≡ units }
        ensures fresh { counted result ≡ 0 }
        ensures count { counted self.new ≡ counted self.old }
        ensures rest { held self.new + units ≡ held self.old }
        ensures below { held self.old < 2 ^ 32 };

    /// Takes another's count and units.
    fn join(&mut self, other: Self)
        requires count_fits { counted self.old + counted other < 2 ^ 64 }
        requires units_fit { held self.old + held other < 2 ^ 32 }
        ensures count { counted self.new ≡ counted self.old + counted other }
        ensures units { held self.new ≡ held self.old + held other };
}

/// Counts visits, in 64 units.
pub struct VisitMeter {
    visits: u64,
    parts: u32,
}

impl Model for VisitMeter {
    ghost use Rattle.std.specs.Prelude.{ℕ, ◌≤◌};

    ghost Value = { ℕ × ℕ };

    ghost view = { λ m. (m.visits, m.parts) };

    ghost invariant = { λ m. 1 ≤ m.parts };
}

impl VisitMeter {
    /// Nothing counted, and 64 units.
    pub fn new() -> VisitMeter
        ensures { result ≡ (0, 64) }
    {
        VisitMeter {
            visits: 0,
            parts: 64,
        }
    }

    /// The count, which ends the meter.
    pub fn finish(self) -> u64
        ensures { result ≡ self.0 }
    {
        let VisitMeter { visits, parts: _ } = self;
        visits
    }
}

impl Meter for VisitMeter {
    ghost counted = { λ m. m.0 };

    ghost held = { λ m. m.1 };

    fn tick(&mut self) {
        self.visits += 1;
    }

    fn count(&self) -> u64 {
        self.visits
    }

    fn units(&self) -> u32 {
        self.parts
    }

    fn split(&mut self, units: u32) -> Self {
        self.parts -= units;
        VisitMeter {
            visits: 0,
            parts: units,
        }
    }

    fn join(&mut self, other: Self) {
        let VisitMeter { visits, parts } = other;
        self.visits += visits;
        self.parts += parts;
    }
}
