// A number for each lane.
ghost use Rattle.std.specs.Prelude.{◌≡◌, ℤ, ◌<◌, ◌≤◌, length, slice_index_or, slice_set, pos};
ghost use Rattle.std.specs.Prelude.{replicate, IsTrue, ◌↔◌};

use std::marker::Model;

/// The numbers of a vertex, one for each of its 1 to 8 lanes.
#[derive(Clone, Copy, Debug, PartialEq, Eq)]
pub struct Lanes {
    width: u32,
    word: [i64; 8],
}

impl Model for Lanes {
    ghost use Rattle.std.specs.Prelude.{ℤ, List, take, length};
    ghost use Rattle.std.proofs.Common.{◌≡◌};
    ghost use Rattle.bolt_base.specs.Padded.{IsPadded, padded, length-taken};

    ghost Value = { List ℤ };

    ghost view = { λ l. take l.width l.word };

    ghost invariant = { λ l. IsPadded l.width l.word };

    ghost inverse = { λ xs. record { width = length xs; word = padded xs } };

    ghost inverse_ok = { λ a h. let e = length-taken a.width a.word h in λ i. record
        { width = e i; word = h.zeros i } };
}

impl Lanes {
    /// A 0 for each lane.
    pub fn zeros(width: u32) -> Lanes
        requires some { 1 ≤ width }
        requires narrow { width ≤ 8 }
        ensures { result ≡ replicate width (pos 0) }
    {
        Lanes {
            width,
            word: [0; 8],
        }
    }

    /// The number of lanes.
    pub fn width(&self) -> u32
        ensures width { result ≡ length self.now }
        ensures some { 1 ≤ result }
        ensures narrow { result ≤ 8 }
    {
        self.width
    }

    /// Whether the numbers are the same.
    pub fn same(&self, other: &Lanes) -> bool
        ensures { IsTrue result ↔ (self.now ≡ other.now) }
    {
        self.width == other.width && self.word == other.word
    }

    /// The numbers, lane by lane.
    pub fn as_slice(&self) -> &[i64]
        ensures { result.now ≡ self.now }
    {
        &self.word[..self.width as usize]
    }

    /// The number of a lane.
    pub fn get(&self, k: u32) -> i64
        requires { k < length self.now }
        ensures { result ≡ slice_index_or self.now k (pos 0) }
    {
        self.word[k as usize]
    }

    /// Makes the number of a lane `x`.
    pub fn set(&mut self, k: u32, x: i64)
        requires { k < length self.old }
        ensures { self.new ≡ slice_set self.old k x }
    {
        self.word[k as usize] = x;
    }
}
