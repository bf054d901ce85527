// The places of words.
ghost use Rattle.std.specs.Prelude.{◌≡◌, ◌≤◌, [], IfSome};
ghost use Rattle.live_words.specs.Options.{with_place};
ghost use Rattle.live_words.specs.Ranges.{ArePlaces};

use std::marker::Model;

/// The most files of a kind.
const MOST_FILES: usize = 16;

/// The places of up to 16 words, in order, counted from 1.
#[derive(Drop)]
pub struct Places {
    count: u32,
    at: [u32; 16],
}

impl Model for Places {
    ghost use Rattle.std.specs.Prelude.{ℕ, ◌≤◌, List, take};

    ghost Value = { List ℕ };

    ghost view = { λ p. take p.count p.at };

    ghost invariant = { λ p. p.count ≤ 16 };
}

impl Places {
    /// No place.
    pub fn none() -> Places
        ensures { result ≡ [] }
    {
        Places {
            count: 0,
            at: [0; 16],
        }
    }

    /// The places, in order.
    pub fn as_slice(&self) -> &[u32]
        ensures { result.now ≡ self.now }
    {
        &self.at[..self.count as usize]
    }

    /// The places with one more, unless there are 16.
    pub fn with(self, at: u32) -> Option<Places>
        ensures places { result ≡ with_place self at }
        ensures range { 1 ≤ at → ArePlaces self → IfSome result ArePlaces }
    {
        let mut places = self;
        let count = places.count as usize;
        if count >= MOST_FILES {
            return None;
        }
        places.at[count] = at;
        places.count += 1;
        Some(places)
    }
}
