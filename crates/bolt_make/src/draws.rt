// Numbers that are drawn one after another.
ghost use Rattle.std.specs.Prelude.{◌≡◌, ◌≤◌, IfOk, OnOk};
ghost use Rattle.bolt_make.specs.Draws.{seeded, drawn as drawn_after, drawn_pair, drawn_pairs};
ghost use Rattle.bolt_make.specs.Draws.{after_pairs};

use bolt_base::Memory;
use std::alloc::Global;

/// What a draw multiplies by.
const FACTOR: u64 = 48_271;

/// The draws are numbers below this prime.
const MODULUS: u64 = 2_147_483_647;

/// A source and a destination.
pub type Pair = (u32, u32);

/// The last number that was drawn.
#[derive(Clone, Copy, Debug)]
pub struct Draws {
    last: u32,
}

impl Draws {
    /// Before the first draw of a seed.
    pub fn new(seed: u64) -> Draws
        ensures { result.last ≡ seeded seed }
    {
        let rest = seed % (MODULUS - 1);
        Draws {
            last: rest as u32 + 1,
        }
    }

    /// The next number.
    pub fn draw(&mut self) -> u32
        ensures number { result ≡ drawn_after self.old.last }
        ensures last { self.new.last ≡ drawn_after self.old.last }
    {
        let number = u64::from(self.last) * FACTOR % MODULUS;
        self.last = number as u32;
        self.last
    }

    /// A pair of vertices below a number of them.
    pub fn pair(&mut self, vertices: u32) -> Pair
        requires some { 1 ≤ vertices }
        ensures pair { result ≡ drawn_pair vertices self.old.last }
        ensures last { self.new.last ≡ drawn_after (drawn_after self.old.last) }
    {
        let src = self.draw() % vertices;
        let dst = self.draw() % vertices;
        (src, dst)
    }
}

/// So many pairs.
pub fn draw_pairs(
    alloc: Global,
    draws: &mut Draws,
    vertices: u32,
    count: u32,
) -> Result<Vec<Pair>, Memory>
    requires some { 1 ≤ vertices }
    ensures pairs { IfOk result (λ pairs. pairs.items ≡ drawn_pairs vertices count draws.old.last) }
    ensures last { OnOk result (draws.new.last ≡ after_pairs count draws.old.last) }
{
    let mut pairs = Vec::with_capacity(alloc, count as usize)?;
    for _pair in 0..count {
        pairs.push(draws.pair(vertices))?;
    }
    Ok(pairs)
}
