// The book of rounds, which only grows.
ghost use Rattle.std.specs.Prelude.{◌≡◌, ◌+◌, ◌<◌, ◌^◌, ◌++◌, ◌∷◌, [], length, IsTrue, IsFalse};
ghost use Rattle.std.specs.Prelude.{None};
ghost use mathlib.Core.List.{IsPrefix};
ghost use Rattle.board.specs.Law.{head_of};
ghost use Rattle.board.specs.Log.{round_of, rounds_of, origin, origin_of};

use crate::kinds::Entry;
use crate::note::RoundNote;
use adjacency::Adjacency;
use logbook::{Gain, Offer, Plain, Play, Rule, Seen, Start, Word};
use range_check::Accepted;
use std::marker::PhantomData;
use std::sync::Wait;
use std::thread::yield_now;

/// The rule of the book: its word is the length of the log.
pub struct Law;

impl Rule<Entry, u64> for Law {
    ghost use Rattle.std.specs.Prelude.{[]};
    ghost use base.Fml.{ftrue};
    ghost use Rattle.board.specs.Law.{IsKept};

    ghost holds = { λ cells log. IsKept cells log };

    ghost first = { [] };

    ghost hinted = { λ n log. Unit {0} };

    ghost shows = { λ log. [] };

    ghost keeps = { λ names log. ftrue };

    ghost moves = { λ ask before after answer. Unit {0} };
}

struct Nothing;

impl Gain<Entry, u64> for Nothing {
    ghost use base.Fml.{ftrue};

    ghost after = { λ names about answer. ftrue };
}

struct Add;

impl Play<Entry, u64> for Add {
    ghost use Rattle.board.specs.Law.{Adds};

    ghost then = { Adds };
}

// What a step asks for: the entry of a note.
struct Rounds;

impl Plain<RoundNote, Entry, u64> for Rounds {
    ghost use Rattle.std.specs.Prelude.{None};
    ghost use Rattle.board.specs.Log.{entry_of};

    ghost ask = { λ note. entry_of note };

    ghost state = { λ note. None };
}

/// What a board begins with.
#[derive(Drop)]
pub(crate) struct Grounds<'a, A> {
    pub accepted: &'a Accepted,
    pub graph: &'a A,
}

struct Begins<A>(PhantomData<A>);

impl<'a, A: Adjacency> Plain<Grounds<'a, A>, Entry, u64> for Begins<A> {
    ghost use Rattle.std.specs.Prelude.{None};
    ghost use Rattle.board.specs.Log.{first_entry, origin};

    ghost ask = { λ g. first_entry (origin g.accepted.now (A.plain g.graph.now)) };

    ghost state = { λ g. None };
}

pub type Token = Seen<Entry, u64, Law>;

pub type Head = Word<Entry, u64, Law>;

/// Names a beginning of the log.
#[derive(Drop)]
pub struct Receipt {
    pub prefix: u64,
    pub seen: Token,
    pub ghost counted: { prefix + 1 ≡ length seen.log },
}

impl Receipt {
    pub(crate) fn again(&self) -> Receipt
        ensures { result ≡ self.now }
    {
        Receipt {
            prefix: self.prefix,
            seen: self.seen.again(),
        }
    }

    // Whether its log begins with the other's.
    pub(crate) fn covers(&self, other: &Receipt) -> bool
        requires { other.now.seen.book ≡ self.now.seen.book }
        ensures more { IsTrue result
            → IsPrefix (rounds_of other.now.seen.log) (rounds_of self.now.seen.log) }
        ensures less { IsFalse result
            → IsPrefix (rounds_of self.now.seen.log) (rounds_of other.now.seen.log) }
    {
        let mut both = self.seen.again();
        both.learn(&other.seen);
        other.prefix <= self.prefix
    }
}

// Adds what `M` asks for to the log, all of which was seen.
fn append_entry<X, M: Plain<X, Entry, u64>, R: Wait>(
    rt: &R,
    head: &Head,
    all: &Token,
    count: u64,
    about: &X,
) -> Token
    requires head { head.now ≡ head_of all.now.book }
    requires state { M.state about.now ≡ None }
    requires room { (count ≡ length all.now.log) × (count + 1 < 2 ^ 64) }
    ensures log { result.log ≡ all.now.log ++ M.ask about.now ∷ [] }
    ensures book { result.book ≡ all.now.book }
{
    for _ in rt.forever() {
        let mut seen = all.again();
        let mut offer: Offer<Entry, u64, Law, Nothing> = seen.plain::<Nothing, X, M>(about);
        let mut pen = seen.no_pen();
        let found = head.compare_exchange::<Add, Nothing>(
            count,
            count + 1,
            &mut seen,
            &mut offer,
            &mut pen,
        );
        if found == count {
            return seen;
        }
    }
    unreachable!()
}

/// A new book, whose log has the origin alone.
pub(crate) fn open_book<A: Adjacency, R: Wait>(rt: &R, grounds: &Grounds<'_, A>) -> (Head, Receipt)
    ensures head { result.0 ≡ head_of result.1.seen.book }
    ensures origin { origin_of result.1.seen.log
        ≡ origin grounds.now.accepted.now (A.plain grounds.now.graph.now) }
    ensures rounds { rounds_of result.1.seen.log ≡ [] }
{
    let (none, mut first, _second) = Seen::open(Start::alone(), 0, 0);
    let head = Word::tracked(0, &mut first);
    let seen = append_entry::<Grounds<'_, A>, Begins<A>, R>(rt, &head, &none, 0, grounds);
    (head, Receipt { prefix: 0, seen })
}

// No run publishes so often. Past it `grow` never returns.
const MOST: u64 = u64::MAX - 2;

/// Adds the note's round to the log, all of which `tip` has.
pub(crate) fn grow<R: Wait>(rt: &R, head: &Head, tip: &Receipt, note: &RoundNote) -> Receipt
    requires head { head.now ≡ head_of tip.now.seen.book }
    ensures log { rounds_of result.seen.log
        ≡ rounds_of tip.now.seen.log ++ round_of note.now ∷ [] }
    ensures origin { origin_of result.seen.log ≡ origin_of tip.now.seen.log }
    ensures book { result.seen.book ≡ tip.now.seen.book }
{
    if tip.prefix >= MOST {
        for _ in rt.forever() {
            yield_now();
        }
        unreachable!()
    }
    let seen = append_entry::<RoundNote, Rounds, R>(rt, head, &tip.seen, tip.prefix + 1, note);
    Receipt {
        prefix: tip.prefix + 1,
        seen,
    }
}
