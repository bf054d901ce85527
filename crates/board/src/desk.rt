// Desks, which read the published answer.
ghost use Rattle.std.specs.Prelude.{◌≡◌, ◌⊎◌, ◌++◌, ◌∷◌, [], true, length, IfSome, MatchOption};
ghost use Rattle.std.specs.Prelude.{IfOk, OnOk};
ghost use mathlib.Core.List.{IsPrefix};
ghost use Rattle.left_right.specs.Sides.{view};
ghost use Rattle.run_model.specs.Program.{lanes};
ghost use Rattle.board.specs.Log.{shows, rounds_of, IsRightLog};
ghost use Rattle.board.specs.Queries.{HasLane, means};
ghost use Rattle.board.specs.Marks.{mark_of};
ghost use Rattle.board.specs.Sheets.{IsRight, sheet_of};

use crate::book::Receipt;
use crate::face::Face;
use crate::kinds::Mark;
use crate::query::{Body, Query, meaning};
use crate::rule::{Look, OnBoard};
use bolt_base::Memory;
use core::mem::replace_with;
use left_right::reader::Reader;
use std::alloc::Global;
use std::marker::Model;
use std::sync::Wait;
use std::thread::yield_now;

pub type DeskReader = Reader<Face, Mark, OnBoard>;

/// What one look at the published answer gives: the log that it shows, and what the query means.
#[derive(Drop)]
pub(crate) struct Glance {
    pub front: Receipt,
    pub body: Body,
}

// What a right face shows.
fn glance_at(face: &Face, query: &Query) -> Glance
    requires right { IsRight (sheet_of face.now) }
    requires lane { HasLane query.now (lanes (sheet_of face.now).mark.origin.program) }
    ensures front { result.front ≡ face.now.front }
    ensures body { result.body ≡ means query.now
        (shows (sheet_of face.now).mark.origin (rounds_of face.now.front.seen.log)) }
{
    Glance {
        front: face.front.again(),
        body: meaning(query, &face.answer),
    }
}

// Waits for nobody. It sees nothing where the publisher is gone.
fn look(reader: DeskReader, query: &Query) -> (DeskReader, Option<Glance>)
    requires known { (view reader.place).known ≡ true }
    requires lane { HasLane query.now (lanes (view reader.place).origin.program) }
    ensures view { view result.0.place ≡ view reader.place }
    ensures board { IfSome result.1 (λ l.
        mark_of l.front.seen.book (view reader.place).origin ≡ view reader.place) }
    ensures body { IfSome result.1 (λ l.
        l.body ≡ means query.now (shows (view reader.place).origin (rounds_of l.front.seen.log))) }
    ensures right { IfSome result.1 (λ l.
        IsRightLog (view reader.place).origin (rounds_of l.front.seen.log)) }
{
    match reader.enter_as::<Look>() {
        Ok(reading) => {
            let glance = glance_at(reading.get(), query);
            (reading.leave(), Some(glance))
        }
        Err(reader) => (reader, None),
    }
}

// Looks until what it sees is no older than `own` and `told`.
fn ask_at<R: Wait>(
    rt: &R,
    reader: DeskReader,
    own: &Receipt,
    told: &Receipt,
    query: &Query,
) -> (DeskReader, Glance)
    requires own { mark_of own.now.seen.book (view reader.place).origin ≡ view reader.place }
    requires told { told.now.seen.book ≡ own.now.seen.book }
    requires lane { HasLane query.now (lanes (view reader.place).origin.program) }
    ensures view { view result.0.place ≡ view reader.place }
    ensures book { result.1.front.seen.book ≡ own.now.seen.book }
    ensures body { result.1.body ≡ means query.now
        (shows (view reader.place).origin (rounds_of result.1.front.seen.log)) }
    ensures right { IsRightLog (view reader.place).origin (rounds_of result.1.front.seen.log) }
    ensures own { IsPrefix (rounds_of own.now.seen.log) (rounds_of result.1.front.seen.log) }
    ensures told { IsPrefix (rounds_of told.now.seen.log) (rounds_of result.1.front.seen.log) }
{
    let mut reader = reader;
    for _ in rt.forever() {
        let (back, seen) = look(reader, query);
        reader = back;
        if let Some(glance) = seen {
            if glance.front.covers(own) && glance.front.covers(told) {
                return (reader, glance);
            }
        }
        yield_now();
    }
    unreachable!()
}

/// What a desk replies: the published prefix, and what the query means on its answer.
#[derive(Clone, Copy, Debug)]
pub struct Reply {
    pub prefix: u64,
    pub body: Body,
}

/// Reads the published answer. Contracts see the log that it has seen, and the longest one that it
/// has learned.
#[derive(Drop)]
pub struct Desk {
    reader: DeskReader,
    own: Receipt,
    told: Receipt,
}

impl Model for Desk {
    ghost use Rattle.std.specs.Coded.{codes};
    ghost use Rattle.board.specs.contracts.kinds.Origin as origin_kind;
    ghost use Rattle.std.specs.Prelude.{◌≡◌};
    ghost use Rattle.left_right.specs.Sides.{view as seat_view};
    ghost use Rattle.board.specs.Marks.{mark_of};
    ghost use Rattle.board.specs.Log.{rounds_of};
    ghost use Rattle.board.specs.Post.{Post};

    ghost Value = { Post };

    ghost coded = { Prim.hlevel (codes, origin_kind.the_row.coded) };

    ghost view = { λ d. record {
      book = d.own.seen.book;
      origin = (seat_view d.reader.place).origin;
      seen = rounds_of d.own.seen.log;
      told = rounds_of d.told.seen.log;
    } };

    ghost invariant = { λ d.
        (mark_of d.own.seen.book (seat_view d.reader.place).origin ≡ seat_view d.reader.place)
        × (d.told.seen.book ≡ d.own.seen.book) };
}

impl Desk {
    // A desk that has seen what `own` names.
    pub(crate) fn new(reader: DeskReader, own: Receipt) -> Desk
        requires { mark_of own.seen.book (view reader.place).origin ≡ view reader.place }
        ensures { result ≡ record {
          book = own.seen.book;
          origin = (view reader.place).origin;
          seen = rounds_of own.seen.log;
          told = rounds_of own.seen.log;
        } }
    {
        let told = own.again();
        Desk { reader, own, told }
    }

    /// Replies to a query on one published answer, which is no older than what this desk has seen
    /// and learned.
    pub fn ask<R: Wait>(&mut self, rt: &R, query: &Query) -> Reply
        requires lane { HasLane query.now (lanes self.old.origin.program) }
        ensures board { (self.new.book ≡ self.old.book) × (self.new.origin ≡ self.old.origin)
            × (self.new.told ≡ self.old.told) }
        ensures prefix { result.prefix ≡ length self.new.seen }
        ensures body { result.body ≡ means query.now (shows self.new.origin self.new.seen) }
        ensures right { IsRightLog self.new.origin self.new.seen }
        ensures later { IsPrefix self.old.seen self.new.seen }
        ensures told { IsPrefix self.old.told self.new.seen }
    {
        let (own, told) = (&self.own, &self.told);
        let glance = replace_with(&mut self.reader, query, |reader, query| {
            ask_at(rt, reader, own, told, query)
        });
        let Glance { front, body } = glance;
        let prefix = front.prefix;
        self.own = front;
        Reply { prefix, body }
    }

    /// From now on this desk's replies have at least the prefix that the receipt names.
    pub fn learn(&mut self, receipt: Receipt)
        requires { receipt.seen.book ≡ self.old.book }
        ensures kept { (self.new.book ≡ self.old.book) × (self.new.origin ≡ self.old.origin)
            × (self.new.seen ≡ self.old.seen) }
        ensures told { IsPrefix self.old.told self.new.told }
        ensures receipt { IsPrefix (rounds_of receipt.seen.log) self.new.told }
        ensures one { (self.new.told ≡ self.old.told)
            ⊎ (self.new.told ≡ rounds_of receipt.seen.log) }
    {
        if receipt.covers(&self.told) {
            self.told = receipt;
        }
    }
}

/// A list of desks.
#[derive(Drop)]
pub struct DeskList {
    desks: Vec<Desk>,
}

impl Model for DeskList {
    ghost use Rattle.std.specs.Coded.{codes};
    ghost use Rattle.board.specs.contracts.kinds.Origin as origin_kind;
    ghost use Rattle.std.specs.Prelude.{List};
    ghost use Rattle.board.specs.Post.{Post};

    ghost Value = { List Post };

    ghost coded = { Prim.hlevel (codes, origin_kind.the_row.coded) };

    ghost view = { λ l. l.desks.items };
}

impl DeskList {
    // No desk, and room for some.
    pub(crate) fn with_capacity(alloc: Global, desks: u32) -> Result<DeskList, Memory>
        ensures { IfOk result (λ list. list ≡ []) }
    {
        let desks = Vec::with_capacity(alloc, desks as usize)?;
        Ok(DeskList { desks })
    }

    // Appends a desk.
    pub(crate) fn push(&mut self, desk: Desk) -> Result<(), Memory>
        ensures { OnOk result (self.new ≡ self.old ++ desk ∷ []) }
    {
        self.desks.push(desk)?;
        Ok(())
    }

    /// The number of desks.
    pub fn len(&self) -> usize
        ensures { result ≡ length self.now }
    {
        self.desks.len()
    }

    /// Takes the last desk. None exactly where there is none.
    pub fn pop(&mut self) -> Option<Desk>
        ensures { MatchOption result ((self.old ≡ []) × (self.new ≡ []))
            (λ desk. self.old ≡ self.new ++ desk ∷ []) }
    {
        self.desks.pop()
    }
}
