// The publisher, which appends rounds, and the opening of a board.
ghost use Rattle.std.specs.Prelude.{◌≡◌, ◌≤◌, [], ◌∷◌, ◌++◌, drop, length, None, Some};
ghost use Rattle.std.specs.Prelude.{IfOk, IfSome, IsSome, MatchResult};
ghost use Rattle.std.specs.List.{All};
ghost use Rattle.left_right.specs.Sides.{view};
ghost use Rattle.bolt_base.specs.Graph.{vertices};
ghost use Rattle.run_model.specs.Program.{lanes};
ghost use Rattle.run_model.specs.Rows.{answer};
ghost use Rattle.board.specs.Law.{head_of};
ghost use Rattle.board.specs.Log.{GoesOn, HasRoomFor, origin, origin_of, round_of, rounds_of};
ghost use Rattle.board.specs.Marks.{mark_of};
ghost use Rattle.board.specs.Post.{new_post};
ghost use Rattle.board.specs.Sheets.{IsNext, IsRight, changed, sheet_of};
ghost use Rattle.board.specs.declared.publisher.TheConstants.{MOST_DESKS};

use crate::book::{Grounds, Head, Receipt, grow, open_book};
use crate::desk::{Desk, DeskList, DeskReader};
use crate::face::{Change, Face, Put};
use crate::kinds::Mark;
use crate::note::RoundNote;
use crate::places::Places;
use crate::rule::{Learn, Look, OnBoard, Tell};
use adjacency::Adjacency;
use bolt_base::{Answer, Memory};
use core::mem::replace_with;
use left_right::writer::Writer;
use range_check::Accepted;
use std::alloc::Global;
use std::marker::Model;
use std::sync::Wait;
use std::thread::yield_now;

/// How many desks a board has at most.
pub const MOST_DESKS: u32 = 16;

pub type DeskWriter = Writer<Face, Change, Mark, OnBoard>;

// Shows the desks one change, at one step. The change comes back where there is no memory.
fn show_once<R: Wait>(
    rt: &R,
    writer: DeskWriter,
    change: Change,
) -> (DeskWriter, Result<(), Change>)
    requires none { drop writer.behind writer.log.items ≡ [] }
    requires board { (changed (sheet_of writer.desk.shown.value) change).mark
        ≡ (sheet_of writer.desk.shown.value).mark }
    requires right { IsRight (sheet_of writer.desk.shown.value)
        → IsRight (changed (sheet_of writer.desk.shown.value) change) }
    ensures none { drop result.0.behind result.0.log.items ≡ [] }
    ensures sheet { MatchResult result.1
        (λ _. sheet_of result.0.desk.shown.value
        ≡ changed (sheet_of writer.desk.shown.value) change)
        (λ x. (x ≡ change)
        × (sheet_of result.0.desk.shown.value ≡ sheet_of writer.desk.shown.value)) }
    ensures view { MatchResult result.1
        (λ _. view result.0.desk.place ≡ (sheet_of writer.desk.shown.value).mark)
        (λ _. view result.0.desk.place ≡ view writer.desk.place) }
{
    let mut writer = writer;
    match writer.append(change) {
        Ok(()) => {
            let (writer, _published) = writer.publish_as::<Look, R>(rt);
            (writer, Ok(()))
        }
        Err(back) => (writer, Err(back)),
    }
}

// Shows the desks one change. `open` took the room in the writer's log, so the first try has it.
fn show<R: Wait>(rt: &R, writer: DeskWriter, change: Change) -> (DeskWriter, ())
    requires none { drop writer.behind writer.log.items ≡ [] }
    requires board { (changed (sheet_of writer.desk.shown.value) change).mark
        ≡ (sheet_of writer.desk.shown.value).mark }
    requires right { IsRight (sheet_of writer.desk.shown.value)
        → IsRight (changed (sheet_of writer.desk.shown.value) change) }
    ensures none { drop result.0.behind result.0.log.items ≡ [] }
    ensures sheet { sheet_of result.0.desk.shown.value
        ≡ changed (sheet_of writer.desk.shown.value) change }
    ensures view { view result.0.desk.place ≡ (sheet_of writer.desk.shown.value).mark }
{
    let mut writer = writer;
    let mut change = change;
    for _ in rt.forever() {
        let (next, shown) = show_once(rt, writer, change);
        writer = next;
        match shown {
            Ok(()) => return (writer, ()),
            Err(back) => change = back,
        }
    }
    unreachable!()
}

// Shows the desks a note, whose log is the shown one with its round behind.
fn show_put<R: Wait>(rt: &R, writer: DeskWriter, put: Put) -> (DeskWriter, ())
    requires none { drop writer.behind writer.log.items ≡ [] }
    requires next { IsNext (sheet_of writer.desk.shown.value) put }
    ensures none { drop result.0.behind result.0.log.items ≡ [] }
    ensures mark { (sheet_of result.0.desk.shown.value).mark
        ≡ (sheet_of writer.desk.shown.value).mark }
    ensures room { (sheet_of result.0.desk.shown.value).room
        ≡ (sheet_of writer.desk.shown.value).room }
    ensures log { (sheet_of result.0.desk.shown.value).log ≡ put.front.seen.log }
    ensures view { view result.0.desk.place ≡ (sheet_of writer.desk.shown.value).mark }
{
    show(rt, writer, Change::Put(put))
}

// The same, of a writer in its place.
fn show_note<R: Wait>(rt: &R, writer: &mut DeskWriter, put: Put)
    requires none { drop writer.old.behind writer.old.log.items ≡ [] }
    requires next { IsNext (sheet_of writer.old.desk.shown.value) put }
    ensures none { drop writer.new.behind writer.new.log.items ≡ [] }
    ensures mark { (sheet_of writer.new.desk.shown.value).mark
        ≡ (sheet_of writer.old.desk.shown.value).mark }
    ensures room { (sheet_of writer.new.desk.shown.value).room
        ≡ (sheet_of writer.old.desk.shown.value).room }
    ensures log { (sheet_of writer.new.desk.shown.value).log ≡ put.front.seen.log }
    ensures view { view writer.new.desk.place ≡ (sheet_of writer.old.desk.shown.value).mark }
{
    replace_with(writer, put, |writer, put| show_put(rt, writer, put));
}

// A reader that has not read. It asks again until there is one.
fn fresh<R: Wait>(rt: &R, writer: &DeskWriter) -> DeskReader
    ensures { result.place.table_id ≡ writer.now.desk.place.table_id }
{
    for _ in rt.forever() {
        if let Ok(reader) = writer.factory().reader() {
            return reader;
        }
        yield_now();
    }
    unreachable!()
}

// Desks that have seen what `tip` names.
fn seat_desks<R: Wait>(
    rt: &R,
    alloc: Global,
    writer: &mut DeskWriter,
    tip: &Receipt,
    desks: u32,
) -> Result<DeskList, Memory>
    requires mark { mark_of tip.now.seen.book (view writer.old.desk.place).origin
        ≡ view writer.old.desk.place }
    requires none { rounds_of tip.now.seen.log ≡ [] }
    ensures writer { (writer.new.desk.shown ≡ writer.old.desk.shown)
        × (writer.new.log ≡ writer.old.log) × (writer.new.behind ≡ writer.old.behind)
        × (view writer.new.desk.place ≡ view writer.old.desk.place) }
    ensures desks { IfOk result (λ all. (length all ≡ desks)
        × All (λ d. d ≡ new_post tip.now.seen.book (view writer.old.desk.place).origin) all) }
{
    let mut all = DeskList::with_capacity(alloc, desks)?;
    for _ in 0..desks {
        let mut reader = fresh(rt, writer);
        reader.learn::<Learn>(writer.tell::<Tell>());
        all.push(Desk::new(reader, tip.again()))?;
    }
    Ok(all)
}

// Shows the desks nothing new, twice. That takes the room of the writer's log.
fn with_log_room<R: Wait>(rt: &R, writer: DeskWriter) -> Result<DeskWriter, Memory>
    requires none { drop writer.behind writer.log.items ≡ [] }
    ensures none { IfOk result (λ w. drop w.behind w.log.items ≡ []) }
    ensures sheet { IfOk result (λ w.
        sheet_of w.desk.shown.value ≡ sheet_of writer.desk.shown.value) }
    ensures view { IfOk result (λ w.
        view w.desk.place ≡ (sheet_of writer.desk.shown.value).mark) }
{
    let (writer, first) = show_once(rt, writer, Change::Nothing);
    if first.is_err() {
        drop(writer.take(rt));
        return Err(Memory);
    }
    let (writer, second) = show_once(rt, writer, Change::Nothing);
    if second.is_err() {
        drop(writer.take(rt));
        return Err(Memory);
    }
    Ok(writer)
}

/// Appends rounds to the log. Contracts see which board it is, what it began with, how many
/// vertices there may be, the log, and the round that is held.
pub struct Publisher {
    writer: DeskWriter,
    head: Head,
    tip: Receipt,
    held: Option<RoundNote>,
}

impl Model for Publisher {
    ghost use Rattle.std.specs.Coded.{codes};
    ghost use Rattle.board.specs.contracts.kinds.Origin as origin_kind;
    ghost use Rattle.std.specs.Prelude.{◌≡◌, [], IfSome, drop};
    ghost use Rattle.std.specs.Option.{option_map};
    ghost use Rattle.left_right.specs.Sides.{view as seat_view};
    ghost use Rattle.board.specs.Law.{head_of};
    ghost use Rattle.board.specs.Log.{GoesOn, HasRoomFor, origin_of, round_of, rounds_of};
    ghost use Rattle.board.specs.Marks.{mark_of};
    ghost use Rattle.board.specs.Post.{Office};
    ghost use Rattle.board.specs.Sheets.{sheet_of};

    ghost Value = { Office };

    ghost coded = { Prim.hlevel (codes, origin_kind.the_row.coded) };

    ghost view = { λ d. record {
      book = d.tip.seen.book;
      origin = origin_of d.tip.seen.log;
      room = (sheet_of d.writer.desk.shown.value).room;
      log = rounds_of d.tip.seen.log;
      held = option_map round_of d.held;
    } };

    ghost invariant = { λ d.
        (mark_of d.tip.seen.book (origin_of d.tip.seen.log) ≡ seat_view d.writer.desk.place)
        × ((sheet_of d.writer.desk.shown.value).mark ≡ seat_view d.writer.desk.place)
        × ((sheet_of d.writer.desk.shown.value).log ≡ d.tip.seen.log)
        × (drop d.writer.behind d.writer.log.items ≡ [])
        × (d.head ≡ head_of d.tip.seen.book)
        × IfSome d.held (λ n.
        GoesOn (origin_of d.tip.seen.log) (rounds_of d.tip.seen.log) (round_of n)
        × HasRoomFor (origin_of d.tip.seen.log) (sheet_of d.writer.desk.shown.value).room
        (rounds_of d.tip.seen.log) (round_of n)) };
}

impl Publisher {
    /// Keeps a note for the next `publish`. Its changes turn the published answer into the answer
    /// after its edits, which has at most as many vertices as the board has room for. After
    /// `Memory` the note is dropped.
    pub fn hold(&mut self, note: RoundNote) -> Result<(), Memory>
        requires none { self.old.held ≡ None }
        requires right { GoesOn self.old.origin self.old.log (round_of note) }
        requires room { HasRoomFor self.old.origin self.old.room self.old.log (round_of note) }
        ensures { MatchResult result
            (λ _. self.new ≡ record self.old { held = Some (round_of note) })
            (λ _. self.new ≡ self.old) }
    {
        self.held = Some(note);
        Ok(())
    }

    /// Appends the held round in one step, and answers a receipt that names it. No memory is taken.
    pub fn publish<R: Wait>(&mut self, rt: &R) -> Receipt
        requires { IsSome self.old.held }
        ensures log { IfSome self.old.held (λ r.
            self.new ≡ record self.old { log = self.old.log ++ r ∷ []; held = None }) }
        ensures receipt { (result.seen.book ≡ self.new.book)
            × (rounds_of result.seen.log ≡ self.new.log) }
        ensures prefix { result.prefix ≡ length self.new.log }
    {
        let Some(note) = self.held.take() else {
            unreachable!()
        };
        let tip = grow(rt, &self.head, &self.tip, &note);
        let put = Put {
            note,
            front: tip.again(),
        };
        show_note(rt, &mut self.writer, put);
        self.tip = tip;
        self.tip.again()
    }

    /// A further receipt, which names the published prefix. No memory is taken.
    pub fn tell(&mut self) -> Receipt
        ensures same { self.new ≡ self.old }
        ensures receipt { (result.seen.book ≡ self.old.book)
            × (rounds_of result.seen.log ≡ self.old.log) }
        ensures prefix { result.prefix ≡ length self.old.log }
    {
        self.tip.again()
    }

    /// Ends the board. What is held is dropped. Desks that are asked afterwards need not be
    /// answered.
    pub fn close<R: Wait>(self, rt: &R) {
        let Publisher {
            writer,
            head: _head,
            tip: _tip,
            held: _held,
        } = self;
        drop(writer.take(rt));
    }
}

// A copy of the start, which shows the log that `tip` names.
fn face_of(
    alloc: Global,
    accepted: &Accepted,
    start: &Answer,
    room: u32,
    tip: &Receipt,
) -> Result<Face, Memory>
    requires program { (origin_of tip.now.seen.log).program ≡ accepted.now }
    requires rounds { rounds_of tip.now.seen.log ≡ [] }
    requires start { start.now ≡ answer accepted.now (origin_of tip.now.seen.log).graph }
    requires room { vertices (origin_of tip.now.seen.log).graph ≤ room }
    ensures answer { IfOk result (λ face. face.answer
        ≡ record { values = start.now; room = room; width = lanes accepted.now }) }
    ensures front { IfOk result (λ face. face.front ≡ tip.now) }
    ensures right { IfOk result (λ face. IsRight (sheet_of face)) }
{
    let lanes = accepted.program().entries().ranges.len() as u32;
    let answer = Places::new(alloc, start, lanes, room)?;
    Ok(Face {
        answer,
        front: tip.again(),
    })
}

/// A board that shows this answer of the program on the graph, and its desks. There may be up to
/// `room` vertices; the memory for them is taken here.
pub fn open<A: Adjacency, R: Wait>(
    rt: &R,
    alloc: Global,
    accepted: &Accepted,
    graph: &A,
    start: &Answer,
    room: u32,
    desks: u32,
) -> Result<(Publisher, DeskList), Memory>
    requires desks { desks ≤ MOST_DESKS }
    requires start { start.now ≡ answer accepted.now (A.plain graph.now) }
    requires room { vertices (A.plain graph.now) ≤ room }
    ensures publisher { IfOk result (λ r. r.0 ≡ record {
      book = r.0.book;
      origin = origin accepted.now (A.plain graph.now);
      room = room;
      log = [];
      held = None;
    }) }
    ensures desks { IfOk result (λ r. (length r.1 ≡ desks)
        × All (λ d. d ≡ new_post r.0.book (origin accepted.now (A.plain graph.now))) r.1) }
{
    let (head, tip) = open_book(rt, &Grounds { accepted, graph });
    let first = face_of(alloc, accepted, start, room, &tip)?;
    let second = face_of(alloc, accepted, start, room, &tip)?;
    let writer: DeskWriter = Writer::new(alloc, first, second, desks.max(1) as usize)?;
    let mut writer = with_log_room(rt, writer)?;
    match seat_desks(rt, alloc, &mut writer, &tip, desks) {
        Ok(all) => {
            let publisher = Publisher {
                writer,
                head,
                tip,
                held: None,
            };
            Ok((publisher, all))
        }
        Err(refused) => {
            drop(writer.take(rt));
            Err(refused)
        }
    }
}
