// What one worker does.
ghost use Rattle.std.specs.Prelude.{◌≡◌, ◌+◌, ◌*◌, ◌^◌, ◌<◌, ◌≤◌, min, All, length, take};
ghost use Rattle.bolt_base.specs.Graph.{vertices};
ghost use Rattle.bolt_base.specs.Pieces.{cut};
ghost use Rattle.edge_map.specs.Additions.{gifts_of_works, adds_of_gifts, ends_of_gifts, visits_of};
ghost use Rattle.edge_map.specs.Forks.{part_visits, piece_room, part_room};
ghost use Rattle.edge_map.specs.Grew.{Grew};
ghost use Rattle.edge_map.specs.Plans.{IsPlan};
ghost use Rattle.edge_map.specs.Ready.{HasRoom};
ghost use Rattle.edge_map.specs.Walks.{IsWork};

use crate::item::make;
use crate::prepare::all_reads;
use crate::tasks::{Plan, Work};
use adjacency::{Adjacency, Metered};
use agg_words::{AggSeat, AggWords};
use bolt_base::Meter;

/// Where a piece begins among so many items.
pub(crate) fn cut_at(piece: u32, total: usize, workers: u32) -> usize
    requires some { 1 ≤ workers }
    requires piece { piece ≤ workers }
    ensures value { result ≡ cut piece total workers }
    ensures within { result ≤ total }
{
    let begin = u128::from(piece) * total as u128 / u128::from(workers);
    begin as usize
}

// How many targets a piece can have: as many as it reads edges, but no more than there are
// vertices.
fn piece_room<A: Adjacency>(graph: &A, plan: &Plan, piece: u32) -> usize
    requires piece { piece < plan.now.workers }
    requires visits { part_visits plan.now piece (piece + 1) < 2 ^ 64 }
    ensures { result ≡ piece_room (A.plain graph.now) plan.now piece }
{
    let start = cut_at(piece, plan.works.len(), plan.workers);
    let end = cut_at(piece + 1, plan.works.len(), plan.workers);
    let reads = all_reads(plan.tasks, &plan.works[start..end]);
    reads.min(u64::from(graph.vertices())) as usize
}

/// How many targets the pieces from `from` up to `to` can have.
pub(crate) fn room_of<A: Adjacency>(graph: &A, plan: &Plan, from: u32, to: u32) -> usize
    requires range { (from ≤ to) × (to ≤ plan.now.workers) }
    requires visits { part_visits plan.now from to < 2 ^ 64 }
    ensures { result ≡ part_room (A.plain graph.now) plan.now from to }
{
    let mut room = 0;
    for piece in from..to {
        room += piece_room(graph, plan, piece);
    }
    room
}

/// What some items add. Their targets are put to the front of `targets`.
pub(crate) fn run_piece<A: Metered<M>, M: Meter>(
    graph: &A,
    plan: &Plan,
    words: &AggWords,
    seat: &mut AggSeat,
    meter: &mut M,
    all: &[Work],
    targets: &mut [u32],
) -> usize
    requires table { seat.old.table ≡ words.now.table }
    requires unit { 1 ≤ seat.old.view.units }
    requires plan { IsPlan (A.plain graph.now) plan.now }
    requires words { HasRoom plan.now.program.now (A.plain graph.now) words.now.layout.words
        words.now.layout.bits }
    requires works { All (IsWork plan.now.program.now (A.plain graph.now) plan.now.tasks.now)
        all.now }
    requires room { min (vertices (A.plain graph.now)) (visits_of plan.now.tasks.now all.now) ≤
        length targets.old }
    requires visits { M.counted meter.old + visits_of plan.now.tasks.now all.now < 2 ^ 64 }
    ensures table { seat.new.table ≡ seat.old.table }
    ensures units { seat.new.view.units ≡ seat.old.view.units }
    ensures held { M.held meter.new ≡ M.held meter.old }
    ensures visits { M.counted meter.new
        ≡ M.counted meter.old + visits_of plan.now.tasks.now all.now }
    ensures count { result ≤ length targets.new }
    ensures grew { Grew seat.old.view seat.new.view
        (adds_of_gifts plan.now.program.now
        (gifts_of_works plan.now.program.now (A.plain graph.now) plan.now.tasks.now all.now))
        (ends_of_gifts (gifts_of_works plan.now.program.now (A.plain graph.now)
        plan.now.tasks.now all.now)) (take result targets.new) }
{
    let mut count = 0;
    for work in all {
        count = make(graph, plan, words, seat, meter, *work, targets, count);
    }
    count
}
