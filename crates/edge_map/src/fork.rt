// Pieces beside each other.
ghost use Rattle.std.specs.Prelude.{◌≡◌, ◌+◌, ◌-◌, ◌^◌, ◌<◌, ◌≤◌, length, take, drop, ◌++◌};
ghost use Rattle.std.specs.Thread.{IsSync};
ghost use Rattle.edge_map.specs.Forks.{part_visits, part_room, part_adds, part_ends};
ghost use Rattle.edge_map.specs.Grew.{Grew};
ghost use Rattle.edge_map.specs.Plans.{IsPlan};
ghost use Rattle.edge_map.specs.Ready.{HasRoom};

use crate::piece::{cut_at, room_of, run_piece};
use crate::tasks::Plan;
use adjacency::Metered;
use agg_words::{AggSeat, AggWords};
use bolt_base::{Gate, Meter};
use std::thread::{Threads, join_mut};

// Puts the `second` numbers from `middle` on behind the `first` ones.
fn close_up(targets: &mut [u32], first: usize, middle: usize, second: usize)
    requires order { first ≤ middle }
    requires room { middle + second ≤ length targets.old }
    ensures { take (first + second) targets.new ≡ take first targets.old
        ++ take second (drop middle targets.old) }
{
    targets.copy_within(middle..middle + second, first);
}

/// Runs the pieces from `from` up to `to`, in as many threads as there are pieces where these can
/// be had. Their targets are
/// put to the front of `targets`.
#[cycle(fork)]
pub(crate) fn run_pieces<R: Threads + Sync, A: Metered<M> + Sync, T: Gate + Sync, M: Meter + Send>(
    rt: &R,
    graph: &A,
    plan: &Plan,
    words: &AggWords,
    gate: &T,
    from: u32,
    to: u32,
    seat: &mut AggSeat,
    meter: &mut M,
    targets: &mut [u32],
) -> usize
    requires table { seat.old.table ≡ words.now.table }
    requires range { (from < to) × (to ≤ plan.now.workers) }
    requires units { to ≤ seat.old.view.units + from }
    requires held { (to ≤ M.held meter.old + from) × (M.held meter.old < 2 ^ 32) }
    requires room { part_room (A.plain graph.now) plan.now from to ≤ length targets.old }
    requires visits { M.counted meter.old + part_visits plan.now from to < 2 ^ 64 }
    requires plan { IsPlan (A.plain graph.now) plan.now }
    requires words { HasRoom plan.now.program.now (A.plain graph.now) words.now.layout.words
        words.now.layout.bits }
    ensures table { seat.new.table ≡ seat.old.table }
    ensures units { seat.new.view.units ≡ seat.old.view.units }
    ensures held { M.held meter.new ≡ M.held meter.old }
    ensures visits { M.counted meter.new ≡ M.counted meter.old + part_visits plan.now from to }
    ensures count { result ≤ length targets.new }
    ensures grew { Grew seat.old.view seat.new.view
        (part_adds (A.plain graph.now) plan.now from to)
        (part_ends (A.plain graph.now) plan.now from to) (take result targets.new) }
{
    if to - from == 1 {
        gate.pass(from);
        let start = cut_at(from, plan.works.len(), plan.workers);
        let end = cut_at(to, plan.works.len(), plan.workers);
        return run_piece(
            graph,
            plan,
            words,
            seat,
            meter,
            &plan.works[start..end],
            targets,
        );
    }
    let half = from + (to - from) / 2;
    let middle = room_of(graph, plan, from, half);
    let mut second_seat = words.split(seat, to - half);
    let mut second_meter = meter.split(to - half);
    let (first_targets, second_targets) = targets.split_at_mut(middle);
    let (first, second) = run_halves(
        rt,
        graph,
        plan,
        words,
        gate,
        seat,
        &mut second_seat,
        meter,
        &mut second_meter,
        from,
        half,
        half,
        to,
        first_targets,
        second_targets,
    );
    words.join(seat, second_seat);
    meter.join(second_meter);
    close_up(targets, first, middle, second);
    first + second
}

// Two runs of pieces beside each other.
#[cycle(fork)]
fn run_halves<R: Threads + Sync, A: Metered<M> + Sync, T: Gate + Sync, M: Meter + Send>(
    rt: &R,
    graph: &A,
    plan: &Plan,
    words: &AggWords,
    gate: &T,
    seat: &mut AggSeat,
    second_seat: &mut AggSeat,
    meter: &mut M,
    second_meter: &mut M,
    from: u32,
    half: u32,
    start: u32,
    to: u32,
    targets: &mut [u32],
    second_targets: &mut [u32],
) -> (usize, usize)
    requires table { seat.old.table ≡ words.now.table }
    requires range { (from < half) × (half ≤ plan.now.workers) }
    requires units { half ≤ seat.old.view.units + from }
    requires held { (half ≤ M.held meter.old + from) × (M.held meter.old < 2 ^ 32) }
    requires room { part_room (A.plain graph.now) plan.now from half ≤ length targets.old }
    requires visits { M.counted meter.old + part_visits plan.now from half < 2 ^ 64 }
    requires second_table { second_seat.old.table ≡ words.now.table }
    requires second_range { (start < to) × (to ≤ plan.now.workers) }
    requires second_units { to ≤ second_seat.old.view.units + start }
    requires second_held { (to ≤ M.held second_meter.old + start)
        × (M.held second_meter.old < 2 ^ 32) }
    requires second_room { part_room (A.plain graph.now) plan.now start to ≤ length
        second_targets.old }
    requires second_visits { M.counted second_meter.old + part_visits plan.now start to < 2 ^ 64 }
    requires plan { IsPlan (A.plain graph.now) plan.now }
    requires words { HasRoom plan.now.program.now (A.plain graph.now) words.now.layout.words
        words.now.layout.bits }
    ensures table { seat.new.table ≡ seat.old.table }
    ensures units { seat.new.view.units ≡ seat.old.view.units }
    ensures held { M.held meter.new ≡ M.held meter.old }
    ensures visits { M.counted meter.new ≡ M.counted meter.old + part_visits plan.now from half }
    ensures count { result.0 ≤ length targets.new }
    ensures grew { Grew seat.old.view seat.new.view
        (part_adds (A.plain graph.now) plan.now from half)
        (part_ends (A.plain graph.now) plan.now from half) (take result.0 targets.new) }
    ensures second_table { second_seat.new.table ≡ second_seat.old.table }
    ensures second_units { second_seat.new.view.units ≡ second_seat.old.view.units }
    ensures second_held { M.held second_meter.new ≡ M.held second_meter.old }
    ensures second_visits { M.counted second_meter.new
        ≡ M.counted second_meter.old + part_visits plan.now start to }
    ensures second_count { result.1 ≤ length second_targets.new }
    ensures second_grew { Grew second_seat.old.view second_seat.new.view
        (part_adds (A.plain graph.now) plan.now start to)
        (part_ends (A.plain graph.now) plan.now start to) (take result.1 second_targets.new) }
{
    let mut front = || -> usize
        requires { IsSync R.row × IsSync A.row × IsSync T.row × (seat.now.table ≡ words.now.table)
            × (from < half) × (half ≤ plan.now.workers) × (half ≤ seat.now.view.units + from)
            × (half ≤ M.held meter.now + from) × (M.held meter.now < 2 ^ 32)
            × IsPlan (A.plain graph.now) plan.now
            × HasRoom plan.now.program.now (A.plain graph.now) words.now.layout.words
            words.now.layout.bits
            × (part_room (A.plain graph.now) plan.now from half ≤ length
            targets.now)
            ×
            (M.counted meter.now + part_visits plan.now from half <
            2 ^ 64) }
        ensures table { seat.exit.now.table ≡ seat.entry.now.table }
        ensures units { seat.exit.now.view.units ≡ seat.entry.now.view.units }
        ensures held { M.held meter.exit.now ≡ M.held meter.entry.now }
        ensures visits { M.counted meter.exit.now
            ≡ M.counted meter.entry.now + part_visits plan.entry.now from half }
        ensures count { result ≤ length targets.exit.now }
        ensures grew { Grew seat.entry.now.view seat.exit.now.view
            (part_adds (A.plain graph.entry.now) plan.entry.now from half)
            (part_ends (A.plain graph.entry.now) plan.entry.now from half)
            (take result targets.exit.now) }
    {
        run_pieces(
            rt, graph, plan, words, gate, from, half, seat, meter, targets,
        )
    };
    let mut back = || -> usize
        requires { IsSync R.row × IsSync A.row × IsSync T.row
            × (second_seat.now.table ≡ words.now.table) × (start < to) × (to ≤ plan.now.workers)
            × (to ≤ second_seat.now.view.units + start)
            × (to ≤ M.held second_meter.now + start) × (M.held second_meter.now < 2 ^ 32)
            × IsPlan (A.plain graph.now) plan.now
            × HasRoom plan.now.program.now (A.plain graph.now)
            words.now.layout.words words.now.layout.bits
            ×
            (part_room (A.plain graph.now) plan.now start to ≤ length
            second_targets.now)
            ×
            (M.counted second_meter.now + part_visits
            plan.now start to < 2 ^ 64) }
        ensures table { second_seat.exit.now.table ≡ second_seat.entry.now.table }
        ensures units { second_seat.exit.now.view.units ≡ second_seat.entry.now.view.units }
        ensures held { M.held second_meter.exit.now ≡ M.held second_meter.entry.now }
        ensures visits { M.counted second_meter.exit.now
            ≡ M.counted second_meter.entry.now + part_visits plan.entry.now start to }
        ensures count { result ≤ length second_targets.exit.now }
        ensures grew { Grew second_seat.entry.now.view second_seat.exit.now.view
            (part_adds (A.plain graph.entry.now) plan.entry.now start to)
            (part_ends (A.plain graph.entry.now) plan.entry.now start to)
            (take result second_targets.exit.now) }
    {
        run_pieces(
            rt,
            graph,
            plan,
            words,
            gate,
            start,
            to,
            second_seat,
            second_meter,
            second_targets,
        )
    };
    join_mut(rt, &mut front, &mut back)
}
