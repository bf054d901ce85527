// The answer of a program, from the rows up to the cut.
ghost use Rattle.std.specs.Prelude.{◌≡◌, ◌+◌, ◌<◌, ◌≤◌, ◌^◌, ◌++◌, IfOk, OnOk};
ghost use Rattle.agg_words.specs.Known.{IsClear};
ghost use Rattle.bolt_base.specs.Graph.{IsGood};
ghost use Rattle.run_model.specs.Program.{is_sum, lanes};
ghost use Rattle.run_model.specs.Rows.{answer};
ghost use Rattle.run_model.specs.Visits.{tail_step_visits, tail_visits};
ghost use Rattle.edge_map.specs.Ready.{WordsReady};
ghost use Rattle.refine_rows.specs.Refining.{IsRefinedBy};
ghost use Rattle.hybrid_tail.specs.Keeping.{AreKept};
ghost use Rattle.hybrid_tail.specs.TailAmounts.{tail_amounts, tail_step_amounts};
ghost use Rattle.hybrid_tail.specs.TailStep.{CanGoOn, IsNext};

use crate::kept::{kept_values, rows_at_cut};
use crate::pulls::pull_iteration;
use crate::rows::TailRows;
use crate::sums::sum_iteration;
use adjacency::Metered;
use agg_history::{History, Overlay};
use agg_words::{AggSeat, AggWords};
use bolt_base::{Answer, Gate, Lanes, Memory, Meter};
use range_check::Accepted;
use std::alloc::Global;
use std::thread::Threads;
use vertex_expr::Combine;

// Whether contributions are combined by sum.
fn is_sum(combine: Combine) -> bool
    ensures { result ≡ is_sum combine }
{
    matches!(combine, Combine::Sum)
}

// An iteration past the cut, by differences where the program combines by sum. The rows are of no
// further use after `Memory`, and the words are ready again after either answer.
fn iterate<R: Threads + Sync, A: Metered<M> + Sync, T: Gate + Sync, M: Meter + Send>(
    rt: &R,
    alloc: Global,
    accepted: &Accepted,
    graph: &A,
    i: u32,
    rows: &mut TailRows,
    words: &AggWords,
    seat: &mut AggSeat,
    workers: u32,
    gate: &T,
    meter: &mut M,
) -> Result<(), Memory>
    requires go_on { CanGoOn accepted.now (A.plain graph.now) i }
    requires rows { IsNext accepted.now (A.plain graph.now) i rows.old }
    requires table { seat.old.table ≡ words.now.table }
    requires words { WordsReady accepted.now (A.plain graph.now) workers words.now.layout
        seat.old.view }
    requires held { 64 ≤ M.held meter.old }
    requires visits { M.counted meter.old + tail_step_visits accepted.now (A.plain graph.now) i
        < 2 ^ 64 }
    ensures rows { OnOk result (IsNext accepted.now (A.plain graph.now) (i + 1) rows.new) }
    ensures amounts { OnOk result (seat.new.view.amounts ≡ seat.old.view.amounts
        ++ tail_step_amounts accepted.now (A.plain graph.now) i) }
    ensures exact { OnOk result (M.counted meter.new
        ≡ M.counted meter.old + tail_step_visits accepted.now (A.plain graph.now) i) }
    ensures most { M.counted meter.new
        ≤ M.counted meter.old + tail_step_visits accepted.now (A.plain graph.now) i }
    ensures held { M.held meter.new ≡ M.held meter.old }
    ensures table { seat.new.table ≡ seat.old.table }
    ensures units { seat.new.view.units ≡ seat.old.view.units }
    ensures clear { IsClear words.now.layout seat.new.view }
{
    let program = accepted.program();
    if is_sum(program.entries().combine) {
        return sum_iteration(
            rt, alloc, accepted, graph, i, rows, words, seat, workers, gate, meter,
        );
    }
    pull_iteration(rt, alloc, program, graph, i, rows, workers, meter)
}

// The values at the last iteration, from the rows at the cut.
fn last_values<R: Threads + Sync, A: Metered<M> + Sync, T: Gate + Sync, M: Meter + Send>(
    rt: &R,
    alloc: Global,
    accepted: &Accepted,
    graph: &A,
    history: &History,
    overlay: &Overlay,
    words: &AggWords,
    seat: &mut AggSeat,
    workers: u32,
    gate: &T,
    meter: &mut M,
) -> Result<Vec<Lanes>, Memory>
    requires kept { AreKept accepted.now (A.plain graph.now) history.now overlay.now }
    requires table { seat.old.table ≡ words.now.table }
    requires words { WordsReady accepted.now (A.plain graph.now) workers words.now.layout
        seat.old.view }
    requires held { 64 ≤ M.held meter.old }
    requires visits { M.counted meter.old
        + tail_visits accepted.now (A.plain graph.now) history.now.cut < 2 ^ 64 }
    ensures answer { IfOk result (λ vals.
        vals.items ≡ answer accepted.now (A.plain graph.now)) }
    ensures amounts { OnOk result (seat.new.view.amounts ≡ seat.old.view.amounts
        ++ tail_amounts accepted.now (A.plain graph.now) history.now.cut) }
    ensures exact { OnOk result (M.counted meter.new ≡ M.counted meter.old
        + tail_visits accepted.now (A.plain graph.now) history.now.cut) }
    ensures most { M.counted meter.new ≤ M.counted meter.old
        + tail_visits accepted.now (A.plain graph.now) history.now.cut }
    ensures held { M.held meter.new ≡ M.held meter.old }
    ensures table { seat.new.table ≡ seat.old.table }
    ensures units { seat.new.view.units ≡ seat.old.view.units }
    ensures clear { IsClear words.now.layout seat.new.view }
{
    let program = accepted.program();
    let mut rows = rows_at_cut(alloc, program, graph, history, overlay)?;
    for i in history.cut()..program.entries().rounds {
        iterate(
            rt,
            alloc,
            accepted,
            graph,
            i + 1,
            &mut rows,
            words,
            seat,
            workers,
            gate,
            meter,
        )?;
    }
    let TailRows {
        aggs: _,
        vals,
        last: _,
        moved: _,
    } = rows;
    Ok(vals)
}

/// The answer of a program on a graph whose rows up to the cut are those of the history with the
/// overlay laid over it. Past the cut each iteration is made from the one before: where the program
/// combines by sum the vertices whose values changed give their differences, else the aggregates
/// that they give to are evaluated again, and just the vertices that may change are evaluated
/// again. The words are ready again after either answer. Where the cut is the last iteration, the
/// answer is the last kept row, and no edge is read.
pub fn finish<R: Threads + Sync, A: Metered<M> + Sync, T: Gate + Sync, M: Meter + Send>(
    rt: &R,
    alloc: Global,
    accepted: &Accepted,
    graph: &A,
    history: &History,
    overlay: &Overlay,
    words: &AggWords,
    seat: &mut AggSeat,
    workers: u32,
    gate: &T,
    meter: &mut M,
) -> Result<Answer, Memory>
    requires good { IsGood accepted.now.limits (A.plain graph.now) }
    requires refined { IsRefinedBy accepted.now (A.plain graph.now) history.now overlay.now }
    requires lanes { history.now.lanes ≡ lanes accepted.now }
    requires some { 1 ≤ history.now.cut }
    requires cut { history.now.cut ≤ accepted.now.rounds }
    requires table { seat.old.table ≡ words.now.table }
    requires words { WordsReady accepted.now (A.plain graph.now) workers words.now.layout
        seat.old.view }
    requires held { 64 ≤ M.held meter.old }
    requires visits { M.counted meter.old
        + tail_visits accepted.now (A.plain graph.now) history.now.cut < 2 ^ 64 }
    ensures answer { IfOk result (λ a. a ≡ answer accepted.now (A.plain graph.now)) }
    ensures amounts { OnOk result (seat.new.view.amounts ≡ seat.old.view.amounts
        ++ tail_amounts accepted.now (A.plain graph.now) history.now.cut) }
    ensures exact { OnOk result (M.counted meter.new ≡ M.counted meter.old
        + tail_visits accepted.now (A.plain graph.now) history.now.cut) }
    ensures most { M.counted meter.new ≤ M.counted meter.old
        + tail_visits accepted.now (A.plain graph.now) history.now.cut }
    ensures held { M.held meter.new ≡ M.held meter.old }
    ensures table { seat.new.table ≡ seat.old.table }
    ensures units { seat.new.view.units ≡ seat.old.view.units }
    ensures clear { IsClear words.now.layout seat.new.view }
{
    let program = accepted.program();
    let cut = history.cut();
    if cut == program.entries().rounds {
        let values = kept_values(alloc, program, graph, history, overlay, cut)?;
        return Ok(Answer::from_vec(values));
    }
    let values = last_values(
        rt, alloc, accepted, graph, history, overlay, words, seat, workers, gate, meter,
    )?;
    Ok(Answer::from_vec(values))
}
