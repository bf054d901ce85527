// Aggregates that words lead to.
ghost use Rattle.std.specs.Prelude.{◌≡◌, ℤ, ◌+◌, ◌-◌, ◌*◌, ◌≤◌, ◌<◌, ◌+ℤ◌, true, List, []};
ghost use Rattle.std.specs.Prelude.{IfOk, length, slice_index_or};
ghost use Rattle.std.specs.Int.{cast_signed, int_wrap, w64};
ghost use Rattle.bolt_base.specs.Graph.{vertices};
ghost use Rattle.bolt_base.specs.Keep.{read};
ghost use Rattle.core_model.specs.Iterations.{had_agg, next_aggs, word_in};
ghost use Rattle.run_model.specs.Additions.{word};
ghost use Rattle.run_model.specs.Program.{by_lane, is_sum, lanes, number, zeros};
ghost use Rattle.core_rows.specs.Settling.{CanSettle, given_of, work_of};

use crate::entries::EntryRow;
use adjacency::Adjacency;
use bolt_base::{Choice, Lanes, Memory};
use run_model::empties;
use std::alloc::Global;
use vertex_expr::Program;

// An aggregate and the words of its vertex, with wrap-around.
fn with_words(program: &Program, words: &[u64], old: &Lanes, v: u32) -> Lanes
    requires old { length old.now ≡ lanes program.now }
    requires words { v * lanes program.now + lanes program.now ≤ length words.now }
    ensures { result ≡ by_lane program.now (λ l. int_wrap w64
        (number old.now l +ℤ cast_signed w64 (word_in words.now (word program.now v l)))) }
{
    let lanes = old.width();
    let first = v as usize * lanes as usize;
    let mut agg = Lanes::zeros(lanes);
    for lane in 0..lanes {
        let word = words[first + lane as usize];
        agg.set(lane, old.get(lane).wrapping_add(word.cast_signed()));
    }
    agg
}

// The aggregate of a vertex at an iteration, from what is kept of it.
fn stored_aggregate(program: &Program, kept: &[(Lanes, Lanes)], iteration: u32) -> Lanes
    ensures { (first : List ℤ) → result ≡ (read (zeros program.now, first) kept.now iteration).0 }
{
    let place = kept.len().min(iteration as usize);
    if place == 0 {
        return Lanes::zeros(program.entries().ranges.len() as u32);
    }
    kept[place - 1].0
}

// The aggregate that a vertex had: past the cut that of the iteration before, and up to it that of
// the old graph, of which a new vertex had none.
fn had_aggregate<A: Adjacency>(
    program: &Program,
    choice: Choice,
    old: &A,
    kept: &[EntryRow],
    rows: &[EntryRow],
    iteration: u32,
    v: u32,
) -> Lanes
    requires some { 1 ≤ iteration }
    requires last { v < length (slice_index_or rows.now (iteration - 1) []) }
    requires kept { length kept.now ≡ vertices (A.plain old.now) }
    ensures { let g = A.plain old.now in
        result ≡ had_agg (given_of program.now choice g) g kept.now
        (work_of g iteration rows.now []) v }
{
    if choice.cut < iteration {
        let row = rows[iteration as usize - 1].as_slice();
        return row[v as usize].0;
    }
    if old.vertices() <= v {
        return empties(program);
    }
    stored_aggregate(program, kept[v as usize].as_slice(), iteration)
}

/// The aggregates that the words lead to.
pub fn summed_aggregates<A: Adjacency>(
    alloc: Global,
    program: &Program,
    choice: Choice,
    old: &A,
    new: &A,
    kept: &[EntryRow],
    rows: &[EntryRow],
    iteration: u32,
    words: &[u64],
) -> Result<Vec<Lanes>, Memory>
    requires sum { is_sum program.now.combine ≡ true }
    requires ready { CanSettle program.now choice (A.plain old.now) kept.now
        (work_of (A.plain new.now) iteration rows.now words.now) }
    ensures { let g = A.plain old.now in
        IfOk result (λ aggs. aggs.items
        ≡ next_aggs (given_of program.now choice g) g kept.now
        (work_of (A.plain new.now) iteration rows.now words.now)) }
{
    let vertices = new.vertices();
    let mut aggs = Vec::new(alloc);
    for v in 0..vertices {
        let had = had_aggregate(program, choice, old, kept, rows, iteration, v);
        aggs.push(with_words(program, words, &had, v))?;
    }
    Ok(aggs)
}
