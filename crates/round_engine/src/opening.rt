// How an engine is opened.
ghost use Rattle.std.specs.Prelude.{◌≡◌, ◌+◌, ◌<◌, ◌≤◌, ◌^◌, IfErr, IfOk, OnOk};
ghost use Rattle.bolt_base.specs.Graph.{IsGood, room, vertices};
ghost use Rattle.run_model.specs.Visits.{opening_visits};
ghost use Rattle.round_engine.specs.Cells.{cells};
ghost use Rattle.round_engine.specs.EngineOf.{IsChoice};
ghost use Rattle.round_engine.specs.Opening.{IsOpenError, opened_state};
ghost use Rattle.round_engine.specs.declared.opening.TheConstants.{MOST_CELLS};

use crate::engine::Engine;
use adj_pages::PagedGraph;
use adjacency::Adjacency;
use agg_history::History;
use agg_words::AggWords;
use bolt_base::{Choice, GraphData, Limits, Memory, Meter};
use range_check::Accepted;
use std::alloc::Global;
use std::thread::Threads;
use sync_engine::{FirstRun, full_run};

/// The most cells that an engine may come to keep: a lane of a vertex at a kept iteration is one.
pub const MOST_CELLS: u64 = 67_108_864;

/// Why an engine isn't opened.
#[derive(Clone, Copy, Debug, PartialEq, Eq)]
pub enum OpenError {
    /// The cells that it might come to keep are more than the limit.
    Cells { need: u64, limit: u64 },
    /// Want of memory.
    Memory,
}

// The number of vertices to which a graph of so many may grow.
fn room_of(limits: Limits, count: u32) -> u32
    ensures { result ≡ room limits count }
{
    let twice = 2 * u64::from(count) + 1024;
    twice.min(u64::from(limits.vertices)) as u32
}

// The cells that may come to be kept.
fn cells_of(accepted: &Accepted, count: u32, cut: u32) -> u64
    requires short { cut ≤ 64 }
    ensures { result ≡ cells accepted.now count cut }
{
    let entries = accepted.program().entries();
    let most = room_of(entries.limits, count);
    u64::from(most) * entries.ranges.len() as u64 * u64::from(cut + 1)
}

impl Engine {
    /// Opens a program on a graph: all rows are computed, which reads each edge once in each round.
    pub fn open<R: Threads + Sync, M: Meter + Send>(
        rt: &R,
        alloc: Global,
        accepted: Accepted,
        plain: GraphData,
        choice: Choice,
        meter: &mut M,
    ) -> Result<Engine, OpenError>
        requires good { IsGood accepted.limits plain }
        requires choice { IsChoice accepted choice }
        requires held { 64 ≤ M.held meter.old }
        requires visits { M.counted meter.old + opening_visits accepted plain < 2 ^ 64 }
        ensures state { IfOk result (λ engine. engine ≡ opened_state accepted choice plain) }
        ensures cells { OnOk result (cells accepted (vertices plain) choice.cut ≤ MOST_CELLS) }
        ensures refused { IfErr result (IsOpenError accepted (vertices plain) choice.cut) }
        ensures exact { OnOk result
            (M.counted meter.new ≡ M.counted meter.old + opening_visits accepted plain) }
        ensures before { MOST_CELLS < cells accepted (vertices plain) choice.cut
            → M.counted meter.new ≡ M.counted meter.old }
        ensures most { M.counted meter.new ≤ M.counted meter.old + opening_visits accepted plain }
        ensures held { M.held meter.new ≡ M.held meter.old }
    {
        let opened = plain.attrs().len() as u32;
        let need = cells_of(&accepted, opened, choice.cut);
        if need > MOST_CELLS {
            return Err(OpenError::Cells {
                need,
                limit: MOST_CELLS,
            });
        }
        match open_within(rt, alloc, accepted, &plain, choice, meter) {
            Ok(engine) => Ok(engine),
            Err(Memory) => Err(OpenError::Memory),
        }
    }
}

// Opens an engine that may come to keep as many cells as it needs.
fn open_within<R: Threads + Sync, M: Meter + Send>(
    rt: &R,
    alloc: Global,
    accepted: Accepted,
    plain: &GraphData,
    choice: Choice,
    meter: &mut M,
) -> Result<Engine, Memory>
    requires good { IsGood accepted.limits plain.now }
    requires choice { IsChoice accepted choice }
    requires held { 64 ≤ M.held meter.old }
    requires visits { M.counted meter.old + opening_visits accepted plain.now < 2 ^ 64 }
    requires cells { cells accepted (vertices plain.now) choice.cut ≤ MOST_CELLS }
    ensures state { IfOk result (λ engine. engine ≡ opened_state accepted choice plain.now) }
    ensures exact { OnOk result
        (M.counted meter.new ≡ M.counted meter.old + opening_visits accepted plain.now) }
    ensures most { M.counted meter.new ≤ M.counted meter.old + opening_visits accepted plain.now }
    ensures held { M.held meter.new ≡ M.held meter.old }
{
    let program = accepted.program().entries();
    let opened = plain.attrs().len() as u32;
    let most = room_of(program.limits, opened);
    let limits = Limits {
        vertices: most,
        ..program.limits
    };
    let lanes = program.ranges.len() as u32;
    let rounds = program.rounds;
    let graph = PagedGraph::new(alloc, plain, &limits)?;
    let (words, seat) = AggWords::new(alloc, most * lanes, most, choice.workers)?;
    let FirstRun { rows, answer } = full_run(
        rt,
        alloc,
        &accepted,
        &graph,
        choice.cut,
        choice.workers,
        meter,
    )?;
    let history = History::from_rows(alloc, rows, choice.cut, choice.vertical)?;
    let edges = graph.edges();
    let answer = if choice.cut < rounds {
        Some(answer)
    } else {
        None
    };
    Ok(Engine {
        accepted,
        choice,
        opened,
        edges,
        graph,
        history,
        answer,
        words,
        seat,
    })
}
