// The engine, and what can be read of it.
ghost use Rattle.std.specs.Prelude.{◌≡◌, ◌↔◌, ◌<◌, ◌≤◌, IsTrue, None, length};
ghost use Rattle.bolt_base.specs.Graph.{IsGood, edges, vertices, within};
ghost use Rattle.agg_history.specs.Pruned.{rows_of};
ghost use Rattle.range_check.specs.Breaks.{IsAccepted};
ghost use Rattle.run_model.specs.Kept.{kept};
ghost use Rattle.run_model.specs.Program.{lanes};
ghost use Rattle.run_model.specs.Rows.{agg_at, rows_to, val_at};

use adj_pages::PagedGraph;
use agg_history::History;
use agg_words::{AggSeat, AggWords};
use bolt_base::{Answer, Choice};
use range_check::Accepted;
use std::marker::Model;

/// A program on a graph that changes by batches, with its kept iterations and its answer. While a
/// batch is prepared, all reads are still of the state before it.
#[derive(Drop)]
pub struct Engine {
    pub(crate) accepted: Accepted,
    pub(crate) choice: Choice,
    pub(crate) opened: u32,
    pub(crate) edges: u32,
    pub(crate) graph: PagedGraph,
    pub(crate) history: History,
    pub(crate) answer: Option<Answer>,
    pub(crate) words: AggWords,
    pub(crate) seat: AggSeat,
}

impl Model for Engine {
    ghost use Rattle.round_engine.specs.State.{EngineState, coded_engine};

    ghost Value = { EngineState };

    ghost coded = { coded_engine };

    ghost use Rattle.round_engine.specs.EngineOf.{engine_of, IsEngine};

    ghost view = { engine_of };

    ghost invariant = { IsEngine };
}

impl Engine {
    /// Whether no batch is prepared.
    pub fn idle(&self) -> bool
        ensures { IsTrue result ↔ (self.now.next ≡ None) }
    {
        !self.graph.is_changed()
    }

    /// The number of vertices.
    pub fn vertices(&self) -> u32
        ensures { result ≡ vertices self.now.now }
    {
        self.history.vertices()
    }

    /// The number of edges.
    pub fn edges(&self) -> u32
        ensures { result ≡ length (edges self.now.now) }
    {
        self.edges
    }

    /// The program.
    pub fn accepted(&self) -> &Accepted
        ensures program { result.now ≡ self.now.program }
        ensures safe { IsAccepted self.now.program }
    {
        let _opened = self.opened;
        &self.accepted
    }

    /// The graph, under the program's limits for as many vertices as the opened graph may come to
    /// have. It is good under them.
    pub fn graph(&self) -> &PagedGraph
        requires idle { self.now.next ≡ None }
        ensures graph { result.now
            ≡ record {
              now = self.now.now;
              before = None;
              limits = within self.now.program.limits self.now.opened;
              version = self.now.number;
            } }
        ensures good { IsGood (within self.now.program.limits self.now.opened) self.now.now }
    {
        let _opened = self.opened;
        &self.graph
    }

    /// The kept iterations.
    pub fn history(&self) -> &History
        requires idle { self.now.next ≡ None }
        ensures rows { rows_of result.now
            ≡ rows_to self.now.program self.now.now self.now.choice.cut }
        ensures cut { result.now.cut ≡ self.now.choice.cut }
        ensures vertical { result.now.vertical ≡ self.now.choice.vertical }
        ensures lanes { result.now.lanes ≡ lanes self.now.program }
    {
        let _opened = self.opened;
        &self.history
    }

    /// A lane of the answer of vertex `v`.
    pub fn value(&self, v: u32, lane: u32) -> i64
        requires vertex { v < vertices self.now.now }
        requires lane { lane < lanes self.now.program }
        ensures { result ≡ val_at self.now.program self.now.now self.now.program.rounds v lane }
    {
        match &self.answer {
            Some(answer) => answer.as_slice()[v as usize].get(lane),
            None => self.history.val(self.choice.cut, v, lane),
        }
    }

    /// A lane of the value of vertex `v` at a kept iteration.
    pub fn kept_value(&self, i: u32, v: u32, lane: u32) -> i64
        requires iteration { i ≤ self.now.choice.cut }
        requires vertex { v < vertices self.now.now }
        requires lane { lane < lanes self.now.program }
        ensures { result ≡ val_at self.now.program self.now.now i v lane }
    {
        self.history.val(i, v, lane)
    }

    /// A lane of the aggregate of vertex `v` at a kept iteration.
    pub fn kept_agg(&self, i: u32, v: u32, lane: u32) -> i64
        requires iteration { i ≤ self.now.choice.cut }
        requires vertex { v < vertices self.now.now }
        requires lane { lane < lanes self.now.program }
        ensures { result ≡ agg_at self.now.program self.now.now i v lane }
    {
        self.history.agg(i, v, lane)
    }

    /// The number of kept entries of all vertices.
    pub fn kept(&self) -> u64
        ensures { result
            ≡ kept self.now.choice.vertical self.now.program self.now.now self.now.choice.cut }
    {
        self.history.kept()
    }
}
