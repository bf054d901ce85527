// A run, batch after batch.
ghost use Rattle.std.specs.Prelude.{◌≡◌, ◌+◌, ◌<◌, ◌≤◌, ◌^◌, ◌⊎◌, ◌++◌, length, IfOk, IfErr, OnOk};
ghost use Rattle.bolt_base.specs.Graph.{IsGood, vertices};
ghost use Rattle.graph_text.specs.declared.batch_reader.TheConstants.{MOST_EDITS};
ghost use Rattle.round_engine.specs.Cells.{cells};
ghost use Rattle.round_engine.specs.EngineOf.{IsChoice};
ghost use Rattle.round_engine.specs.declared.opening.TheConstants.{MOST_CELLS};
ghost use Rattle.report_text.specs.Lines.{accepted_line};
ghost use Rattle.report_text.specs.Refusals.{refused_line};
ghost use Rattle.report_text.specs.Runs.{batch_text, end_status, if_shown, moved, opened};
ghost use Rattle.report_text.specs.Runs.{end_text as end_text_of, next_number as next_number_of};
ghost use Rattle.report_text.specs.Runs.{open_text as open_text_of};
ghost use Rattle.report_text.specs.Values.{set_lines, value_lines};
ghost use Rattle.run_model.specs.Rows.{answer};
ghost use Rattle.run_model.specs.Visits.{opening_visits};
ghost use Rattle.engine_runs.specs.State.{IsUnderWay, run_of};

use crate::answers::EngineAnswer;
use crate::making::make_batch;
use bolt_base::{Bytes, Choice, Gate, GraphData, Memory, VisitMeter};
use graph_text::{BadLine, BatchText};
use range_check::Accepted;
use report_text::{
    BatchNumbers, OpenNumbers, push_accepted, push_end, push_open, push_refused, push_sets,
    push_totals, push_values,
};
use round_engine::{Engine, OpenError, Round};
use std::alloc::Global;
use std::marker::Model;
use std::thread::Threads;

/// A run between two batches. Contracts see it as the program, how it is run, its graph, and the
/// numbers of batches.
#[derive(Drop)]
pub struct Progress {
    engine: Engine,
    shows: bool,
    refused: u64,
}

impl Model for Progress {
    ghost use Rattle.report_text.specs.Runs.{Run};
    ghost use Rattle.engine_runs.specs.State.{IsUnderWay, coded_run, run_of};

    ghost Value = { Run };

    ghost coded = { coded_run };

    ghost view = { λ p. run_of p.engine p.shows p.refused };

    ghost invariant = { λ p. IsUnderWay p.engine };
}

// Appends the value of each vertex, where values are shown.
fn push_shown(out: &mut Bytes, engine: &Engine, shows: bool) -> Result<(), Memory>
    ensures { let e = engine.now in OnOk result (out.new
        ≡ out.old ++ if_shown shows (value_lines (answer e.program e.now))) }
{
    if !shows {
        return Ok(());
    }
    push_values(out, &EngineAnswer { engine }, engine.vertices())?;
    Ok(())
}

// The lines of an accepted batch.
fn round_text(alloc: Global, number: u64, round: &Round, shows: bool) -> Result<Bytes, Memory>
    ensures { let r = round.now in IfOk result (λ text. text
        ≡ accepted_line number r.added r.removed r.edges r.kept r.visits
        ++ if_shown shows (set_lines r.changes)) }
{
    let mut text = Bytes::new(alloc);
    push_accepted(
        &mut text,
        BatchNumbers {
            number,
            added: round.added,
            removed: round.removed,
            edges: round.edges,
            kept: round.kept,
            visits: round.visits,
        },
    )?;
    if shows {
        push_sets(&mut text, round.changes.as_slice())?;
    }
    Ok(text)
}

// The line of a refused batch.
fn refusal_text(alloc: Global, number: u64, bad: BadLine) -> Result<Bytes, Memory>
    ensures { IfOk result (λ text. text ≡ refused_line number bad) }
{
    let mut text = Bytes::new(alloc);
    push_refused(&mut text, number, bad)?;
    Ok(text)
}

impl Progress {
    /// A run over an engine for which no batch is prepared, with what values are shown and how many
    /// batches were refused.
    pub fn new(engine: Engine, shows: bool, refused: u64) -> Progress
        requires { IsUnderWay engine }
        ensures { result ≡ run_of engine shows refused }
    {
        Progress {
            engine,
            shows,
            refused,
        }
    }

    /// The engine of the run. No batch is prepared.
    pub fn into_engine(self) -> Engine
        ensures ready { IsUnderWay result }
        ensures run { self ≡ run_of result self.shows self.refused }
    {
        self.engine
    }

    // The number of the next batch.
    fn next_number(&self) -> u64
        requires { next_number_of self.now < 2 ^ 64 }
        ensures { result ≡ next_number_of self.now }
    {
        self.engine.graph().version() + self.refused + 1
    }

    /// Judges the next batch, moves on, and answers what is written of the batch.
    pub fn take<R: Threads + Sync, T: Gate + Sync>(
        &mut self,
        rt: &R,
        alloc: Global,
        gate: &T,
        batch: &BatchText,
    ) -> Result<Bytes, Memory>
        requires paired { length batch.now.lines ≡ length batch.now.edits }
        requires small { length batch.now.edits ≤ MOST_EDITS }
        requires few { next_number_of self.old < 2 ^ 64 }
        ensures text { IfOk result (λ text. text ≡ batch_text self.old batch.now) }
        ensures moved { OnOk result (self.new ≡ moved self.old batch.now) }
        ensures counted { OnOk result (self.new.accepted + self.new.refused
            ≡ self.old.accepted + self.old.refused + 1) }
    {
        let number = self.next_number();
        match make_batch(&mut self.engine, rt, alloc, gate, batch)? {
            Ok(round) => Ok(round_text(alloc, number, &round, self.shows)?),
            Err(bad) => {
                self.refused += 1;
                Ok(refusal_text(alloc, number, bad)?)
            }
        }
    }

    /// The opening lines of a run before its first batch, for which so many edges were read.
    fn open_text(&self, alloc: Global, visits: u64) -> Result<Bytes, Memory>
        requires { visits ≡ opening_visits self.now.program self.now.graph }
        ensures { IfOk result (λ text. text ≡ open_text_of self.now) }
    {
        let engine = &self.engine;
        let mut text = Bytes::new(alloc);
        push_open(
            &mut text,
            OpenNumbers {
                vertices: engine.vertices(),
                edges: engine.edges(),
                kept: engine.kept(),
                visits,
            },
        )?;
        push_shown(&mut text, engine, self.shows)?;
        Ok(text)
    }

    /// What is written after the last batch.
    pub fn end_text(&self, alloc: Global) -> Result<Bytes, Memory>
        ensures { IfOk result (λ text. text ≡ end_text_of self.now) }
    {
        let engine = &self.engine;
        let width = engine.accepted().program().entries().ranges.len() as u32;
        let accepted = engine.graph().version();
        let mut text = Bytes::new(alloc);
        push_totals(
            &mut text,
            &EngineAnswer { engine },
            engine.vertices(),
            width,
        )?;
        push_end(&mut text, accepted, self.refused)?;
        Ok(text)
    }

    /// The status after the last batch: 1 where a batch was refused, and else 0.
    pub fn status(&self) -> u8
        ensures value { result ≡ end_status self.now }
        ensures known { (result ≡ 0) ⊎ (result ≡ 1) }
    {
        if self.refused == 0 { 0 } else { 1 }
    }
}

/// A run of an opened graph, before its first batch, and its opening lines.
#[derive(Drop)]
pub struct OpenedRun {
    pub text: Bytes,
    pub run: Progress,
}

/// A graph may come to need more cells than there may be: how many, and the most.
#[derive(Clone, Copy, Debug, PartialEq, Eq)]
pub struct TooManyCells {
    pub need: u64,
    pub limit: u64,
}

/// Opens a run of a program on a graph.
pub fn open_run<R: Threads + Sync>(
    rt: &R,
    alloc: Global,
    accepted: Accepted,
    plain: GraphData,
    choice: Choice,
    shows: bool,
) -> Result<Result<OpenedRun, TooManyCells>, Memory>
    requires good { IsGood accepted.limits plain }
    requires choice { IsChoice accepted choice }
    ensures run { IfOk result (λ r. IfOk r (λ o. o.run ≡ opened accepted choice shows plain)) }
    ensures text { IfOk result (λ r. IfOk r (λ o.
        o.text ≡ open_text_of (opened accepted choice shows plain))) }
    ensures fits { IfOk result (λ r. OnOk r
        (cells accepted (vertices plain) choice.cut ≤ MOST_CELLS)) }
    ensures need { IfOk result (λ r. IfErr r (λ c.
        c.need ≡ cells accepted (vertices plain) choice.cut)) }
    ensures limit { IfOk result (λ r. IfErr r (λ c. c.limit ≡ MOST_CELLS)) }
    ensures many { IfOk result (λ r. IfErr r (λ c. MOST_CELLS < c.need)) }
{
    let mut meter = VisitMeter::new();
    let _program = accepted.program();
    let opened = Engine::open(rt, alloc, accepted, plain, choice, &mut meter);
    let visits = meter.finish();
    match opened {
        Ok(engine) => {
            let run = Progress {
                engine,
                shows,
                refused: 0,
            };
            let text = run.open_text(alloc, visits)?;
            Ok(Ok(OpenedRun { text, run }))
        }
        Err(OpenError::Cells { need, limit }) => Ok(Err(TooManyCells { need, limit })),
        Err(OpenError::Memory) => Err(Memory),
    }
}
