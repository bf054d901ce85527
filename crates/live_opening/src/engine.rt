// The engine of a live run.
ghost use Rattle.std.specs.Prelude.{◌≡◌, IfErr, IfOk};
ghost use Rattle.bolt_base.specs.Graph.{IsGood};
ghost use Rattle.cli_words.specs.Ranges.{AreInRange};
ghost use Rattle.live_opening.specs.Begun.{run_in, IsBegun};
ghost use Rattle.live_opening.specs.Runs.{live_on};

use batch_steps::Reply;
use bolt_base::{Bytes, GraphData, Memory};
use cli_words::RunOptions;
use engine_runs::{OpenedRun, TooManyCells, open_run};
use range_check::Accepted;
use report_text::cells_refused;
use round_engine::Engine;
use run_opening::choice_of;
use std::alloc::Global;
use std::thread::Threads;

/// An engine for which no batch was made, and its opening lines.
#[derive(Drop)]
pub struct Begun {
    pub text: Bytes,
    pub engine: Engine,
}

/// Opens the engine of a program on a graph, or tells the reply that refuses it.
pub fn open_engine<R: Threads + Sync>(
    rt: &R,
    alloc: Global,
    accepted: Accepted,
    plain: GraphData,
    options: RunOptions,
) -> Result<Result<Begun, Reply>, Memory>
    requires good { IsGood accepted.limits plain }
    requires range { AreInRange options }
    ensures run { IfOk result (λ r. live_on accepted options plain
        ≡ run_in (λ (b : Begun). b.engine) r) }
    ensures begun { IfOk result (λ r. IfOk r IsBegun) }
    ensures status { IfOk result (λ r. IfErr r (λ reply. reply.status ≡ 4)) }
{
    let choice = choice_of(&accepted, options);
    match open_run(rt, alloc, accepted, plain, choice, false)? {
        Ok(OpenedRun { text, run }) => Ok(Ok(Begun {
            text,
            engine: run.into_engine(),
        })),
        Err(TooManyCells { need, limit }) => Ok(Err(Reply {
            text: cells_refused(alloc, need, limit)?,
            status: 4,
        })),
    }
}
