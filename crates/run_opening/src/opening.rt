// The run of a program on a graph.
ghost use Rattle.std.specs.Prelude.{◌≡◌, List, ℕ, IfOk};
ghost use Rattle.bolt_base.specs.Graph.{IsGood};
ghost use Rattle.batch_run.specs.Opened.{course, IsReady};
ghost use Rattle.cli_words.specs.Ranges.{AreInRange};
ghost use Rattle.command_course.specs.Openings.{choice_of as choice_of_options};
ghost use Rattle.engine_stream.specs.Taken.{taken};
ghost use Rattle.report_text.specs.Runs.{Run, run_steps};
ghost use Rattle.round_engine.specs.EngineOf.{IsChoice};
ghost use Rattle.run_opening.specs.OnGraph.{opening_on, RefusesWith};

use batch_run::Opened;
use batch_steps::Reply;
use bolt_base::{Choice, GraphData, Memory};
use cli_words::RunOptions;
use engine_runs::{OpenedRun, Progress, TooManyCells, open_run};
use range_check::Accepted;
use report_text::cells_refused;
use std::alloc::Global;
use std::thread::Threads;

/// The last iteration that is kept where no option says another one.
const USUAL_CUT: u32 = 10;

/// How a program is run by some options.
pub fn choice_of(accepted: &Accepted, options: RunOptions) -> Choice
    requires range { AreInRange options }
    ensures choice { result ≡ choice_of_options accepted.now options }
    ensures fine { IsChoice accepted.now result }
{
    let rounds = accepted.program().entries().rounds;
    Choice {
        cut: rounds.min(options.cut.unwrap_or(USUAL_CUT)),
        vertical: options.vertical,
        workers: options.workers,
    }
}

/// Opens the run of a program on a graph, or tells the reply that refuses it.
pub fn open_on<R: Threads + Sync>(
    rt: &R,
    alloc: Global,
    accepted: Accepted,
    plain: GraphData,
    options: RunOptions,
) -> Result<Opened<Progress>, Memory>
    requires good { IsGood accepted.limits plain }
    requires range { AreInRange options }
    ensures course { IfOk result (λ opened. (stream : List ℕ) →
        course (λ (r : Run). r) run_steps stream opened
        ≡ opening_on accepted options plain stream) }
    ensures ready { IfOk result (IsReady taken) }
    ensures status { IfOk result (RefusesWith 4) }
{
    let choice = choice_of(&accepted, options);
    match open_run(rt, alloc, accepted, plain, choice, options.show)? {
        Ok(OpenedRun { text, run }) => Ok(Opened::Runs { text, run }),
        Err(TooManyCells { need, limit }) => Ok(Opened::Refused(Reply {
            text: cells_refused(alloc, need, limit)?,
            status: 4,
        })),
    }
}
