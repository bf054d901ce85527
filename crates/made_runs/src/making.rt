// What is made of a seed.
ghost use Rattle.std.specs.Prelude.{◌≡◌, ◌≤◌, Err, length, IfOk};
ghost use Rattle.std.specs.List.{All};
ghost use Rattle.bolt_base.specs.Graph.{IsGood};
ghost use Rattle.cli_words.specs.Ranges.{AreInRange, AreMade, IsFormInRange};
ghost use Rattle.command_course.specs.Still.{make_course, IsMakeDecided};
ghost use Rattle.graph_text.specs.declared.batch_reader.TheConstants.{MOST_EDITS};
ghost use Rattle.made_runs.specs.Answered.{rank_run};
ghost use Rattle.made_runs.specs.Rank.{rank_limits};

use crate::program::judge_rank;
use crate::run::reply_to;
use batch_steps::Reply;
use bolt_base::{Gate, Memory};
use bolt_make::{Made, make};
use cli_words::{MakeForm, RunOptions};
use make_text::{graph_text_of, stream_text_of};
use run_opening::open_on;
use std::alloc::Global;
use std::thread::Threads;

// The reply of the run of `rank` on what is made.
fn run_made<R: Threads + Sync, T: Gate + Sync>(
    rt: &R,
    alloc: Global,
    gate: &T,
    made: Made,
    options: RunOptions,
) -> Result<Reply, Memory>
    requires good { IsGood rank_limits made.graph }
    requires small { All (λ edits. length edits ≤ MOST_EDITS) made.batches }
    requires range { AreInRange options }
    ensures { IfOk result (λ reply. rank_run options made.graph made.batches ≡ Err reply) }
{
    let Made { graph, batches } = made;
    let accepted = match judge_rank(alloc)? {
        Ok(accepted) => accepted,
        Err(refusal) => return Ok(refusal),
    };
    let opened = open_on(rt, alloc, accepted, graph, options)?;
    reply_to(rt, alloc, gate, opened, batches.as_slice())
}

/// The whole reply of what is made of a seed: a graph of so many vertices and drawn pairs, the
/// stream of so many batches of so many edits, or the run of the shipped program `rank` on both.
pub fn make_reply<R: Threads + Sync, T: Gate + Sync>(
    rt: &R,
    alloc: Global,
    gate: &T,
    seed: u64,
    vertices: u32,
    pairs: u32,
    batches: u32,
    edits: u32,
    form: MakeForm,
) -> Result<Reply, Memory>
    requires range { AreMade vertices pairs batches edits }
    requires form { IsFormInRange form }
    ensures course { IfOk result (λ reply.
        make_course seed vertices pairs batches edits form ≡ Err reply) }
    ensures status { IfOk result (λ reply. IsMakeDecided form reply.status) }
{
    let made = make(alloc, seed, vertices, pairs, batches, edits)?;
    match form {
        MakeForm::Graph => Ok(Reply {
            text: graph_text_of(alloc, &made)?,
            status: 0,
        }),
        MakeForm::Stream => Ok(Reply {
            text: stream_text_of(alloc, &made)?,
            status: 0,
        }),
        MakeForm::Run(options) => run_made(rt, alloc, gate, made, options),
    }
}
