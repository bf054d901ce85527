// The graph that a word names.
ghost use Rattle.std.specs.Prelude.{◌≡◌, ◌<◌, ◌^◌, ◌∷◌, [], IfErr, IfOk, IfSome, IsOk};
ghost use Rattle.bolt_base.specs.Graph.{IsGood};
ghost use Rattle.batch_steps.specs.Graphs.{graph_file};
ghost use Rattle.command_files.specs.Files.{content};
ghost use Rattle.command_files.specs.Reads.{Reads};
ghost use Rattle.command_files.specs.Stops.{BlamesShelf, IsOfReading};
ghost use Rattle.command_course.specs.Openings.{graph_for, or_bad_line};

use batch_steps::Reply;
use bolt_base::{GraphData, Memory};
use bolt_io::Shelf;
use command_files::{Stop, load_graph};
use graph_text::BadLine;
use range_check::Accepted;
use report_text::graph_refused;
use std::alloc::Global;

// The graph, or the reply that refuses it.
fn or_reply(
    alloc: Global,
    read: Result<GraphData, BadLine>,
) -> Result<Result<GraphData, Reply>, Memory>
    ensures reply { IfOk result (λ r. r ≡ or_bad_line read) }
    ensures status { IfOk result (λ r. IfErr r (λ reply. reply.status ≡ 4)) }
{
    match read {
        Ok(graph) => Ok(Ok(graph)),
        Err(bad) => Ok(Err(Reply {
            text: graph_refused(alloc, bad)?,
            status: 4,
        })),
    }
}

/// Reads the graph of a file for a program, or tells the reply that refuses it.
pub fn read_graph<S: Shelf>(
    alloc: Global,
    shelf: &mut S,
    name: &str,
    accepted: &Accepted,
) -> Result<Result<GraphData, Reply>, Stop>
    requires room { S.opened shelf.old < 2 ^ 31 }
    ensures graph { IfOk result (λ r. IfSome (S.told shelf.old)
        (λ t. graph_for accepted.now (content t name.now) ≡ r)) }
    ensures good { IfOk result (λ r. IfOk r (IsGood accepted.now.limits)) }
    ensures status { IfOk result (λ r. IfErr r (λ reply. reply.status ≡ 4)) }
    ensures reads { Reads (λ c. graph_file accepted.now.limits name.now c ∷ []) IsOk 1
        (λ _. 1) (S.told shelf.old) (S.told shelf.new)
        (S.opened shelf.old) (S.opened shelf.new) result }
    ensures cause { BlamesShelf result (S.faults shelf.old) (S.faults shelf.new) }
    ensures reading { IfErr result IsOfReading }
{
    let limits = accepted.program().entries().limits;
    let read = load_graph(alloc, shelf, name, &limits)?;
    Ok(or_reply(alloc, read)?)
}
