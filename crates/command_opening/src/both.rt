// The program and the graph that words name.
ghost use Rattle.std.specs.Prelude.{◌≡◌, ◌⊎◌, ◌+◌, ◌<◌, ◌≤◌, ◌^◌, ◌∷◌, [], IfErr, IfOk};
ghost use Rattle.std.specs.Prelude.{IfSome, IsOk};
ghost use Rattle.bolt_base.specs.Graph.{IsGood};
ghost use Rattle.batch_steps.specs.Graphs.{graph_file};
ghost use Rattle.cli_words.specs.Words.{texts};
ghost use Rattle.command_files.specs.Files.{content};
ghost use Rattle.command_files.specs.Reads.{Reads};
ghost use Rattle.command_files.specs.Stops.{BlamesShelf, IsOfReading};
ghost use Rattle.command_course.specs.Openings.{graph_for};
ghost use Rattle.command_course.specs.Still.{both_files, program_count};
ghost use Rattle.command_opening.specs.Both.{both_of, both_slots, paired};

use crate::graph::read_graph;
use crate::program::read_program;
use crate::words::word_at;
use batch_steps::Reply;
use bolt_base::GraphData;
use bolt_io::Shelf;
use cli_words::ProgramWord;
use command_files::Stop;
use range_check::Accepted;
use std::alloc::Global;

// Reads the graph of a program, and answers both.
fn with_graph<S: Shelf>(
    alloc: Global,
    shelf: &mut S,
    name: &str,
    accepted: Accepted,
) -> Result<Result<(Accepted, GraphData), Reply>, Stop>
    requires room { S.opened shelf.old < 2 ^ 31 }
    ensures found { IfOk result (λ r. IfSome (S.told shelf.old)
        (λ t. paired accepted (graph_for accepted (content t name.now)) ≡ r)) }
    ensures good { IfOk result (λ r. IfOk r (λ both. IsGood both.0.limits both.1)) }
    ensures status { IfOk result (λ r. IfErr r (λ reply. reply.status ≡ 4)) }
    ensures reads { Reads (λ c. graph_file accepted.limits name.now c ∷ []) IsOk 1
        (λ _. 1) (S.told shelf.old) (S.told shelf.new)
        (S.opened shelf.old) (S.opened shelf.new) result }
    ensures cause { BlamesShelf result (S.faults shelf.old) (S.faults shelf.new) }
    ensures reading { IfErr result IsOfReading }
{
    match read_graph(alloc, shelf, name, &accepted)? {
        Ok(plain) => Ok(Ok((accepted, plain))),
        Err(reply) => Ok(Err(reply)),
    }
}

/// Reads the program and the graph that words name, or tells the reply that refuses one of them.
pub fn read_both<S: Shelf>(
    alloc: Global,
    shelf: &mut S,
    words: &[String],
    program: ProgramWord,
    graph: u32,
) -> Result<Result<(Accepted, GraphData), Reply>, Stop>
    requires room { S.opened shelf.old < 2 ^ 30 }
    requires place { 1 ≤ program.at }
    requires graph_place { 1 ≤ graph }
    ensures found { IfOk result (λ r. IfSome (S.told shelf.old)
        (λ t. both_of (texts words.now) program graph (content t) ≡ r)) }
    ensures good { IfOk result (λ r. IfOk r (λ both. IsGood both.0.limits both.1)) }
    ensures status { IfOk result (λ r. IfErr r (λ reply.
        (reply.status ≡ 3) ⊎ (reply.status ≡ 4))) }
    ensures reads { Reads (both_files (texts words.now) program graph) IsOk
        (program_count program + 1) (both_slots program)
        (S.told shelf.old) (S.told shelf.new)
        (S.opened shelf.old) (S.opened shelf.new) result }
    ensures cause { BlamesShelf result (S.faults shelf.old) (S.faults shelf.new) }
    ensures reading { IfErr result IsOfReading }
{
    match read_program(alloc, shelf, words, program)? {
        Ok(accepted) => with_graph(alloc, shelf, word_at(words, graph), accepted),
        Err(reply) => Ok(Err(reply)),
    }
}
