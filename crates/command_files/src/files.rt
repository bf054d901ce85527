// Opens files by name, and reads graphs.
ghost use Rattle.bolt_io.specs.declared.whole.TheConstants.{MOST_BYTES};
ghost use Rattle.std.specs.Prelude.{◌≡◌, ◌+◌, ◌<◌, ◌^◌, ◌∷◌, [], pos, length, IsOk, IfOk};
ghost use Rattle.std.specs.Prelude.{OnOk, IfErr, OnErr, IfSome, IsErrOf};
ghost use Rattle.std.specs.Option.{option_map};
ghost use Rattle.bolt_base.specs.Graph.{IsBetween, IsGood};
ghost use Rattle.bolt_io.specs.Told.{left, opened_at};
ghost use Rattle.text_lines.specs.Feed.{readable};
ghost use Rattle.graph_text.specs.GraphText.{graph_of};
ghost use Rattle.graph_text.specs.Refusals.{IsTooLong, graph_far};
ghost use Rattle.command_files.specs.Files.{content};
ghost use Rattle.batch_steps.specs.Graphs.{graph_file};
ghost use Rattle.command_files.specs.Reads.{TookTo, Reads};
ghost use Rattle.command_files.specs.Stops.{BlamesShelf, IsOfReading};

use crate::stop::{Stop, bad_or_stop};
use bolt_base::{GraphData, Limits};
use bolt_io::Shelf;
use graph_text::{BadLine, read_graph};
use std::alloc::Global;

/// Opens a file, at its first byte.
pub fn open<S: Shelf>(shelf: &mut S, name: &str) -> Result<u32, Stop>
    requires { S.opened shelf.old < 2 ^ 31 }
    ensures slot { IfOk result (λ slot. slot ≡ S.opened shelf.old) }
    ensures told { OnOk result (S.told shelf.new
        ≡ option_map (opened_at name.now) (S.told shelf.old)) }
    ensures opened { OnOk result (S.opened shelf.new ≡ S.opened shelf.old + 1) }
    ensures untouched { OnErr result (S.told shelf.new ≡ S.told shelf.old) }
    ensures none_opened { OnErr result (S.opened shelf.new ≡ S.opened shelf.old) }
    ensures no_length { IsErrOf result Stop.TooLong → ⊥ }
    ensures cause { BlamesShelf result (S.faults shelf.old) (S.faults shelf.new) }
    ensures reading { IfErr result IsOfReading }
{
    Ok(shelf.open(name)?)
}

// Reads the graph of a slot, or tells its first bad line.
fn load_slot<S: Shelf>(
    alloc: Global,
    shelf: &mut S,
    slot: u32,
    limits: &Limits,
) -> Result<Result<GraphData, BadLine>, Stop>
    requires { slot < S.opened shelf.old }
    ensures graph { IfOk result (λ r. IfSome (S.told shelf.old)
        (λ t. graph_of limits.now (readable t slot) ≡ r)) }
    ensures good { IfOk result (λ r. IfOk r (λ g.
        IsBetween limits.now.attr_lo limits.now.attr_hi (pos 0) → IsGood limits.now g)) }
    ensures early { IfOk result (λ r. OnErr r (IfSome (S.told shelf.old)
        (λ t. ¬ IsTooLong limits.now slot t))) }
    ensures short { IfOk result (λ r. OnOk r (IfSome (S.told shelf.old)
        (λ t. length (left t slot) < MOST_BYTES))) }
    ensures end { IfOk result (λ r. OnOk r (IfSome (S.told shelf.new) (λ t. left t slot ≡ []))) }
    ensures took { TookTo (graph_far limits.now) (S.told shelf.old) (S.told shelf.new) slot }
    ensures opened { S.opened shelf.new ≡ S.opened shelf.old }
    ensures too_long { IsErrOf result Stop.TooLong
        → IfSome (S.told shelf.old) (IsTooLong limits.now slot) }
    ensures cause { BlamesShelf result (S.faults shelf.old) (S.faults shelf.new) }
    ensures reading { IfErr result IsOfReading }
{
    match read_graph(alloc, shelf, slot, limits) {
        Ok(graph) => Ok(Ok(graph)),
        Err(refusal) => Ok(Err(bad_or_stop(refusal)?)),
    }
}

/// Reads the graph of a file, or tells its first bad line.
pub fn load_graph<S: Shelf>(
    alloc: Global,
    shelf: &mut S,
    name: &str,
    limits: &Limits,
) -> Result<Result<GraphData, BadLine>, Stop>
    requires { S.opened shelf.old < 2 ^ 31 }
    ensures graph { IfOk result (λ r. IfSome (S.told shelf.old)
        (λ t. graph_of limits.now (content t name.now) ≡ r)) }
    ensures good { IfOk result (λ r. IfOk r (λ g.
        IsBetween limits.now.attr_lo limits.now.attr_hi (pos 0) → IsGood limits.now g)) }
    ensures reads { Reads (λ c. graph_file limits.now name.now c ∷ []) IsOk 1
        (λ _. 1) (S.told shelf.old) (S.told shelf.new)
        (S.opened shelf.old) (S.opened shelf.new) result }
    ensures cause { BlamesShelf result (S.faults shelf.old) (S.faults shelf.new) }
    ensures reading { IfErr result IsOfReading }
{
    let slot = open(shelf, name)?;
    load_slot(alloc, shelf, slot, limits)
}
