// Laws of what changed from a graph to another one. Nothing runs here.
ghost use Rattle.bolt_base.specs.LawsOfChange.{OldEdgesAreParts, NewEdgesAreParts};
ghost use Rattle.bolt_base.specs.LawsOfChange.{OldEdgesAreCounted, NewEdgesAreCounted};
ghost use Rattle.bolt_base.specs.LawsOfChange.{RemovedIsFilter, AddedIsFilter, StayedIsFilter};
ghost use Rattle.bolt_base.specs.LawsOfChange.{OutEdgesStay, StayedOutIsFilter};
ghost use Rattle.bolt_base.specs.LawsOfChange.{EdgesAreWeights, OutDegreesSum, InDegreesSum};
ghost use Rattle.bolt_base.specs.LawsOfChange.{TouchedTellRemoved, TouchedTellAdded};

/// The edges of the old graph are those removed and those that stayed, and the edges of the new one
/// those added and those that stayed, for any fold whose steps commute.
pub fn edges_are_parts<B>()
    ensures old { OldEdgesAreParts B }
    ensures new { NewEdgesAreParts B }
{}

/// Removed, added and stayed edges are those that pass a test, and are counted so.
pub fn changes_are_filters()
    ensures removed { RemovedIsFilter }
    ensures added { AddedIsFilter }
    ensures stayed { StayedIsFilter }
    ensures old_count { OldEdgesAreCounted }
    ensures new_count { NewEdgesAreCounted }
{}

/// What a change leaves of the edges out of a vertex.
pub fn out_edges_are_known()
    ensures untouched { OutEdgesStay }
    ensures stayed { StayedOutIsFilter }
{}

/// The touched pairs with their new weights tell which edges were removed and added.
pub fn touched_pairs_tell()
    ensures removed { TouchedTellRemoved }
    ensures added { TouchedTellAdded }
{}

/// A graph has as many edges as weights, and its degrees sum to that number.
pub fn edges_are_counted()
    ensures weights { EdgesAreWeights }
    ensures out { OutDegreesSum }
    ensures into { InDegreesSum }
{}
