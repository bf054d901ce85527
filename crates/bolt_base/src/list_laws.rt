// Laws of plain lists of edges, and of rows. Nothing runs here.
ghost use Rattle.bolt_base.specs.LawsOfLists.{PairsAreOrdered, PairsAreToldApart};
ghost use Rattle.bolt_base.specs.LawsOfLists.{ScansFindWeights, PushIsAddition, PushStaysApart};
ghost use Rattle.bolt_base.specs.LawsOfLists.{ListIsCounted, ListHasLength, ListIsFolded};
ghost use Rattle.bolt_base.specs.LawsOfLists.{BareIsGood};
ghost use Rattle.bolt_base.specs.LawsOfRows.{ColumnHasLength, ColumnHasEntries};
ghost use Rattle.bolt_base.specs.LawsOfRows.{SameEntriesAreSameRows, KeepIsBelow};
ghost use Rattle.bolt_base.specs.LawsOfRows.{StoredHaveLength, StoredSumToKept};

/// Pairs of vertices are in a total order that tells any two apart.
pub fn pairs_are_ordered()
    ensures order { PairsAreOrdered }
    ensures apart { PairsAreToldApart }
{}

/// A plain list of edges has the weights, the numbers and the folds of its graph, and grows with
/// it.
pub fn lists_are_graphs<B>()
    ensures weights { ScansFindWeights }
    ensures push { PushIsAddition }
    ensures apart { PushStaysApart }
    ensures count { ListIsCounted }
    ensures length { ListHasLength }
    ensures folds { ListIsFolded B }
    ensures bare { BareIsGood }
{}

/// The column of a vertex is its entries, and full rows are known by their entries.
pub fn columns_are_entries()
    ensures length { ColumnHasLength }
    ensures entries { ColumnHasEntries }
    ensures rows { SameEntriesAreSameRows }
{}

/// As many entries are stored as `keep` and `kept` say.
pub fn stored_are_counted()
    ensures below { KeepIsBelow }
    ensures length { StoredHaveLength }
    ensures sum { StoredSumToKept }
{}
