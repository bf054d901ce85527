// Laws of the definitions. Nothing runs here.
ghost use Rattle.bolt_base.specs.Laws.{OrderIsFree, BadIsFirst, EditsKeepGood, GoodHasRoom};
ghost use Rattle.bolt_base.specs.Laws.{RoomIsWithin, StayedIsShared, SelfIsNoChange, RestIsRest};
ghost use Rattle.bolt_base.specs.Laws.{RestIsLeast, RestIsOnly, ReadsBack, PiecesAppend};
ghost use Rattle.bolt_base.specs.Laws.{PiecesAreAll, PiecesHaveLength, SumsAppend, ResiduesAdd};
ghost use Rattle.bolt_base.specs.Laws.{ManyResiduesAdd, ResiduesAreSigned};

/// What a fold with commuting steps gives doesn't depend on the order of a list of edges.
pub fn order_is_free<B>()
    ensures law { OrderIsFree B }
{}

/// What is called bad is the first bad edit.
pub fn bad_is_first()
    ensures law { BadIsFirst }
{}

/// Edits that aren't bad keep a graph good, and a good graph is good within its room.
pub fn good_stays_good()
    ensures edits { EditsKeepGood }
    ensures room { GoodHasRoom }
    ensures within { RoomIsWithin }
{}

/// Two graphs share the edges that stayed, and a graph doesn't change from itself.
pub fn changes_are_net()
    ensures shared { StayedIsShared }
    ensures itself { SelfIsNoChange }
{}

/// The iteration at which a vertex has come to rest is the least one, and what is kept reads back.
pub fn kept_reads_back()
    ensures rest { RestIsRest }
    ensures least { RestIsLeast }
    ensures only { RestIsOnly }
    ensures back { ReadsBack }
{}

/// The pieces of some items are these items in their order.
pub fn pieces_are_whole<X>()
    ensures append { PiecesAppend X }
    ensures all { PiecesAreAll X }
    ensures length { PiecesHaveLength X }
{}

/// Amounts modulo 2^64 add up, and a number that fits i64 is read back.
pub fn amounts_add_up()
    ensures sums { SumsAppend }
    ensures residues { ResiduesAdd }
    ensures many { ManyResiduesAdd }
    ensures signed { ResiduesAreSigned }
{}
