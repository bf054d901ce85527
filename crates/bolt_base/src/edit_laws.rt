// Laws of edits. Nothing runs here.
ghost use Rattle.bolt_base.specs.LawsOfEdits.{UnnamedPairsStay, UnnamedAttrsStay, NoVertexIsLost};
ghost use Rattle.bolt_base.specs.LawsOfEdits.{AfterAppends, BadAppends};
ghost use Rattle.bolt_base.specs.LawsOfEdits.{AdditionIsOneMore, CutIsOneLess};
ghost use Rattle.bolt_base.specs.LawsOfLists.{AdditionIsCounted, AdditionsAreGood, CutsAreGood};

/// What no edit names stays as it was, and no vertex is lost.
pub fn edits_change_what_they_name()
    ensures pairs { UnnamedPairsStay }
    ensures attrs { UnnamedAttrsStay }
    ensures vertices { NoVertexIsLost }
{}

/// Edits in two lists, one after the other.
pub fn edits_append()
    ensures after { AfterAppends }
    ensures bad { BadAppends }
{}

/// An addition adds one edge to the lists of edges, and a cut takes one out of them.
pub fn edits_move_one_edge()
    ensures addition { AdditionIsOneMore }
    ensures cut { CutIsOneLess }
    ensures count { AdditionIsCounted }
{}

/// What edits that aren't bad find in a graph.
pub fn good_edits_find_room()
    ensures addition { AdditionsAreGood }
    ensures cut { CutsAreGood }
{}
