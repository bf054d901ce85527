// What holds of reading and printing.
ghost use Rattle.expr_text.specs.Laws.{ReadsBack, FollowsGrammar};

/// An expression is read exactly where the grammar spells it.
pub fn follows_grammar()
    ensures { FollowsGrammar }
{}

/// The canonical text of a tree is read as that tree.
pub fn reads_back()
    ensures { ReadsBack }
{}
