// Laws of the core. Nothing runs here.
ghost use Rattle.core_model.specs.Laws.{StartIsRuled, StepsKeepRules, RunsAreRuled};
ghost use Rattle.core_model.specs.Laws.{WordsAreDifferences, RefusedChangeNothing, NoneIsWanted};
ghost use Rattle.core_model.specs.Laws.{AsksAreAnswered, SeenNeverFall};
ghost use Rattle.core_model.specs.Ties.{SubmitsEnter, DecidesDecide, PiecesAreAdditions};
ghost use Rattle.core_model.specs.Ties.{WordsAreSums, PublishesPublish, AsksAsk};

/// What the core keeps holds at first, through each step, and so after every list of steps.
pub fn core_keeps_its_rules()
    ensures start { StartIsRuled }
    ensures steps { StepsKeepRules }
    ensures runs { RunsAreRuled }
{}

/// While an iteration of a sum program is in progress, each word and the additions that are left
/// for it are the new aggregate less the old one.
pub fn words_are_differences()
    ensures words { WordsAreDifferences }
{}

/// What a step answers, and what it leaves alone.
pub fn steps_are_answered()
    ensures nothing { RefusedChangeNothing }
    ensures memory { NoneIsWanted }
    ensures asks { AsksAreAnswered }
    ensures seen { SeenNeverFall }
{}

/// What the journal, the additions of workers and the board do is what steps do: an entry, a
/// decision, the additions in their pieces, the words that are taken, a publication and a reply.
pub fn parts_make_steps()
    ensures submit { SubmitsEnter }
    ensures decide { DecidesDecide }
    ensures add { PiecesAreAdditions }
    ensures settle { WordsAreSums }
    ensures publish { PublishesPublish }
    ensures ask { AsksAsk }
{}
