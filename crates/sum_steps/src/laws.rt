// Laws of the definitions that contracts cite. Nothing runs here.
ghost use Rattle.sum_steps.specs.Laws.{SpreadLeavesTargets, TakesGrow, TakenSumsAreNew, OthersKeep};

/// After the additions of an iteration the words hold these for the targets, which are all marks,
/// and nothing else. What is taken target by target is what the iteration takes.
pub fn spread_leaves_targets()
    ensures left { SpreadLeavesTargets }
    ensures takes { TakesGrow }
{}

/// An old aggregate with what the words held for a target is the aggregate that is evaluated again,
/// and a vertex that is no target keeps its own.
pub fn taken_sums_are_new()
    ensures taken { TakenSumsAreNew }
    ensures others { OthersKeep }
{}
