// Laws of the definitions that contracts cite. The calls do nothing; their clauses are proved.
ghost use Rattle.vertex_expr.specs.Laws.{AllAreNumbered, BoxesAreSound, FloorIsGreatest};
ghost use Rattle.vertex_expr.specs.Laws.{OnlyMentionedMatters, ProgramsAreKnown, UnbrokenIsSafe};

/// The floor of a quotient is the greatest whole number that is at most the quotient.
pub fn floor_is_greatest()
    ensures law { FloorIsGreatest }
{}

/// On a safe box each node's value lies in its interval and within -2^120 to 2^120, and no divisor
/// is 0.
pub fn boxes_are_sound()
    ensures law { BoxesAreSound }
{}

/// What an expression doesn't mention doesn't change its meaning.
pub fn only_mentioned_matters()
    ensures law { OnlyMentionedMatters }
{}

/// The numbered nodes of an expression are as many as it has.
pub fn all_are_numbered()
    ensures law { AllAreNumbered }
{}

/// The expressions of a program name only params and lanes that are there, and mention only what
/// has an interval.
pub fn programs_are_known()
    ensures law { ProgramsAreKnown }
{}

/// An expression whose names are known is safe just where none of its numbered nodes has a break.
pub fn unbroken_is_safe()
    ensures law { UnbrokenIsSafe }
{}
