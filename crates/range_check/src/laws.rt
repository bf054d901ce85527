// Laws of the definitions that contracts cite. The calls do nothing; their clauses are proved.
ghost use Rattle.range_check.specs.Laws.{FirstIsFirst, TreesAreEvaluable, TreesAreSafe};
ghost use Rattle.range_check.specs.Laws.{AggregatesFit, ContributionsFit};
ghost use Rattle.range_check.specs.Laws.{AppliedValuesFit, InitialValuesFit};

/// The first break is the first of the possible ones, and there is none just where the program has
/// none.
pub fn first_is_first()
    ensures law { FirstIsFirst }
{}

/// Each expression of an accepted program is safe on the bounds of its part, and may be evaluated
/// inside them.
pub fn accepted_are_safe()
    ensures law { TreesAreSafe }
    ensures evaluable { TreesAreEvaluable }
{}

/// Within the bounds of its part, each contribution, aggregate and value of an accepted program
/// lies in its interval and fits i64.
pub fn rows_are_safe()
    ensures contributions { ContributionsFit }
    ensures aggregates { AggregatesFit }
    ensures initial { InitialValuesFit }
    ensures applied { AppliedValuesFit }
{}
