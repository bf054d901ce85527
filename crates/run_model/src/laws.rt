// Laws of the definitions. Nothing runs here.
ghost use Rattle.run_model.specs.RowLaws.{InitIsEvaluable, ContributeIsEvaluable, ApplyIsEvaluable};
ghost use Rattle.run_model.specs.RowLaws.{HalvesAreCombined};
ghost use Rattle.run_model.specs.RowLaws.{RowsBegin, RowsGoOn, ValuesAreWhole, AggregatesAreWhole};
ghost use Rattle.run_model.specs.RowLaws.{ValuesAreInRange, AggregatesAreInRange, InitIsInBounds};
ghost use Rattle.run_model.specs.RowLaws.{ContributeIsInBounds, ApplyIsInBounds, ContributionsFit};
ghost use Rattle.run_model.specs.RowLaws.{AggregatesFit, ValuesFit};
ghost use Rattle.run_model.specs.StepLaws.{DirtyAreKnown, ChangedAreApplied, ChangedAreBegun};
ghost use Rattle.run_model.specs.StepLaws.{SumsAreRefined, TakenSumsAreRefined, AddsAppend};
ghost use Rattle.run_model.specs.StepLaws.{AddsAreWithin, OthersGetNothing, AggregatesStay};
ghost use Rattle.run_model.specs.StepLaws.{EntriesStay, BeginningsStay, NewOnesHadNone};
ghost use Rattle.run_model.specs.StepLaws.{TargetsAreNamed};
ghost use Rattle.run_model.specs.KeptLaws.{ColumnsAreEntries, KeptIsLeast};
ghost use Rattle.run_model.specs.TailLaws.{TailAddsAreTheSame, ActiveWereApplied, TailIsAStep};
ghost use Rattle.run_model.specs.TailLaws.{TailSumsAreRefined, TailTakenSumsAreRefined};
ghost use Rattle.run_model.specs.TailLaws.{TailAggregatesStay, TailEntriesStay};
ghost use Rattle.run_model.specs.VisitLaws.{ItemsReadVisits, TailItemsReadVisits};
ghost use Rattle.run_model.specs.VisitLaws.{ItemsVisitsAppend};
ghost use Rattle.run_model.specs.VisitLaws.{InDegreesSum, OutDegreesSum, VertexVisitsAppend};
ghost use Rattle.run_model.specs.VisitLaws.{PullReadsEdges, TailPullReadsEdges};
ghost use Rattle.run_model.specs.VisitLaws.{RefineVisitsGrow, TailVisitsBegin, TailVisitsGrow};
ghost use Rattle.run_model.specs.VisitLaws.{SumVisitsAreFew, BatchVisitsAreFew};
ghost use Rattle.run_model.specs.RefineLaws.{RowsHaveEntries, EntriesAreRefined, RefinedAreNew};
ghost use Rattle.run_model.specs.RefineLaws.{RefinedAreSeen, RefinementBegins, RefinementGoesOn};
ghost use Rattle.run_model.specs.RefineLaws.{RefinementGrows, RefinementLeadsOn, TailRowsGoOn};
ghost use Rattle.run_model.specs.LogLaws.{ChangesMakeTheNew, RightBegins};
ghost use Rattle.run_model.specs.LogLaws.{RightGoesOn};

/// What a vertex has at each iteration, from the one before.
pub fn rows_are_computed()
    ensures first { RowsBegin }
    ensures next { RowsGoOn }
    ensures values { ValuesAreWhole }
    ensures aggregates { AggregatesAreWhole }
    ensures halves { HalvesAreCombined }
{}

/// For an accepted program and a good graph all that is read lies in its bounds, and each aggregate
/// and value in its range.
pub fn rows_are_in_range()
    ensures values { ValuesAreInRange }
    ensures aggregates { AggregatesAreInRange }
    ensures init { InitIsInBounds }
    ensures contribute { ContributeIsInBounds }
    ensures apply { ApplyIsInBounds }
{}

/// In every environment inside their bounds the expressions of an accepted program can be evaluated
/// to numbers of i64.
pub fn bounds_are_evaluable()
    ensures init { InitIsEvaluable }
    ensures contribute { ContributeIsEvaluable }
    ensures apply { ApplyIsEvaluable }
{}

/// For an accepted program and a good graph every number is one of i64.
pub fn numbers_fit()
    ensures contributions { ContributionsFit }
    ensures aggregates { AggregatesFit }
    ensures values { ValuesFit }
{}

/// What is kept of a vertex is what the definition of kept entries says.
pub fn kept_is_least()
    ensures columns { ColumnsAreEntries }
    ensures kept { KeptIsLeast }
{}

/// New sums are old ones and the additions of an iteration.
pub fn sums_are_refined()
    ensures sums { SumsAreRefined }
    ensures taken { TakenSumsAreRefined }
    ensures append { AddsAppend }
    ensures within { AddsAreWithin }
    ensures others { OthersGetNothing }
{}

/// What isn't done again stays, and what is new had nothing.
pub fn others_stay()
    ensures aggregates { AggregatesStay }
    ensures entries { EntriesStay }
    ensures beginnings { BeginningsStay }
    ensures new_ones { NewOnesHadNone }
{}

/// The vertices to which the additions of an iteration go are its targets.
pub fn targets_are_named()
    ensures targets { TargetsAreNamed }
{}

/// Where values may have changed, and which vertices may be dirty.
pub fn changes_are_known()
    ensures dirty { DirtyAreKnown }
    ensures values { ChangedAreApplied }
    ensures first { ChangedAreBegun }
    ensures tail { ActiveWereApplied }
{}

/// Past the cut the same holds from one iteration to the next.
pub fn tail_is_refined()
    ensures step { TailIsAStep }
    ensures some { TailAddsAreTheSame }
    ensures sums { TailSumsAreRefined }
    ensures taken { TailTakenSumsAreRefined }
    ensures aggregates { TailAggregatesStay }
    ensures entries { TailEntriesStay }
{}

/// Entries that are evaluated again and put over old rows make the new rows, iteration after
/// iteration.
pub fn rows_are_refined()
    ensures rows { RowsHaveEntries }
    ensures entries { EntriesAreRefined }
    ensures new { RefinedAreNew }
    ensures seen { RefinedAreSeen }
    ensures begins { RefinementBegins }
    ensures goes_on { RefinementGoesOn }
    ensures grows { RefinementGrows }
    ensures leads_on { RefinementLeadsOn }
    ensures tail { TailRowsGoOn }
{}

/// The visits of an iteration are those of its items, the visits of a batch are summed iteration by
/// iteration, and those of a sum program are few.
pub fn visits_add_up()
    ensures items { ItemsReadVisits }
    ensures tail_items { TailItemsReadVisits }
    ensures append { ItemsVisitsAppend }
    ensures into { InDegreesSum }
    ensures out { OutDegreesSum }
    ensures refine { RefineVisitsGrow }
    ensures tail_first { TailVisitsBegin }
    ensures tail_next { TailVisitsGrow }
    ensures vertices { VertexVisitsAppend }
    ensures pull { PullReadsEdges }
    ensures tail_pull { TailPullReadsEdges }
    ensures few { SumVisitsAreFew }
    ensures batch_few { BatchVisitsAreFew }
{}

/// What changes from an answer to the next makes it, so a log of such changes is right.
pub fn logs_stay_right()
    ensures changes { ChangesMakeTheNew }
    ensures first { RightBegins }
    ensures next { RightGoesOn }
{}
