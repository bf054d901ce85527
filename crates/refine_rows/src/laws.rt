// Laws of the definitions. Nothing runs here.
ghost use Rattle.refine_rows.specs.Laws.{RefinementBegins, RefinementGoesOn, RefinementEnds};

/// An overlay begins without puts, and an iteration that has put all that it evaluates again leads
/// to the next one.
pub fn refinement_goes_on()
    ensures begins { RefinementBegins }
    ensures goes_on { RefinementGoesOn }
{}

/// Past the cut the overlay, laid over the history, makes the rows of the new graph.
pub fn refinement_ends()
    ensures { RefinementEnds }
{}
