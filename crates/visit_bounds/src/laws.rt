// Laws of the definitions. Nothing runs here.
ghost use Rattle.visit_bounds.specs.Bounds.{BatchVisitsFit, OpeningVisitsFit};

/// For an accepted program and good graphs a u64 counts the visits of a batch, and those of an
/// opening.
pub fn visits_fit()
    ensures batch { BatchVisitsFit }
    ensures opening { OpeningVisitsFit }
{}
