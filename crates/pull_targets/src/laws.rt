// Laws of the definitions. Nothing runs here.
ghost use Rattle.pull_targets.specs.EndLaws.{EndsAreTargets, EndsAreTailTargets, EndsAreThere};

/// The ends of changed edges and of the edges out of dirty vertices are an iteration's targets, and
/// past the cut those of the edges out of active vertices are.
pub fn ends_are_targets()
    ensures targets { EndsAreTargets }
    ensures tail { EndsAreTailTargets }
    ensures there { EndsAreThere }
{}
