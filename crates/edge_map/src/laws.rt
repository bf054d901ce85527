// Laws of the definitions that contracts cite. Nothing runs here.
ghost use Rattle.edge_map.specs.TaskLaws.{EndsAreTargets, TargetsAreListed, TasksAddTheSame};
ghost use Rattle.edge_map.specs.TaskLaws.{TasksAgree, TasksGiveTheSame, TasksReadVisits};
ghost use Rattle.edge_map.specs.TaskLaws.{StepsAreGood, TailStepsAreGood};

/// The tasks of an iteration agree with the new graph, add what its items add, to its targets, and
/// read as many edges.
pub fn tasks_are_steps()
    ensures agree { TasksAgree }
    ensures gifts { TasksGiveTheSame }
    ensures adds { TasksAddTheSame }
    ensures visits { TasksReadVisits }
    ensures ends { EndsAreTargets }
    ensures targets { TargetsAreListed }
{}

/// All iterations of an accepted program, between good graphs, have values in range.
pub fn steps_are_good()
    ensures steps { StepsAreGood }
    ensures tail { TailStepsAreGood }
{}
