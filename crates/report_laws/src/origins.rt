// Laws of the statements and turns that explanations tell.
ghost use Rattle.report_laws.specs.OpOrigins.{ForksAreToldByTheirOps, PhasersAreToldByTheirOps};
ghost use Rattle.report_laws.specs.OpTurns.{TurnsAreCounted};
ghost use Rattle.report_laws.specs.OpsOfStages.{OpsAreToldByTheirStages};
ghost use Rattle.report_laws.specs.OriginsOfScenes.{OriginsAreThoseOfScenes};

/// The statement that is told of a phaser is the one from which the op comes that makes it, and the one that is told of a task's fork is the one from which the op
/// comes that forks it.
pub fn ops_come_from_what_is_told()
    ensures phasers { PhasersAreToldByTheirOps }
    ensures forks { ForksAreToldByTheirOps }
{}

/// The turns that are told of an op are those in which its task is, as a fault would have it: of the loops around the op's statement, and of each as many as began
/// since the task came to it.
pub fn turns_are_counted()
    ensures { TurnsAreCounted }
{}

/// The statements that are told of where tasks are drawn and forked and phasers made, and the names that are given there, are those of the stages of the unfolding that
/// do so, as they would be told at a fault; and the statement that is told of an op is that of the stage that adds it to the code of its task.
pub fn origins_are_those_of_stages()
    ensures scenes { OriginsAreThoseOfScenes }
    ensures ops { OpsAreToldByTheirStages }
{}
