// Laws of final states as data.
ghost use Rattle.armus_base.specs.calls.FinalLaws.{DeadByFinal, DeadByStatuses, EndsAre, EndsTell, RunIsOfPlan, StatusesAre};

/// The statuses of a state are just those of its published tasks, with just their phases, in order; and the dead by these statuses are the dead of the state.
pub fn statuses_are_of_state()
    ensures statuses { StatusesAre }
    ensures of_plan { RunIsOfPlan }
    ensures dead { DeadByStatuses }
{}

/// The value of a final state has one end for each task, which says how it stands after a maximal run, and the dead by its statuses are the dead of the state.
pub fn final_is_of_state()
    ensures ends { EndsAre }
    ensures tell { EndsTell }
    ensures dead { DeadByFinal }
{}
