// Laws of what explanations tell.
ghost use Rattle.report_laws.specs.RefusalsTold.{RefusalsAreSo};
ghost use Rattle.report_laws.specs.ToldTasks.{EachTaskIsTold};

/// Each task that is not done at the end of the run stands in just one paragraph of its explanation, and no other task does. The tasks of a paragraph stand alike,
/// and it names just those that keep them waiting.
pub fn each_task_is_told()
    ensures { EachTaskIsTold }
{}

/// What the paragraph of a refusal tells is so: its task is in the deadlock that is told, leaves just these phasers by its later steps, and who may go on does.
pub fn refusals_are_so()
    ensures { RefusalsAreSo }
{}
