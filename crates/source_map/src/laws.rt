// What holds of the definitions of this crate: each law is the contract of a public function with an empty body.
ghost use Rattle.source_map.specs.calls.Laws.{NamesAreFound, NamesOnePlace};
ghost use Rattle.source_map.specs.calls.OriginLaws.{AwaitsComeFromAwaits, CodesAreOfVisits, MakersAreOfVisits, OpsHaveOrigins, OriginsHaveOps, ParentsAreOfVisits, PhasersHaveOrigins, TasksHaveOrigins, TurnsAreOfVisits, VisitsAreOfText};

/// The place that is found in a line is the one that it names, and a line names one place at most.
pub fn line_names_one_place()
    ensures found { NamesAreFound }
    ensures one { NamesOnePlace }
{}

/// Each code of a program's plan is made by its task's visits, op by op, each visit the op of its statement; behind these stand the Drops of the task's end, of
/// which it has some in PL 2 alone. So each op has its origin, which is the statement of the visit that makes it, or is one of the end and has none; and each
/// origin is that of an op.
pub fn ops_have_origins()
    ensures codes { CodesAreOfVisits }
    ensures ops { OpsHaveOrigins }
    ensures origins { OriginsHaveOps }
{}

/// The phasers of a program's plan are made, and its tasks from 1 on are drawn, by the tasks of which a visit does so, in the order of these visits. So each
/// phaser and each of these tasks has its origin, which is the statement of such a visit of the phaser's maker or of the task's parent.
pub fn phasers_and_tasks_have_origins()
    ensures makers { MakersAreOfVisits }
    ensures parents { ParentsAreOfVisits }
    ensures phasers { PhasersHaveOrigins }
    ensures tasks { TasksHaveOrigins }
{}

/// Each visit is a coming to the statement that stands in the text at its number. So an Await comes from an `await`, with its offset. And the
/// visits with the turns of loops in which they are made are the visits.
pub fn visits_are_of_text()
    ensures visits { VisitsAreOfText }
    ensures awaits { AwaitsComeFromAwaits }
    ensures turns { TurnsAreOfVisits }
{}
