// Small kernels, worked out by the definitions.
ghost use Rattle.std.specs.Prelude.{◌≡◌, ◌∷◌, []};
ghost use Rattle.armus_base.specs.CheckedPlans.{IsCheckedPlan};
ghost use Rattle.armus_base.specs.Finals.{final_of};
ghost use Rattle.armus_base.specs.Runs.{state_after};
ghost use Rattle.armus_base.specs.Serial.{IsSerialAvoidedEnd};
ghost use Rattle.armus_base.specs.calls.Exclusions.{Excludes, ExcludesPlans, ExcludesUnlocked};
ghost use Rattle.armus_base.specs.calls.TwoTasks.{all_turns, two_tasks};
ghost use Rattle.armus_base.specs.calls.WorkedDecisions.{DecidesAlive, DecidesDead, WorkedLoads};
ghost use Rattle.armus_base.specs.calls.WorkedTexts.{EndsIn, Targets, averaging, averaging_end, averaging_schedule, awaits_ahead, awaits_ahead_end, awaits_ahead_schedule, behind_a_cycle, behind_a_cycle_end, behind_a_cycle_schedule, ended_member, ended_member_end, ended_member_schedule, looks_back, looks_back_end, looks_back_schedule, three_tasks, three_tasks_end, three_tasks_schedule, two_tasks_avoided, two_tasks_end, two_tasks_schedule, unforked_member, unforked_member_end, unforked_member_schedule};

/// The final states of eight small kernels and their dead tasks, by the definitions: workers that average under a barrier that their parent never
/// leaves; two tasks that wait for each other; three that each wait for the two others; a task that waits behind a cycle; one that waits for a member
/// that has ended; one that waits for a member that is never forked; one that waits for itself, since it looks ahead; and one that looks back.
pub fn worked_texts()
    ensures averaging { EndsIn averaging averaging_schedule averaging_end (0 ∷ 1 ∷ 2 ∷ 3 ∷ []) }
    ensures two_tasks { EndsIn two_tasks two_tasks_schedule two_tasks_end (0 ∷ 1 ∷ []) }
    ensures three_tasks { EndsIn three_tasks three_tasks_schedule three_tasks_end (1 ∷ 2 ∷ 3 ∷ []) }
    ensures behind_a_cycle { EndsIn behind_a_cycle behind_a_cycle_schedule behind_a_cycle_end (0 ∷ 1 ∷ 2 ∷ []) }
    ensures ended_member { EndsIn ended_member ended_member_schedule ended_member_end [] }
    ensures unforked_member { EndsIn unforked_member unforked_member_schedule unforked_member_end [] }
    ensures awaits_ahead { EndsIn awaits_ahead awaits_ahead_schedule awaits_ahead_end (0 ∷ []) }
    ensures looks_back { EndsIn looks_back looks_back_schedule looks_back_end [] }
{}

/// What awaits with an offset aim at, in numbers.
pub fn worked_offsets()
    ensures targets { Targets }
{}

/// The serial avoided run of two tasks that would wait for each other, step by step: the second one's await is refused, and the first is done.
pub fn worked_avoided_run()
    ensures plan { IsCheckedPlan two_tasks }
    ensures run { IsSerialAvoidedEnd two_tasks all_turns }
    ensures value { final_of two_tasks (state_after all_turns) ≡ two_tasks_avoided }
{}

/// What the definitions exclude: refusals of tasks that would not be dead, steps with tasks or phasers that the plan does not have, an empty
/// deadlocked set, passes of refused tasks; six plans and five runs of a board that avoids deadlock, each of which breaks one rule.
pub fn exclusions()
    ensures steps { Excludes }
    ensures plans { ExcludesPlans }
    ensures lock { ExcludesUnlocked }
{}

/// Two decisions on a board that avoids deadlock, with all that the law on the list in hand asks for: one task would be dead, and one leaves nobody dead.
pub fn worked_decisions()
    ensures dead { DecidesDead }
    ensures alive { DecidesAlive }
{}

/// What single loads show of a task: that it was refused, that it stands before its await, that it has passed.
pub fn worked_loads()
    ensures { WorkedLoads }
{}
