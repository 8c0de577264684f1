// What is looked at before a visit, and the visit.

ghost use Rattle.std.specs.Prelude.{◌≡◌, ◌+◌, ◌<◌, ◌^◌, length};
ghost use Rattle.pl_plan.specs.inside.Checker.{IsChecker, IsThingBelow};
ghost use Rattle.pl_plan.specs.inside.CheckerSteps.{GivesChecker, HasNames, checker_leave};
ghost use Rattle.explain_check.specs.inside.Seen.{IsOneOf, VisitGives, visit_checked, checker_do, fault_in, first_name_of, parent_seen, second_of, sight_of, thing_seen};

use crate::frames::Item;
use armus_base::{MAX_PHASERS, NoMemory, PhaserId, TaskId};
use pl_plan::checker::Checker;
use pl_plan::statements::{act, count_visit, fork, leave_if_member};
use pl_plan::step::{FlatStep, NameId, Thing};
use pl_plan::{CheckFault, PlanEnd};
use std::alloc::Global;

/// What is looked at before a task comes to a step: what the step's names stand for, the task that drew the first of them, and how many tasks and phasers
/// there are.
#[derive(Clone, Copy)]
pub(crate) struct StepSight {
    pub t: TaskId,
    pub item: Item,
    pub x: Thing,
    pub y: Thing,
    pub parent: Option<TaskId>,
    pub tasks: u32,
    pub phasers: u32,
}

// The first name of a step.
fn first_of(step: FlatStep) -> Option<NameId>
    ensures { result ≡ first_name_of step }
{
    match step {
        FlatStep::Fork { x, after: _ } => Some(x),
        FlatStep::Reg { x, y: _ } => Some(x),
        FlatStep::Dereg { x } => Some(x),
        FlatStep::Adv { x } => Some(x),
        FlatStep::Await { x, off: _ } => Some(x),
        _ => None,
    }
}

// The second name of a step.
fn second_of(step: FlatStep) -> Option<NameId>
    ensures { result ≡ second_of step }
{
    match step {
        FlatStep::Reg { x: _, y } => Some(y),
        _ => None,
    }
}

// What a name stands for, if there is one.
fn thing_seen(checker: &Checker, name: Option<NameId>) -> Thing
    requires fits { IsChecker checker.now }
    requires here { IsOneOf (length checker.now.bindings.slots) name }
    ensures { result ≡ thing_seen checker.now name }
{
    match name {
        None => Thing::Nothing,
        Some(x) => checker.thing(x),
    }
}

// The task that drew a task, or task 0 for what is none.
fn parent_seen(checker: &Checker, thing: Thing) -> Option<TaskId>
    requires some { 0 < length checker.now.parents }
    requires below { IsThingBelow (length checker.now.parents) (length checker.now.makers) thing }
    ensures { result ≡ parent_seen checker.now thing }
{
    match thing {
        Thing::Task(c) => checker.parent(c),
        Thing::Phaser(_) => checker.parent(TaskId(0)),
        Thing::Nothing => checker.parent(TaskId(0)),
    }
}

/// What is looked at before task `t` comes to a step.
pub(crate) fn look(checker: &Checker, t: TaskId, item: Item) -> StepSight
    requires fits { IsChecker checker.now }
    requires task { t.0 < length checker.now.parents }
    requires first { IsOneOf (length checker.now.bindings.slots) (first_name_of item.step) }
    requires second { IsOneOf (length checker.now.bindings.slots) (second_of item.step) }
    ensures { result ≡ sight_of checker.now t item }
{
    let x = thing_seen(checker, first_of(item.step));
    let y = thing_seen(checker, second_of(item.step));
    StepSight {
        t,
        item,
        x,
        y,
        parent: parent_seen(checker, x),
        tasks: checker.tasks(),
        phasers: checker.phasers(),
    }
}

// A statement, or a fork with its body.
fn act_or_fork(
    alloc: Global,
    checker: &mut Checker,
    t: TaskId,
    n: u32,
    step: FlatStep,
) -> Result<(), PlanEnd>
    requires fits { IsChecker checker.old }
    requires task { t.0 < length checker.old.parents }
    requires names { HasNames (length checker.old.bindings.slots) step }
    ensures { GivesChecker result (checker_do t.0 n step checker.old) checker.new }
{
    match step {
        FlatStep::Fork { x, after } => fork(alloc, checker, t, n, x, after),
        _ => act(alloc, checker, t, n, step),
    }
}

// A visit.
fn come(
    alloc: Global,
    checker: &mut Checker,
    t: TaskId,
    at: u32,
    step: FlatStep,
) -> Result<(), PlanEnd>
    requires fits { IsChecker checker.old }
    requires task { t.0 < length checker.old.parents }
    requires names { HasNames (length checker.old.bindings.slots) step }
    requires small { at + 1 < 2 ^ 32 }
    ensures { GivesChecker result (visit_checked t.0 at step checker.old) checker.new }
{
    count_visit(checker, at + 1)?;
    act_or_fork(alloc, checker, t, at + 1, step)
}

// The fault, unless memory ran out.
fn fault_in(end: PlanEnd) -> Result<Option<CheckFault>, NoMemory>
    ensures { result ≡ fault_in end }
{
    match end {
        PlanEnd::Check(fault) => Ok(Some(fault)),
        PlanEnd::NoMemory => Err(NoMemory),
    }
}

/// A visit, or its fault.
pub(crate) fn visit(
    alloc: Global,
    checker: &mut Checker,
    t: TaskId,
    item: Item,
) -> Result<Option<CheckFault>, NoMemory>
    requires fits { IsChecker checker.old }
    requires task { t.0 < length checker.old.parents }
    requires names { HasNames (length checker.old.bindings.slots) item.step }
    requires small { item.at + 1 < 2 ^ 32 }
    ensures { VisitGives result (visit_checked t.0 item.at item.step checker.old) checker.new }
{
    match come(alloc, checker, t, item.at, item.step) {
        Ok(()) => Ok(None),
        Err(end) => fault_in(end),
    }
}

/// At its end the task leaves the phaser, if it is a member; or the fault that no op is left.
pub(crate) fn leave(
    checker: &mut Checker,
    t: TaskId,
    n: u32,
    p: PhaserId,
) -> Result<Option<CheckFault>, NoMemory>
    requires fits { IsChecker checker.old }
    requires task { t.0 < length checker.old.parents }
    requires phaser { p.0 < MAX_PHASERS }
    ensures { VisitGives result (checker_leave t.0 n p.0 checker.old) checker.new }
{
    match leave_if_member(checker, t, n, p) {
        Ok(()) => Ok(None),
        Err(end) => fault_in(end),
    }
}
