// What the checker does at a step.

ghost use Rattle.std.specs.Prelude.{◌≡◌, ◌+◌, ◌*◌, ◌<◌, ◌≤◌, ◌^◌, ◌++◌, ◌∷◌, [], length, slice_index_or, OnOk, IfOk, None, false, is_some};
ghost use Rattle.pl_plan.specs.inside.Checker.{IsChecker, slot_of};
ghost use Rattle.pl_plan.specs.Unfolding.{as_task, as_phaser, fault_unless, has_cells, is_parent};
ghost use Rattle.pl_plan.specs.inside.CheckerSteps.{GivesChecker, viewed, thing_named, member, with_binding, checker_add, checker_new_task, checker_new_phaser, checker_unforked_child, checker_reg, checker_member, checker_dereg, checker_adv, checker_await, checker_leave, checker_fork, checker_count, checker_act, HasNames};

use crate::checker::Checker;
use crate::fault::{
    ALREADY_FORKED, ALREADY_MEMBER, CheckFault, NOT_DRAWN_HERE, NOT_MEMBER, OTHER_KIND, PlanEnd,
    TOO_MANY_CELLS, TOO_MANY_OPS, TOO_MANY_PHASERS, TOO_MANY_TASKS, TOO_MANY_VISITS, UNKNOWN_NAME,
};
use crate::limits::MAX_VISITS;
use crate::step::{FlatStep, NameId, Thing};
use armus_base::{MAX_CELLS, MAX_OPS, MAX_PHASERS, MAX_TASKS, Offset, Op, PhaserId, TaskId};
use std::alloc::Global;

// The fault of this kind, unless the test holds.
fn fault_unless(holds: bool, kind: u8, n: u32) -> Result<(), CheckFault>
    ensures { result ≡ fault_unless holds kind n }
{
    if holds {
        Ok(())
    } else {
        Err(CheckFault { kind, statement: n })
    }
}

/// A visit, or its fault.
#[tactic(auto, unfolding(crate::specs::inside::CheckerSteps::checker_count))]
pub fn count_visit(checker: &mut Checker, n: u32) -> Result<(), PlanEnd>
    ensures { GivesChecker result (checker_count n checker.old) checker.new }
{
    fault_unless(checker.visits() < MAX_VISITS, TOO_MANY_VISITS, n)?;
    checker.count_visit();
    Ok(())
}

// The task of this name.
fn task_named(checker: &Checker, n: u32, x: NameId) -> Result<TaskId, CheckFault>
    requires fits { IsChecker checker.now }
    requires here { x.0 < length checker.now.bindings.slots }
    ensures exact { viewed (λ c. c.0) result ≡ as_task n (thing_named checker.now x.0) }
    ensures inside { IfOk result (λ c. c.0 < length checker.now.parents) }
{
    match checker.thing(x) {
        Thing::Task(c) => Ok(c),
        Thing::Phaser(_) => Err(CheckFault {
            kind: OTHER_KIND,
            statement: n,
        }),
        Thing::Nothing => Err(CheckFault {
            kind: UNKNOWN_NAME,
            statement: n,
        }),
    }
}

// The phaser of this name.
fn phaser_named(checker: &Checker, n: u32, x: NameId) -> Result<PhaserId, CheckFault>
    requires fits { IsChecker checker.now }
    requires here { x.0 < length checker.now.bindings.slots }
    ensures exact { viewed (λ p. p.0) result ≡ as_phaser n (thing_named checker.now x.0) }
    ensures inside { IfOk result (λ p. p.0 < length checker.now.makers) }
{
    match checker.thing(x) {
        Thing::Phaser(p) => Ok(p),
        Thing::Task(_) => Err(CheckFault {
            kind: OTHER_KIND,
            statement: n,
        }),
        Thing::Nothing => Err(CheckFault {
            kind: UNKNOWN_NAME,
            statement: n,
        }),
    }
}

// Whether `parent` is task `t`.
fn is_parent(t: TaskId, parent: Option<TaskId>) -> bool
    ensures { result ≡ is_parent t.0 parent }
{
    match parent {
        None => false,
        Some(u) => t.0 == u.0,
    }
}

// `t` drew `c`, and `c` is not forked.
fn unforked_child(checker: &Checker, t: TaskId, n: u32, c: TaskId) -> Result<(), CheckFault>
    requires fits { IsChecker checker.now }
    requires inside { c.0 < length checker.now.parents }
    ensures { result ≡ checker_unforked_child t.0 n c.0 checker.now }
{
    fault_unless(is_parent(t, checker.parent(c)), NOT_DRAWN_HERE, n)?;
    fault_unless(!checker.is_forked(c), ALREADY_FORKED, n)
}

// The name stands for this.
fn bind(checker: &mut Checker, x: NameId, thing: Thing)
    requires here { x.0 < length checker.old.bindings.slots }
    requires few { checker.old.bindings.slot_count < MAX_TASKS + MAX_PHASERS }
    requires below { slot_of checker.old x.0 < MAX_TASKS + MAX_PHASERS }
    requires long { length checker.old.bindings.things ≡ MAX_TASKS + MAX_PHASERS }
    ensures { checker.new ≡ with_binding x.0 thing checker.old }
{
    checker.give_slot(x);
    checker.set_thing(x, thing);
}

// An op, or the fault that there are too many.
#[tactic(auto, unfolding(crate::specs::inside::CheckerSteps::checker_add))]
fn add(checker: &mut Checker, t: TaskId, n: u32, op: Op) -> Result<(), PlanEnd>
    requires { t.0 < length checker.old.codes }
    ensures { GivesChecker result (checker_add t.0 n op checker.old) checker.new }
{
    fault_unless(checker.ops() < MAX_OPS, TOO_MANY_OPS, n)?;
    checker.push_op(t, op)?;
    Ok(())
}

// Whether there is room for the cells of so many tasks and phasers.
fn has_cells(tasks: u32, phasers: u32) -> bool
    requires few { tasks ≤ MAX_TASKS }
    requires few_phasers { phasers ≤ MAX_PHASERS }
    ensures { result ≡ has_cells tasks phasers }
{
    tasks * (phasers + 1) <= MAX_CELLS
}

/// `x = newTid();`
#[tactic(auto, unfolding(crate::specs::inside::CheckerSteps::checker_new_task))]
pub fn new_task(
    alloc: Global,
    checker: &mut Checker,
    t: TaskId,
    n: u32,
    x: NameId,
) -> Result<(), PlanEnd>
    requires fits { IsChecker checker.old }
    requires here { x.0 < length checker.old.bindings.slots }
    ensures { GivesChecker result (checker_new_task t.0 n x.0 checker.old) checker.new }
{
    let c = checker.tasks();
    fault_unless(c < MAX_TASKS, TOO_MANY_TASKS, n)?;
    let cells = has_cells(c + 1, checker.phasers());
    fault_unless(cells, TOO_MANY_CELLS, n)?;
    checker.push_task(alloc, t)?;
    bind(checker, x, Thing::Task(TaskId(c)));
    Ok(())
}

/// `x = newPhaser();`
#[tactic(auto, unfolding(crate::specs::inside::CheckerSteps::checker_new_phaser))]
pub fn new_phaser(checker: &mut Checker, t: TaskId, n: u32, x: NameId) -> Result<(), PlanEnd>
    requires fits { IsChecker checker.old }
    requires task { t.0 < length checker.old.parents }
    requires here { x.0 < length checker.old.bindings.slots }
    ensures { GivesChecker result (checker_new_phaser t.0 n x.0 checker.old) checker.new }
{
    let p = PhaserId(checker.phasers());
    fault_unless(p.0 < MAX_PHASERS, TOO_MANY_PHASERS, n)?;
    let cells = has_cells(checker.tasks(), p.0 + 1);
    fault_unless(cells, TOO_MANY_CELLS, n)?;
    checker.push_maker(t)?;
    bind(checker, x, Thing::Phaser(p));
    checker.mark(t, p, true)?;
    add(checker, t, n, Op::Make { p })
}

/// `reg(x, y);`
#[tactic(auto, unfolding(crate::specs::inside::CheckerSteps::checker_reg))]
pub fn register(
    checker: &mut Checker,
    t: TaskId,
    n: u32,
    x: NameId,
    y: NameId,
) -> Result<(), PlanEnd>
    requires fits { IsChecker checker.old }
    requires task { t.0 < length checker.old.parents }
    requires x_here { x.0 < length checker.old.bindings.slots }
    requires y_here { y.0 < length checker.old.bindings.slots }
    ensures { GivesChecker result (checker_reg t.0 n x.0 y.0 checker.old) checker.new }
{
    let c = task_named(checker, n, x)?;
    let p = phaser_named(checker, n, y)?;
    unforked_child(checker, t, n, c)?;
    fault_unless(checker.is_member(t, p), NOT_MEMBER, n)?;
    fault_unless(!checker.is_member(c, p), ALREADY_MEMBER, n)?;
    checker.mark(c, p, true)?;
    add(checker, t, n, Op::Reg { c, p })
}

// The phaser of this name, of which `t` is a member.
#[tactic(auto, unfolding(crate::specs::inside::CheckerSteps::checker_member))]
fn member_named(checker: &Checker, t: TaskId, n: u32, x: NameId) -> Result<PhaserId, CheckFault>
    requires fits { IsChecker checker.now }
    requires task { t.0 < length checker.now.parents }
    requires here { x.0 < length checker.now.bindings.slots }
    ensures exact { viewed (λ p. p.0) result ≡ checker_member t.0 n x.0 checker.now }
    ensures inside { IfOk result (λ p. p.0 < length checker.now.makers) }
{
    let p = phaser_named(checker, n, x)?;
    fault_unless(checker.is_member(t, p), NOT_MEMBER, n)?;
    Ok(p)
}

/// `dereg(x);`
#[tactic(auto, unfolding(crate::specs::inside::CheckerSteps::checker_dereg))]
pub fn leave(checker: &mut Checker, t: TaskId, n: u32, x: NameId) -> Result<(), PlanEnd>
    requires fits { IsChecker checker.old }
    requires task { t.0 < length checker.old.parents }
    requires here { x.0 < length checker.old.bindings.slots }
    ensures { GivesChecker result (checker_dereg t.0 n x.0 checker.old) checker.new }
{
    let p = member_named(checker, t, n, x)?;
    checker.mark(t, p, false)?;
    add(checker, t, n, Op::Drop { p })
}

/// `adv(x);`
#[tactic(auto, unfolding(crate::specs::inside::CheckerSteps::checker_adv))]
pub fn advance(checker: &mut Checker, t: TaskId, n: u32, x: NameId) -> Result<(), PlanEnd>
    requires fits { IsChecker checker.old }
    requires task { t.0 < length checker.old.parents }
    requires here { x.0 < length checker.old.bindings.slots }
    ensures { GivesChecker result (checker_adv t.0 n x.0 checker.old) checker.new }
{
    let p = member_named(checker, t, n, x)?;
    add(checker, t, n, Op::Adv { p })
}

/// `await(x);`, `await(x - k);` or `await(x + k);`
#[tactic(auto, unfolding(crate::specs::inside::CheckerSteps::checker_await))]
pub fn wait(checker: &mut Checker, t: TaskId, n: u32, x: NameId, off: Offset) -> Result<(), PlanEnd>
    requires fits { IsChecker checker.old }
    requires task { t.0 < length checker.old.parents }
    requires here { x.0 < length checker.old.bindings.slots }
    ensures { GivesChecker result (checker_await t.0 n x.0 off checker.old) checker.new }
{
    let p = member_named(checker, t, n, x)?;
    add(checker, t, n, Op::Await { p, off })
}

/// `fork(x) { .. }`, whose body's steps stand before `after`.
#[tactic(auto, unfolding(crate::specs::inside::CheckerSteps::checker_fork))]
pub fn fork(
    alloc: Global,
    checker: &mut Checker,
    t: TaskId,
    n: u32,
    x: NameId,
    after: u32,
) -> Result<(), PlanEnd>
    requires fits { IsChecker checker.old }
    requires task { t.0 < length checker.old.parents }
    requires here { x.0 < length checker.old.bindings.slots }
    ensures { GivesChecker result (checker_fork t.0 n x.0 after checker.old) checker.new }
{
    let c = task_named(checker, n, x)?;
    unforked_child(checker, t, n, c)?;
    checker.set_start(alloc, c, n, after)?;
    add(checker, t, n, Op::Fork { c })
}

/// The task leaves the phaser at its end, if it is a member.
#[tactic(auto, unfolding(crate::specs::inside::CheckerSteps::checker_leave))]
pub fn leave_if_member(checker: &mut Checker, t: TaskId, n: u32, p: PhaserId) -> Result<(), PlanEnd>
    requires fits { IsChecker checker.old }
    requires task { t.0 < length checker.old.parents }
    requires phaser { p.0 < MAX_PHASERS }
    ensures { GivesChecker result (checker_leave t.0 n p.0 checker.old) checker.new }
{
    if !checker.is_member(t, p) {
        return Ok(());
    }
    checker.mark(t, p, false)?;
    add(checker, t, n, Op::Drop { p })
}

/// A statement without a body.
pub fn act(
    alloc: Global,
    checker: &mut Checker,
    t: TaskId,
    n: u32,
    step: FlatStep,
) -> Result<(), PlanEnd>
    requires fits { IsChecker checker.old }
    requires task { t.0 < length checker.old.parents }
    requires here { HasNames (length checker.old.bindings.slots) step }
    ensures { GivesChecker result (checker_act t.0 n step checker.old) checker.new }
{
    match step {
        FlatStep::NewTask { x } => new_task(alloc, checker, t, n, x),
        FlatStep::NewPhaser { x } => new_phaser(checker, t, n, x),
        FlatStep::Reg { x, y } => register(checker, t, n, x, y),
        FlatStep::Dereg { x } => leave(checker, t, n, x),
        FlatStep::Adv { x } => advance(checker, t, n, x),
        FlatStep::Await { x, off } => wait(checker, t, n, x, off),
        _ => Ok(()),
    }
}
