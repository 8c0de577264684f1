// The awaits of a text at which nobody ever has to wait.
ghost use Rattle.std.specs.Prelude.{◌≡◌, ◌+◌, ◌++◌, ◌<◌, ◌≤◌, IfOk, OnOk, false, length, nat_lt, option_map, option_to_list, slice_get, slice_index_or, suc};
ghost use Rattle.armus_base.specs.CheckedPlans.{IsCheckedPlan};
ghost use Rattle.armus_base.specs.Finals.{given_below};
ghost use Rattle.armus_base.specs.Offsets.{target};
ghost use Rattle.armus_base.specs.declared.event.Event.{Event};
ghost use Rattle.pl_core.specs.inside.Ops.{action_of, phases_moved};
ghost use Rattle.pl_syntax.specs.Tree.{count};
ghost use Rattle.source_map.specs.inside.Tables.{coming_of};
ghost use Rattle.explain_facts.specs.Accounts.{immediate_await, immediate_awaits, awaited_offset, told_await};
ghost use Rattle.explain_facts.specs.ImmediateAwaits.{is_late};
ghost use Rattle.explain_facts.specs.PhaserUses.{is_used_so};
ghost use Rattle.explain_facts.specs.calls.Known.{AreKnownFacts, kept_layout};
ghost use Rattle.explain_facts.specs.calls.Used.{AreUsed};
ghost use Rattle.explain_facts.specs.declared.uses.PhaserUse.TheVariants.{Registers};
ghost use Rattle.explain_facts.specs.inside.Marked.{HaveMarks};
ghost use Rattle.explain_facts.specs.inside.Noted.{HasWalkedTo, awaited_by, is_late_await, is_marked_await, is_marked_event, is_marked_number};
ghost use Rattle.explain_facts.specs.inside.PhaseRows.{HasRowRoom, KeepsRowCells, phases_in_rows};

use crate::account::ImmediateAwait;
use crate::facts::TextFacts;
use crate::phase_rows::PhaseRows;
use crate::uses::{PhaserUse, no_marks, used_phasers};
use crate::waiting::words_of;
use armus_base::{List, NoMemory, Offset, Op, Phase, PhaserId, Plan, TaskId};
use pl_syntax::Stmt;
use std::alloc::Global;

// An await that a task is about to make.
#[derive(Clone, Copy, Drop)]
struct NextAwait {
    // the phaser
    p: PhaserId,
    // whether it awaits a later phase than 0
    is_late: bool,
}

// Whether a member at this phase awaits a later phase than 0.
fn is_late(off: Offset, phase: Phase) -> bool
    ensures { result ≡ nat_lt 0 (target off phase) }
{
    match off {
        Offset::Here => phase > 0,
        Offset::Back(k) => phase > k as u32,
        Offset::Ahead(k) => phase > 0 || k > 0,
    }
}

// Whether a mark is set.
fn is_set(marks: &[bool], at: u32) -> bool
    ensures { result ≡ slice_index_or marks.now at false }
{
    match marks.get(at as usize) {
        Some(mark) => *mark,
        None => false,
    }
}

// Marks this number, if there is one, and it is to be marked.
fn mark_number(marks: &mut Vec<bool>, n: Option<u32>, is_marked: bool)
    ensures { HaveMarks (is_marked_number n is_marked) marks.old.items marks.new.items }
{
    if !is_marked {
        return;
    }
    match n {
        Some(n) => {
            let at = n as usize;
            if at < marks.len() {
                marks[at] = true;
            }
        }
        None => {}
    }
}

// The statement from which an op comes, by those of all ops of its task.
fn origin_at(origins: &[u32], at: usize) -> Option<u32>
    ensures { result ≡ slice_get origins.now at }
{
    origins.get(at).copied()
}

// How many statements the text has.
fn statements(facts: &TextFacts<'_>) -> u32
    requires { AreKnownFacts facts.now }
    ensures { result ≡ count facts.now.program.now.body }
{
    facts.offsets.as_slice().len() as u32
}

// What is kept of a walk along the codes of the tasks, in order of number.
#[derive(Drop)]
struct AwaitWalk {
    // where the walk has come
    phases: PhaseRows,
    // of each statement, by its number, whether a task awaits there an event of a phaser on which an op registers a task
    shared: Vec<bool>,
    // and whether one awaits there a later phase than 0
    late: Vec<bool>,
}

impl AwaitWalk {
    // Before any op.
    fn start(facts: &TextFacts<'_>, plan: &Plan) -> Result<AwaitWalk, NoMemory>
        requires known { AreKnownFacts facts.now }
        requires checked { IsCheckedPlan plan.now }
        ensures { IfOk result (HasWalkedTo facts.now.program.now plan.now 0 0) }
    {
        let marks = statements(facts) + 1;
        let phases = PhaseRows::none(facts.alloc, plan)?;
        let shared = no_marks(facts.alloc, marks)?;
        let late = no_marks(facts.alloc, marks)?;
        Ok(AwaitWalk {
            phases,
            shared,
            late,
        })
    }

    // The await that a task is about to make by this op.
    fn next_await(&self, t: TaskId, op: Op) -> Option<NextAwait>
        ensures { result ≡ option_map (λ (e : Event). record { p = e.p; is_late = nat_lt 0 e.n }) (awaited_by op (phases_in_rows self.now.phases t.0)) }
    {
        match op {
            Op::Await { p, off } => match self.phases.get(t, p) {
                Some(phase) => Some(NextAwait {
                    p,
                    is_late: is_late(off, phase),
                }),
                None => None,
            },
            Op::Make { p: _ } => None,
            Op::Reg { c: _, p: _ } => None,
            Op::Fork { c: _ } => None,
            Op::Adv { p: _ } => None,
            Op::Drop { p: _ } => None,
        }
    }

    // Marks the statement from which an await comes that a task is about to make, if it makes one.
    fn note(&mut self, registered: &[bool], n: Option<u32>, next: Option<NextAwait>)
        ensures phases { self.new.phases ≡ self.old.phases }
        ensures shared { HaveMarks (is_marked_number n (is_marked_await registered.now next)) self.old.shared.items self.new.shared.items }
        ensures late { HaveMarks (is_marked_number n (is_late_await next)) self.old.late.items self.new.late.items }
    {
        match next {
            Some(next) => {
                mark_number(&mut self.shared, n, is_set(registered, next.p.0));
                mark_number(&mut self.late, n, next.is_late);
            }
            None => {}
        }
    }

    // Goes on by an op of a task, which comes from this statement.
    fn go_on(&mut self, registered: &[bool], t: TaskId, op: Op, n: Option<u32>)
        requires room { HasRowRoom self.old.phases t.0 op }
        ensures cells { KeepsRowCells self.old.phases self.new.phases }
        ensures moved { phases_in_rows self.new.phases ≡ phases_moved (phases_in_rows self.old.phases) t.0 (action_of op) }
        ensures shared { HaveMarks (is_marked_number n (is_marked_event registered.now (awaited_by op (phases_in_rows self.old.phases t.0)))) self.old.shared.items self.new.shared.items }
        ensures late { HaveMarks (is_marked_number n (is_late (awaited_by op (phases_in_rows self.old.phases t.0)))) self.old.late.items self.new.late.items }
    {
        let next = self.next_await(t, op);
        self.note(registered, n, next);
        self.phases.begin(t, op);
    }

    // Goes through the code of a task.
    fn walk_code(
        &mut self,
        facts: &TextFacts<'_>,
        plan: &Plan,
        registered: &[bool],
        t: TaskId,
    ) -> Result<(), NoMemory>
        requires known { AreKnownFacts facts.now }
        requires checked { IsCheckedPlan plan.now }
        requires registered { AreUsed Registers plan.now registered.now }
        requires task { t.0 < length plan.now.parents }
        requires walked { HasWalkedTo facts.now.program.now plan.now t.0 0 self.old }
        ensures walked { OnOk result (HasWalkedTo facts.now.program.now plan.now (t.0 + 1) 0 self.new) }
    {
        let origins = facts.origins.ops(facts.alloc, facts.program, t)?;
        let mut left = plan.cursor(t);
        let mut at = 0;
        'ops: while let Some(op) = left.next() {
            self.go_on(registered, t, op, origin_at(&origins, at));
            at += 1;
        }
        Ok(())
    }
}

// The walk along the codes of all tasks.
fn walk(facts: &TextFacts<'_>, plan: &Plan) -> Result<AwaitWalk, NoMemory>
    requires known { AreKnownFacts facts.now }
    requires checked { IsCheckedPlan plan.now }
    ensures { IfOk result (HasWalkedTo facts.now.program.now plan.now (length plan.now.parents) 0) }
{
    let registered = used_phasers(facts.alloc, plan, PhaserUse::Registers)?;
    let mut walk = AwaitWalk::start(facts, plan)?;
    for t in 0..plan.tasks() {
        walk.walk_code(facts, plan, &registered, TaskId(t))?;
    }
    Ok(walk)
}

// How far a statement looks back or ahead, if it is an await.
fn awaited_offset(stmt: Option<&Stmt>) -> Offset
    ensures { result ≡ awaited_offset (option_map (λ s. coming_of s.now) stmt.entry) }
{
    match stmt {
        Some(Stmt::Await { x: _, off }) => *off,
        _ => Offset::Here,
    }
}

// What is told of the await that is statement n.
fn told_await(facts: &TextFacts<'_>, n: u32) -> Result<ImmediateAwait, NoMemory>
    requires { AreKnownFacts facts.now }
    ensures { IfOk result (λ told. told ≡ told_await (kept_layout facts.now) facts.now.program.now n) }
{
    let words = words_of(facts.alloc, facts.origins.statement(n))?;
    Ok(ImmediateAwait {
        at: facts.statement(n),
        words,
        off: awaited_offset(facts.origins.statement(n)),
    })
}

// The same, if by this walk nobody ever has to wait there.
fn immediate_await(
    facts: &TextFacts<'_>,
    plan: &Plan,
    walk: &AwaitWalk,
    n: u32,
) -> Result<Option<ImmediateAwait>, NoMemory>
    requires known { AreKnownFacts facts.now }
    requires walked { HasWalkedTo facts.now.program.now plan.now (length plan.now.parents) 0 walk.now }
    requires statement { n ≤ count facts.now.program.now.body }
    ensures { IfOk result (λ told. told ≡ immediate_await (kept_layout facts.now) facts.now.program.now plan.now n) }
{
    if is_set(&walk.late, n) {
        return Ok(None);
    }
    if is_set(&walk.shared, n) {
        return Ok(Some(told_await(facts, n)?));
    }
    Ok(None)
}

// Appends what is told, if something is.
fn push_told(all: &mut Vec<ImmediateAwait>, told: Option<ImmediateAwait>) -> Result<(), NoMemory>
    ensures { OnOk result (all.new.items ≡ all.old.items ++ option_to_list told) }
{
    match told {
        Some(told) => {
            all.push(told)?;
            Ok(())
        }
        None => Ok(()),
    }
}

// What is told of the first statements, so many, at which by this walk nobody ever has to wait.
fn immediate_among(
    facts: &TextFacts<'_>,
    plan: &Plan,
    walk: &AwaitWalk,
    statements: u32,
) -> Result<Vec<ImmediateAwait>, NoMemory>
    requires known { AreKnownFacts facts.now }
    requires walked { HasWalkedTo facts.now.program.now plan.now (length plan.now.parents) 0 walk.now }
    requires statements { statements ≤ count facts.now.program.now.body }
    ensures { IfOk result (λ told. told.items ≡ given_below (λ i. immediate_await (kept_layout facts.now) facts.now.program.now plan.now (suc i)) statements) }
{
    let mut all = Vec::new(facts.alloc);
    for i in 0..statements {
        let told = immediate_await(facts, plan, walk, i + 1)?;
        push_told(&mut all, told)?;
    }
    Ok(all)
}

// The awaits of a text at which nobody ever has to wait, in order of their places. The time is linear in the visits of the unfolding, and in the phasers times the
// tasks.
pub(crate) fn immediate_awaits(
    facts: &TextFacts<'_>,
    plan: &Plan,
) -> Result<List<ImmediateAwait>, NoMemory>
    requires known { AreKnownFacts facts.now }
    requires checked { IsCheckedPlan plan.now }
    ensures { IfOk result (λ told. told ≡ immediate_awaits (kept_layout facts.now) facts.now.program.now plan.now) }
{
    let walk = walk(facts, plan)?;
    let told = immediate_among(facts, plan, &walk, statements(facts))?;
    Ok(List::from_vec(told))
}
