// The words of a refusal.
ghost use Rattle.std.specs.Prelude.{◌≡◌, ◌++◌, ◌<◌, ◌↔◌, ℕ, All, IfOk, IfSome, IsTrue, List, OnOk, codes, flat_map, length, option_copied};
ghost use Rattle.std.specs.List.{enumerate_from};
ghost use Rattle.armus_base.specs.Plans.{code_of};
ghost use Rattle.armus_base.specs.Finals.{given_below, list_below};
ghost use Rattle.source_map.specs.Origins.{op_origin, phaser_origin, statement_in, written_statements};
ghost use Rattle.source_map.specs.Turns.{op_turns};
ghost use Rattle.pl_core.specs.Tasks.{IsAtOp};
ghost use Rattle.pl_core.specs.calls.Worlds.{places_of, state_of};
ghost use Rattle.pl_syntax.specs.Printed.{line};
ghost use Rattle.explain_facts.specs.Accounts.{statement_place};
ghost use Rattle.source_map.specs.PlaceWords.{front_words};
ghost use Rattle.explain_tasks.specs.Places.{said_of};
ghost use Rattle.explain_facts.specs.Names.{program_names};
ghost use Rattle.explain_tasks.specs.TaskLists.{separator, tasks_words};
ghost use Rattle.explain_steps.specs.StepWords.{made_phaser_words, statement_words};
ghost use Rattle.explain_facts.specs.calls.Known.{AreKnownFacts, kept_layout};
ghost use Rattle.explain_avoid.specs.RefusalWords.{avoided_circle_words, event_words, refused_forked_words, avoided_link_words, member_words, left_phasers, refused_phase_words, phaser_list, going_on_words, place_of, refusal_by, refused_words, refused_turn_words, refused_whence_words};
ghost use Rattle.explain_avoid.specs.inside.Freed.{AreThoseBelow, IsFreed, StoodBelow};
ghost use Rattle.explain_avoid.specs.inside.SoFar.{StandAt};

use crate::known_text::KnownText;
use armus_base::{Event, NoMemory, Phase, PhaserId, TaskId, put_number, put_words};
use explain_facts::TextFacts;
use explain_steps::{put_phaser, put_statement, put_task};
use explain_tasks::{push_if, put_tasks_words, separator};
use pl_core::{Stand, World};
use source_map::LoopTurn;
use std::alloc::Global;

/// An await of a task, as it stands when it is decided on.
#[derive(Drop)]
pub(crate) struct Pending {
    /// Its event.
    pub(crate) event: Event,
    /// The own phase of its task on the event's phaser.
    pub(crate) phase: Option<Phase>,
    /// The phasers on which its task is a member.
    pub(crate) members: Vec<u32>,
    /// The own phase of its task on each phaser, in order of number; nothing where it is no member.
    pub(crate) phases: Vec<Option<Phase>>,
}

// The phasers on which a task is a member, in order of number.
fn members_of(alloc: Global, world: &World<'_>, t: TaskId) -> Result<Vec<u32>, NoMemory>
    requires task { t.0 < length world.now.plan.parents }
    ensures { IfOk result (λ v. v.items ≡ left_phasers ((state_of world.now).phases t.0) (length world.now.plan.makers)) }
{
    let mut members = Vec::new(alloc);
    for q in 0..world.plan().phasers() {
        match world.phase(PhaserId(q), t) {
            Some(_) => members.push(q)?,
            None => {}
        }
    }
    Ok(members)
}

// The phase of a task on each phaser, in order of number.
fn phases_of(alloc: Global, world: &World<'_>, t: TaskId) -> Result<Vec<Option<Phase>>, NoMemory>
    requires task { t.0 < length world.now.plan.parents }
    ensures { IfOk result (λ v. v.items ≡ list_below ((state_of world.now).phases t.0) (length world.now.plan.makers)) }
{
    let mut phases = Vec::new(alloc);
    for p in 0..world.plan().phasers() {
        phases.push(world.phase(PhaserId(p), t))?;
    }
    Ok(phases)
}

/// The await of this event at which a task stands.
pub(crate) fn pending_of(
    alloc: Global,
    world: &World<'_>,
    t: TaskId,
    event: Event,
) -> Result<Pending, NoMemory>
    requires task { t.0 < length world.now.plan.parents }
    requires phaser { event.p.0 < length world.now.plan.makers }
    ensures event { IfOk result (λ a. a.event ≡ event) }
    ensures phase { IfOk result (λ a. a.phase ≡ (state_of world.now).phases t.0 event.p.0) }
    ensures members { IfOk result (λ a. a.members.items ≡ left_phasers ((state_of world.now).phases t.0) (length world.now.plan.makers)) }
    ensures phases { IfOk result (λ a. a.phases.items ≡ list_below ((state_of world.now).phases t.0) (length world.now.plan.makers)) }
{
    let members = members_of(alloc, world, t)?;
    let phases = phases_of(alloc, world, t)?;
    Ok(Pending {
        event,
        phase: world.phase(event.p, t),
        members,
        phases,
    })
}

// Appends the place of a statement, if there is one.
fn put_place(facts: &TextFacts<'_>, out: &mut Vec<u8>, n: Option<u32>) -> Result<(), NoMemory>
    requires known { AreKnownFacts facts.now }
    ensures { OnOk result (out.new.items ≡ out.old.items ++ said_of (place_of (kept_layout facts.now)) n) }
{
    match n {
        Some(n) => facts.places.put(facts.alloc, out, facts.statement(n)),
        None => Ok(()),
    }
}

// Appends the place of a statement with which a line begins, if there is one.
fn put_front(
    facts: &TextFacts<'_>,
    file: Option<&[u8]>,
    out: &mut Vec<u8>,
    n: Option<u32>,
) -> Result<(), NoMemory>
    requires known { AreKnownFacts facts.now }
    ensures { OnOk result (out.new.items
        ≡ out.old.items ++ said_of (λ n. front_words facts.now.places.now (option_copied file.entry) (statement_place (kept_layout facts.now) n)) n) }
{
    match n {
        Some(n) => facts
            .places
            .put_front(facts.alloc, out, file, facts.statement(n)),
        None => Ok(()),
    }
}

// Appends a statement as it is printed, if there is one.
fn put_printed(facts: &TextFacts<'_>, out: &mut Vec<u8>, n: Option<u32>) -> Result<(), NoMemory>
    requires known { AreKnownFacts facts.now }
    ensures { OnOk result (out.new.items
        ≡ out.old.items ++ said_of (λ n. statement_words (statement_in (written_statements facts.now.program.now.body) n)) n) }
{
    match n {
        Some(n) => put_statement(facts.alloc, out, facts.origins.statement(n)),
        None => Ok(()),
    }
}

// Appends the own phase of a task, where this is not that of the event.
fn put_phase(
    alloc: Global,
    out: &mut Vec<u8>,
    event: Event,
    phase: Option<Phase>,
) -> Result<(), NoMemory>
    ensures { OnOk result (out.new.items ≡ out.old.items ++ refused_phase_words event phase) }
{
    let Some(phase) = phase else {
        return Ok(());
    };
    if phase == event.n {
        return Ok(());
    }
    put_words(out, b" at phase ")?;
    put_number(alloc, out, phase as u64)
}

// Appends for what a task would have waited.
fn put_event(facts: &TextFacts<'_>, out: &mut Vec<u8>, event: Event) -> Result<(), NoMemory>
    requires known { AreKnownFacts facts.now }
    ensures { OnOk result (out.new.items ≡ out.old.items ++ event_words facts.now.program.now event) }
{
    put_words(out, b" would have waited for phase ")?;
    put_number(facts.alloc, out, event.n as u64)?;
    put_words(out, b" of ")?;
    put_phaser(facts, out, event.p)?;
    Ok(())
}

// Appends which await was refused: at op i of the code of task t.
fn put_refused(
    facts: &TextFacts<'_>,
    file: Option<&[u8]>,
    out: &mut Vec<u8>,
    t: TaskId,
    waits: &Pending,
    i: u32,
) -> Result<(), NoMemory>
    requires known { AreKnownFacts facts.now }
    ensures { OnOk result (out.new.items ≡ out.old.items
        ++ refused_words (option_copied file.entry) (kept_layout facts.now) facts.now.program.now t.0 waits.now.event waits.now.phase i) }
{
    let n = facts.origins.op(facts.program, t, i);
    put_front(facts, file, out, n)?;
    put_words(out, b": ")?;
    put_task(facts, out, t)?;
    put_words(out, b" was refused: ")?;
    put_printed(facts, out, n)?;
    put_phase(facts.alloc, out, waits.event, waits.phase)?;
    put_event(facts, out, waits.event)?;
    Ok(())
}

// Appends where a task was forked; nothing for task 0.
fn put_forked(facts: &TextFacts<'_>, out: &mut Vec<u8>, t: TaskId) -> Result<(), NoMemory>
    requires known { AreKnownFacts facts.now }
    ensures { OnOk result (out.new.items ≡ out.old.items ++ refused_forked_words (kept_layout facts.now) facts.now.program.now t.0) }
{
    if t.0 == 0 {
        return Ok(());
    }
    let Some(fork) = facts.origins.fork(t) else {
        return Ok(());
    };
    put_words(out, b"forked at ")?;
    put_place(facts, out, Some(fork))?;
    put_words(out, b"; ")
}

// Appends a turn of a loop.
fn put_turn(facts: &TextFacts<'_>, out: &mut Vec<u8>, turn: LoopTurn) -> Result<(), NoMemory>
    requires known { AreKnownFacts facts.now }
    ensures { OnOk result (out.new.items ≡ out.old.items ++ refused_turn_words (kept_layout facts.now) turn) }
{
    put_words(out, b"; turn ")?;
    put_number(facts.alloc, out, turn.turn as u64)?;
    put_words(out, b" of the loop at ")?;
    put_place(facts, out, Some(turn.statement))
}

// Appends these turns of loops.
fn put_turns(facts: &TextFacts<'_>, out: &mut Vec<u8>, turns: &[LoopTurn]) -> Result<(), NoMemory>
    requires known { AreKnownFacts facts.now }
    ensures { OnOk result (out.new.items ≡ out.old.items ++ flat_map (refused_turn_words (kept_layout facts.now)) turns.now) }
{
    for turn in turns {
        put_turn(facts, out, *turn)?;
    }
    Ok(())
}

// Appends whence a task and the phaser of its await come, and in which turns of loops it came to the await, op i of its code.
fn put_whence(
    facts: &TextFacts<'_>,
    out: &mut Vec<u8>,
    t: TaskId,
    p: PhaserId,
    i: u32,
) -> Result<(), NoMemory>
    requires known { AreKnownFacts facts.now }
    ensures { OnOk result (out.new.items ≡ out.old.items ++ refused_whence_words (kept_layout facts.now) facts.now.program.now t.0 p.0 i) }
{
    let turns = facts.origins.turns(facts.alloc, facts.program, t, i)?;
    let made = facts.origins.phaser(p);
    put_words(out, b"  ")?;
    put_forked(facts, out, t)?;
    put_phaser(facts, out, p)?;
    put_words(out, b" made at ")?;
    put_place(facts, out, made)?;
    put_turns(facts, out, turns.as_slice())?;
    Ok(())
}

// Appends a task of a deadlock, with the place where it stands.
fn put_member(
    facts: &TextFacts<'_>,
    out: &mut Vec<u8>,
    world: &World<'_>,
    t: TaskId,
) -> Result<(), NoMemory>
    requires known { AreKnownFacts facts.now }
    requires task { t.0 < length world.now.plan.parents }
    ensures { OnOk result ((ops : ℕ → ℕ) → StandAt world.now ops →
        out.new.items ≡ out.old.items ++ member_words (kept_layout facts.now) facts.now.program.now ops t.0) }
{
    let i = world.op(t);
    let n = facts.origins.op(facts.program, t, i);
    put_task(facts, out, t)?;
    put_words(out, b" at ")?;
    put_place(facts, out, n)?;
    Ok(())
}

// What stands behind task k of a deadlock.
fn link(k: usize) -> &'static [u8]
    ensures { result.now ≡ avoided_link_words k }
{
    if k == 0 {
        b" waits for "
    } else {
        b", which waits for "
    }
}

// Appends task k of a deadlock, with its link.
fn put_linked(
    facts: &TextFacts<'_>,
    out: &mut Vec<u8>,
    world: &World<'_>,
    k: usize,
    t: TaskId,
) -> Result<(), NoMemory>
    requires known { AreKnownFacts facts.now }
    requires task { t.0 < length world.now.plan.parents }
    ensures { OnOk result ((ops : ℕ → ℕ) → StandAt world.now ops → out.new.items ≡ out.old.items
        ++ (member_words (kept_layout facts.now) facts.now.program.now ops t.0 ++ avoided_link_words k)) }
{
    put_member(facts, out, world, t)?;
    put_words(out, link(k))?;
    Ok(())
}

// Appends the tasks of a deadlock, each with its link.
fn put_members(
    facts: &TextFacts<'_>,
    out: &mut Vec<u8>,
    world: &World<'_>,
    cycle: &[TaskId],
) -> Result<(), NoMemory>
    requires known { AreKnownFacts facts.now }
    requires tasks { All (λ u. u.0 < length world.now.plan.parents) cycle.now }
    ensures { OnOk result ((ops : ℕ → ℕ) → StandAt world.now ops → out.new.items ≡ out.old.items
        ++ flat_map (λ (k, v). member_words (kept_layout facts.now) facts.now.program.now ops v.0 ++ avoided_link_words k) (enumerate_from 0 cycle.now)) }
{
    for (k, t) in cycle.iter().enumerate() {
        put_linked(facts, out, world, k, *t)?;
    }
    Ok(())
}

// Appends the tasks of a deadlock.
fn put_circle(
    facts: &TextFacts<'_>,
    out: &mut Vec<u8>,
    world: &World<'_>,
    cycle: &[TaskId],
) -> Result<(), NoMemory>
    requires known { AreKnownFacts facts.now }
    requires tasks { All (λ u. u.0 < length world.now.plan.parents) cycle.now }
    ensures { OnOk result ((ops : ℕ → ℕ) → StandAt world.now ops →
        out.new.items ≡ out.old.items ++ avoided_circle_words (kept_layout facts.now) facts.now.program.now ops cycle.now) }
{
    match cycle {
        [] => Ok(()),
        [t] => {
            put_member(facts, out, world, *t)?;
            put_words(out, b" waits for itself")?;
            Ok(())
        }
        [t, _, ..] => {
            put_members(facts, out, world, cycle)?;
            put_task(facts, out, *t)?;
            Ok(())
        }
    }
}

// Appends phaser k of a list of n, and what stands before it.
fn put_phaser_at(
    facts: &TextFacts<'_>,
    out: &mut Vec<u8>,
    n: usize,
    k: usize,
    q: u32,
) -> Result<(), NoMemory>
    requires known { AreKnownFacts facts.now }
    ensures { OnOk result (out.new.items ≡ out.old.items ++ (separator n k ++ made_phaser_words facts.now.program.now q)) }
{
    put_words(out, separator(n, k))?;
    put_phaser(facts, out, PhaserId(q))
}

// Appends a list of phasers.
fn put_phasers(facts: &TextFacts<'_>, out: &mut Vec<u8>, phasers: &[u32]) -> Result<(), NoMemory>
    requires known { AreKnownFacts facts.now }
    ensures { OnOk result (out.new.items ≡ out.old.items ++ phaser_list facts.now.program.now phasers.now) }
{
    for (k, q) in phasers.iter().enumerate() {
        put_phaser_at(facts, out, phasers.len(), k, *q)?;
    }
    Ok(())
}

// Appends the line of the deadlock that an await would have closed.
fn put_deadlock(
    facts: &TextFacts<'_>,
    out: &mut Vec<u8>,
    world: &World<'_>,
    cycle: &[TaskId],
) -> Result<(), NoMemory>
    requires known { AreKnownFacts facts.now }
    requires tasks { All (λ u. u.0 < length world.now.plan.parents) cycle.now }
    ensures { OnOk result ((ops : ℕ → ℕ) → StandAt world.now ops →
        out.new.items ≡ out.old.items ++ line (codes "  deadlock: " ++ avoided_circle_words (kept_layout facts.now) facts.now.program.now ops cycle.now)) }
{
    put_words(out, b"  deadlock: ")?;
    put_circle(facts, out, world, cycle)?;
    put_words(out, b"\n")?;
    Ok(())
}

// Appends the line of the phasers that a task left.
fn put_left(facts: &TextFacts<'_>, out: &mut Vec<u8>, phasers: &[u32]) -> Result<(), NoMemory>
    requires known { AreKnownFacts facts.now }
    ensures { OnOk result (out.new.items ≡ out.old.items ++ line (codes "  it left " ++ phaser_list facts.now.program.now phasers.now)) }
{
    put_words(out, b"  it left ")?;
    put_phasers(facts, out, phasers)?;
    put_words(out, b"\n")
}

// The event for which a task waits, if it waits.
fn awaited_by(world: &World<'_>, u: TaskId) -> Option<Event>
    requires task { u.0 < length world.now.plan.parents }
    ensures event { result ≡ (state_of world.now).published u.0 }
    ensures phaser { IfSome result (λ e. e.p.0 < length world.now.plan.makers) }
{
    match world.stand(u) {
        Stand::Waits(event) => Some(event),
        _ => None,
    }
}

// Whether a task with these phases stood below an event.
fn stood_below(phases: &[Option<Phase>], event: Event) -> bool
    ensures { IsTrue result ↔ StoodBelow phases.now event.p.0 event.n }
{
    match phases.get(event.p.0 as usize) {
        Some(Some(phase)) => *phase < event.n,
        _ => false,
    }
}

// Whether a task waits on an event that is reached, and below which a task with these phases stood.
fn is_freed(world: &World<'_>, phases: &[Option<Phase>], u: TaskId) -> bool
    requires task { u.0 < length world.now.plan.parents }
    ensures { IsTrue result ↔ IsFreed world.now phases.now u.0 }
{
    match awaited_by(world, u) {
        Some(event) => stood_below(phases, event) && world.is_reached(event),
        None => false,
    }
}

// The tasks that may go on where a task with these phases has left its phasers.
fn freed(
    alloc: Global,
    world: &World<'_>,
    phases: &[Option<Phase>],
) -> Result<Vec<TaskId>, NoMemory>
    ensures { IfOk result (λ v. AreThoseBelow (IsFreed world.now phases.now) (length world.now.plan.parents) v.items) }
{
    let mut all = Vec::new(alloc);
    for u in 0..world.plan().tasks() {
        let passes = is_freed(world, phases, TaskId(u));
        push_if(&mut all, TaskId(u), passes)?;
    }
    Ok(all)
}

// Appends a list of tasks.
fn put_tasks(facts: &TextFacts<'_>, out: &mut Vec<u8>, tasks: &[TaskId]) -> Result<(), NoMemory>
    requires known { AreKnownFacts facts.now }
    ensures { OnOk result (out.new.items ≡ out.old.items ++ tasks_words (program_names facts.now.program.now) tasks.now) }
{
    put_tasks_words(facts.alloc, &facts.names, out, tasks)
}

// Appends these tasks, which may go on.
fn put_going_on(facts: &TextFacts<'_>, out: &mut Vec<u8>, tasks: &[TaskId]) -> Result<(), NoMemory>
    requires known { AreKnownFacts facts.now }
    ensures { OnOk result (out.new.items ≡ out.old.items ++ going_on_words facts.now.program.now tasks.now) }
{
    match tasks {
        [] => put_words(out, b"no further task may go on"),
        [_, ..] => {
            put_tasks(facts, out, tasks)?;
            put_words(out, b" may go on")
        }
    }
}

/// Appends the line of the tasks that may go on where a task with these phases has left its phasers.
pub(crate) fn put_freed(
    facts: &TextFacts<'_>,
    out: &mut Vec<u8>,
    world: &World<'_>,
    phases: &[Option<Phase>],
) -> Result<(), NoMemory>
    requires known { AreKnownFacts facts.now }
    ensures { OnOk result ((tasks : List TaskId) × AreThoseBelow (IsFreed world.now phases.now) (length world.now.plan.parents) tasks
        × (out.new.items ≡ out.old.items ++ line (codes "  thereby " ++ going_on_words facts.now.program.now tasks))) }
{
    let tasks = freed(facts.alloc, world, phases)?;
    put_words(out, b"  thereby ")?;
    put_going_on(facts, out, &tasks)?;
    put_words(out, b"\n")?;
    Ok(())
}

/// Appends the paragraph but for its last line of a task whose await, which stood so when it was decided on, was refused, since it would have closed this
/// deadlock.
pub(crate) fn put_refusal(
    text: &KnownText<'_>,
    out: &mut Vec<u8>,
    world: &World<'_>,
    t: TaskId,
    waits: &Pending,
    cycle: &[TaskId],
) -> Result<(), NoMemory>
    requires known { AreKnownFacts text.now.facts.now }
    requires task { t.0 < length world.now.plan.parents }
    requires tasks { All (λ u. u.0 < length world.now.plan.parents) cycle.now }
    ensures { OnOk result ((ops : ℕ → ℕ) → StandAt world.now ops → out.new.items ≡ out.old.items
        ++ refusal_by (option_copied text.now.file) (kept_layout text.now.facts.now) text.now.facts.now.program.now t.0 waits.now.event waits.now.phase ops cycle.now waits.now.members.items) }
{
    let i = world.op(t);
    put_refused(text.facts, text.file, out, t, waits, i)?;
    put_words(out, b"\n")?;
    put_whence(text.facts, out, t, waits.event.p, i)?;
    put_words(out, b"\n")?;
    put_deadlock(text.facts, out, world, cycle)?;
    put_left(text.facts, out, &waits.members)?;
    Ok(())
}
