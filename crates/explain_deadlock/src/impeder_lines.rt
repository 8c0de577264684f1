// The lines of the impeders of a paragraph's tasks.
ghost use Rattle.explain_deadlock.specs.ImpederLines.{forkers_of, is_forker_of, group_line, group_of, impeder_lines, lines_by, rest_line, rest_of, told_of, forking_words, is_forked_by, is_this_impeder, keeping_words};
ghost use Rattle.explain_deadlock.specs.inside.Numbered.{AddsFirst, AreNumbers, AreWithin};
ghost use Rattle.explain_tasks.specs.calls.Fitting.{FactsFitPlan};
ghost use Rattle.std.specs.Prelude.{◌≡◌, ◌++◌, ◌<◌, ◌||◌, ◌∷◌, if◌then◌else◌, [], ℕ, IfOk, OnOk, Some, false, decimal, flat_map, option_map, length, slice_index_or, filter, map, not, take};
ghost use Rattle.explain_tasks.specs.Sayings.{impeder_said, same_said};
ghost use Rattle.std.specs.List.{list_any};
ghost use Rattle.explain_tasks.specs.Places.{said_of};
ghost use Rattle.pl_core.specs.calls.Worlds.{state_of};
ghost use Rattle.explain_tasks.specs.calls.SayingValues.{forking_said, said_by};

use armus_base::{NoMemory, TaskId, put_number, put_words};
use explain_facts::Forked;
use explain_tasks::{Facts, ForkingWords, Impeder, Saying, put_by_number, put_kept};
use pl_core::World;
use std::alloc::Global;

/// How many groups of impeders have a line of their own.
const MOST_GROUPS: usize = 3;

// Marks the forker of a task with this fork.
fn mark_forker(marks: &mut [bool], fork: Option<Forked>)
    ensures { (u : ℕ) → u < length marks.old → slice_index_or marks.new u false ≡ (is_forked_by u fork || slice_index_or marks.old u false) }
{
    if let Some(fork) = fork {
        let by = fork.by.0 as usize;
        if by < marks.len() {
            marks[by] = true;
        }
    }
}

// Appends the phase of an impeder.
fn put_phase_of(alloc: Global, out: &mut Vec<u8>, phase: Option<u32>) -> Result<(), NoMemory>
    ensures { OnOk result (out.new.items ≡ out.old.items ++ said_of decimal phase) }
{
    match phase {
        Some(phase) => put_number(alloc, out, u64::from(phase)),
        None => Ok(()),
    }
}

// Appends whom these impeders keep waiting, in a paragraph of so many tasks.
fn put_keeping(
    facts: &Facts,
    out: &mut Vec<u8>,
    count: usize,
    saying: &Saying,
    tasks: &[TaskId],
) -> Result<(), NoMemory>
    ensures { OnOk result (out.new.items ≡ out.old.items ++ keeping_words facts.now count (said_by saying.now) tasks.now) }
{
    put_words(out, b"  ")?;
    facts.put_named_tasks(out, tasks)?;
    put_by_number(out, tasks.len(), b" keeps ", b" keep ")?;
    put_by_number(out, count, b"it", b"them")?;
    put_words(out, b" waiting with phase ")?;
    put_phase_of(facts.alloc(), out, saying.phase)?;
    put_words(out, b", ")
}

// Appends by these words who would fork so many tasks.
fn put_forkers(
    facts: &Facts,
    out: &mut Vec<u8>,
    words: &ForkingWords,
    n: usize,
    forkers: &[TaskId],
) -> Result<(), NoMemory>
    ensures { OnOk result (out.new.items ≡ out.old.items ++ forking_words facts.now (Some (forking_said words.now)) n forkers.now) }
{
    facts.put_named_tasks(out, forkers)?;
    put_words(out, b" would fork ")?;
    put_by_number(out, n, b"it", b"them")?;
    put_kept(out, &words.at)?;
    put_words(out, b" and ")?;
    put_by_number(out, forkers.len(), b"is ", b"are ")?;
    put_kept(out, &words.stands)
}

// Whether an impeder is this task.
fn is_task(task: Option<TaskId>, impeder: Impeder) -> bool
    ensures { result ≡ is_this_impeder task impeder }
{
    match task {
        Some(t) => impeder.t.0 == t.0,
        None => false,
    }
}

// Whether the same is said of two impeders, by the numbers of what is said.
fn is_same(facts: &Facts, numbers: &[usize], a: Impeder, b: Impeder) -> Result<bool, NoMemory>
    requires numbers { AreNumbers facts.now numbers.now }
    requires a { a.t.0 < length numbers.now }
    requires b { b.t.0 < length numbers.now }
    ensures { IfOk result (λ same. same ≡ same_said (impeder_said facts.now a) (impeder_said facts.now b)) }
{
    if a.phase != b.phase {
        return Ok(false);
    }
    if numbers[a.t.0 as usize] != numbers[b.t.0 as usize] {
        return Ok(false);
    }
    facts.is_same_next(a, b)
}

// Whether the same is said of one of these impeders as of another one.
fn is_among(
    facts: &Facts,
    numbers: &[usize],
    firsts: &[Impeder],
    impeder: Impeder,
) -> Result<bool, NoMemory>
    requires numbers { AreNumbers facts.now numbers.now }
    requires firsts { AreWithin (length numbers.now) firsts.now }
    requires impeder { impeder.t.0 < length numbers.now }
    ensures { IfOk result (λ found.
        found ≡ list_any (λ said. same_said said (impeder_said facts.now impeder)) (map (impeder_said facts.now) firsts.now)) }
{
    for first in firsts {
        if is_same(facts, numbers, *first, impeder)? {
            return Ok(true);
        }
    }
    Ok(false)
}

// Appends a task, unless it is told.
fn push_unless(all: &mut Vec<TaskId>, t: TaskId, is_told: bool) -> Result<(), NoMemory>
    ensures { OnOk result (all.new.items ≡ all.old.items ++ (if not is_told then t ∷ [] else [])) }
{
    if !is_told {
        all.push(t)?;
    }
    Ok(())
}

// For each task whether it is the forker of one of these.
fn forker_marks(facts: &Facts, tasks: &[TaskId]) -> Result<Vec<bool>, NoMemory>
    ensures sized { IfOk result (λ v. length v.items ≡ length facts.now.standings) }
    ensures marks { IfOk result (λ v. (u : ℕ) → u < length facts.now.standings → slice_index_or v.items u false ≡ is_forker_of facts.now tasks.now u) }
{
    let mut marks = vec![in facts.alloc(); false; facts.count() as usize]?;
    for t in tasks {
        mark_forker(&mut marks, facts.fork(*t));
    }
    Ok(marks)
}

// The forkers of these tasks, in order of number.
fn forkers(facts: &Facts, tasks: &[TaskId]) -> Result<Vec<TaskId>, NoMemory>
    ensures { IfOk result (λ v. v.items ≡ forkers_of facts.now tasks.now) }
{
    let marks = forker_marks(facts, tasks)?;
    let mut all = Vec::new(facts.alloc());
    for u in 0..facts.count() {
        if marks[u as usize] {
            all.push(TaskId(u))?;
        }
    }
    Ok(all)
}

/// Appends who would fork these tasks.
pub(crate) fn put_forking(
    facts: &Facts,
    out: &mut Vec<u8>,
    forking: &Option<ForkingWords>,
    tasks: &[TaskId],
) -> Result<(), NoMemory>
    ensures { OnOk result (out.new.items ≡ out.old.items ++ forking_words facts.now (option_map forking_said forking.now) (length tasks.now) (forkers_of facts.now tasks.now)) }
{
    match forking {
        Some(words) => put_forking_words(facts, out, words, tasks),
        None => Ok(()),
    }
}

// Appends by these words who would fork these tasks.
fn put_forking_words(
    facts: &Facts,
    out: &mut Vec<u8>,
    words: &ForkingWords,
    tasks: &[TaskId],
) -> Result<(), NoMemory>
    ensures { OnOk result (out.new.items ≡ out.old.items ++ forking_words facts.now (Some (forking_said words.now)) (length tasks.now) (forkers_of facts.now tasks.now)) }
{
    let forkers = forkers(facts, tasks)?;
    put_forkers(facts, out, words, tasks.len(), &forkers)
}

// Appends the line of these impeders, in a paragraph of so many tasks.
fn put_group(
    facts: &Facts,
    out: &mut Vec<u8>,
    count: usize,
    saying: &Saying,
    tasks: &[TaskId],
) -> Result<(), NoMemory>
    ensures { OnOk result (out.new.items ≡ out.old.items ++ group_line facts.now count (said_by saying.now) tasks.now) }
{
    put_keeping(facts, out, count, saying, tasks)?;
    put_kept(out, &saying.words)?;
    put_forking(facts, out, &saying.forking, tasks)?;
    put_kept(out, &saying.next)?;
    put_words(out, b"\n")
}

// The impeders that are this task.
fn impeders_at(
    facts: &Facts,
    task: Option<TaskId>,
    impeders: &[Impeder],
) -> Result<Vec<Impeder>, NoMemory>
    ensures { IfOk result (λ v. v.items ≡ filter (is_this_impeder task) impeders.now) }
{
    let mut found = Vec::new(facts.alloc());
    for impeder in impeders {
        if is_task(task, *impeder) {
            found.push(*impeder)?;
        }
    }
    Ok(found)
}

// Adds an impeder, unless there are three, or the same is said of one that is there.
fn add_first(
    facts: &Facts,
    firsts: &mut Vec<Impeder>,
    numbers: &[usize],
    impeder: Impeder,
) -> Result<(), NoMemory>
    requires numbers { AreNumbers facts.now numbers.now }
    requires firsts { AreWithin (length numbers.now) firsts.old.items }
    requires impeder { impeder.t.0 < length numbers.now }
    ensures firsts { AreWithin (length numbers.now) firsts.new.items }
    ensures added { OnOk result (AddsFirst facts.now (impeder_said facts.now impeder ∷ []) firsts.old.items firsts.new.items) }
{
    if firsts.len() >= MOST_GROUPS {
        return Ok(());
    }
    if is_among(facts, numbers, firsts, impeder)? {
        return Ok(());
    }
    firsts.push(impeder)?;
    Ok(())
}

// Adds of these impeders the first ones of which something else is said, up to three.
fn add_firsts(
    facts: &Facts,
    firsts: &mut Vec<Impeder>,
    numbers: &[usize],
    impeders: &[Impeder],
) -> Result<(), NoMemory>
    requires numbers { AreNumbers facts.now numbers.now }
    requires firsts { AreWithin (length numbers.now) firsts.old.items }
    requires impeders { AreWithin (length numbers.now) impeders.now }
    ensures firsts { AreWithin (length numbers.now) firsts.new.items }
    ensures added { OnOk result (AddsFirst facts.now (map (impeder_said facts.now) impeders.now) firsts.old.items firsts.new.items) }
{
    for impeder in impeders {
        add_first(facts, firsts, numbers, *impeder)?;
    }
    Ok(())
}

// An impeder for each of the first three things that are said, of the next of the paragraph's tasks first.
fn first_impeders(
    facts: &Facts,
    numbers: &[usize],
    next: Option<TaskId>,
    impeders: &[Impeder],
) -> Result<Vec<Impeder>, NoMemory>
    requires numbers { AreNumbers facts.now numbers.now }
    requires impeders { AreWithin (length numbers.now) impeders.now }
    ensures within { IfOk result (λ v. AreWithin (length numbers.now) v.items) }
    ensures told { IfOk result (λ v. map (impeder_said facts.now) v.items ≡ take 3 (told_of facts.now next impeders.now)) }
{
    let at_next = impeders_at(facts, next, impeders)?;
    let mut firsts = Vec::new(facts.alloc());
    add_firsts(facts, &mut firsts, numbers, &at_next)?;
    add_firsts(facts, &mut firsts, numbers, impeders)?;
    Ok(firsts)
}

// The impeders of which the same is said as of one.
fn group(
    facts: &Facts,
    numbers: &[usize],
    first: Impeder,
    impeders: &[Impeder],
) -> Result<Vec<TaskId>, NoMemory>
    requires numbers { AreNumbers facts.now numbers.now }
    requires first { first.t.0 < length numbers.now }
    requires impeders { AreWithin (length numbers.now) impeders.now }
    ensures { IfOk result (λ v. v.items ≡ group_of facts.now impeders.now (impeder_said facts.now first)) }
{
    let mut all = Vec::new(facts.alloc());
    for impeder in impeders {
        let is_same = is_same(facts, numbers, first, *impeder)?;
        push_unless(&mut all, impeder.t, !is_same)?;
    }
    Ok(all)
}

// The impeders of which something else is said than of each of these.
fn rest(
    facts: &Facts,
    numbers: &[usize],
    firsts: &[Impeder],
    impeders: &[Impeder],
) -> Result<Vec<TaskId>, NoMemory>
    requires numbers { AreNumbers facts.now numbers.now }
    requires firsts { AreWithin (length numbers.now) firsts.now }
    requires impeders { AreWithin (length numbers.now) impeders.now }
    ensures { IfOk result (λ v. v.items ≡ rest_of facts.now impeders.now (map (impeder_said facts.now) firsts.now)) }
{
    let mut rest = Vec::new(facts.alloc());
    for impeder in impeders {
        let is_told = is_among(facts, numbers, firsts, *impeder)?;
        push_unless(&mut rest, impeder.t, is_told)?;
    }
    Ok(rest)
}

// Appends the line of the rest.
fn put_rest(facts: &Facts, out: &mut Vec<u8>, rest: &[TaskId]) -> Result<(), NoMemory>
    ensures { OnOk result (out.new.items ≡ out.old.items ++ rest_line facts.now rest.now) }
{
    if rest.is_empty() {
        return Ok(());
    }
    put_words(out, b"  and ")?;
    facts.put_named_tasks(out, rest)?;
    put_words(out, b"\n")
}

// Appends the line of those of these impeders of which the same is said as of one, in a paragraph of so many tasks.
fn put_group_of(
    facts: &Facts,
    numbers: &[usize],
    out: &mut Vec<u8>,
    count: usize,
    first: Impeder,
    impeders: &[Impeder],
) -> Result<(), NoMemory>
    requires numbers { AreNumbers facts.now numbers.now }
    requires first { first.t.0 < length numbers.now }
    requires impeders { AreWithin (length numbers.now) impeders.now }
    ensures { OnOk result (out.new.items ≡ out.old.items
        ++ group_line facts.now count (impeder_said facts.now first) (group_of facts.now impeders.now (impeder_said facts.now first))) }
{
    let saying = facts.impeder_saying(first)?;
    let tasks = group(facts, numbers, first, impeders)?;
    put_group(facts, out, count, &saying, &tasks)
}

// Appends such a line for each of some impeders.
fn put_groups(
    facts: &Facts,
    numbers: &[usize],
    out: &mut Vec<u8>,
    count: usize,
    firsts: &[Impeder],
    impeders: &[Impeder],
) -> Result<(), NoMemory>
    requires numbers { AreNumbers facts.now numbers.now }
    requires firsts { AreWithin (length numbers.now) firsts.now }
    requires impeders { AreWithin (length numbers.now) impeders.now }
    ensures { OnOk result (out.new.items ≡ out.old.items
        ++ flat_map (λ said. group_line facts.now count said (group_of facts.now impeders.now said)) (map (impeder_said facts.now) firsts.now)) }
{
    for first in firsts {
        put_group_of(facts, numbers, out, count, *first, impeders)?;
    }
    Ok(())
}

// Appends the lines of these impeders, in a paragraph of so many tasks.
fn put_lines_by(
    facts: &Facts,
    numbers: &[usize],
    out: &mut Vec<u8>,
    count: usize,
    next: Option<TaskId>,
    impeders: &[Impeder],
) -> Result<(), NoMemory>
    requires numbers { AreNumbers facts.now numbers.now }
    requires impeders { AreWithin (length numbers.now) impeders.now }
    ensures { OnOk result (out.new.items ≡ out.old.items ++ lines_by facts.now count next impeders.now) }
{
    let firsts = first_impeders(facts, numbers, next, impeders)?;
    put_groups(facts, numbers, out, count, &firsts, impeders)?;
    let rest = rest(facts, numbers, &firsts, impeders)?;
    put_rest(facts, out, &rest)
}

/// Appends the lines of the impeders of a task in its paragraph of so many tasks.
pub(crate) fn put_impeders(
    facts: &Facts,
    numbers: &[usize],
    out: &mut Vec<u8>,
    world: &World,
    count: usize,
    t: TaskId,
) -> Result<(), NoMemory>
    requires numbers { AreNumbers facts.now numbers.now }
    requires fits { FactsFitPlan facts.now world.now.plan }
    ensures { OnOk result (out.new.items ≡ out.old.items ++ impeder_lines facts.now (state_of world.now).phases count t.0) }
{
    let impeders = facts.impeders(world, t)?;
    let next = facts.next_among(&impeders, t);
    put_lines_by(facts, numbers, out, count, next, &impeders)
}
