// Plans: how many ops each task has, and which statement forks it.
use crate::program_texts::program_of;
use armus_base::{Plan, TaskId};
use pl_plan::{
    PlanEnd, fault_is_of_program, left_pieces, pieces_of_codes, plan, unfold, unfolded_is_checked,
    unfolding_by_visits, worked_pieces, worked_programs,
};
use std::alloc::Global;
use std::test::Fail;
use tests_rows::number;

// Three workers average in two rounds.
pub(crate) const AVERAGING: &str =
    "pc = newPhaser();~pb = newPhaser();~loop 3 {~  t = newTid();~  reg(t, pc);~  reg(t, pb);~  fork(t) {~    loop 2 {~      skip; // read the neighbours~      adv(pc);~      await(pc);~      skip; // write the mean~      adv(pc);~      await(pc);~    }~    dereg(pc);~    dereg(pb);~  }~}~adv(pb);~await(pb);~";

// How many ops the task has, up to a hundred.
fn ops_of(plan: &Plan, t: u32) -> u32 {
    if t >= plan.tasks() {
        return 0;
    }
    let mut cursor = plan.cursor(TaskId(t));
    for count in 0..100 {
        if cursor.next().is_none() {
            return count;
        }
    }
    100
}

// Whether the tasks have so many ops.
fn have_ops(alloc: Global, text: &str, wanted: &str) -> Result<bool, PlanEnd> {
    let plan = plan(alloc, &program_of(alloc, text)?)?;
    let mut t = 0u32;
    for word in wanted.split_whitespace() {
        if ops_of(&plan, t) != number(word) {
            return Ok(false);
        }
        t = t.wrapping_add(1);
    }
    Ok(t == plan.tasks())
}

// Whether the numbers are these.
fn are_all(found: &[Option<u32>], wanted: &str) -> bool {
    let mut rest = found;
    for word in wanted.split_whitespace() {
        match rest {
            [first, others @ ..] if *first == Some(number(word)) => rest = others,
            _ => return false,
        }
    }
    rest.is_empty()
}

// Whether the tasks are forked by these statements.
fn have_forks(alloc: Global, text: &str, wanted: &str) -> Result<bool, PlanEnd> {
    let program = program_of(alloc, text)?;
    let unfolded = unfold(alloc, &program)?;
    Ok(unfolded.plan.tasks() == 4 && are_all(&unfolded.forks, wanted))
}

#[test]
fn ops_and_forks_of_each_task(rt: HostRuntime) -> Result<(), Fail> {
    assert!(rt; have_ops(rt.alloc(), AVERAGING, "13 10 10 10")?);
    assert!(rt; have_forks(rt.alloc(), AVERAGING, "0 7 7 7")?);
    Ok(())
}

#[test]
fn laws_of_plans_are_called() {
    unfolded_is_checked();
    fault_is_of_program();
    unfolding_by_visits();
    worked_programs();
    left_pieces();
    pieces_of_codes();
    worked_pieces();
}
