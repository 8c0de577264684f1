// Small plans, by a word for each, from their texts.
use armus_base::{NoMemory, PhaserId, Plan, TaskId};
use pl_plan::plan;
use pl_syntax::parse;
use std::alloc::{AllocError, Global};
use std::test::Fail;
use tests_rows::cut;

// A plan, who forks each of its tasks, and who makes each of its phasers.
const ROWS: &str = "\
none | -\n\
two | - t0 by t0 by t0\n\
loop | - by t0\n\
makers | - t0 t0 by t1 by t2\n\
averaging | - t0 t0 t0 by t0 by t0\n\
ending | - t0 t0 t0 by t0 by t0\n\
";

// The text that a word stands for.
fn text_of(word: &str) -> &'static str {
    match word {
        // Two tasks that wait for each other: the first on p, the second on q.
        "two" => {
            "p = newPhaser(); q = newPhaser(); t = newTid(); reg(t, p); reg(t, q); fork(t) { adv(q); await(q); } adv(p); await(p);"
        }
        "loop" => "p = newPhaser(); loop 3 { adv(p); await(p); }",
        "makers" => {
            "t = newTid(); u = newTid(); fork(t) { p = newPhaser(); } fork(u) { q = newPhaser(); }"
        }
        // Three workers average in two rounds; their parent never arrives at the phaser of their rounds.
        "averaging" => {
            "pc = newPhaser(); pb = newPhaser(); loop 3 { t = newTid(); reg(t, pc); reg(t, pb); fork(t) { loop 2 { skip; adv(pc); await(pc); skip; adv(pc); await(pc); } dereg(pc); dereg(pb); } } adv(pb); await(pb);"
        }
        // The same where the parent leaves that phaser.
        "ending" => {
            "pc = newPhaser(); pb = newPhaser(); loop 3 { t = newTid(); reg(t, pc); reg(t, pb); fork(t) { loop 2 { skip; adv(pc); await(pc); skip; adv(pc); await(pc); } dereg(pc); dereg(pb); } } dereg(pc); adv(pb); await(pb);"
        }
        // Task 0 waits until all its children wait for it, and then forks three more, one behind them by its number.
        "small" => {
            "p = newPhaser(); q = newPhaser(); r = newPhaser(); u = newTid(); w = newTid(); loop 2 { t = newTid(); reg(t, p); reg(t, q); fork(t) { adv(q); adv(p); await(p); } } v = newTid(); loop 5 { adv(r); await(r); } adv(q); await(q); fork(u) { x = newPhaser(); } fork(w) { x = newPhaser(); } fork(v) { x = newPhaser(); }"
        }
        // The same of 4,096 tasks: the awaits of the children and of task 0 load 4,098 times 4,096 words.
        "large" => {
            "p = newPhaser(); q = newPhaser(); r = newPhaser(); u = newTid(); w = newTid(); loop 4092 { t = newTid(); reg(t, p); reg(t, q); fork(t) { adv(q); adv(p); await(p); } } v = newTid(); loop 5 { adv(r); await(r); } adv(q); await(q); fork(u) { x = newPhaser(); } fork(w) { x = newPhaser(); } fork(v) { x = newPhaser(); }"
        }
        // Task 0 waits for task 2, which passes each of 300 awaits at once and then arrives, and forks two more, one behind those that wait by its number. Task 2
        // is the first of them after task 0, so that one worker lets both act, task 0 first. A decision loads the words of 4,007 tasks: they load 1.2 million.
        "decisions" => {
            "q = newPhaser(); s = newPhaser(); u = newTid(); a = newTid(); reg(a, q); loop 4000 { t = newTid(); fork(t) { } } loop 3 { t = newTid(); reg(t, s); fork(t) { adv(s); await(s); } } v = newTid(); fork(a) { r = newPhaser(); loop 300 { adv(r); await(r); } adv(q); } adv(q); await(q); fork(u) { x = newPhaser(); } fork(v) { x = newPhaser(); }"
        }
        // A child passes each of its awaits at once, and another one is behind it.
        "awaits" => {
            "loop 4000 { t = newTid(); fork(t) { } } t = newTid(); fork(t) { r = newPhaser(); loop 4200 { adv(r); await(r); } x = newPhaser(); } t = newTid(); fork(t) { x = newPhaser(); }"
        }
        _ => "",
    }
}

/// The plan that a word stands for; that of the empty text for any other word.
pub(crate) fn named_plan(alloc: Global, word: &str) -> Result<Plan, NoMemory> {
    let text = text_of(word.trim());
    if text.len() > 1000 {
        return Err(NoMemory);
    }
    let Ok(program) = parse(alloc, text.as_bytes()) else {
        return Err(NoMemory);
    };
    match plan(alloc, &program) {
        Ok(plan) => Ok(plan),
        Err(_) => Err(NoMemory),
    }
}

fn add_parent(text: &mut String, parent: Option<TaskId>) -> Result<(), AllocError> {
    match parent {
        Some(t) => write!(text, "t{} ", t.0),
        None => text.push_str("- "),
    }
}

fn add_plan(text: &mut String, plan: &Plan) -> Result<(), AllocError> {
    for t in 0..plan.tasks() {
        add_parent(text, plan.parent(TaskId(t)))?;
    }
    for p in 0..plan.phasers() {
        write!(text, "by t{} ", plan.maker(PhaserId(p)).0)?;
    }
    Ok(())
}

fn is_met(alloc: Global, row: &str) -> Result<bool, NoMemory> {
    let (word, wanted) = cut(row, "|");
    let plan = named_plan(alloc, word)?;
    let mut text = String::new(alloc);
    add_plan(&mut text, &plan)?;
    Ok(text.as_str().trim() == wanted.trim())
}

#[test]
fn plans_by_their_texts(rt: HostRuntime) -> Result<(), Fail> {
    for row in ROWS.lines() {
        assert!(rt; is_met(rt.alloc(), row)?, "{row}");
    }
    Ok(())
}
