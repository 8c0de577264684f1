// Decisions and verdicts as rows tell them: `published 0@1`, `refused 0 1 at 0@1 1@1`, and `dead 0 1 fresh 0 0@1 1 1@1`.
use crate::texts::add_dead;
use armus_base::NoMemory;
use avoider::Decision;
use collector::Verdict;
use std::alloc::{AllocError, Global};
use tests_rows::{add_event, add_tasks};
use verdict::Cycle;

fn add_refused(text: &mut String, cycle: &Cycle) -> Result<(), AllocError> {
    text.push_str("refused ")?;
    add_tasks(text, cycle.tasks.as_slice())?;
    text.push_str("at ")?;
    for event in cycle.events.as_slice() {
        add_event(text, *event)?;
    }
    Ok(())
}

/// Whether the decision is told so.
pub(crate) fn decision_is(
    alloc: Global,
    decision: &Decision,
    wanted: &str,
) -> Result<bool, NoMemory> {
    let mut text = String::new(alloc);
    match decision {
        Decision::Published(event) => {
            text.push_str("published ")?;
            add_event(&mut text, *event)?;
        }
        Decision::Refused(cycle) => add_refused(&mut text, cycle)?,
    }
    Ok(text.as_str().trim() == wanted)
}

/// Whether the verdict is told so.
pub(crate) fn verdict_is(alloc: Global, verdict: &Verdict, wanted: &str) -> Result<bool, NoMemory> {
    let mut text = String::from_str(alloc, "dead ")?;
    add_tasks(&mut text, verdict.dead.as_slice())?;
    text.push_str("fresh ")?;
    add_dead(&mut text, verdict.fresh.as_slice())?;
    Ok(text.as_str().trim() == wanted)
}
