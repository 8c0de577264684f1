// The verdict: nobody waits for ever, or these activities wait for one another.
ghost use Rattle.std.specs.Prelude.{◌≡◌, ◌++◌, IfOk, OnOk, flat_map};
ghost use Rattle.std.specs.List.{enumerate_from};
ghost use Rattle.armus_base.specs.calls.Statuses.{IsInOrder};
ghost use Rattle.explain_clock.specs.ClockCircles.{IsClockCircle, waiting_place_words, circle_line, activity_circle_words, clock_verdict_line, activity_link_words, linked_activity_words, waiting_at_words};

use crate::facts::ClockFacts;
use crate::text_facts::ClockTextFacts;
use adaptive::dead_of;
use armus_base::{List, NoMemory, Status, TaskId, put_words};
use std::alloc::Global;
use verdict::cycle;

/// The circle of these statuses: that of their report, or nobody where nobody is deadlocked.
pub(crate) fn circle_of(alloc: Global, blocked: &[Status]) -> Result<List<TaskId>, NoMemory>
    requires in_order { IsInOrder blocked.now }
    ensures circle { IfOk result (IsClockCircle blocked.now) }
{
    let dead = dead_of(alloc, blocked)?;
    match cycle(alloc, blocked, dead.as_slice())? {
        None => Ok(List::new(alloc)),
        Some(found) => Ok(found.tasks),
    }
}

// Appends what stands between the activity with this place in the circle and the one behind it.
fn put_link(out: &mut Vec<u8>, k: usize) -> Result<(), NoMemory>
    ensures { OnOk result (out.new.items ≡ out.old.items ++ activity_link_words k) }
{
    if k == 0 {
        put_words(out, b" waits for ")
    } else {
        put_words(out, b", which waits for ")
    }
}

impl<'a> ClockTextFacts<'a> {
    // Appends where an activity waits, if it does.
    fn put_at(&self, out: &mut Vec<u8>, n: Option<u32>) -> Result<(), NoMemory>
        ensures { OnOk result (out.new.items ≡ out.old.items ++ waiting_place_words self.now n) }
    {
        let Some(n) = n else {
            return Ok(());
        };
        put_words(out, b" at ")?;
        self.put_place(out, n)
    }
}

impl<'a> ClockFacts<'a> {
    // Appends an activity that waits.
    fn put_waiting_at(&self, out: &mut Vec<u8>, t: u32) -> Result<(), NoMemory>
        ensures { OnOk result (out.new.items ≡ out.old.items ++ waiting_at_words self.now t) }
    {
        self.of_text.put_activity(out, t)?;
        self.of_text.put_at(out, self.waits_at(t))
    }

    // Appends the activity with this place in the circle, and its link.
    fn put_linked(&self, out: &mut Vec<u8>, k: usize, t: TaskId) -> Result<(), NoMemory>
        ensures { OnOk result (out.new.items ≡ out.old.items ++ linked_activity_words self.now k t) }
    {
        self.put_waiting_at(out, t.0)?;
        put_link(out, k)
    }

    // Appends these activities, each with its link.
    fn put_links(&self, out: &mut Vec<u8>, circle: &[TaskId]) -> Result<(), NoMemory>
        ensures { OnOk result (out.new.items ≡ out.old.items ++ flat_map (λ (k, v). linked_activity_words self.now k v) (enumerate_from 0 circle.now)) }
    {
        for (k, t) in circle.iter().enumerate() {
            self.put_linked(out, k, *t)?;
        }
        Ok(())
    }

    // Appends the activities of the circle.
    fn put_circle_words(&self, out: &mut Vec<u8>, circle: &[TaskId]) -> Result<(), NoMemory>
        ensures { OnOk result (out.new.items ≡ out.old.items ++ activity_circle_words self.now circle.now) }
    {
        match circle {
            [] => Ok(()),
            [t] => {
                self.put_waiting_at(out, t.0)?;
                put_words(out, b" waits for itself")
            }
            [t, _, ..] => {
                self.put_links(out, circle)?;
                self.of_text.put_activity(out, t.0)
            }
        }
    }

    // Appends the line of the circle, where there is one.
    fn put_circle(&self, out: &mut Vec<u8>, circle: &[TaskId]) -> Result<(), NoMemory>
        ensures { OnOk result (out.new.items ≡ out.old.items ++ circle_line self.now circle.now) }
    {
        match circle {
            [] => Ok(()),
            [_, ..] => {
                put_words(out, b"deadlock: ")?;
                self.put_circle_words(out, circle)?;
                put_words(out, b"\n")
            }
        }
    }

    /// Appends the line of the verdict.
    pub(crate) fn put_verdict(
        &self,
        out: &mut Vec<u8>,
        circle: &[TaskId],
        somebody: bool,
    ) -> Result<(), NoMemory>
        ensures { OnOk result (out.new.items ≡ out.old.items ++ clock_verdict_line self.now circle.now somebody) }
    {
        if somebody {
            self.put_circle(out, circle)
        } else {
            put_words(out, b"nobody waits for ever\n")
        }
    }
}
