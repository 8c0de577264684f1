// The line of a step.
ghost use Rattle.std.specs.Prelude.{◌<◌, OnOk, length};
ghost use Rattle.pl_core.specs.calls.Stands.{IsEnabled};
ghost use Rattle.explain_steps.specs.calls.SteppedRuns.{HasNextLine};

use crate::changes::put_change;
use crate::words::{put_task, put_whence};
use armus_base::{NoMemory, TaskId, put_number, put_words};
use explain_facts::TextFacts;
use pl_core::World;

/// What is known of a text, by which each step of its run has a line.
pub trait TellsSteps {
    ghost use Rattle.explain_steps.specs.ShownSteps.{LineWords};

    // That it is known.
    ghost known: { Self → Type 0 };

    // The line of each step.
    ghost words: { Self → LineWords };

    /// Appends the line of a task's next step, which has this number. The only error is want of memory.
    fn put_line(
        &self,
        out: &mut Vec<u8>,
        world: &World<'_>,
        t: TaskId,
        number: u32,
    ) -> Result<(), NoMemory>
        requires known { known self.now }
        requires task { t.0 < length world.now.plan.parents }
        requires enabled { IsEnabled world.now t.0 }
        ensures { OnOk result (HasNextLine (words self.now) number world.now t.0 out.old.items out.new.items) };
}

impl<'a> TellsSteps for TextFacts<'a> {
    ghost use Rattle.explain_steps.specs.StepWords.{shown_step_line};
    ghost use Rattle.explain_facts.specs.calls.Known.{AreKnownFacts, kept_layout};

    ghost known = { AreKnownFacts };

    ghost words = { λ f q. shown_step_line (kept_layout f) f.program.now };

    fn put_line(
        &self,
        out: &mut Vec<u8>,
        world: &World<'_>,
        t: TaskId,
        number: u32,
    ) -> Result<(), NoMemory> {
        let i = world.op(t);
        put_number(self.alloc, out, number as u64)?;
        put_words(out, b": ")?;
        put_task(self, out, t)?;
        put_words(out, b" at ")?;
        put_whence(self, out, t, i)?;
        put_words(out, b": ")?;
        put_change(self, out, world, t, i)?;
        put_words(out, b"\n")?;
        Ok(())
    }
}
