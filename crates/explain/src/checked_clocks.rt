// What is written of a clock text that is not refused.
ghost use Rattle.std.specs.Prelude.{◌≡◌, IfOk, Ok};
ghost use Rattle.armus_base.specs.Finals.{final_of};
ghost use Rattle.armus_base.specs.Places.{done_by};
ghost use Rattle.clock_semantics.specs.Unfolding.{ClockUnfolding, clock_unfolded};
ghost use Rattle.pl_core.specs.calls.Worlds.{places_of, state_of};
ghost use Rattle.program_io.specs.calls.ExitNumbers.{number_of_status};
ghost use Rattle.explain.specs.ClockExplained.{AreToldActivities, IsClockExplanationOf};
ghost use Rattle.explain.specs.ClockStepped.{AreClockStepsOf};
ghost use Rattle.explain.specs.calls.Requested.{form_with};
ghost use Rattle.explain.specs.inside.Checked.{IsCheckedClocks};
ghost use Rattle.explain.specs.inside.Ending.{IsClockAnswerTo};

use crate::answer::{Answer, ClockWanted, with_steps};
use crate::extent::Extent;
use crate::shortened::{HEADS, displayed};
use armus_base::{Final, NoMemory, Plan};
use clock_pl::ClockProgram;
use explain_clock::{ClockExplanation, clock_explanation_of};
use explain_steps::clock_steps_through;
use pl_core::World;
use program_io::status_of;
use source_map::TextPlaces;
use std::alloc::Global;
use world_runs::run_to_world;

/// What is known of a clock text that is not refused.
#[derive(Drop)]
pub(crate) struct CheckedClocks<'t> {
    /// Its places.
    pub(crate) places: &'t TextPlaces<'t>,
    /// The name of its file, if it comes from one.
    pub(crate) file: Option<&'t [u8]>,
    /// How much of its explanation is shown.
    pub(crate) extent: Extent,
    /// Its program.
    pub(crate) program: &'t ClockProgram,
    /// The plan to which the program unfolds.
    pub(crate) plan: Plan,
}

impl<'t> CheckedClocks<'t> {
    // How its activities stand in this world of its plan, whose state has this value.
    fn standing(
        &self,
        alloc: Global,
        world: &World<'_>,
        end: &Final,
    ) -> Result<ClockExplanation, NoMemory>
        requires known { IsCheckedClocks self.now }
        requires plan { world.now.plan ≡ self.now.plan }
        requires end { end.now ≡ final_of self.now.plan (state_of world.now) }
        ensures { IfOk result (λ e. (u : ClockUnfolding) → clock_unfolded self.now.program.now.body ≡ Ok u →
            AreToldActivities (form_with self.now.file self.now.extent) self.now.places.now self.now.program.now.body u world.now.plan (state_of world.now) (done_by (places_of world.now)) e.lines e.has_waiting) }
    {
        let explanation = clock_explanation_of(
            alloc,
            self.places,
            self.file,
            self.program,
            world,
            end,
        )?;
        Ok(ClockExplanation {
            lines: displayed(alloc, HEADS, self.extent, explanation.lines)?,
            has_waiting: explanation.has_waiting,
        })
    }

    // Its explanation.
    fn explain(&self, alloc: Global) -> Result<Answer, NoMemory>
        requires known { IsCheckedClocks self.now }
        ensures explains { IfOk result (λ a. IsClockExplanationOf (form_with self.now.file self.now.extent) self.now.places.now (number_of_status a.status) a.lines) }
    {
        let ended = run_to_world(alloc, &self.plan)?;
        let explanation = self.standing(alloc, &ended.world, &ended.end)?;
        Ok(Answer {
            lines: explanation.lines,
            status: status_of(explanation.has_waiting),
        })
    }

    // The steps of its run, and behind them its explanation.
    fn steps(&self, alloc: Global) -> Result<Answer, NoMemory>
        requires known { IsCheckedClocks self.now }
        ensures steps { IfOk result (λ a. AreClockStepsOf (form_with self.now.file self.now.extent) self.now.places.now (number_of_status a.status) a.lines) }
    {
        let ran = clock_steps_through(alloc, self.places, self.program, &self.plan)?;
        let explanation = self.standing(alloc, &ran.world, &ran.end)?;
        let answer = with_steps(ran.lines, &explanation.lines, explanation.has_waiting)?;
        Ok(answer)
    }

    /// The whole output for it, of which this is wanted.
    pub(crate) fn answer(&self, alloc: Global, wanted: ClockWanted) -> Result<Answer, NoMemory>
        requires known { IsCheckedClocks self.now }
        ensures answers { IfOk result (IsClockAnswerTo wanted (form_with self.now.file self.now.extent) self.now.places.now) }
    {
        match wanted {
            ClockWanted::Explanation => self.explain(alloc),
            ClockWanted::Steps => self.steps(alloc),
        }
    }
}
