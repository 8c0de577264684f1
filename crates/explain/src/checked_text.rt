// What is written of a text of PL that is not refused.
ghost use Rattle.std.specs.Prelude.{◌≡◌, IfOk};
ghost use Rattle.armus_base.specs.Finals.{final_of};
ghost use Rattle.armus_base.specs.Places.{done_by};
ghost use Rattle.pl_core.specs.calls.Worlds.{places_of, state_of};
ghost use Rattle.explain_deadlock.specs.RunEnds.{IsAccountOf};
ghost use Rattle.world_runs.specs.calls.EndWorlds.{IsEndWorld};
ghost use Rattle.program_io.specs.calls.ExitNumbers.{number_of_status};
ghost use Rattle.explain.specs.Avoided.{IsAvoidedOf};
ghost use Rattle.explain.specs.Explained.{IsExplanationOf, IsToldAt};
ghost use Rattle.explain.specs.Stepped.{AreStepsOf};
ghost use Rattle.explain.specs.calls.Requested.{form_with};
ghost use Rattle.explain.specs.inside.Checked.{AreFactsOf, IsCheckedText};
ghost use Rattle.explain.specs.inside.Ending.{IsPlAnswerTo};

use crate::answer::{Answer, PlWanted, with_steps};
use crate::extent::Extent;
use crate::shortened::{AVOIDED_HEADS, HEADS, displayed};
use armus_base::{Final, NoMemory};
use explain_avoid::{avoid_through, avoided_explanation_of};
use explain_deadlock::{Explanation, explanation_of};
use explain_facts::{Account, TextFacts, account_of};
use explain_steps::step_through;
use pl_core::World;
use pl_plan::Unfolded;
use pl_syntax::Program;
use program_io::status_of;
use source_map::TextPlaces;
use std::alloc::Global;
use world_runs::run_to_world;

/// What is known of a text of PL that is not refused.
#[derive(Drop)]
pub(crate) struct CheckedText<'t> {
    /// Its places.
    pub(crate) places: &'t TextPlaces<'t>,
    /// The name of its file, if it comes from one.
    pub(crate) file: Option<&'t [u8]>,
    /// How much of its explanation is shown.
    pub(crate) extent: Extent,
    /// Its program.
    pub(crate) program: &'t Program,
    /// The plan to which the program unfolds, and where its tasks are forked.
    pub(crate) unfolded: Unfolded,
}

impl<'t> CheckedText<'t> {
    // What is known of its text.
    fn facts(&self, alloc: Global) -> Result<TextFacts<'t>, NoMemory>
        requires known { IsCheckedText self.now }
        ensures facts { IfOk result (AreFactsOf self.now) }
    {
        let forks = Vec::from_slice(alloc, self.unfolded.forks.as_slice())?;
        let plan = &self.unfolded.plan;
        let facts = TextFacts::new(alloc, self.places, self.program, forks, plan)?;
        Ok(facts)
    }

    // Its account in this world of its plan, whose state has this value.
    fn account(
        &self,
        facts: TextFacts<'_>,
        world: &World<'_>,
        end: &Final,
    ) -> Result<Account, NoMemory>
        requires known { IsCheckedText self.now }
        requires facts { AreFactsOf self.now facts }
        requires plan { world.now.plan ≡ self.now.unfolded.plan }
        requires end { end.now ≡ final_of self.now.unfolded.plan (state_of world.now) }
        ensures account { IfOk result (IsAccountOf self.now.places.now world.now.plan (state_of world.now) (done_by (places_of world.now))) }
    {
        let account = account_of(facts, world, end.ends.as_slice())?;
        Ok(account)
    }

    // How its tasks stand in the world in which a run of its plan has ended, whose state has this value.
    fn standing(
        &self,
        alloc: Global,
        facts: TextFacts<'_>,
        world: &World<'_>,
        end: &Final,
    ) -> Result<Explanation, NoMemory>
        requires known { IsCheckedText self.now }
        requires facts { AreFactsOf self.now facts }
        requires ended { IsEndWorld self.now.unfolded.plan world.now }
        requires end { end.now ≡ final_of self.now.unfolded.plan (state_of world.now) }
        ensures { IfOk result (λ e. IsToldAt (form_with self.now.file self.now.extent) self.now.places.now world.now.plan (state_of world.now) (done_by (places_of world.now)) e.lines e.has_waiting) }
    {
        let account = self.account(facts, world, end)?;
        let explanation = explanation_of(alloc, self.places, self.file, &account, world, end)?;
        Ok(Explanation {
            lines: displayed(alloc, HEADS, self.extent, explanation.lines)?,
            has_waiting: explanation.has_waiting,
        })
    }

    // Its explanation.
    fn explain(&self, alloc: Global) -> Result<Answer, NoMemory>
        requires known { IsCheckedText self.now }
        ensures explains { IfOk result (λ a. IsExplanationOf (form_with self.now.file self.now.extent) self.now.places.now (number_of_status a.status) a.lines) }
    {
        let ended = run_to_world(alloc, &self.unfolded.plan)?;
        let facts = self.facts(alloc)?;
        let explanation = self.standing(alloc, facts, &ended.world, &ended.end)?;
        Ok(Answer {
            lines: explanation.lines,
            status: status_of(explanation.has_waiting),
        })
    }

    // The steps of its run, and behind them its explanation.
    fn steps(&self, alloc: Global) -> Result<Answer, NoMemory>
        requires known { IsCheckedText self.now }
        ensures steps { IfOk result (λ a. AreStepsOf (form_with self.now.file self.now.extent) self.now.places.now (number_of_status a.status) a.lines) }
    {
        let facts = self.facts(alloc)?;
        let ran = step_through(alloc, &facts, &self.unfolded.plan)?;
        let explanation = self.standing(alloc, facts, &ran.world, &ran.end)?;
        let answer = with_steps(ran.lines, &explanation.lines, explanation.has_waiting)?;
        Ok(answer)
    }

    // The explanation of its run that avoids deadlock.
    fn avoid(&self, alloc: Global) -> Result<Answer, NoMemory>
        requires known { IsCheckedText self.now }
        ensures avoided { IfOk result (λ a. IsAvoidedOf (form_with self.now.file self.now.extent) self.now.places.now (number_of_status a.status) a.lines) }
    {
        let facts = self.facts(alloc)?;
        let ran = avoid_through(alloc, &facts, self.file, &self.unfolded.plan)?;
        let account = self.account(facts, &ran.world, &ran.end)?;
        let explanation = avoided_explanation_of(alloc, self.places, self.file, &account, &ran)?;
        let lines = displayed(alloc, AVOIDED_HEADS, self.extent, explanation.lines)?;
        Ok(Answer {
            lines,
            status: status_of(explanation.somebody_stays),
        })
    }

    /// The whole output for it, of which this is wanted.
    pub(crate) fn answer(&self, alloc: Global, wanted: PlWanted) -> Result<Answer, NoMemory>
        requires known { IsCheckedText self.now }
        ensures answers { IfOk result (IsPlAnswerTo wanted (form_with self.now.file self.now.extent) self.now.places.now) }
    {
        match wanted {
            PlWanted::Explanation => self.explain(alloc),
            PlWanted::Steps => self.steps(alloc),
            PlWanted::Avoided => self.avoid(alloc),
        }
    }
}
