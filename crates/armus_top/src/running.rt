// The commands that run a plan.
ghost use Rattle.std.specs.Prelude.{◌≡◌, ◌≢◌, ◌≤◌, IfOk, false, true};
ghost use Rattle.std.specs.List.{list_any};
ghost use Rattle.armus_base.specs.CheckedPlans.{IsCheckedPlan};
ghost use Rattle.armus_base.specs.calls.Limits.{max_sites};
ghost use Rattle.program_io.specs.Texts.{Text};
ghost use Rattle.armus_top.specs.Avoids.{IsAvoidOf, ended_refused};
ghost use Rattle.program_io.specs.Programs.{IsPlanOf};
ghost use Rattle.armus_top.specs.Records.{IsRecordOf};
ghost use Rattle.armus_top.specs.Runs.{IsLiveRunOf, IsRunOf};
ghost use Rattle.program_io.specs.calls.Passages.{passage};
ghost use Rattle.armus_top.specs.inside.Serving.{MayHaveSites, MayWork};
ghost use Rattle.program_io.specs.calls.ExitNumbers.{number_of_status};
ghost use Rattle.armus_top.specs.inside.Writing.{LeavesOutput};
ghost use Rattle.world_runs.specs.calls.AvoidedRuns.{IsAvoidedEnd, IsSerialEnd};
ghost use Rattle.world_runs.specs.calls.PlainRuns.{IsPlainEnd};

use crate::output::{Output, reported};
use armus_base::{Final, Gate, List, MemSink, NoMemory, Plan, Sink, TaskEnd};
use command_line::RunKind;
use program_io::{ExitStatus, finish, status_of};
use report::{any_dead, report};
use schedule::recorded_text;
use sites::{KeepEnd, SafeKeeper};
use std::alloc::Global;
use std::sync::Wait;
use std::thread::Threads;
use task_runner::{
    RunEnd, RunOptions, run_avoid, run_avoid_kept, run_detect, run_journal, run_pool, run_sites,
};

/// What each command is given beside its words and its input.
#[derive(Drop)]
pub(crate) struct CallSetting<'c, R, G> {
    /// The handle by which threads are started.
    pub(crate) rt: &'c R,
    /// The allocator.
    pub(crate) alloc: Global,
    /// What is called before each op.
    pub(crate) gate: &'c G,
}

impl<R: Threads + Sync, G: Gate> CallSetting<'_, R, G> {
    // The end of the run of the plan with passes over this many sites, whose rows stand in memory.
    fn end_on_sites(&self, plan: &Plan, options: &RunOptions, sites: u8) -> Result<Final, NoMemory>
        requires workers { MayWork options.now.workers }
        requires quiet { options.now.live ≡ false }
        requires some { 1 ≤ sites }
        requires few { sites ≤ max_sites }
        ensures end { IfOk result (λ end. IsPlainEnd plan.now end) }
    {
        let (rt, alloc, gate) = (self.rt, self.alloc, self.gate);
        let sites = u32::from(sites);
        let mut keeper = SafeKeeper::new(alloc, sites)?;
        match run_sites(rt, alloc, plan, options, sites, &mut keeper, gate) {
            Ok(end) => Ok(end),
            Err(KeepEnd::NoMemory) => Err(NoMemory),
            Err(KeepEnd::Fault) => unreachable!(),
        }
    }

    // The end of the run of the plan on a board.
    fn end_on_board(&self, plan: &Plan, options: &RunOptions) -> Result<Final, NoMemory>
        requires workers { MayWork options.now.workers }
        requires quiet { options.now.live ≡ false }
        ensures end { IfOk result (λ end. IsPlainEnd plan.now end) }
    {
        let alloc = self.alloc;
        // nothing is written where no live lines are wanted
        let mut unwritten = MemSink::new(alloc, 0, 1, List::from_vec(Vec::new(alloc)))?;
        match run_detect(self.rt, alloc, plan, options, self.gate, &mut unwritten) {
            Ok(ran) => Ok(ran.end),
            Err(RunEnd::NoMemory) => Err(NoMemory),
            Err(RunEnd::Write) => unreachable!(),
        }
    }

    // The end of the run of the plan, with what the kind says beside it.
    fn end_of(&self, plan: &Plan, options: &RunOptions, kind: RunKind) -> Result<Final, NoMemory>
        requires workers { MayWork options.now.workers }
        requires quiet { options.now.live ≡ false }
        requires sites { MayHaveSites kind }
        ensures end { IfOk result (λ end. IsPlainEnd plan.now end) }
    {
        match kind {
            RunKind::Plain | RunKind::Live => self.end_on_board(plan, options),
            RunKind::Sites { sites } => self.end_on_sites(plan, options, sites),
        }
    }

    /// The report of the run of a plan, with passes over sites beside it where the kind has them.
    pub fn run(&self, plan: &Plan, options: &RunOptions, kind: RunKind) -> Result<Output, NoMemory>
        requires checked { IsCheckedPlan plan.now }
        requires workers { MayWork options.now.workers }
        requires quiet { options.now.live ≡ false }
        requires sites { MayHaveSites kind }
        ensures run { IfOk result (λ o. IsRunOf plan.now options.now.wanted (number_of_status o.status) o.text) }
    {
        let end = self.end_of(plan, options, kind)?;
        reported(self.alloc, &end, options.wanted)
    }

    /// Runs a plan and writes the report of its end behind a line for each dead task, which is written as soon as it is found.
    pub fn run_live<K: Sink>(&self, plan: &Plan, options: &RunOptions, out: &mut K) -> ExitStatus
        requires checked { IsCheckedPlan plan.now }
        requires workers { MayWork options.now.workers }
        requires live { options.now.live ≡ true }
        ensures done { LeavesOutput true (IsLiveRunOf plan.now options.now.wanted) (passage K.taken K.faults out.old out.new) (number_of_status result) }
        ensures silent { number_of_status result ≢ 4 }
    {
        match run_detect(self.rt, self.alloc, plan, options, self.gate, out) {
            Ok(ran) => match reported(self.alloc, &ran.end, options.wanted) {
                Ok(report) => finish(out, report.text.as_slice(), report.status),
                Err(NoMemory) => ExitStatus::OutOfMemory,
            },
            Err(RunEnd::Write) => ExitStatus::WriteFailed,
            Err(RunEnd::NoMemory) => ExitStatus::OutOfMemory,
        }
    }

    // Runs the plan, with awaits refused that would be dead: decided by a kept order of the tasks, or by the statuses of all of them.
    fn avoided_end(&self, plan: &Plan, options: &RunOptions, kept: bool) -> Result<Final, NoMemory>
        requires workers { MayWork options.now.workers }
        requires quiet { options.now.live ≡ false }
        ensures end { IfOk result (λ end. IsAvoidedEnd plan.now end) }
        ensures serial { options.now.workers ≡ 1 → IfOk result (λ end. IsSerialEnd plan.now end) }
    {
        let (rt, alloc, gate) = (self.rt, self.alloc, self.gate);
        if kept {
            run_avoid_kept(rt, alloc, plan, options, gate)
        } else {
            run_avoid(rt, alloc, plan, options, gate)
        }
    }

    /// The report of the run of a plan without deadlock; kept, by an order of the tasks that is mended where waits change.
    pub fn avoid(&self, plan: &Plan, options: &RunOptions, kept: bool) -> Result<Output, NoMemory>
        requires checked { IsCheckedPlan plan.now }
        requires workers { MayWork options.now.workers }
        requires quiet { options.now.live ≡ false }
        ensures run { IfOk result (λ o. (input : Text) → IsPlanOf input plan.now
            → IsAvoidOf input options.now.workers options.now.wanted (number_of_status o.status) o.text) }
    {
        let end = self.avoided_end(plan, options, kept)?;
        let status = status_of(any_refused(&end));
        let text = report(self.alloc, &end, options.wanted)?;
        Ok(Output { text, status })
    }
}

impl<R: Threads + Wait + Sync, G: Gate> CallSetting<'_, R, G> {
    /// The report of the run of a plan without rounds, where each free worker claims the next task.
    pub fn pool(&self, plan: &Plan, options: &RunOptions) -> Result<Output, NoMemory>
        requires checked { IsCheckedPlan plan.now }
        requires workers { MayWork options.now.workers }
        requires quiet { options.now.live ≡ false }
        ensures run { IfOk result (λ o. IsRunOf plan.now options.now.wanted (number_of_status o.status) o.text) }
    {
        let end = run_pool(self.rt, self.alloc, plan, options, self.gate)?;
        reported(self.alloc, &end, options.wanted)
    }

    /// The text of a plan with the schedule of its run.
    pub fn record(&self, plan: &Plan, options: &RunOptions, text: &[u8]) -> Result<Output, NoMemory>
        requires workers { MayWork options.now.workers }
        requires quiet { options.now.live ≡ false }
        requires plan { IsPlanOf text.now plan.now }
        ensures record { IfOk result (λ o. IsRecordOf text.now (number_of_status o.status) o.text) }
    {
        let alloc = self.alloc;
        let (end, journal) = run_journal(self.rt, alloc, plan, options, self.gate)?;
        let status = status_of(any_dead(alloc, &end)?);
        let text = recorded_text(alloc, text, journal.as_slice())?;
        Ok(Output { text, status })
    }
}

// Whether a task has ended so that its await was refused.
fn any_refused(end: &Final) -> bool
    ensures { result ≡ list_any ended_refused end.now.ends }
{
    end.ends
        .as_slice()
        .iter()
        .any(|end| matches!(end, TaskEnd::Refused(_)))
}
