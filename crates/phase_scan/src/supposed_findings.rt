// What was found, where a task has published an event.
ghost use Rattle.std.specs.Prelude.{◌≡◌, length};

use crate::findings::Findings;
use armus_base::{Event, Phase, PhaserId, ShowsTasks, TaskId};

// What was found, where task `t` has published the event: with its own phase on each phaser, and with a column of the phases of the others on the event's
// phaser.
#[derive(Drop)]
pub(crate) struct SupposedFindings<'f> {
    pub(crate) found: &'f Findings,
    pub(crate) t: TaskId,
    pub(crate) event: Event,
    pub(crate) own: &'f [Option<Phase>],
    pub(crate) column: &'f [Option<Phase>],
    ghost row: { length own.now ≡ found.now.phasers },
    ghost count: { length column.now ≡ found.now.tasks },
}

impl<'f> ShowsTasks for SupposedFindings<'f> {
    ghost use Rattle.phase_scan.specs.calls.Tables.{state_of_findings, state_supposed};
    ghost use Rattle.phase_scan.specs.inside.Phases.{phase_in};

    ghost tasks = { λ s. s.found.now.tasks };

    ghost phasers = { λ s. s.found.now.phasers };

    ghost state = { λ s. state_supposed (state_of_findings s.found.now) s.t.0 s.event (phase_in s.own.now) (phase_in s.column.now) };

    fn tasks(&self) -> u32 {
        self.found.tasks
    }

    fn phasers(&self) -> u32 {
        self.found.phasers
    }

    fn published(&self, u: TaskId) -> Option<Event> {
        if u.0 == self.t.0 {
            Some(self.event)
        } else {
            self.found.published(u)
        }
    }

    fn phase(&self, u: TaskId, p: PhaserId) -> Option<Phase> {
        if u.0 == self.t.0 {
            self.own[p.0 as usize]
        } else if p.0 == self.event.p.0 {
            self.column[u.0 as usize]
        } else {
            self.found.phase(u, p)
        }
    }
}
