// Lists of statuses, made from what shows how tasks stand.
ghost use Rattle.std.specs.Prelude.{◌≡◌, ℕ, ◌<◌, ◌+◌, ◌^◌, IfOk, length};
ghost use Rattle.armus_base.specs.Finals.{given_below, listed_phase};
ghost use Rattle.armus_base.specs.States.{State};
ghost use Rattle.armus_base.specs.calls.StatusLists.{AreNexts, is_marked, statuses_among};

use crate::nexts::nexts_of;
use crate::{Event, List, Member, NoMemory, Phase, PhaserId, Status, TaskId};
use std::alloc::Global;

/// What shows on which event each task is published, and which phase it has on each phaser.
pub trait ShowsTasks {
    ghost tasks: { Self → ℕ };

    ghost phasers: { Self → ℕ };

    // What is shown, as a state of which only the published events and the phases count.
    ghost state: { Self → State };

    /// How many tasks there are.
    fn tasks(&self) -> u32
        ensures count { result ≡ tasks self.now };

    /// How many phasers there are.
    fn phasers(&self) -> u32
        ensures count { result ≡ phasers self.now };

    /// The event on which `t` is published, if it is.
    fn published(&self, t: TaskId) -> Option<Event>
        requires task { t.0 < tasks self.now }
        ensures event { result ≡ (state self.now).published t.0 };

    /// The phase of `t` on `p`, if it is a member.
    fn phase(&self, t: TaskId, p: PhaserId) -> Option<Phase>
        requires task { t.0 < tasks self.now }
        requires phaser { p.0 < phasers self.now }
        ensures phase { result ≡ (state self.now).phases t.0 p.0 };
}

// The phases of a task on the marked phasers, in order of number.
fn members<S: ShowsTasks>(
    alloc: Global,
    shown: &S,
    t: TaskId,
    marks: &[bool],
    nexts: &[u32],
) -> Result<Vec<Member>, NoMemory>
    requires task { t.0 < S.tasks shown.now }
    requires phasers { length marks.now ≡ S.phasers shown.now }
    requires room { length nexts.now ≡ length marks.now + 1 }
    requires nexts { AreNexts (is_marked marks.now) (length marks.now) nexts.now }
    ensures { IfOk result (λ list. list.items ≡ given_below (listed_phase (is_marked marks.now) ((S.state shown.now).phases t.0)) (length marks.now)) }
{
    let mut members = Vec::new(alloc);
    let phasers = shown.phasers();
    let mut number = nexts[0];
    'row: while number < phasers {
        let p = PhaserId(number);
        match shown.phase(t, p) {
            Some(n) => members.push(Member { p, n })?,
            None => {}
        }
        number = nexts[number as usize + 1];
    }
    Ok(members)
}

/// The statuses of the published tasks, in order of number, each with its phases on the marked phasers. There is a mark for each phaser.
pub fn list_statuses<S: ShowsTasks>(
    alloc: Global,
    shown: &S,
    marks: &[bool],
) -> Result<List<Status>, NoMemory>
    requires phasers { length marks.now ≡ S.phasers shown.now }
    ensures { IfOk result (λ list. list ≡ statuses_among (S.tasks shown.now) (S.phasers shown.now) (S.state shown.now) (is_marked marks.now)) }
{
    let nexts = nexts_of(alloc, shown.phasers(), marks)?;
    let mut statuses = Vec::new(alloc);
    for number in 0..shown.tasks() {
        let t = TaskId(number);
        match shown.published(t) {
            Some(event) => {
                let phases = members(alloc, shown, t, marks, nexts.as_slice())?;
                statuses.push(Status {
                    t,
                    event,
                    phases: List::from_vec(phases),
                })?;
            }
            None => {}
        }
    }
    Ok(List::from_vec(statuses))
}
