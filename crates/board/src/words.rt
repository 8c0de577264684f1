// The words of a closed board.
ghost use Rattle.std.specs.Prelude.{◌≡◌, ◌<◌, length, slice_index};
ghost use Rattle.std.specs.Mem.Slots.{slots_items, slots_len, IsFull};
ghost use Rattle.armus_base.specs.CheckedPlans.{IsCheckedPlan};
ghost use Rattle.armus_base.specs.Places.{state_at};
ghost use Rattle.board.specs.calls.Words.{await_index, await_number, found_in, phase_index, phase_number, word_count};
ghost use Rattle.board.specs.calls.Views.{found_of};
ghost use Rattle.board.specs.calls.Closing.{AreLawful};

use crate::mode::Setting;
use crate::numbers::{phase_of, seen_of};
use crate::seen::Seen;
use armus_base::{Phase, PhaserId, TaskId};
use atomic_table::Closed;
use std::alloc::Global;
use std::marker::Model;

/// The words of a board that was closed.
pub struct Words {
    closed: Closed<(), Global>,
    tasks: u32,
    setting: Setting,
}

impl Model for Words {
    ghost use Rattle.board.specs.calls.Ended.{Ended, ended_value};
    ghost use Rattle.board.specs.inside.EndedBoards.{IsEndedBoard};

    ghost Value = { Ended };

    ghost view = { ended_value };

    ghost invariant = { IsEndedBoard };
}

impl Words {
    pub(crate) fn of(closed: Closed<(), Global>, tasks: u32, setting: Setting) -> Words
        requires plan { IsCheckedPlan setting.plan.value × (tasks ≡ length setting.plan.value.parents) }
        requires closed { IsFull closed.words × (slots_len closed.words ≡ word_count setting.plan.value) × (slots_len closed.slots ≡ 0) }
        requires lawful { AreLawful setting.plan.value setting.mode (slots_items closed.words) }
        ensures { result ≡ record { plan = setting.plan.value; mode = setting.mode; words = slots_items closed.words } }
    {
        Words {
            closed,
            tasks,
            setting,
        }
    }

    /// What task `t` awaits, or at what it is refused.
    pub fn await_of(&self, t: TaskId) -> Seen
        requires task { t.0 < length self.now.plan.parents }
        ensures number { await_number (found_of result) ≡ slice_index self.now.words (await_index t.0) }
        ensures meaning { (l : AreLawful self.now.plan self.now.mode self.now.words) → found_of result ≡ found_in (state_at self.now.plan l.places) t.0 }
    {
        seen_of(self.closed.word(1 + t.0 as usize))
    }

    /// The phase of task `t` on `p`, or None where it is no member.
    pub fn phase_of(&self, t: TaskId, p: PhaserId) -> Option<Phase>
        requires task { t.0 < length self.now.plan.parents }
        requires phaser { p.0 < length self.now.plan.makers }
        ensures number { phase_number result ≡ slice_index self.now.words (phase_index self.now.plan t.0 p.0) }
        ensures meaning { (l : AreLawful self.now.plan self.now.mode self.now.words) → result ≡ (state_at self.now.plan l.places).phases t.0 p.0 }
    {
        let word = 1 + self.tasks as usize + p.0 as usize * self.tasks as usize + t.0 as usize;
        phase_of(self.closed.word(word))
    }
}

impl Drop for Words {
    fn drop(self) {
        let Words {
            closed,
            tasks: _,
            setting: _,
        } = self;
        closed.free();
    }
}
