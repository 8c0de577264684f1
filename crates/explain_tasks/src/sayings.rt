// What is said of tasks.
ghost use Rattle.std.specs.Prelude.{◌≡◌, ◌++◌, [], IfOk, OnOk, codes, option_copied, option_map};
ghost use Rattle.explain_tasks.specs.calls.SayingValues.{forking_said, said_by};
ghost use Rattle.explain_tasks.specs.Sayings.{phase_words};

use crate::facts::Facts;
use crate::impeders::Impeder;
use crate::saying::{ForkingWords, Saying};
use crate::situation::Situation;
use armus_base::{NoMemory, PhaserId, TaskId, put_number, put_words};
use explain_facts::{CodeEnd, Forked, Turn, Waiting};
use std::alloc::Global;

// Appends the own phase of a task that waits, where it is not that of the event.
fn put_phase(alloc: Global, out: &mut Vec<u8>, wait: &Waiting) -> Result<(), NoMemory>
    ensures { OnOk result (out.new.items ≡ out.old.items ++ phase_words wait.now) }
{
    if wait.phase == wait.event.n {
        return Ok(());
    }
    put_words(out, b" at phase ")?;
    put_number(alloc, out, u64::from(wait.phase))
}

impl<'a> Facts<'a> {
    ghost use Rattle.std.specs.Prelude.{flat_map, slice_get};
    ghost use Rattle.explain_facts.specs.declared.account.Waiting.{Waiting};
    ghost use Rattle.explain_tasks.specs.Facts.{situation_of, wait_of};
    ghost use Rattle.explain_tasks.specs.declared.situation.Situation.TheVariants.{HasEnded, NeverForked, NotForkedYet};
    ghost use Rattle.explain_tasks.specs.Places.{drawn_name, place_in_line, said_of, wait_place};
    ghost use Rattle.source_map.specs.declared.place.TextPlace.{TextPlace};
    ghost use Rattle.explain_tasks.specs.Sayings.{awaited_words, forked_words, forker_words, forking_by, impeder_forking, impeder_said, impeder_words, impeding_said, last_words, made_words, own_said, said_as, second_line, turn_words, waiting_said};

    // Appends what a task waits for.
    fn put_awaited(&self, out: &mut Vec<u8>, wait: &Waiting) -> Result<(), NoMemory>
        ensures { OnOk result (out.new.items ≡ out.old.items ++ awaited_words self.now wait.now) }
    {
        put_words(out, wait.words.as_slice())?;
        put_phase(self.alloc, out, wait)?;
        put_words(out, b" waits for phase ")?;
        put_number(self.alloc, out, u64::from(wait.event.n))?;
        put_words(out, b" of ")?;
        self.put_named_phaser(out, wait.event.p)
    }

    // Appends a turn of a loop.
    fn put_turn(&self, out: &mut Vec<u8>, turn: Turn) -> Result<(), NoMemory>
        ensures { OnOk result (out.new.items ≡ out.old.items ++ turn_words self.now turn) }
    {
        put_words(out, b"; turn ")?;
        put_number(self.alloc, out, u64::from(turn.turn))?;
        put_words(out, b" of the loop at ")?;
        self.put_place(out, turn.at)
    }

    // Appends these turns.
    fn put_turns(&self, out: &mut Vec<u8>, turns: &[Turn]) -> Result<(), NoMemory>
        ensures { OnOk result (out.new.items ≡ out.old.items ++ flat_map (turn_words self.now) turns.now) }
    {
        for turn in turns {
            self.put_turn(out, *turn)?;
        }
        Ok(())
    }

    // Appends where a task was forked.
    fn put_forked(&self, out: &mut Vec<u8>, fork: Option<Forked>) -> Result<(), NoMemory>
        ensures { OnOk result (out.new.items ≡ out.old.items ++ forked_words self.now fork) }
    {
        match fork {
            Some(fork) => {
                put_words(out, b"forked at ")?;
                self.put_place(out, fork.at)?;
                put_words(out, b"; ")
            }
            None => Ok(()),
        }
    }

    // Appends the place where a phaser was made.
    fn put_phaser_place(&self, out: &mut Vec<u8>, p: PhaserId) -> Result<(), NoMemory>
        ensures { OnOk result (out.new.items ≡ out.old.items ++ said_of (λ (at : TextPlace). place_in_line self.now at) (slice_get self.now.account.phasers p.0)) }
    {
        match self.account.phasers.as_slice().get(p.0 as usize) {
            Some(at) => self.put_place(out, *at),
            None => Ok(()),
        }
    }

    // Appends where the phaser for which a task waits was made.
    fn put_made(&self, out: &mut Vec<u8>, wait: &Waiting) -> Result<(), NoMemory>
        ensures { OnOk result (out.new.items ≡ out.old.items ++ made_words self.now wait.now) }
    {
        self.put_named_phaser(out, wait.event.p)?;
        put_words(out, b" made at ")?;
        self.put_phaser_place(out, wait.event.p)
    }

    // Appends the second line of a task that waits.
    fn put_second_line(
        &self,
        out: &mut Vec<u8>,
        fork: Option<Forked>,
        wait: &Waiting,
    ) -> Result<(), NoMemory>
        ensures { OnOk result (out.new.items ≡ out.old.items ++ second_line self.now fork wait.now) }
    {
        put_words(out, b"\n  ")?;
        self.put_forked(out, fork)?;
        self.put_made(out, wait)?;
        self.put_turns(out, wait.turns.as_slice())
    }

    // The name that the `newTid` of a task gives.
    fn name_of(&self, t: TaskId) -> Result<Vec<u8>, NoMemory>
        ensures { IfOk result (λ v. v.items ≡ drawn_name self.now t.0) }
    {
        let mut out = Vec::new(self.alloc);
        self.put_drawn_name(&mut out, t)?;
        Ok(out)
    }

    // What is said of a task that waits and stands so.
    fn waiting_saying(&self, t: TaskId, stands: &[u8]) -> Result<Saying, NoMemory>
        ensures { IfOk result (λ s. said_by s ≡ waiting_said self.now t.0 stands.now) }
    {
        let mut front = Vec::new(self.alloc);
        let mut words = Vec::from_slice(self.alloc, stands)?;
        let mut event = None;
        if let Some(wait) = self.wait(t) {
            self.put_front(&mut front, wait.at)?;
            self.put_awaited(&mut words, wait)?;
            self.put_second_line(&mut words, self.fork(t), wait)?;
            event = Some((wait.event.p.0, wait.event.n));
        }
        Ok(Saying {
            front,
            name: self.name_of(t)?,
            phase: None,
            words,
            event,
            forking: None,
            next: Vec::new(self.alloc),
        })
    }

    // Appends how a task stands that waits, and where.
    fn put_waiting_at(&self, out: &mut Vec<u8>, t: TaskId, stands: &[u8]) -> Result<(), NoMemory>
        ensures { OnOk result (out.new.items ≡ out.old.items ++ (stands.now ++ wait_place self.now t.0)) }
    {
        put_words(out, stands)?;
        self.put_wait_place(out, t)
    }

    // Appends how a forker stands.
    fn put_forker(&self, out: &mut Vec<u8>, t: TaskId, situation: Situation) -> Result<(), NoMemory>
        ensures { OnOk result (out.new.items ≡ out.old.items ++ forker_words self.now t.0 situation) }
    {
        match situation {
            Situation::Deadlocked => self.put_waiting_at(out, t, b"deadlocked at "),
            Situation::Held => self.put_waiting_at(out, t, b"held at "),
            Situation::HasEnded => put_words(out, b"refused"),
            Situation::NotForkedYet | Situation::NeverForked => put_words(out, b"not forked yet"),
        }
    }

    // Who would fork a task, with these words for the place.
    fn forking(&self, at: Vec<u8>, fork: Option<Forked>) -> Result<Option<ForkingWords>, NoMemory>
        ensures { IfOk result (λ g. option_map forking_said g ≡ forking_by self.now at.items fork) }
    {
        let Some(fork) = fork else {
            return Ok(None);
        };
        let mut stands = Vec::new(self.alloc);
        self.put_forker(&mut stands, fork.by, self.situation(fork.by))?;
        Ok(Some(ForkingWords {
            name: self.name_of(fork.by)?,
            at,
            stands,
        }))
    }

    // What is said of a task that is not forked yet.
    fn unforked_saying(&self, t: TaskId) -> Result<Saying, NoMemory>
        ensures { IfOk result (λ s. said_by s ≡ said_as self.now t.0 NotForkedYet) }
    {
        let mut front = Vec::new(self.alloc);
        if let Some(fork) = self.fork(t) {
            self.put_front(&mut front, fork.at)?;
        }
        Ok(Saying {
            front,
            name: self.name_of(t)?,
            phase: None,
            words: Vec::from_slice(self.alloc, b"not forked yet: ")?,
            event: None,
            forking: self.forking(Vec::new(self.alloc), self.fork(t))?,
            next: Vec::new(self.alloc),
        })
    }

    // What is said of a task that is never forked.
    fn never_forked_saying(&self, t: TaskId) -> Result<Saying, NoMemory>
        ensures { IfOk result (λ s. said_by s ≡ said_as self.now t.0 NeverForked) }
    {
        let mut front = Vec::new(self.alloc);
        if let Some(drawn) = self.drawn(t) {
            self.put_front(&mut front, drawn.at)?;
        }
        Ok(Saying {
            front,
            name: self.name_of(t)?,
            phase: None,
            words: Vec::from_slice(self.alloc, b"never forked")?,
            event: None,
            forking: None,
            next: Vec::new(self.alloc),
        })
    }

    // Nothing but the name of a task.
    fn no_saying(&self, t: TaskId) -> Result<Saying, NoMemory>
        ensures { IfOk result (λ s. said_by s ≡ said_as self.now t.0 HasEnded) }
    {
        Ok(Saying {
            front: Vec::new(self.alloc),
            name: self.name_of(t)?,
            phase: None,
            words: Vec::new(self.alloc),
            event: None,
            forking: None,
            next: Vec::new(self.alloc),
        })
    }

    /// What the paragraph of a task says of it.
    pub fn own_saying(&self, t: TaskId) -> Result<Saying, NoMemory>
        ensures { IfOk result (λ s. said_by s ≡ own_said self.now t.0) }
    {
        match self.situation(t) {
            Situation::Deadlocked => self.waiting_saying(t, b"deadlocked: "),
            Situation::Held => self.waiting_saying(t, b"held: "),
            Situation::HasEnded => self.no_saying(t),
            Situation::NotForkedYet => self.unforked_saying(t),
            Situation::NeverForked => self.never_forked_saying(t),
        }
    }

    // Appends where a task waits that impedes an event.
    fn put_waiting_impeder(
        &self,
        out: &mut Vec<u8>,
        t: TaskId,
        stands: &[u8],
    ) -> Result<(), NoMemory>
        ensures { OnOk result (out.new.items ≡ out.old.items ++ (stands.now ++ wait_place self.now t.0 ++ codes ": " ++ said_of (λ (w : Waiting). w.words) (wait_of self.now t.0))) }
    {
        put_words(out, stands)?;
        self.put_wait_place(out, t)?;
        put_words(out, b": ")?;
        match self.wait(t) {
            Some(wait) => put_words(out, wait.words.as_slice()),
            None => Ok(()),
        }
    }

    // Appends the statement of a task's last visit.
    fn put_last(&self, out: &mut Vec<u8>, end: Option<CodeEnd>) -> Result<(), NoMemory>
        ensures { OnOk result (out.new.items ≡ out.old.items ++ said_of (last_words self.now) end) }
    {
        let Some(end) = end else {
            return Ok(());
        };
        let Some(at) = end.last else {
            return Ok(());
        };
        put_words(out, b", last statement at ")?;
        self.put_place(out, at)
    }

    // Appends where a task ended that impedes an event.
    fn put_ended_impeder(&self, out: &mut Vec<u8>, t: TaskId) -> Result<(), NoMemory>
        ensures { OnOk result (out.new.items ≡ out.old.items ++ impeder_words self.now t.0 HasEnded) }
    {
        put_words(out, b"ended at ")?;
        self.put_end_place(out, t)?;
        put_words(out, b" without leaving")?;
        self.put_last(out, self.end(t))
    }

    // Appends where a task was drawn that impedes an event and is never forked.
    fn put_drawn_impeder(&self, out: &mut Vec<u8>, t: TaskId) -> Result<(), NoMemory>
        ensures { OnOk result (out.new.items ≡ out.old.items ++ impeder_words self.now t.0 NeverForked) }
    {
        put_words(out, b"never forked, drawn at ")?;
        self.put_drawn_place(out, t)
    }

    // Appends what is said of an impeder that stands so.
    fn put_impeder_words(
        &self,
        out: &mut Vec<u8>,
        t: TaskId,
        situation: Situation,
    ) -> Result<(), NoMemory>
        ensures { OnOk result (out.new.items ≡ out.old.items ++ impeder_words self.now t.0 situation) }
    {
        match situation {
            Situation::Deadlocked => self.put_waiting_impeder(out, t, b"deadlocked at "),
            Situation::Held => self.put_waiting_impeder(out, t, b"held at "),
            Situation::HasEnded => self.put_ended_impeder(out, t),
            Situation::NotForkedYet => put_words(out, b"not forked yet: "),
            Situation::NeverForked => self.put_drawn_impeder(out, t),
        }
    }

    // Who would fork an impeder that stands so.
    fn impeder_forking(
        &self,
        t: TaskId,
        situation: Situation,
    ) -> Result<Option<ForkingWords>, NoMemory>
        ensures { IfOk result (λ g. option_map forking_said g ≡ impeder_forking self.now t.0 situation) }
    {
        match situation {
            Situation::NotForkedYet => {
                let mut at = Vec::from_slice(self.alloc, b" at ")?;
                self.put_fork_place(&mut at, t)?;
                self.forking(at, self.fork(t))
            }
            _ => Ok(None),
        }
    }

    // What is said of a task where it impedes an event with this phase, and does this next.
    fn impeding_saying(&self, t: TaskId, phase: u32, next: Vec<u8>) -> Result<Saying, NoMemory>
        ensures { IfOk result (λ s. said_by s ≡ impeding_said self.now t.0 phase next.items) }
    {
        let situation = self.situation(t);
        let mut words = Vec::new(self.alloc);
        self.put_impeder_words(&mut words, t, situation)?;
        Ok(Saying {
            front: Vec::new(self.alloc),
            name: self.name_of(t)?,
            phase: Some(phase),
            words,
            event: None,
            forking: self.impeder_forking(t, situation)?,
            next,
        })
    }

    /// What the line of a task says of it where it impedes an event with phase 0, but for what it does next.
    pub fn standing_saying(&self, t: TaskId) -> Result<Saying, NoMemory>
        ensures { IfOk result (λ s. said_by s ≡ impeding_said self.now t.0 0 []) }
    {
        self.impeding_saying(t, 0, Vec::new(self.alloc))
    }

    /// What the line of an impeder says of it.
    pub fn impeder_saying(&self, impeder: Impeder) -> Result<Saying, NoMemory>
        ensures { IfOk result (λ s. said_by s ≡ impeder_said self.now impeder) }
    {
        let next = self.impeder_next(impeder)?;
        self.impeding_saying(impeder.t, impeder.phase, next)
    }
}
