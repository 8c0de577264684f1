// What an impeder does next to the event's phaser.
ghost use Rattle.std.specs.Prelude.{◌≡◌, ◌++◌, IfOk, OnOk, codes};

use crate::facts::Facts;
use crate::impeders::Impeder;
use crate::situation::Situation;
use armus_base::{NoMemory, PhaserId, put_words};
use explain_facts::{Doing, NextOp};

impl<'a> Facts<'a> {
    ghost use Rattle.std.specs.Str.{bytes_eq};
    ghost use Rattle.explain_tasks.specs.Places.{named_phaser};
    ghost use Rattle.explain_tasks.specs.Sayings.{doing_words, impeder_next, next_by_situation, next_op_words};

    // Appends that a task does this next to a phaser, up to the place where.
    fn put_doing(&self, out: &mut Vec<u8>, p: PhaserId, does: Doing) -> Result<(), NoMemory>
        ensures { OnOk result (out.new.items ≡ out.old.items ++ doing_words self.now p.0 does) }
    {
        match does {
            Doing::Advances => {
                put_words(out, b"; next adv of ")?;
                self.put_named_phaser(out, p)?;
                put_words(out, b" at ")
            }
            Doing::Leaves => {
                put_words(out, b"; ")?;
                self.put_named_phaser(out, p)?;
                put_words(out, b" is left at ")
            }
        }
    }

    // Appends that a task does nothing to a phaser any more.
    fn put_none(&self, out: &mut Vec<u8>, p: PhaserId) -> Result<(), NoMemory>
        ensures { OnOk result (out.new.items ≡ out.old.items ++ (codes "; no adv of " ++ named_phaser self.now p.0 ++ codes " follows")) }
    {
        put_words(out, b"; no adv of ")?;
        self.put_named_phaser(out, p)?;
        put_words(out, b" follows")
    }

    // Appends what a task does next to a phaser, with these words behind it.
    fn put_next(
        &self,
        out: &mut Vec<u8>,
        p: PhaserId,
        behind: &[u8],
        next: Option<NextOp>,
    ) -> Result<(), NoMemory>
        ensures { OnOk result (out.new.items ≡ out.old.items ++ next_op_words self.now p.0 behind.now next) }
    {
        match next {
            None => self.put_none(out, p),
            Some(next) => {
                self.put_doing(out, p, next.does)?;
                self.put_place(out, next.at)?;
                put_words(out, behind)
            }
        }
    }

    // Appends what an impeder that stands so does next to a phaser.
    fn put_next_by(
        &self,
        out: &mut Vec<u8>,
        p: PhaserId,
        next: Option<NextOp>,
        situation: Situation,
    ) -> Result<(), NoMemory>
        ensures { OnOk result (out.new.items ≡ out.old.items ++ next_by_situation self.now p.0 next situation) }
    {
        match situation {
            Situation::Deadlocked => self.put_next(out, p, b", behind this wait", next),
            Situation::Held => self.put_next(out, p, b", behind this wait", next),
            Situation::NotForkedYet => self.put_next(out, p, b"", next),
            Situation::HasEnded => Ok(()),
            Situation::NeverForked => Ok(()),
        }
    }

    // What an impeder does next to the event's phaser.
    pub(crate) fn impeder_next(&self, impeder: Impeder) -> Result<Vec<u8>, NoMemory>
        ensures { IfOk result (λ v. v.items ≡ impeder_next self.now impeder) }
    {
        let mut out = Vec::new(self.alloc);
        let next = self.next_op(impeder.t, impeder.p);
        self.put_next_by(&mut out, impeder.p, next, self.situation(impeder.t))?;
        Ok(out)
    }

    /// Whether the same is said of what two impeders do next.
    pub fn is_same_next(&self, a: Impeder, b: Impeder) -> Result<bool, NoMemory>
        ensures { IfOk result (λ same. same ≡ bytes_eq (impeder_next self.now a) (impeder_next self.now b)) }
    {
        let one = self.impeder_next(a)?;
        let other = self.impeder_next(b)?;
        Ok(one == other)
    }
}
