// The lines of who keeps an event from being reached, kept for each event that is waited for.
ghost use Rattle.std.specs.Prelude.{◌≡◌, ◌==◌, ◌&&◌, ◌++◌, IfOk, IfSome, OnOk};
ghost use Rattle.explain_clock.specs.ClockFacts.{ClockFacts};
ghost use Rattle.explain_clock.specs.ClockKeepers.{keeper_lines};
ghost use Rattle.explain_clock.specs.inside.KeptLines.{AreKept};

use crate::facts::ClockFacts;
use armus_base::{Event, NoMemory};
use explain_tasks::put_kept;

// An event, and the lines of those who keep it from being reached.
#[derive(Drop)]
pub(crate) struct Kept {
    pub(crate) event: Event,
    pub(crate) lines: Vec<u8>,
}

// Whether both are one event.
fn is_same_event(a: Event, b: Event) -> bool
    ensures { result ≡ (a.p.0 == b.p.0 && a.n == b.n) }
{
    a.p == b.p && a.n == b.n
}

// The lines that are kept for an event.
fn lines_for(kept: &[Kept], event: Event) -> Option<&Vec<u8>>
    ensures { (f : ClockFacts) → AreKept f kept.now → IfSome result (λ v. v.now.items ≡ keeper_lines f event) }
{
    for one in kept {
        if is_same_event(one.event, event) {
            return Some(&one.lines);
        }
    }
    None
}

impl<'a> ClockFacts<'a> {
    // Keeps the lines for an event.
    fn keep(&self, kept: &mut Vec<Kept>, event: Event) -> Result<(), NoMemory>
        requires kept { AreKept self.now kept.old.items }
        ensures { OnOk result (AreKept self.now kept.new.items) }
    {
        if lines_for(kept.as_slice(), event).is_some() {
            return Ok(());
        }
        kept.push(Kept {
            event,
            lines: self.keeper_lines(event)?,
        })?;
        Ok(())
    }

    /// The lines for each event that is waited for.
    pub(crate) fn kept_lines(&self) -> Result<Vec<Kept>, NoMemory>
        ensures { IfOk result (λ v. AreKept self.now v.items) }
    {
        let of_text = self.of_text;
        let mut kept = Vec::new(of_text.alloc);
        for status in self.end.blocked.as_slice() {
            self.keep(&mut kept, status.event)?;
        }
        Ok(kept)
    }

    /// Appends the lines of those who keep an event from being reached.
    pub(crate) fn put_keeper_lines(
        &self,
        out: &mut Vec<u8>,
        kept: &[Kept],
        event: Event,
    ) -> Result<(), NoMemory>
        requires kept { AreKept self.now kept.now }
        ensures { OnOk result (out.new.items ≡ out.old.items ++ keeper_lines self.now event) }
    {
        match lines_for(kept, event) {
            Some(lines) => put_kept(out, lines),
            None => {
                let lines = self.keeper_lines(event)?;
                put_kept(out, &lines)
            }
        }
    }
}
