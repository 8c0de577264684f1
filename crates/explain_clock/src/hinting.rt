// The hint of an explanation.
ghost use Rattle.std.specs.Prelude.{◌≡◌, ◌+◌, ◌<◌, ◌++◌, IfOk, OnOk, Some, drop, length, option_copied, option_map};
ghost use Rattle.explain_clock.specs.ClockMends.{mend_before_words, clock_circle_hint, first_or_else, mend_at, mend_by, mend_front, mend_line, mend_of_thing, mend_rest, mend_words, mends};

use crate::facts::ClockFacts;
use crate::text_facts::ClockTextFacts;
use armus_base::{NoMemory, PhaserId, TaskEnd, TaskId, put_words};
use clock_source_map::ClockThing;
use explain_tasks::put_kept;

// Appends how one may signal on a clock that is pending there or not.
fn put_mend(out: &mut Vec<u8>, pending: bool) -> Result<(), NoMemory>
    ensures { OnOk result (out.new.items ≡ out.old.items ++ mend_words pending) }
{
    if pending {
        put_words(out, b" drop ")
    } else {
        put_words(out, b" resume or drop ")
    }
}

// The activity behind this place of the circle: the first one behind the last.
fn behind(circle: &[TaskId], i: usize, first: TaskId) -> TaskId
    requires { i < length circle.now }
    ensures { result ≡ first_or_else first (drop (i + 1) circle.now) }
{
    if i + 1 < circle.len() {
        circle[i + 1]
    } else {
        first
    }
}

impl<'a> ClockTextFacts<'a> {
    // Appends before which wait.
    fn put_before(&self, out: &mut Vec<u8>, n: Option<u32>) -> Result<(), NoMemory>
        ensures { OnOk result (out.new.items ≡ out.old.items ++ mend_before_words self.now n) }
    {
        let Some(n) = n else {
            return Ok(());
        };
        put_words(out, b" before it waits at ")?;
        self.put_place(out, n)
    }
}

impl<'a> ClockFacts<'a> {
    // Appends that activity `v` may signal on clock `p`.
    fn put_mend_front(&self, out: &mut Vec<u8>, v: u32, p: PhaserId) -> Result<(), NoMemory>
        ensures { OnOk result (out.new.items ≡ out.old.items ++ mend_front self.now v p.0) }
    {
        put_words(out, b"hint: let ")?;
        self.of_text.put_activity(out, v)?;
        put_mend(out, self.is_pending(v, p))
    }

    // Appends on which clock, and before which wait.
    fn put_mend_rest(&self, out: &mut Vec<u8>, v: u32, x: &[u8], s: u32) -> Result<(), NoMemory>
        ensures { OnOk result (out.new.items ≡ out.old.items ++ mend_rest self.now v x.now s) }
    {
        self.of_text.put_clock(out, x, s)?;
        self.of_text.put_before(out, self.waits_at(v))
    }

    // Appends the hint that activity `v` may signal on clock `p`, which has this name and is made at statement `s`.
    fn put_mend_line(
        &self,
        out: &mut Vec<u8>,
        v: u32,
        p: PhaserId,
        x: &[u8],
        s: u32,
    ) -> Result<(), NoMemory>
        ensures { OnOk result (out.new.items ≡ out.old.items ++ mend_line self.now v p.0 x.now s) }
    {
        self.put_mend_front(out, v, p)?;
        self.put_mend_rest(out, v, x, s)?;
        put_words(out, b"\n")
    }

    // Appends the same, where this is a clock, and not a finish.
    fn put_mend_of_thing(
        &self,
        out: &mut Vec<u8>,
        v: u32,
        p: PhaserId,
        name: Option<&[u8]>,
        s: u32,
    ) -> Result<(), NoMemory>
        ensures { OnOk result (out.new.items ≡ out.old.items ++ mend_of_thing self.now v p.0 (option_map (λ x. x.now) name.entry) s) }
    {
        match name {
            Some(x) => self.put_mend_line(out, v, p, x, s),
            None => Ok(()),
        }
    }

    // Appends the same, if there is such a clock or finish.
    fn put_mend_at(
        &self,
        out: &mut Vec<u8>,
        v: u32,
        p: PhaserId,
        thing: Option<&ClockThing<'a>>,
    ) -> Result<(), NoMemory>
        ensures { OnOk result (out.new.items ≡ out.old.items ++ mend_at self.now v p.0 (option_copied thing.entry)) }
    {
        match thing {
            Some(thing) => self.put_mend_of_thing(out, v, p, thing.name(), thing.statement()),
            None => Ok(()),
        }
    }

    // The same of activity `v`, for which one waits that has ended so.
    fn mend_by(&self, v: u32, end: TaskEnd) -> Result<Vec<u8>, NoMemory>
        ensures { IfOk result (λ w. w.items ≡ mend_by self.now v end) }
    {
        let of_text = self.of_text;
        let mut out = Vec::new(of_text.alloc);
        match end {
            TaskEnd::Blocked(event) => {
                self.put_mend_at(&mut out, v, event.p, self.of_text.thing(event.p.0))?
            }
            TaskEnd::Done | TaskEnd::Refused(_) | TaskEnd::Unforked => {}
        }
        Ok(out)
    }

    // Appends the first hint of the activities of a circle, of which this is the first.
    fn put_mends(&self, out: &mut Vec<u8>, circle: &[TaskId], first: TaskId) -> Result<(), NoMemory>
        ensures { OnOk result (out.new.items ≡ out.old.items ++ mends self.now first circle.now) }
    {
        for i in 0..circle.len() {
            let v = behind(circle, i, first);
            let mend = self.mend_by(v.0, self.end(circle[i].0))?;
            if !mend.is_empty() {
                return put_kept(out, &mend);
            }
        }
        Ok(())
    }

    /// Appends the hint of a circle, if one fits.
    pub(crate) fn put_circle_hint(
        &self,
        out: &mut Vec<u8>,
        circle: &[TaskId],
    ) -> Result<(), NoMemory>
        ensures { OnOk result (out.new.items ≡ out.old.items ++ clock_circle_hint self.now circle.now) }
    {
        match circle {
            [] => Ok(()),
            [t, ..] => self.put_mends(out, circle, *t),
        }
    }
}
