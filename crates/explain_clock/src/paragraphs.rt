// What is said of each activity.
ghost use Rattle.std.specs.Prelude.{◌≡◌, ◌++◌, IfOk, OnOk, Some, flat_map, map, option_copied, option_map};
ghost use Rattle.explain_clock.specs.ClockExplanations.{activities_that, explained_activities, activities_wait_line, is_unstarted, paragraph_said, paragraph_by, paragraph_of, paragraph_of_thing, paragraph_saying, paragraph_sayings, started_at, unstarted_line, wait_words, waiting_paragraph, waits_there};
ghost use Rattle.explain_clock.specs.inside.KeptLines.{AreKept};
ghost use Rattle.explain_clock.specs.inside.ToldTogether.{AreToldAs, said_bytes};

use crate::activity_lists::activity_list;
use crate::counts::{is_unstarted, waits_there};
use crate::facts::ClockFacts;
use crate::kept_lines::Kept;
use crate::text_facts::ClockTextFacts;
use crate::together::{ActivityTold, add_sayings, those_said};
use armus_base::{Event, NoMemory, TaskEnd, TaskId, put_number, put_words};
use clock_source_map::{ClockBegun, ClockThing};
use explain_tasks::{passing_below, put_by_number};

// The statement that starts an activity, if there is one.
fn started_at(begun: Option<&ClockBegun<'_>>) -> Option<u32>
    ensures { result ≡ started_at (option_copied begun.entry) }
{
    match begun {
        Some(begun) => Some(begun.statement()),
        None => None,
    }
}

impl<'a> ClockTextFacts<'a> {
    // Appends that so many activities wait at an advance on the clock of this name, made at statement `s`.
    fn put_advance(
        &self,
        out: &mut Vec<u8>,
        n: usize,
        event: Event,
        x: &[u8],
        s: u32,
    ) -> Result<(), NoMemory>
        ensures { OnOk result (out.new.items ≡ out.old.items ++ wait_words self.now n event (Some x.now) s) }
    {
        put_by_number(
            out,
            n,
            b" waits at its advance for phase ",
            b" wait at their advance for phase ",
        )?;
        put_number(self.alloc, out, event.n as u64)?;
        put_words(out, b" of ")?;
        self.put_clock(out, x, s)
    }

    // Appends for what so many activities wait: a clock of this name, or a finish, made at statement `s`.
    fn put_wait(
        &self,
        out: &mut Vec<u8>,
        n: usize,
        event: Event,
        name: Option<&[u8]>,
        s: u32,
    ) -> Result<(), NoMemory>
        ensures { OnOk result (out.new.items ≡ out.old.items ++ wait_words self.now n event (option_map (λ x. x.now) name.entry) s) }
    {
        match name {
            Some(x) => self.put_advance(out, n, event, x, s),
            None => {
                put_by_number(out, n, b" waits at the end of ", b" wait at the end of ")?;
                self.put_finish(out, s)
            }
        }
    }

    // Appends the line of so many activities, called so, that are not started, as activity `t` is not.
    fn put_unstarted(&self, out: &mut Vec<u8>, t: u32, n: usize, who: &[u8]) -> Result<(), NoMemory>
        ensures { OnOk result (out.new.items ≡ out.old.items ++ unstarted_line self.now t n who.now) }
    {
        self.put_front(out, started_at(self.begun(t)))?;
        put_words(out, who)?;
        self.put_started_at(out, t)?;
        put_by_number(out, n, b" is not started", b" are not started")?;
        put_words(out, b"\n")
    }
}

// So many activities, called so, of whom is said what is said of one.
#[derive(Drop)]
struct Those<'w> {
    t: u32,
    n: usize,
    who: &'w [u8],
}

impl<'a> ClockFacts<'a> {
    // Appends the first line of activities that wait for the event of this clock or finish.
    fn put_first_line(
        &self,
        out: &mut Vec<u8>,
        those: &Those<'_>,
        event: Event,
        thing: &ClockThing<'a>,
    ) -> Result<(), NoMemory>
        ensures { OnOk result (out.new.items ≡ out.old.items ++ activities_wait_line self.now those.now.t those.now.n those.now.who.now event thing.now) }
    {
        self.of_text.put_front(out, self.waits_at(those.t))?;
        put_words(out, those.who)?;
        self.of_text.put_started_at(out, those.t)?;
        self.of_text
            .put_wait(out, those.n, event, thing.name(), thing.statement())?;
        put_words(out, b"\n")
    }

    // Appends the paragraph of activities that wait for the event of this clock or finish.
    fn put_waiting(
        &self,
        out: &mut Vec<u8>,
        kept: &[Kept],
        those: &Those<'_>,
        event: Event,
        thing: &ClockThing<'a>,
    ) -> Result<(), NoMemory>
        requires kept { AreKept self.now kept.now }
        ensures { OnOk result (out.new.items ≡ out.old.items ++ waiting_paragraph self.now those.now.t those.now.n those.now.who.now event thing.now) }
    {
        self.put_first_line(out, those, event, thing)?;
        self.put_keeper_lines(out, kept, event)?;
        self.put_pending_lines(out, event, those.t)
    }

    // Appends the same, if there is such a clock or finish.
    fn put_waiting_for(
        &self,
        out: &mut Vec<u8>,
        kept: &[Kept],
        those: &Those<'_>,
        event: Event,
        thing: Option<&ClockThing<'a>>,
    ) -> Result<(), NoMemory>
        requires kept { AreKept self.now kept.now }
        ensures { OnOk result (out.new.items ≡ out.old.items ++ paragraph_of_thing self.now those.now.t those.now.n those.now.who.now event (option_copied thing.entry)) }
    {
        match thing {
            Some(thing) => self.put_waiting(out, kept, those, event, thing),
            None => Ok(()),
        }
    }

    // Appends the paragraph of activities that have ended so.
    fn put_paragraph(
        &self,
        out: &mut Vec<u8>,
        kept: &[Kept],
        those: &Those<'_>,
        end: TaskEnd,
    ) -> Result<(), NoMemory>
        requires kept { AreKept self.now kept.now }
        ensures { OnOk result (out.new.items ≡ out.old.items ++ paragraph_by self.now those.now.t those.now.n those.now.who.now end) }
    {
        match end {
            TaskEnd::Blocked(event) => self.put_waiting_for(
                out,
                kept,
                those,
                event,
                self.of_text.thing(event.p.0),
            ),
            TaskEnd::Unforked => self.of_text.put_unstarted(out, those.t, those.n, those.who),
            TaskEnd::Done | TaskEnd::Refused(_) => Ok(()),
        }
    }

    // What the paragraph of activity `t` says, but for its number.
    fn paragraph_said(&self, kept: &[Kept], t: u32) -> Result<Vec<u8>, NoMemory>
        requires kept { AreKept self.now kept.now }
        ensures { IfOk result (λ v. v.items ≡ paragraph_said self.now t) }
    {
        let of_text = self.of_text;
        let mut out = Vec::new(of_text.alloc);
        let those = Those { t, n: 1, who: b"" };
        self.put_paragraph(&mut out, kept, &those, self.end(t))?;
        Ok(out)
    }

    // Appends the paragraph of these activities, of whom the same is said.
    fn put_paragraph_of(
        &self,
        out: &mut Vec<u8>,
        kept: &[Kept],
        activities: &[TaskId],
    ) -> Result<(), NoMemory>
        requires kept { AreKept self.now kept.now }
        ensures { OnOk result (out.new.items ≡ out.old.items ++ paragraph_of self.now activities.now) }
    {
        let of_text = self.of_text;
        match activities {
            [] => Ok(()),
            [t, ..] => {
                let who = activity_list(of_text.alloc, activities)?;
                let those = Those {
                    t: t.0,
                    n: activities.len(),
                    who: &who,
                };
                self.put_paragraph(out, kept, &those, self.end(t.0))
            }
        }
    }

    // What is said of each of these activities.
    fn told_of(&self, kept: &[Kept], activities: &[TaskId]) -> Result<Vec<ActivityTold>, NoMemory>
        requires kept { AreKept self.now kept.now }
        ensures { IfOk result (λ v. AreToldAs (paragraph_said self.now) activities.now v.items) }
    {
        let of_text = self.of_text;
        let mut told = Vec::with_capacity(of_text.alloc, activities.len())?;
        for t in activities {
            told.push(ActivityTold {
                said: self.paragraph_said(kept, t.0)?,
                activity: *t,
            })?;
        }
        Ok(told)
    }

    // The activities that wait.
    fn waiting(&self) -> Result<Vec<TaskId>, NoMemory>
        ensures { IfOk result (λ v. v.items ≡ activities_that waits_there self.now) }
    {
        let of_text = self.of_text;
        passing_below(of_text.alloc, self.count(), |t| waits_there(self.end(t.0)))
    }

    // The activities that are not started.
    fn unstarted(&self) -> Result<Vec<TaskId>, NoMemory>
        ensures { IfOk result (λ v. v.items ≡ activities_that is_unstarted self.now) }
    {
        let of_text = self.of_text;
        passing_below(of_text.alloc, self.count(), |t| is_unstarted(self.end(t.0)))
    }

    // The activities that have a paragraph.
    fn explained(&self) -> Result<Vec<TaskId>, NoMemory>
        ensures { IfOk result (λ v. v.items ≡ explained_activities self.now) }
    {
        let mut all = self.waiting()?;
        let unstarted = self.unstarted()?;
        all.extend_from_slice(&unstarted)?;
        Ok(all)
    }

    // What is said of the activities of the circle, and of these, each thing once.
    fn sayings(
        &self,
        kept: &[Kept],
        circle: &[TaskId],
        told: &[ActivityTold],
    ) -> Result<Vec<Vec<u8>>, NoMemory>
        requires kept { AreKept self.now kept.now }
        requires told { AreToldAs (paragraph_said self.now) (explained_activities self.now) told.now }
        ensures { IfOk result (λ v. map said_bytes v.items ≡ paragraph_sayings self.now circle.now) }
    {
        let of_text = self.of_text;
        let alloc = of_text.alloc;
        let first = self.told_of(kept, circle)?;
        let mut sayings = Vec::new(alloc);
        add_sayings(alloc, &mut sayings, &first)?;
        add_sayings(alloc, &mut sayings, told)?;
        Ok(sayings)
    }

    // Appends the paragraphs that say this, each of all those of whom it is so.
    fn put_each(
        &self,
        out: &mut Vec<u8>,
        kept: &[Kept],
        told: &[ActivityTold],
        sayings: &[Vec<u8>],
    ) -> Result<(), NoMemory>
        requires kept { AreKept self.now kept.now }
        requires told { AreToldAs (paragraph_said self.now) (explained_activities self.now) told.now }
        ensures { OnOk result (out.new.items ≡ out.old.items ++ flat_map (paragraph_saying self.now) (map said_bytes sayings.now)) }
    {
        let of_text = self.of_text;
        for said in sayings {
            let activities = those_said(of_text.alloc, told, said.as_slice())?;
            self.put_paragraph_of(out, kept, &activities)?;
        }
        Ok(())
    }

    // Appends the paragraphs of all activities that wait or are not started, where this is the circle.
    pub(crate) fn put_paragraphs(
        &self,
        out: &mut Vec<u8>,
        circle: &[TaskId],
    ) -> Result<(), NoMemory>
        ensures { OnOk result (out.new.items ≡ out.old.items ++ flat_map (paragraph_saying self.now) (paragraph_sayings self.now circle.now)) }
    {
        let kept = self.kept_lines()?;
        let all = self.explained()?;
        let told = self.told_of(&kept, &all)?;
        let sayings = self.sayings(&kept, circle, &told)?;
        self.put_each(out, &kept, &told, &sayings)
    }
}
