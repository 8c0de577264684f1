// Whose signal is missing, and who has not ended.
ghost use Rattle.std.specs.Prelude.{◌≡◌, [], ◌++◌, IfOk, None, OnOk, Some, flat_map, map, option_map};
ghost use Rattle.explain_clock.specs.ClockKeepers.{next_doing_words, ending_words, is_below, is_missing, keeper_line, keeper_lines, keeper_said, keepers, keepers_line, lines_of, missing_words, move_words, clock_name, behind_words, standing_words};
ghost use Rattle.explain_clock.specs.ActivityLists.{those_said};
ghost use Rattle.explain_clock.specs.ClockWords.{started_at_words};
ghost use Rattle.explain_clock.specs.inside.ToldTogether.{AreToldAs, said_bytes};

use crate::activity_lists::activity_list;
use crate::facts::{ClockFacts, NextMove};
use crate::few_lines::{FEW_LINES, put_more};
use crate::text_facts::ClockTextFacts;
use crate::together::{ActivityTold, add_sayings, count_others, those_said};
use armus_base::{Event, Member, NoMemory, PhaserId, Status, TaskId, put_words};
use explain_facts::Doing;
use explain_tasks::{push_if, put_by_number};

// Whether this is a phase of that clock or finish, and below the phase that is waited for.
fn is_below(event: Event, member: Member) -> bool
    ensures { result ≡ is_below event member }
{
    member.p == event.p && member.n < event.n
}

// Whether the activity of this status keeps the event from being reached.
fn is_missing(event: Event, status: &Status) -> bool
    ensures { result ≡ is_missing event status.now }
{
    status.phases.as_slice().iter().any(|m| is_below(event, *m))
}

// Appends that so many activities leave a clock at their end, or that they end.
fn put_ending(out: &mut Vec<u8>, name: Option<&[u8]>, n: usize) -> Result<(), NoMemory>
    ensures { OnOk result (out.new.items ≡ out.old.items ++ ending_words (option_map (λ x. x.now) name.entry) n) }
{
    match name {
        Some(_) => put_by_number(
            out,
            n,
            b"; it leaves at its end",
            b"; they leave at their end",
        ),
        None => put_by_number(out, n, b"; it ends", b"; they end"),
    }
}

// Appends what is done at a statement, up to the place of this.
fn put_doing(out: &mut Vec<u8>, does: Doing) -> Result<(), NoMemory>
    ensures { OnOk result (out.new.items ≡ out.old.items ++ next_doing_words does) }
{
    match does {
        Doing::Advances => put_words(out, b"; next signal at "),
        Doing::Leaves => put_words(out, b"; next drop at "),
    }
}

impl<'a> ClockTextFacts<'a> {
    // The name of clock `p`; a finish has none.
    fn clock_name(&self, p: PhaserId) -> Option<&[u8]>
        ensures { option_map (λ x. x.now) result ≡ clock_name self.now p.0 }
    {
        match self.thing(p.0) {
            Some(thing) => thing.name(),
            None => None,
        }
    }

    // Appends activities that are called so and started as activity `t` is.
    fn put_named(&self, out: &mut Vec<u8>, t: u32, who: &[u8]) -> Result<(), NoMemory>
        ensures { OnOk result (out.new.items ≡ out.old.items ++ (who.now ++ started_at_words self.now t)) }
    {
        put_words(out, who)?;
        self.put_started_at(out, t)
    }

    // Appends that the signals of so many activities are missing.
    fn put_signals(&self, out: &mut Vec<u8>, t: u32, n: usize, who: &[u8]) -> Result<(), NoMemory>
        ensures { OnOk result (out.new.items ≡ out.old.items ++ missing_words (Some []) n (who.now ++ started_at_words self.now t)) }
    {
        put_by_number(out, n, b"  the signal of ", b"  the signals of ")?;
        self.put_named(out, t, who)?;
        put_by_number(out, n, b" is missing", b" are missing")
    }

    // Appends that so many activities have not ended.
    fn put_not_ended(&self, out: &mut Vec<u8>, t: u32, n: usize, who: &[u8]) -> Result<(), NoMemory>
        ensures { OnOk result (out.new.items ≡ out.old.items ++ missing_words None n (who.now ++ started_at_words self.now t)) }
    {
        put_words(out, b"  ")?;
        self.put_named(out, t, who)?;
        put_by_number(out, n, b" has not ended", b" have not ended")
    }

    // Appends that the signals of so many activities on a clock are missing, or that they have not ended.
    fn put_missing(
        &self,
        out: &mut Vec<u8>,
        name: Option<&[u8]>,
        t: u32,
        n: usize,
        who: &[u8],
    ) -> Result<(), NoMemory>
        ensures { OnOk result (out.new.items ≡ out.old.items ++ missing_words (option_map (λ x. x.now) name.entry) n (who.now ++ started_at_words self.now t)) }
    {
        match name {
            Some(_) => self.put_signals(out, t, n, who),
            None => self.put_not_ended(out, t, n, who),
        }
    }

    // Appends where so many activities wait.
    fn put_standing(&self, out: &mut Vec<u8>, n: usize, at: Option<u32>) -> Result<(), NoMemory>
        ensures { OnOk result (out.new.items ≡ out.old.items ++ standing_words self.now n at) }
    {
        let Some(at) = at else {
            return Ok(());
        };
        put_by_number(out, n, b": it waits at ", b": they wait at ")?;
        self.put_place(out, at)
    }

    // Appends what so many activities do at a statement, or at their end.
    fn put_move(
        &self,
        out: &mut Vec<u8>,
        name: Option<&[u8]>,
        n: usize,
        next: NextMove,
    ) -> Result<(), NoMemory>
        ensures { OnOk result (out.new.items ≡ out.old.items ++ move_words self.now (option_map (λ x. x.now) name.entry) n next.does next.statement) }
    {
        match next.statement {
            Some(at) => {
                put_doing(out, next.does)?;
                self.put_place(out, at)
            }
            None => put_ending(out, name, n),
        }
    }

    // Appends what so many activities do next behind their wait.
    fn put_next(
        &self,
        out: &mut Vec<u8>,
        name: Option<&[u8]>,
        n: usize,
        next: Option<NextMove>,
    ) -> Result<(), NoMemory>
        ensures { OnOk result (out.new.items ≡ out.old.items ++ behind_words self.now (option_map (λ x. x.now) name.entry) n next) }
    {
        match next {
            Some(next) => {
                self.put_move(out, name, n, next)?;
                put_words(out, b", behind this wait")
            }
            None => Ok(()),
        }
    }
}

impl<'a> ClockFacts<'a> {
    // The activities that wait and keep the event from being reached.
    fn keepers(&self, event: Event) -> Result<Vec<TaskId>, NoMemory>
        ensures { IfOk result (λ v. v.items ≡ keepers self.now event) }
    {
        let of_text = self.of_text;
        let mut all = Vec::new(of_text.alloc);
        for status in self.end.blocked.as_slice() {
            push_if(&mut all, status.t, is_missing(event, status))?;
        }
        Ok(all)
    }

    // Appends the line of so many activities, called so, that keep the event from being reached, as activity `t` does.
    fn put_keeper(
        &self,
        out: &mut Vec<u8>,
        event: Event,
        t: u32,
        n: usize,
        who: &[u8],
    ) -> Result<(), NoMemory>
        ensures { OnOk result (out.new.items ≡ out.old.items ++ keeper_line self.now event t n who.now) }
    {
        let name = self.of_text.clock_name(event.p);
        self.of_text.put_missing(out, name, t, n, who)?;
        self.of_text.put_standing(out, n, self.waits_at(t))?;
        self.of_text.put_next(out, name, n, self.next(t, event.p))?;
        put_words(out, b"\n")
    }

    // What the line of activity `t` says, but for its number.
    fn keeper_said(&self, event: Event, t: u32) -> Result<Vec<u8>, NoMemory>
        ensures { IfOk result (λ v. v.items ≡ keeper_said self.now event t) }
    {
        let of_text = self.of_text;
        let mut out = Vec::new(of_text.alloc);
        self.put_keeper(&mut out, event, t, 1, b"")?;
        Ok(out)
    }

    // Appends the line of these activities, of whom the same is said.
    fn put_keepers(
        &self,
        out: &mut Vec<u8>,
        event: Event,
        activities: &[TaskId],
    ) -> Result<(), NoMemory>
        ensures { OnOk result (out.new.items ≡ out.old.items ++ keepers_line self.now event activities.now) }
    {
        let of_text = self.of_text;
        match activities {
            [] => Ok(()),
            [t, ..] => {
                let who = activity_list(of_text.alloc, activities)?;
                self.put_keeper(out, event, t.0, activities.len(), &who)
            }
        }
    }

    // What is said of each of these activities.
    fn told_of_keepers(
        &self,
        event: Event,
        activities: &[TaskId],
    ) -> Result<Vec<ActivityTold>, NoMemory>
        ensures { IfOk result (λ v. AreToldAs (keeper_said self.now event) activities.now v.items) }
    {
        let of_text = self.of_text;
        let mut told = Vec::with_capacity(of_text.alloc, activities.len())?;
        for t in activities {
            told.push(ActivityTold {
                said: self.keeper_said(event, t.0)?,
                activity: *t,
            })?;
        }
        Ok(told)
    }

    // Appends the lines that say this, each of all those of whom it is so.
    fn put_each_saying(
        &self,
        out: &mut Vec<u8>,
        event: Event,
        told: &[ActivityTold],
        sayings: &[Vec<u8>],
    ) -> Result<(), NoMemory>
        requires told { AreToldAs (keeper_said self.now event) (keepers self.now event) told.now }
        ensures { OnOk result (out.new.items ≡ out.old.items
            ++ flat_map (λ said. keepers_line self.now event (those_said (keeper_said self.now event) (keepers self.now event) said)) (map said_bytes sayings.now)) }
    {
        let of_text = self.of_text;
        for said in sayings {
            let activities = those_said(of_text.alloc, told, said.as_slice())?;
            self.put_keepers(out, event, &activities)?;
        }
        Ok(())
    }

    // Appends these lines, and the number of the others.
    fn put_lines(
        &self,
        out: &mut Vec<u8>,
        event: Event,
        told: &[ActivityTold],
        sayings: &[Vec<u8>],
    ) -> Result<(), NoMemory>
        requires told { AreToldAs (keeper_said self.now event) (keepers self.now event) told.now }
        ensures { OnOk result (out.new.items ≡ out.old.items ++ lines_of self.now event (map said_bytes sayings.now)) }
    {
        let of_text = self.of_text;
        self.put_each_saying(out, event, told, sayings)?;
        put_more(of_text.alloc, out, count_others(told, sayings))
    }

    /// The lines of those who keep the event from being reached.
    pub(crate) fn keeper_lines(&self, event: Event) -> Result<Vec<u8>, NoMemory>
        ensures { IfOk result (λ v. v.items ≡ keeper_lines self.now event) }
    {
        let of_text = self.of_text;
        let alloc = of_text.alloc;
        let activities = self.keepers(event)?;
        let told = self.told_of_keepers(event, &activities)?;
        let mut sayings = Vec::new(alloc);
        add_sayings(alloc, &mut sayings, &told)?;
        sayings.truncate(FEW_LINES);
        let mut out = Vec::new(alloc);
        self.put_lines(&mut out, event, &told, &sayings)?;
        Ok(out)
    }
}
