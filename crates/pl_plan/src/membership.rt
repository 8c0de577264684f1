// On which phasers somebody is a member.

ghost use Rattle.std.specs.Prelude.{◌≡◌, [], slice_index_or, false, OnOk, OnErr, IfOk};
ghost use Rattle.pl_plan.specs.calls.MemberRows.{lengthened, marked};

use armus_base::PhaserId;
use std::alloc::{AllocError, Global};
use std::marker::Model;

/// On which phasers a task is a member, seen as a row of tests by number: one for each phaser up to the last one that was marked. Behind the end of the row
/// the task is no member.
#[derive(Drop)]
pub struct Membership {
    tests: Vec<bool>,
}

impl Model for Membership {
    ghost use Rattle.std.specs.Prelude.{List as Seq, Bool};

    ghost Value = { Seq Bool };

    ghost view = { λ m. m.tests.items };
}

impl Membership {
    /// On none; it takes no memory.
    pub fn new(alloc: Global) -> Membership
        ensures { result ≡ [] }
    {
        Membership {
            tests: Vec::new(alloc),
        }
    }

    /// Whether it is a member of `p`.
    pub fn is_of(&self, p: PhaserId) -> bool
        ensures { result ≡ slice_index_or self.now p.0 false }
    {
        match self.tests.get(p.0 as usize) {
            None => false,
            Some(member) => *member,
        }
    }

    /// Says whether it is a member of `p`. Without memory for a longer row it stays as it was.
    pub fn mark(&mut self, p: PhaserId, member: bool) -> Result<(), AllocError>
        ensures ok { OnOk result (self.new ≡ marked p.0 member self.old) }
        ensures err { OnErr result (self.new ≡ self.old) }
    {
        let p = p.0 as usize;
        lengthen(&mut self.tests, p + 1)?;
        self.tests[p] = member;
        Ok(())
    }

    /// The same row in memory of its own.
    pub fn copied(&self, alloc: Global) -> Result<Membership, AllocError>
        ensures { IfOk result (λ row. row ≡ self.now) }
    {
        Ok(Membership {
            tests: Vec::from_slice(alloc, &self.tests)?,
        })
    }
}

// With `false` behind the end, up to n tests at least.
fn lengthen(tests: &mut Vec<bool>, n: usize) -> Result<(), AllocError>
    ensures ok { OnOk result (tests.new.items ≡ lengthened n tests.old.items) }
    ensures err { OnErr result (tests.new.items ≡ tests.old.items) }
{
    if n <= tests.len() {
        return Ok(());
    }
    tests.resize(n, false)
}
