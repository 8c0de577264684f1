// Who stands at which phase, phaser by phaser.
ghost use Rattle.std.specs.Prelude.{◌≡◌, ◌++◌, ◌<◌, ◌^◌, IfOk, OnOk, length, map};
ghost use Rattle.armus_base.specs.declared.status.Status.{Status};
ghost use Rattle.armus_base.specs.calls.Statuses.{IsInOrder};
ghost use Rattle.adaptive.specs.inside.Standings.{AreStandingsOf, StandingsNeverFall, standing_at};

use armus_base::{Event, Member, Status};
use std::alloc::{AllocError, Global};

/// A phase on a phaser, and the index of the status whose task stands there.
#[derive(Clone, Copy, Debug, PartialEq, Eq, PartialOrd, Ord)]
pub(crate) struct PhaseStanding {
    pub(crate) at: Event,
    pub(crate) status: u32,
}

// The standing of a task at one of its phases.
fn standing_at(member: Member, status: u32) -> PhaseStanding
    ensures { result ≡ standing_at status member }
{
    PhaseStanding {
        at: Event {
            p: member.p,
            n: member.n,
        },
        status,
    }
}

// Adds the standings of one task.
fn add_phases(
    standings: &mut Vec<PhaseStanding>,
    phases: &[Member],
    status: u32,
) -> Result<(), AllocError>
    ensures { OnOk result (standings.new.items ≡ standings.old.items ++ map (standing_at status) phases.now) }
{
    for member in phases {
        standings.push(standing_at(*member, status))?;
    }
    Ok(())
}

// The standings of all tasks, status by status.
fn collected(alloc: Global, list: &[Status]) -> Result<Vec<PhaseStanding>, AllocError>
    requires few { length list.now < 2 ^ 31 }
    ensures { IfOk result (λ standings. AreStandingsOf list.now standings.items) }
{
    let mut standings = Vec::new(alloc);
    for k in 0..list.len() {
        add_phases(&mut standings, list[k].phases.as_slice(), k as u32)?;
    }
    Ok(standings)
}

/// The standings of all tasks of the list, by phaser and then by phase.
pub(crate) fn standings_of(alloc: Global, list: &[Status]) -> Result<Vec<PhaseStanding>, AllocError>
    requires { IsInOrder list.now }
    ensures are { IfOk result (λ standings. AreStandingsOf list.now standings.items) }
    ensures ordered { IfOk result (λ standings. StandingsNeverFall standings.items) }
{
    let mut standings = collected(alloc, list)?;
    standings.sort_unstable();
    Ok(standings)
}
