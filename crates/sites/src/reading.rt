// What a row stores, whatever it is of.
ghost use Rattle.sites.specs.inside.Reading.{GivesRead, front_event, items_at, front_number, phase_at, row_at, status_at};

use crate::DecodeEnd;
use armus_base::{Event, List, Member, PhaserId, Status, TaskId};
use std::alloc::Global;

fn number_of(bytes: &[u8]) -> Result<(u32, &[u8]), DecodeEnd>
    ensures { GivesRead (λ x. (x.0, x.1.now)) result (front_number bytes.now) }
{
    if bytes.len() < 4 {
        return Err(DecodeEnd::Bad);
    }
    let (front, rest) = bytes.split_at(4);
    let number = u32::from_be_bytes([front[0], front[1], front[2], front[3]]);
    Ok((number, rest))
}

#[tactic(auto, unfolding(crate::specs::inside::Reading::phase_at))]
fn phase_of(bytes: &[u8]) -> Result<(Member, &[u8]), DecodeEnd>
    ensures { GivesRead (λ x. (x.0, x.1.now)) result (phase_at bytes.now) }
{
    let (p, rest) = number_of(bytes)?;
    let (n, rest) = number_of(rest)?;
    Ok((Member { p: PhaserId(p), n }, rest))
}

fn phases_of(alloc: Global, count: u32, bytes: &[u8]) -> Result<(Vec<Member>, &[u8]), DecodeEnd>
    ensures { GivesRead (λ x. (x.0.items, x.1.now)) result (items_at phase_at count bytes.now) }
{
    let mut phases = Vec::new(alloc);
    let mut rest = bytes;
    for _ in 0..count {
        let (phase, after) = phase_of(rest)?;
        phases.push(phase)?;
        rest = after;
    }
    Ok((phases, rest))
}

#[tactic(auto, unfolding(crate::specs::inside::Reading::front_event))]
fn event_of(bytes: &[u8]) -> Result<(Event, &[u8]), DecodeEnd>
    ensures { GivesRead (λ x. (x.0, x.1.now)) result (front_event bytes.now) }
{
    let (p, rest) = number_of(bytes)?;
    let (n, rest) = number_of(rest)?;
    Ok((Event { p: PhaserId(p), n }, rest))
}

#[tactic(auto, unfolding(crate::specs::inside::Reading::status_at))]
fn status_of(alloc: Global, bytes: &[u8]) -> Result<(Status, &[u8]), DecodeEnd>
    ensures { GivesRead (λ x. (x.0, x.1.now)) result (status_at bytes.now) }
{
    let (t, rest) = number_of(bytes)?;
    let (event, rest) = event_of(rest)?;
    let (count, rest) = number_of(rest)?;
    let (phases, rest) = phases_of(alloc, count, rest)?;
    let status = Status {
        t: TaskId(t),
        event,
        phases: List::from_vec(phases),
    };
    Ok((status, rest))
}

fn statuses_of(alloc: Global, count: u32, bytes: &[u8]) -> Result<(Vec<Status>, &[u8]), DecodeEnd>
    ensures { GivesRead (λ x. (x.0.items, x.1.now)) result (items_at status_at count bytes.now) }
{
    let mut statuses = Vec::new(alloc);
    let mut rest = bytes;
    for _ in 0..count {
        let (status, after) = status_of(alloc, rest)?;
        statuses.push(status)?;
        rest = after;
    }
    Ok((statuses, rest))
}

/// The statuses of which the bytes are the row, all of the bytes.
#[tactic(auto, unfolding(crate::specs::inside::Reading::row_at))]
pub(crate) fn row_of(alloc: Global, bytes: &[u8]) -> Result<Vec<Status>, DecodeEnd>
    ensures { GivesRead (λ v. v.items) result (row_at bytes.now) }
{
    let (count, rest) = number_of(bytes)?;
    let (statuses, rest) = statuses_of(alloc, count, rest)?;
    if !rest.is_empty() {
        return Err(DecodeEnd::Bad);
    }
    Ok(statuses)
}
