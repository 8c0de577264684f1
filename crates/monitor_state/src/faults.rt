// The first fault of a line.
ghost use Rattle.std.specs.Prelude.{◌≡◌, is_some};
ghost use Rattle.std.specs.Option.{option_copied, option_map};
ghost use Rattle.trace_lines.specs.Values.{said_value};
ghost use Rattle.monitor_laws.specs.Faults.{is_go, is_join, is_of_tasks};
ghost use Rattle.monitor_words.specs.calls.FaultValues.{fault_of_line};
ghost use Rattle.monitor_state.specs.inside.FirstFaults.{announced_fault, any_fault, is_task_there, is_wildcard_there, one_of_fault, phase_there, room_fault, said_fault, is_waiting_there};

use crate::ListedParticipant;
use monitor_words::FaultOfLine;
use trace_lines::Announcement;

// The phase on phaser p of who is there.
fn phase_there(found: Option<&ListedParticipant>, p: &[u8]) -> Option<u32>
    ensures { result ≡ phase_there (option_copied found.entry) p.now }
{
    match found {
        None => None,
        Some(u) => u.phase_on(p),
    }
}

// Whether who is there waits.
fn is_waiting_there(found: Option<&ListedParticipant>) -> bool
    ensures { result ≡ is_waiting_there (option_copied found.entry) }
{
    match found {
        None => false,
        Some(u) => u.condition().waits(),
    }
}

/// Whether a wildcard is there.
pub(crate) fn is_wildcard_there(found: Option<&ListedParticipant>) -> bool
    ensures { result ≡ is_wildcard_there (option_copied found.entry) }
{
    match found {
        None => false,
        Some(u) => u.condition().is_live_wildcard(),
    }
}

/// Whether a task is there.
pub(crate) fn is_task_there(found: Option<&ListedParticipant>) -> bool
    ensures { result ≡ is_task_there (option_copied found.entry) }
{
    match found {
        None => false,
        Some(u) => u.condition().is_live_task(),
    }
}

// Whether only a task says so.
fn is_of_tasks(what: &Announcement) -> bool
    ensures { result ≡ is_of_tasks (said_value what.now) }
{
    matches!(
        what,
        Announcement::Waits(_, _) | Announcement::Goes | Announcement::Stands
    )
}

// Whether it is a go.
fn is_go(what: &Announcement) -> bool
    ensures { result ≡ is_go (said_value what.now) }
{
    matches!(what, Announcement::Goes)
}

// Whether it is a join.
fn is_join(what: &Announcement) -> bool
    ensures { result ≡ is_join (said_value what.now) }
{
    matches!(what, Announcement::Joins(_, _))
}

// The first fault of what is said of t, apart from who is there and from room.
#[tactic(auto, unfolding(crate::specs::inside::FirstFaults::said_fault))]
fn said_fault<'a>(
    t: &'a [u8],
    found: Option<&ListedParticipant>,
    what: &Announcement<'a>,
) -> Option<FaultOfLine<'a>>
    ensures { option_map fault_of_line result ≡ said_fault t.now (option_copied found.entry) (said_value what.now) }
{
    match what {
        Announcement::Joins(p, _) => match phase_there(found, p) {
            None => None,
            Some(_) => Some(FaultOfLine::IsMemberAlready(t, p)),
        },
        Announcement::Arrives(p) => match phase_there(found, p) {
            None => Some(FaultOfLine::IsNoMember(t, p)),
            Some(m) => {
                if m == u32::MAX {
                    Some(FaultOfLine::IsAtLastPhase(t, p))
                } else {
                    None
                }
            }
        },
        Announcement::Leaves(p) => match phase_there(found, p) {
            None => Some(FaultOfLine::IsNoMember(t, p)),
            Some(_) => None,
        },
        Announcement::Goes => {
            if is_waiting_there(found) {
                None
            } else {
                Some(FaultOfLine::DoesNotWait(t))
            }
        }
        Announcement::Waits(_, _) | Announcement::Ends | Announcement::Stands => None,
    }
}

/// The fault of a line that has no room: the list is full, or its memberships are too many.
pub(crate) fn room_fault<'a>(no_place: bool, too_many: bool) -> Option<FaultOfLine<'a>>
    ensures { option_map fault_of_line result ≡ room_fault no_place too_many }
{
    if no_place {
        return Some(FaultOfLine::TooManyListed);
    }
    if too_many {
        return Some(FaultOfLine::TooManyMemberships);
    }
    None
}

/// The first fault of what t announces: who is there with the name, whether a place stands behind, and whether the list and its memberships are full.
#[tactic(auto, unfolding(crate::specs::inside::FirstFaults::announced_fault))]
pub(crate) fn announced_fault<'a>(
    t: &'a [u8],
    found: Option<&ListedParticipant>,
    what: &Announcement<'a>,
    is_placed: bool,
    is_full: bool,
    has_most: bool,
) -> Option<FaultOfLine<'a>>
    ensures { option_map fault_of_line result ≡ announced_fault t.now (option_copied found.entry) (said_value what.now) is_placed is_full has_most }
{
    if is_wildcard_there(found) && (is_of_tasks(what) || is_placed) {
        return Some(FaultOfLine::NamesWildcard(t));
    }
    if is_waiting_there(found) && !is_go(what) {
        return Some(FaultOfLine::StillWaits(t));
    }
    match said_fault(t, found, what) {
        Some(fault) => Some(fault),
        None => room_fault(found.is_none() && is_full, is_join(what) && has_most),
    }
}

/// The first fault of a line by which any task may play the wildcard w: who is there with the name, and whether the list is full.
#[tactic(auto, unfolding(crate::specs::inside::FirstFaults::any_fault))]
pub(crate) fn any_fault<'a>(
    w: &'a [u8],
    found: Option<&ListedParticipant>,
    is_full: bool,
) -> Option<FaultOfLine<'a>>
    ensures { option_map fault_of_line result ≡ any_fault w.now (option_copied found.entry) is_full }
{
    if is_task_there(found) {
        return Some(FaultOfLine::NamesTask(w));
    }
    room_fault(found.is_none() && is_full, false)
}

/// The first fault of a line by which one of these tasks may play the wildcard w, apart from its memberships: who is there with the name, the first of the names
/// that is w or one of a wildcard, and whether the list is full.
#[tactic(auto, unfolding(crate::specs::inside::FirstFaults::one_of_fault))]
pub(crate) fn one_of_fault<'a>(
    w: &'a [u8],
    found: Option<&ListedParticipant>,
    misnamed: Option<&'a [u8]>,
    is_full: bool,
) -> Option<FaultOfLine<'a>>
    ensures { option_map fault_of_line result ≡ one_of_fault w.now (option_copied found.entry) (option_copied misnamed.entry) is_full }
{
    if is_task_there(found) {
        return Some(FaultOfLine::NamesTask(w));
    }
    match misnamed {
        Some(t) => Some(FaultOfLine::NamesWildcard(t)),
        None => room_fault(found.is_none() && is_full, false),
    }
}
