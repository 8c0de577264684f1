// A snapshot as a row.
ghost use Rattle.std.specs.Prelude.{◌≡◌, ◌<◌, ◌^◌, ◌++◌, length, All, IfOk, OnOk};
ghost use Rattle.std.specs.Int.{w32, to_be_bytes};
ghost use Rattle.std.specs.List.{flat_map};
ghost use Rattle.armus_base.specs.calls.Statuses.{IsInOrder};
ghost use Rattle.sites.specs.calls.Rows.{HasNumbers, HasPhaseNumbers, phase_bytes, row_bytes, status_bytes};

use crate::Snapshot;
use armus_base::{List, Member, NoMemory, Status};
use std::alloc::Global;

/// Appends a number.
pub(crate) fn put_number(out: &mut Vec<u8>, n: u32) -> Result<(), NoMemory>
    ensures { OnOk result (out.new.items ≡ out.old.items ++ to_be_bytes w32 n) }
{
    out.extend_from_slice(&n.to_be_bytes())?;
    Ok(())
}

// Appends a phase.
fn put_phase(out: &mut Vec<u8>, m: Member) -> Result<(), NoMemory>
    ensures bytes { OnOk result (out.new.items ≡ out.old.items ++ phase_bytes m) }
    ensures numbers { HasPhaseNumbers m }
{
    put_number(out, m.p.0)?;
    put_number(out, m.n)?;
    Ok(())
}

// Appends phases, one after the other.
fn put_phases(out: &mut Vec<u8>, phases: &[Member]) -> Result<(), NoMemory>
    ensures bytes { OnOk result (out.new.items ≡ out.old.items ++ flat_map phase_bytes phases.now) }
    ensures numbers { OnOk result (All HasPhaseNumbers phases.now) }
{
    for m in phases {
        put_phase(out, *m)?;
    }
    Ok(())
}

// Appends a status.
pub(crate) fn put_status(out: &mut Vec<u8>, s: &Status) -> Result<(), NoMemory>
    requires { length s.now.phases < 2 ^ 32 }
    ensures bytes { OnOk result (out.new.items ≡ out.old.items ++ status_bytes s.now) }
    ensures numbers { OnOk result (HasNumbers s.now) }
{
    let phases = s.phases.as_slice();
    put_number(out, s.t.0)?;
    put_number(out, s.event.p.0)?;
    put_number(out, s.event.n)?;
    put_number(out, phases.len() as u32)?;
    put_phases(out, phases)?;
    Ok(())
}

/// The row of the snapshot: 32-bit numbers, each as four bytes with the highest first. First how many statuses it has; then for each its task, the
/// phaser and the phase of its event, how many phases it has, and for each of these its phaser and its number.
pub fn encode(alloc: Global, s: &Snapshot) -> Result<List<u8>, NoMemory>
    requires in_order { IsInOrder s.now.statuses }
    requires few { length s.now.statuses < 2 ^ 28 }
    ensures row { IfOk result (λ row. row ≡ row_bytes s.now.statuses) }
    ensures numbers { OnOk result (All HasNumbers s.now.statuses) }
{
    let statuses = s.statuses.as_slice();
    let mut row = Vec::new(alloc);
    put_number(&mut row, statuses.len() as u32)?;
    for status in statuses {
        put_status(&mut row, status)?;
    }
    Ok(List::from_vec(row))
}
