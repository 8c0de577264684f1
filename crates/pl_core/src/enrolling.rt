// Which tasks the ops of a plan make members of which phasers: noted by task, and then by phaser, so that the members of each come in order.
ghost use Rattle.std.specs.Prelude.{◌≡◌, ℕ, ◌<◌, ◌+◌, ◌^◌, [], ◌∷◌, Some, IfOk, OnOk, length, slice_get};
ghost use Rattle.pl_core.specs.inside.Admitting.{Admits, AreNew};
ghost use Rattle.pl_core.specs.inside.Enrolling.{Enrols, IsEnrolled, IsEnrolledBy, IsNoted, Notes};
ghost use Rattle.pl_core.specs.inside.PhaseTables.{cells_at};
ghost use Rattle.pl_core.specs.inside.Cells.{StandsIn};

use crate::members::Members;
use armus_base::{NoMemory, Op, Piece, Plan, TaskId};
use std::alloc::Global;

// Notes phaser `p` in row `c`, if there is such a row.
fn note(rows: &mut Vec<Vec<u32>>, c: usize, p: u32) -> Result<(), NoMemory>
    ensures { OnOk result (Notes rows.old.items rows.new.items (λ d q. (d ≡ c) × (q ≡ p))) }
{
    if c < rows.len() {
        rows[c].push(p)?;
    }
    Ok(())
}

// Notes whom an op of task `t` makes a member.
fn note_op(rows: &mut Vec<Vec<u32>>, t: u32, op: Op) -> Result<(), NoMemory>
    ensures { OnOk result (Notes rows.old.items rows.new.items (Enrols t op)) }
{
    match op {
        Op::Make { p } => note(rows, t as usize, p.0),
        Op::Reg { c, p } => note(rows, c.0 as usize, p.0),
        _ => Ok(()),
    }
}

// Notes whom a piece of task `t` makes a member.
fn note_piece(rows: &mut Vec<Vec<u32>>, t: u32, piece: Piece) -> Result<(), NoMemory>
    ensures { OnOk result (Notes rows.old.items rows.new.items (IsEnrolledBy (piece ∷ []) t)) }
{
    match piece {
        Piece::Op(op) => {
            note_op(rows, t, op)?;
            Ok(())
        }
        Piece::Repeat { .. } => Ok(()),
    }
}

// Notes whom the pieces of task `t` make members.
fn note_code(rows: &mut Vec<Vec<u32>>, t: u32, pieces: &[Piece]) -> Result<(), NoMemory>
    ensures { OnOk result (Notes rows.old.items rows.new.items (IsEnrolledBy pieces.now t)) }
{
    for k in 0..pieces.len() {
        note_piece(rows, t, pieces[k])?;
    }
    Ok(())
}

// Rows with nothing in them.
fn no_notes(alloc: Global, count: usize) -> Result<Vec<Vec<u32>>, NoMemory>
    ensures { IfOk result (λ rows. length rows.items ≡ count) }
{
    let mut rows = Vec::with_capacity(alloc, count)?;
    for _ in 0..count {
        rows.push(Vec::new(alloc))?;
    }
    Ok(rows)
}

/// For each task the phasers of which an op makes it a member.
pub(crate) fn phasers_of_tasks(alloc: Global, plan: &Plan) -> Result<Vec<Vec<u32>>, NoMemory>
    ensures sized { IfOk result (λ rows. length rows.items ≡ length plan.now.parents) }
    ensures noted { IfOk result (λ rows. (t c p : ℕ) → t < length plan.now.parents → c < length plan.now.parents → IsEnrolled plan.now t c p → IsNoted rows.items c p) }
{
    let mut rows = no_notes(alloc, plan.tasks() as usize)?;
    for t in 0..plan.tasks() {
        note_code(&mut rows, t, plan.pieces(TaskId(t)))?;
    }
    Ok(rows)
}

// Gives task `t` a cell for phaser `p`, if there is one.
fn admit(rows: &mut Vec<Members>, p: usize, t: u32, phasers: usize) -> Result<(), NoMemory>
    requires kept { AreNew phasers (t + 1) rows.old.items }
    ensures kept { OnOk result (AreNew phasers (t + 1) rows.new.items) }
    ensures admits { OnOk result (Admits rows.old.items rows.new.items t (λ q. q ≡ p)) }
{
    if p < rows.len() {
        rows[p].admit(t)?;
    }
    Ok(())
}

// Gives task `t` a cell for each of the phasers.
fn admit_to_all(
    rows: &mut Vec<Members>,
    noted: &[u32],
    t: u32,
    phasers: usize,
) -> Result<(), NoMemory>
    requires kept { AreNew phasers (t + 1) rows.old.items }
    ensures kept { OnOk result (AreNew phasers (t + 1) rows.new.items) }
    ensures admits { OnOk result (Admits rows.old.items rows.new.items t (λ q. (k : ℕ) × (slice_get noted.now k ≡ Some q))) }
{
    for k in 0..noted.len() {
        admit(rows, noted[k] as usize, t, phasers)?;
    }
    Ok(())
}

// For each of so many phasers no cell.
fn no_members(alloc: Global, phasers: usize) -> Result<Vec<Members>, NoMemory>
    ensures { IfOk result (λ rows. AreNew phasers 0 rows.items) }
{
    let mut rows = Vec::with_capacity(alloc, phasers)?;
    for _ in 0..phasers {
        rows.push(Members::none(alloc))?;
    }
    Ok(rows)
}

/// For each phaser a cell for each task in whose row it is noted.
pub(crate) fn members_of_phasers(
    alloc: Global,
    noted: &[Vec<u32>],
    phasers: usize,
) -> Result<Vec<Members>, NoMemory>
    requires few { length noted.now < 2 ^ 31 }
    ensures made { IfOk result (λ rows. AreNew phasers (length noted.now) rows.items) }
    ensures cells { IfOk result (λ rows. (c p : ℕ) → p < phasers → IsNoted noted.now c p → StandsIn (cells_at rows.items p) c) }
{
    let mut rows = no_members(alloc, phasers)?;
    for t in 0..noted.len() {
        admit_to_all(&mut rows, &noted[t], t as u32, phasers)?;
    }
    Ok(rows)
}
