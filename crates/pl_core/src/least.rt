// Which member of a phaser is least far on.
ghost use Rattle.std.specs.Prelude.{◌≡◌, ◌≢◌, ℕ, ◌<◌, ◌≤◌, ◌+◌, Option, Some, length, MatchBool, MatchOption};
ghost use Rattle.pl_core.specs.inside.Cells.{phase_in_cell};
ghost use Rattle.pl_core.specs.inside.LeastPhases.{IsAtMost, IsLeastBelow};

use crate::cell::{Cell, phase_at};
use armus_base::Phase;

/// The place of a cell whose phase none of the members is below, that phase, and one that none of the other members is below.
#[derive(Clone, Copy, Debug, PartialEq, Eq)]
pub(crate) struct Least {
    pub(crate) at: usize,
    pub(crate) phase: Phase,
    pub(crate) others: Phase,
}

// The lesser of a member that is the least so far and the next cell, which may have no phase.
fn lesser(least: Option<Least>, at: usize, phase: Option<Phase>) -> Option<Least>
    ensures { (f : ℕ → Option ℕ) → f at ≡ phase → IsLeastBelow f at least → IsLeastBelow f (at + 1) result }
{
    match (least, phase) {
        (_, None) => least,
        (None, Some(phase)) => Some(Least {
            at,
            phase,
            others: Phase::MAX,
        }),
        (Some(member), Some(phase)) => {
            if phase < member.phase {
                Some(Least {
                    at,
                    phase,
                    others: member.phase,
                })
            } else {
                Some(beside(member, Some(phase)))
            }
        }
    }
}

// The least member beside another one that has this phase, or none.
fn beside(member: Least, phase: Option<Phase>) -> Least
    ensures same { (result.at ≡ member.at) × (result.phase ≡ member.phase) }
    ensures at_most { result.others ≤ member.others }
    ensures other { (n : ℕ) → phase ≡ Some n → result.others ≤ n }
{
    match phase {
        Some(n) => Least {
            others: member.others.min(n),
            ..member
        },
        None => member,
    }
}

// The least member, by a look at all cells.
fn least_of_all(cells: &[Cell]) -> Option<Least>
    ensures { IsLeastBelow (phase_in_cell cells.now) (length cells.now) result }
{
    let mut least = None;
    for at in 0..cells.len() {
        least = lesser(least, at, phase_at(cells, at));
    }
    least
}

// The first place from `from` on whose cell has just this phase.
fn next_with(cells: &[Cell], from: usize, phase: Phase) -> Option<usize>
    ensures { MatchOption result (Unit {0}) (λ k. (k < length cells.now) × (phase_in_cell cells.now k ≡ Some phase)) }
{
    for at in from..cells.len() {
        if phase_at(cells, at) == Some(phase) {
            return Some(at);
        }
    }
    None
}

// A cell as that of the least member, if it has a phase; no other member is below the other phase.
fn alone(at: usize, phase: Option<Phase>, others: Phase) -> Option<Least>
    ensures { (f : ℕ → Option ℕ) (k : ℕ) → f at ≡ phase → at < k → ((u m : ℕ) → u < k → u ≢ at → f u ≡ Some m → IsAtMost phase m × (others ≤ m)) → IsLeastBelow f k result }
{
    match phase {
        Some(phase) => Some(Least { at, phase, others }),
        None => None,
    }
}

// Whether there is a phase, and it is at most this one.
fn is_at_most(phase: Option<Phase>, most: Phase) -> bool
    ensures { MatchBool result (IsAtMost phase most) ((n : ℕ) → phase ≡ Some n → most < n) }
{
    match phase {
        Some(n) => n <= most,
        None => false,
    }
}

// The least member after the one at this place, which was the least, went on or left.
fn least_without(cells: &[Cell], member: Least, phase: Option<Phase>) -> Option<Least>
    requires inside { member.at < length cells.now }
    requires phase { phase_in_cell cells.now member.at ≡ phase }
    requires least { (u m : ℕ) → u < length cells.now → phase_in_cell cells.now u ≡ Some m → member.phase ≤ m }
    requires others { (u m : ℕ) → u < length cells.now → u ≢ member.at → phase_in_cell cells.now u ≡ Some m → member.others ≤ m }
    ensures { IsLeastBelow (phase_in_cell cells.now) (length cells.now) result }
{
    if is_at_most(phase, member.others) {
        return alone(member.at, phase, member.others);
    }
    match next_with(cells, member.at + 1, member.phase) {
        Some(at) => Some(Least {
            at,
            phase: member.phase,
            others: member.phase,
        }),
        None => least_of_all(cells),
    }
}

/// The least member after the cell at a place came to its phase, or lost it; `before` was the least member before. All cells are looked at only
/// where the least member goes on beyond the phase that no other one was known to be below, and no cell behind it has its phase.
pub(crate) fn least_after(cells: &[Cell], at: usize, before: Option<Least>) -> Option<Least>
    requires inside { at < length cells.now }
    requires before { (f : ℕ → Option ℕ) × IsLeastBelow f (length cells.now) before × ((u : ℕ) → u ≢ at → f u ≡ phase_in_cell cells.now u) }
    ensures { IsLeastBelow (phase_in_cell cells.now) (length cells.now) result }
{
    let phase = phase_at(cells, at);
    match before {
        None => alone(at, phase, Phase::MAX),
        Some(member) => {
            if is_at_most(phase, member.phase) {
                alone(at, phase, member.phase)
            } else if member.at != at {
                Some(beside(member, phase))
            } else {
                least_without(cells, member, phase)
            }
        }
    }
}
