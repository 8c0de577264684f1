// Programs as flat steps.

ghost use Rattle.std.specs.Prelude.{◌≡◌, ◌+◌, ◌<◌, ◌^◌, ◌++◌, ◌∷◌, [], length, OnOk, IfOk};
ghost use Rattle.armus_base.specs.Offsets.{IsNear};
ghost use Rattle.pl_syntax.specs.Tree.{count, done};
ghost use Rattle.pl_syntax.specs.calls.Bodies.{followed_by};
ghost use Rattle.pl_plan.specs.inside.Shows.{IsNumbering};
ghost use Rattle.pl_plan.specs.inside.Numbers.{spelling, IsMore};
ghost use Rattle.pl_plan.specs.inside.Flattening.{AddsSteps};

use crate::steady::is_steady;
use crate::step::{FlatStep, NameId};
use armus_base::{NoMemory, Offset};
use indexmap::IndexSet;
use pl_syntax::{Body, Stmt};

/// The number of a name, in the order of first sight.
pub fn number<'p>(names: &mut IndexSet<&'p [u8]>, name: &'p [u8]) -> Result<NameId, NoMemory>
    ensures found { IfOk result (λ i. i.0 < length names.new.keys) }
    ensures spelled { IfOk result (λ i. spelling names.new.keys i.0 ≡ name.now) }
    ensures more { OnOk result (IsMore names.old.keys names.new.keys) }
    ensures distinct { OnOk result (IsNumbering (length names.new.keys) (spelling names.new.keys)) }
{
    let (i, _) = names.insert_full(name)?;
    if i >= 1 << 32 {
        return Err(NoMemory);
    }
    Ok(NameId(i as u32))
}

// One step more.
fn push(steps: &mut Vec<FlatStep>, step: FlatStep) -> Result<(), NoMemory>
    ensures { OnOk result (steps.new.items ≡ steps.old.items ++ step ∷ []) }
{
    steps.push(step)?;
    Ok(())
}

// An offset as it is written: as it has 16 bits, it looks no farther than an await may.
fn as_written(off: Offset) -> Offset
    ensures same { result ≡ off }
    ensures near { IsNear result }
{
    match off {
        Offset::Here => Offset::Here,
        Offset::Back(k) => Offset::Back(k),
        Offset::Ahead(k) => Offset::Ahead(k),
    }
}

/// A statement, and its body's statements behind it.
#[cycle(flatten)]
pub fn flatten_statement<'p>(
    names: &mut IndexSet<&'p [u8]>,
    steps: &mut Vec<FlatStep>,
    stmt: &'p Stmt,
) -> Result<(), NoMemory>
    requires small { length steps.old.items + count (followed_by stmt.now done) < 2 ^ 32 }
    requires distinct { IsNumbering (length names.old.keys) (spelling names.old.keys) }
    ensures { OnOk result (AddsSteps names.old.keys names.new.keys steps.old.items steps.new.items (followed_by stmt.now done)) }
{
    match stmt {
        Stmt::NewTask { x } => {
            let x = number(names, x.as_bytes())?;
            push(steps, FlatStep::NewTask { x })
        }
        Stmt::NewPhaser { x } => {
            let x = number(names, x.as_bytes())?;
            push(steps, FlatStep::NewPhaser { x })
        }
        Stmt::Reg { x, y } => {
            let x = number(names, x.as_bytes())?;
            let y = number(names, y.as_bytes())?;
            push(steps, FlatStep::Reg { x, y })
        }
        Stmt::Dereg { x } => {
            let x = number(names, x.as_bytes())?;
            push(steps, FlatStep::Dereg { x })
        }
        Stmt::Adv { x } => {
            let x = number(names, x.as_bytes())?;
            push(steps, FlatStep::Adv { x })
        }
        Stmt::Await { x, off } => {
            let x = number(names, x.as_bytes())?;
            let off = as_written(*off);
            push(steps, FlatStep::Await { x, off })
        }
        Stmt::Skip => push(steps, FlatStep::Skip),
        Stmt::Fork { x, body } => {
            let x = number(names, x.as_bytes())?;
            let after = steps.len() as u32 + 1 + body.statements();
            push(steps, FlatStep::Fork { x, after })?;
            flatten_body(names, steps, body)
        }
        Stmt::Loop { k, body } => {
            let after = steps.len() as u32 + 1 + body.statements();
            let steady = is_steady(body);
            push(
                steps,
                FlatStep::Loop {
                    k: *k,
                    after,
                    steady,
                },
            )?;
            flatten_body(names, steps, body)
        }
    }
}

/// The statements of a body, one after the other.
#[cycle(flatten)]
pub fn flatten_body<'p>(
    names: &mut IndexSet<&'p [u8]>,
    steps: &mut Vec<FlatStep>,
    body: &'p Body,
) -> Result<(), NoMemory>
    requires small { length steps.old.items + count body.now < 2 ^ 32 }
    requires distinct { IsNumbering (length names.old.keys) (spelling names.old.keys) }
    ensures { OnOk result (AddsSteps names.old.keys names.new.keys steps.old.items steps.new.items body.now) }
{
    for stmt in body.as_slice() {
        flatten_statement(names, steps, stmt)?;
    }
    Ok(())
}
