// The names of tasks and phasers.
ghost use Rattle.std.specs.Prelude.{◌≡◌, ◌++◌, ◌∷◌, [], IfOk, OnOk, if◌then◌else◌, length, map, not, option_map, option_to_list, suc};
ghost use Rattle.std.specs.List.{list_any};
ghost use Rattle.std.specs.Str.{bytes_eq};
ghost use Rattle.indexmap.specs.IndexSet.{insert_key};
ghost use Rattle.armus_base.specs.Finals.{given_below};
ghost use Rattle.source_map.specs.Origins.{drawing_statement, statement_in};
ghost use Rattle.source_map.specs.calls.OriginTables.{AreOrigins};
ghost use Rattle.source_map.specs.inside.Tables.{coming_of};
ghost use Rattle.explain_facts.specs.Names.{given_name, program_names};
ghost use Rattle.explain_facts.specs.inside.Spelled.{AreShared, NotesNames, name_by_shared, spellings};

use armus_base::{List, NoMemory, TaskId};
use indexmap::IndexSet;
use pl_syntax::{Program, Stmt};
use source_map::Origins;
use std::alloc::Global;

/// A name of a task or a phaser.
#[derive(Drop)]
pub struct GivenName {
    /// The name.
    pub name: List<u8>,
    /// Whether no other task or phaser has it.
    pub is_sole: bool,
}

/// The names of the tasks and the phasers of a text.
#[derive(Drop)]
pub struct GivenNames {
    /// Of each task from 1 on, in order of number: that of its `newTid`.
    pub tasks: List<GivenName>,
    /// Of each phaser, in order of number: that of its `newPhaser`.
    pub phasers: List<GivenName>,
}

/// The name that a statement gives to a task or a phaser.
pub(crate) fn given_name<'p>(stmt: Option<&'p Stmt>) -> &'p [u8]
    ensures { result.now ≡ given_name (option_map (λ s. coming_of s.now) stmt.entry) }
{
    match stmt {
        Some(Stmt::NewTask { x }) => x.as_bytes(),
        Some(Stmt::NewPhaser { x }) => x.as_bytes(),
        _ => b"",
    }
}

// Appends the number of a statement, if there is one.
fn push_some(statements: &mut Vec<u32>, n: Option<u32>) -> Result<(), NoMemory>
    ensures { OnOk result (statements.new.items ≡ statements.old.items ++ option_to_list n) }
{
    match n {
        Some(n) => {
            statements.push(n)?;
            Ok(())
        }
        None => Ok(()),
    }
}

// The statements that draw the first so many tasks.
fn drawing_statements(
    alloc: Global,
    origins: &Origins<'_>,
    tasks: u32,
) -> Result<Vec<u32>, NoMemory>
    ensures { IfOk result (λ v. v.items ≡ given_below (drawing_statement origins.now.tasks) tasks) }
{
    let mut statements = Vec::new(alloc);
    for t in 0..tasks {
        push_some(&mut statements, origins.task(TaskId(t)))?;
    }
    Ok(statements)
}

// The names that these statements give.
fn names_given<'p>(
    alloc: Global,
    origins: &Origins<'p>,
    statements: &[u32],
) -> Result<Vec<&'p [u8]>, NoMemory>
    ensures { IfOk result (λ v. spellings v.items ≡ map (λ n. given_name (statement_in origins.now.statements n)) statements.now) }
{
    let mut names = Vec::with_capacity(alloc, statements.len())?;
    for n in statements {
        names.push(given_name(origins.statement(*n)))?;
    }
    Ok(names)
}

// Notes a name that has come again, unless it is new.
fn note_again<'p>(
    again: &mut IndexSet<&'p [u8]>,
    name: &'p [u8],
    is_new: bool,
) -> Result<(), NoMemory>
    ensures { OnOk result (spellings again.new.keys ≡ (if is_new then spellings again.old.keys else insert_key bytes_eq (spellings again.old.keys) name.now)) }
{
    if is_new {
        return Ok(());
    }
    again.insert_full(name)?;
    Ok(())
}

// Notes that a name has come once more.
fn note<'p>(
    seen: &mut IndexSet<&'p [u8]>,
    again: &mut IndexSet<&'p [u8]>,
    name: &'p [u8],
) -> Result<(), NoMemory>
    ensures { OnOk result (NotesNames (name.now ∷ []) (spellings seen.old.keys) (spellings again.old.keys) (spellings seen.new.keys) (spellings again.new.keys)) }
{
    let (_, is_new) = seen.insert_full(name)?;
    note_again(again, name, is_new)
}

// Notes that these names have come.
fn note_all<'p>(
    seen: &mut IndexSet<&'p [u8]>,
    again: &mut IndexSet<&'p [u8]>,
    names: &[&'p [u8]],
) -> Result<(), NoMemory>
    ensures { OnOk result (NotesNames (spellings names.now) (spellings seen.old.keys) (spellings again.old.keys) (spellings seen.new.keys) (spellings again.new.keys)) }
{
    for name in names {
        note(seen, again, *name)?;
    }
    Ok(())
}

// The names that more than one of these tasks and phasers have.
fn shared_names<'p>(
    alloc: Global,
    tasks: &[&'p [u8]],
    phasers: &[&'p [u8]],
) -> Result<IndexSet<&'p [u8]>, NoMemory>
    ensures { IfOk result (λ v. AreShared (spellings tasks.now ++ spellings phasers.now) (spellings v.keys)) }
{
    let mut seen = IndexSet::new(alloc);
    let mut again = IndexSet::new(alloc);
    note_all(&mut seen, &mut again, tasks)?;
    note_all(&mut seen, &mut again, phasers)?;
    Ok(again)
}

// A name, by those that are shared.
fn name_among(alloc: Global, shared: &IndexSet<&[u8]>, name: &[u8]) -> Result<GivenName, NoMemory>
    ensures { IfOk result (λ n. n ≡ name_by_shared (spellings shared.now.keys) name.now) }
{
    let is_sole = !shared.contains(name);
    Ok(GivenName {
        name: List::from_vec(Vec::from_slice(alloc, name)?),
        is_sole,
    })
}

// These names, by those that are shared.
fn all_named(
    alloc: Global,
    shared: &IndexSet<&[u8]>,
    names: &[&[u8]],
) -> Result<List<GivenName>, NoMemory>
    ensures { IfOk result (λ v. v ≡ map (name_by_shared (spellings shared.now.keys)) (spellings names.now)) }
{
    let mut all = Vec::with_capacity(alloc, names.len())?;
    for name in names {
        all.push(name_among(alloc, shared, *name)?)?;
    }
    Ok(List::from_vec(all))
}

/// The names of the tasks and the phasers of a program with these origins, which unfolds to so many tasks. The only error is want of memory. The time is linear in
/// the tasks, the phasers and their names.
pub(crate) fn program_names(
    alloc: Global,
    program: &Program,
    origins: &Origins<'_>,
    tasks: u32,
) -> Result<GivenNames, NoMemory>
    requires origins { AreOrigins program.now origins.now }
    requires tasks { tasks ≡ suc (length origins.now.tasks) }
    ensures { IfOk result (λ names. names ≡ program_names program.now) }
{
    let _program = program;
    let statements = drawing_statements(alloc, origins, tasks)?;
    let drawn = names_given(alloc, origins, &statements)?;
    let made = names_given(alloc, origins, origins.phasers())?;
    let shared = shared_names(alloc, &drawn, &made)?;
    Ok(GivenNames {
        tasks: all_named(alloc, &shared, &drawn)?,
        phasers: all_named(alloc, &shared, &made)?,
    })
}
