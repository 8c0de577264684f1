// The plan of a program.

ghost use Rattle.std.specs.Prelude.{◌≡◌, ◌<◌, ◌≤◌, ◌^◌, map, IfOk};
ghost use Rattle.pl_syntax.specs.Tree.{count, height};
ghost use Rattle.pl_plan.specs.Unfolding.{plan_of};
ghost use Rattle.pl_plan.specs.calls.Planning.{GivesOutcome};
ghost use Rattle.pl_plan.specs.calls.Forks.{GivesUnfolded};
ghost use Rattle.pl_plan.specs.inside.Flattening.{AreFlattened};
ghost use Rattle.pl_plan.specs.inside.FoldsSteps.{AreFolded, CanBeFolded};
ghost use Rattle.pl_plan.specs.inside.KeptForks.{kept_fork};
ghost use Rattle.pl_plan.specs.inside.Visited.{GivesVisited};

use crate::checker::{Checker, Parts, Start};
use crate::fault::PlanEnd;
use crate::flatten::flatten_body;
use crate::pieces::code_pieces;
use crate::step::FlatStep;
use crate::tasks::unfold_tasks;
use armus_base::{Code, List, NoMemory, Op, Plan};
use indexmap::IndexSet;
use pl_syntax::{Body, MAX_OPEN_BRACES, Program};
use std::alloc::Global;

// The codes of the tasks. Each list of ops is let go as soon as it is folded.
fn codes_of(
    alloc: Global,
    steps: &[FlatStep],
    starts: &[Option<Start>],
    lists: Vec<List<Op>>,
) -> Result<List<Code>, NoMemory>
    requires folds { CanBeFolded steps.now starts.now lists.items }
    ensures folded { IfOk result (λ codes. AreFolded steps.now starts.now lists.items codes) }
{
    let mut codes = List::new(alloc);
    for ops in lists {
        let t = codes.as_slice().len();
        let pieces = code_pieces(alloc, steps, &starts[t], ops.as_slice())?;
        codes.push(Code::from_pieces(pieces))?;
    }
    Ok(codes)
}

/// The plan to which a program unfolds, and where its tasks are forked.
#[derive(Drop)]
pub struct Unfolded {
    pub plan: Plan,
    /// For each task, in order of number, the number of the statement that forks it, from 1 in the order in which the statements stand in the text; 0 for
    /// task 0, which begins with the first statement; none for a task that is not forked.
    pub forks: Vec<Option<u32>>,
}

// The number of the statement that forks a task, by its start.
fn fork_number(start: &Option<Start>) -> Option<u32>
    ensures { result ≡ kept_fork start.now }
{
    match start {
        None => None,
        Some(start) => Some(start.first),
    }
}

// The same of all tasks.
fn fork_numbers(alloc: Global, starts: &[Option<Start>]) -> Result<Vec<Option<u32>>, NoMemory>
    ensures { IfOk result (λ v. v.items ≡ map kept_fork starts.now) }
{
    let mut forks = Vec::new(alloc);
    for start in starts {
        forks.push(fork_number(start))?;
    }
    Ok(forks)
}

// The flat steps of a body, and how many names it has.
fn flat_steps(alloc: Global, body: &Body) -> Result<(Vec<FlatStep>, usize), NoMemory>
    requires { count body.now < 2 ^ 32 }
    ensures { IfOk result (λ r. AreFlattened r.0.items r.1 body.now) }
{
    let mut names = IndexSet::new(alloc);
    let mut steps = Vec::new(alloc);
    flatten_body(&mut names, &mut steps, body)?;
    Ok((steps, names.len()))
}

// What the checker keeps behind the last visit of a program, or the program's first fault.
fn visited(alloc: Global, program: &Program) -> Result<Checker, PlanEnd>
    requires { count program.now.body < 2 ^ 32 }
    ensures { GivesVisited result program.now }
{
    let (steps, names) = flat_steps(alloc, &program.body)?;
    let mut checker = Checker::new(alloc, steps, names)?;
    unfold_tasks(alloc, &mut checker, program.two)?;
    Ok(checker)
}

/// The plan to which a program unfolds, with the statements that fork its tasks; or its first check fault.
///
/// Tasks are unfolded in order of their numbers, from task 0 with the whole program. `Check` comes exactly where the unfolding has a fault, with the
/// first one; a body that is never unfolded is not checked. In PL 2 the code of each forked task ends with one Drop for each phaser of which it is then a
/// member, in order of number. The codes are kept folded: a steady loop takes the memory of its body once. The time is linear in the visits, at most
/// `MAX_VISITS`. The plan is a checked plan: it follows the rules of PL and the limits of `Plan`.
pub fn unfold(alloc: Global, program: &Program) -> Result<Unfolded, PlanEnd>
    requires few { count program.now.body < 2 ^ 32 }
    requires shallow { height program.now.body ≤ MAX_OPEN_BRACES }
    ensures unfolded { GivesUnfolded result program.now }
{
    let checker = visited(alloc, program)?;
    let Parts {
        steps,
        parents,
        makers,
        codes: lists,
        starts,
    } = checker.into_parts();
    let codes = codes_of(alloc, &steps, &starts, lists)?;
    let forks = fork_numbers(alloc, &starts)?;
    let plan = Plan::from_parts(List::from_vec(parents), List::from_vec(makers), codes);
    Ok(Unfolded { plan, forks })
}

/// The plan to which a program unfolds, or its first check fault: the plan of `unfold`.
pub fn plan(alloc: Global, program: &Program) -> Result<Plan, PlanEnd>
    requires few { count program.now.body < 2 ^ 32 }
    requires shallow { height program.now.body ≤ MAX_OPEN_BRACES }
    ensures unfolded { GivesOutcome result (plan_of program.now) }
{
    match unfold(alloc, program) {
        Ok(unfolded) => Ok(unfolded.plan),
        Err(e) => Err(e),
    }
}
