// The origins of a program's plan.

ghost use Rattle.std.specs.Prelude.{◌≡◌, ◌+◌, ◌<◌, ◌^◌, ◌++◌, slice_index_or, IfOk, OnOk, None, option_map};
ghost use Rattle.std.specs.List.{slice_get};
ghost use Rattle.pl_syntax.specs.Tree.{count};
ghost use Rattle.pl_plan.specs.Forks.{fork_statements};
ghost use Rattle.source_map.specs.Origins.{drawing_statement, last_origin, op_origin, op_origins, statement_in, statements_of_all, statements_where, written_statements};
ghost use Rattle.source_map.specs.calls.Origins.{end_origin};
ghost use Rattle.source_map.specs.calls.OriginTables.{AreOrigins};
ghost use Rattle.source_map.specs.Turns.{op_turns};
ghost use Rattle.source_map.specs.inside.Tables.{coming_of, kept_comings, makes_it, visits_by_fork};

use crate::bodies::{body_at, last_of_body, statement_at};
use crate::making::{MadeKind, push_of_body};
use crate::seeking::{Sought, seek_in_body};
use crate::table::statements_of;
use crate::turns::{LoopTurn, put_turns};
use armus_base::{List, NoMemory, PhaserId, TaskId};
use pl_syntax::{Program, Stmt};
use std::alloc::Global;
use std::marker::Model;

/// From which statements of a program the ops, the phasers and the tasks of its plan come. A statement is told by its number, from 1 in the order in which
/// statements stand in the text.
///
/// The tables have each statement, by its number, and one number for each task and each phaser. The ops have none: that of an op is found in the body of its
/// task, where a loop's body is gone through at most twice, whatever turns the loop has.
#[derive(Drop)]
pub struct Origins<'p> {
    statements: Vec<&'p Stmt>,
    forks: Vec<Option<u32>>,
    phasers: Vec<u32>,
    tasks: Vec<u32>,
}

impl<'p> Model for Origins<'p> {
    ghost use Rattle.source_map.specs.calls.OriginTables.{OriginTables};

    ghost Value = { OriginTables };

    ghost use Rattle.std.specs.Coded.{codes};
    ghost use Rattle.pl_syntax.specs.calls.Tree.{plain_code, tree_code};

    ghost coded = { Prim.hlevel (codes, plain_code, tree_code) };

    ghost use Rattle.source_map.specs.inside.Tables.{kept_comings};

    ghost view = { λ o. record { statements = kept_comings o.statements.items; forks = o.forks.items; phasers = o.phasers.items; tasks = o.tasks.items } };
}

// Those of the visits of a task with this fork that make such a thing.
fn push_of_task(
    made: MadeKind,
    program: &Program,
    statements: &[&Stmt],
    fork: Option<u32>,
    out: &mut Vec<u32>,
) -> Result<(), NoMemory>
    requires few { count program.now.body + 1 < 2 ^ 32 }
    requires statements { kept_comings statements.now ≡ written_statements program.now.body }
    ensures { OnOk result (out.new.items ≡ out.old.items ++ statements_where (makes_it made) (visits_by_fork program.now fork)) }
{
    let Some(fork) = fork else {
        return Ok(());
    };
    match body_at(program, statements, fork) {
        None => Ok(()),
        Some(body) => push_of_body(made, body, fork + 1, out),
    }
}

// Those of all tasks.
fn made_by_all(
    alloc: Global,
    made: MadeKind,
    program: &Program,
    statements: &[&Stmt],
    forks: &[Option<u32>],
) -> Result<Vec<u32>, NoMemory>
    requires few { count program.now.body + 1 < 2 ^ 32 }
    requires statements { kept_comings statements.now ≡ written_statements program.now.body }
    requires forks { forks.now ≡ fork_statements program.now }
    ensures { IfOk result (λ v. v.items ≡ statements_of_all (makes_it made) program.now) }
{
    let mut out = Vec::new(alloc);
    for fork in forks {
        push_of_task(made, program, statements, *fork, &mut out)?;
    }
    Ok(out)
}

impl<'p> Origins<'p> {
    /// The origins of a program, by the forks that `unfold` of pl_plan answers for it. The time is linear in the visits of the unfolding.
    pub fn new(
        alloc: Global,
        program: &'p Program,
        forks: Vec<Option<u32>>,
    ) -> Result<Origins<'p>, NoMemory>
        requires few { count program.now.body + 1 < 2 ^ 32 }
        requires forks { forks.items ≡ fork_statements program.now }
        ensures { IfOk result (λ o. AreOrigins program.now o) }
    {
        let statements = statements_of(alloc, &program.body)?;
        let phasers = made_by_all(alloc, MadeKind::APhaser, program, &statements, &forks)?;
        let tasks = made_by_all(alloc, MadeKind::ATask, program, &statements, &forks)?;
        Ok(Origins {
            statements,
            forks,
            phasers,
            tasks,
        })
    }

    /// The number of the statement from which op i of a task comes, counted from 0: none for an op with which the task leaves a phaser at its end, as it does
    /// in PL 2, and where there is no such op.
    pub fn op(&self, program: &Program, t: TaskId, i: u32) -> Option<u32>
        requires few { count program.now.body + 1 < 2 ^ 32 }
        requires origins { AreOrigins program.now self.now }
        ensures { result ≡ op_origin program.now t.0 i }
    {
        let fork = self.fork(t)?;
        let body = body_at(program, &self.statements, fork)?;
        match seek_in_body(body, fork + 1, i) {
            Sought::Found(n) => Some(n),
            Sought::Left(_) => None,
        }
    }

    /// The numbers of the statements from which the ops of a task come, in order of the ops, but for those with which the task leaves its phasers at its end, as it
    /// does in PL 2. The time is linear in the visits of the task.
    pub fn ops(&self, alloc: Global, program: &Program, t: TaskId) -> Result<Vec<u32>, NoMemory>
        requires few { count program.now.body + 1 < 2 ^ 32 }
        requires origins { AreOrigins program.now self.now }
        ensures { IfOk result (λ ops. ops.items ≡ op_origins program.now t.0) }
    {
        let mut ops = Vec::new(alloc);
        push_of_task(
            MadeKind::AnOp,
            program,
            &self.statements,
            self.fork(t),
            &mut ops,
        )?;
        Ok(ops)
    }

    /// The number of the statement that makes a phaser: none where there is no such phaser.
    pub fn phaser(&self, p: PhaserId) -> Option<u32>
        ensures { result ≡ slice_get self.now.phasers p.0 }
    {
        self.phasers.get(p.0 as usize).copied()
    }

    /// The numbers of the statements that make the phasers, in order of the phasers' numbers.
    pub fn phasers(&self) -> &[u32]
        ensures { result.now ≡ self.now.phasers }
    {
        &self.phasers
    }

    /// The number of the statement that draws a task: none for task 0, and where there is no such task.
    pub fn task(&self, t: TaskId) -> Option<u32>
        ensures { result ≡ drawing_statement self.now.tasks t.0 }
    {
        if t.0 == 0 {
            return None;
        }
        self.tasks.get(t.0 as usize - 1).copied()
    }

    /// The number of the statement that forks a task: 0 for task 0, none for a task that is not forked, and where there is no such task.
    pub fn fork(&self, t: TaskId) -> Option<u32>
        ensures { result ≡ slice_index_or self.now.forks t.0 None }
    {
        match self.forks.get(t.0 as usize) {
            Some(fork) => *fork,
            None => None,
        }
    }

    /// The number of the statement at which a task ends: that of its last visit, or of its fork where its body is empty; none for a task that is not forked,
    /// and where there is no such task.
    pub fn end(&self, program: &Program, t: TaskId) -> Option<u32>
        requires few { count program.now.body + 1 < 2 ^ 32 }
        requires origins { AreOrigins program.now self.now }
        ensures { result ≡ end_origin program.now t.0 }
    {
        let fork = self.fork(t)?;
        let body = body_at(program, &self.statements, fork)?;
        Some(last_of_body(body, fork + 1, fork))
    }
    /// The number of the statement of a task's last visit: none for a task that makes no visit, and where there is no such task. For a turn of a loop it is
    /// that of the loop.
    pub fn last(&self, program: &Program, t: TaskId) -> Option<u32>
        requires few { count program.now.body + 1 < 2 ^ 32 }
        requires origins { AreOrigins program.now self.now }
        ensures { result ≡ last_origin program.now t.0 }
    {
        let fork = self.fork(t)?;
        let body = body_at(program, &self.statements, fork)?;
        if body.statements() == 0 {
            return None;
        }
        Some(last_of_body(body, fork + 1, 0))
    }

    /// The statement with this number, and none where there is no such statement.
    pub fn statement(&self, n: u32) -> Option<&'p Stmt>
        ensures { option_map (λ stmt. coming_of stmt.now) result ≡ statement_in self.now.statements n }
    {
        statement_at(&self.statements, n)
    }
    /// In which turns of loops op i of a task is made, counted from 0: one turn for each loop around its statement within the task's code, from outside in;
    /// none for an op with which the task leaves a phaser at its end, and where there is no such op.
    pub fn turns(
        &self,
        alloc: Global,
        program: &Program,
        t: TaskId,
        i: u32,
    ) -> Result<List<LoopTurn>, NoMemory>
        requires few { count program.now.body + 1 < 2 ^ 32 }
        requires origins { AreOrigins program.now self.now }
        ensures { IfOk result (λ turns. turns ≡ op_turns program.now t.0 i) }
    {
        let mut turns = Vec::new(alloc);
        let Some(fork) = self.fork(t) else {
            return Ok(List::new(alloc));
        };
        let Some(body) = body_at(program, &self.statements, fork) else {
            return Ok(List::new(alloc));
        };
        put_turns(body, fork + 1, i, &mut turns)?;
        Ok(List::from_vec(turns))
    }
}
