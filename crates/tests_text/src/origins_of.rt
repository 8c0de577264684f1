// Origins: a line for what is asked of a text, with the number of the statement. An op is told by its task and its number in the task's code.
ghost use Rattle.std.specs.Prelude.{◌+◌, ◌<◌, ◌^◌};
ghost use Rattle.source_map.specs.calls.OriginTables.{AreOrigins};
ghost use Rattle.pl_syntax.specs.Tree.{count};

use crate::plans::AVERAGING;
use crate::program_texts::program_of;
use armus_base::{PhaserId, TaskId};
use pl_plan::{Unfolded, unfold};
use pl_syntax::Program;
use source_map::{Origins, ops_have_origins, phasers_and_tasks_have_origins, visits_are_of_text};
use std::alloc::Global;
use std::process::Abort;
use std::test::Fail;
use tests_rows::{columns, cut, number};

// Statements 1 to 18: the phasers, a loop with a fork, in whose body a loop stands, and two more.
const OF_AVERAGING: &str = "\
op 0 0$1\n\
op 0 1$2\n\
op 0 2$5\n\
op 0 4$7\n\
op 0 5$5\n\
op 0 10$7\n\
op 0 11$17\n\
op 0 12$18\n\
op 0 13$none\n\
op 1 0$10\n\
op 1 3$14\n\
op 2 5$11\n\
op 3 8$15\n\
op 3 9$16\n\
op 3 10$none\n\
op 4 0$none\n\
phaser 0$1\n\
phaser 1$2\n\
phaser 2$none\n\
task 0$none\n\
task 3$4\n\
task 4$none\n\
fork 0$0\n\
fork 2$7\n\
fork 4$none\n\
end 0$18\n\
end 1$16\n\
end 4$none\n\
";

// Statements 1 to 17: an empty body, a task that is not forked, loops without a turn, and a loop in a loop.
const LOOPS: &str =
    "pl 2; p = newPhaser(); t = newTid(); u = newTid(); reg(t, p); fork(t) { }~    loop 2 { loop 0 { adv(p); } loop 3 { adv(p); skip; await(p); } } q = newPhaser(); v = newTid(); fork(v) { loop 0 { skip; } }";

const OF_LOOPS: &str = "\
op 0 2$5\n\
op 0 3$10\n\
op 0 4$12\n\
op 0 5$10\n\
op 0 14$12\n\
op 0 15$13\n\
op 0 16$15\n\
op 0 17$none\n\
phaser 1$13\n\
task 1$2\n\
task 2$3\n\
task 3$14\n\
fork 1$5\n\
fork 2$none\n\
fork 3$15\n\
end 0$15\n\
end 1$5\n\
end 2$none\n\
end 3$16\n\
";

// A million ops in a loop of sixteen statements, from 3 to 18.
const MANY_TURNS: &str =
    "p = newPhaser(); loop 65535 { #7#adv(p); #1#adv(p);~    #7#adv(p); #1#adv(p); }";

const OF_MANY_TURNS: &str = "\
op 0 1$3\n\
op 0 16$18\n\
op 0 17$3\n\
op 0 1048560$18\n\
op 0 1048561$none\n\
end 0$18\n\
";

fn answer(origins: &Origins, program: &Program, asked: &str) -> Option<u32>
    requires few { count program.now.body + 1 < 2 ^ 32 }
    requires origins { AreOrigins program.now origins.now }
{
    let (kind, of, i) = columns(asked, " ");
    let t = TaskId(number(of));
    match kind {
        "op" => origins.op(program, t, number(i)),
        "phaser" => origins.phaser(PhaserId(t.0)),
        "task" => origins.task(t),
        "fork" => origins.fork(t),
        _ => origins.end(program, t),
    }
}

fn is_met(origins: &Origins, program: &Program, row: &str) -> bool
    requires few { count program.now.body + 1 < 2 ^ 32 }
    requires origins { AreOrigins program.now origins.now }
{
    let (asked, wanted) = cut(row, "$");
    let wanted = if wanted == "none" {
        None
    } else {
        Some(number(wanted))
    };
    answer(origins, program, asked) == wanted
}

fn all_are_met(rt: &impl Abort, alloc: Global, text: &str, rows: &str) -> Result<(), Fail> {
    let program = program_of(alloc, text)?;
    let Unfolded { plan: _, forks } = unfold(alloc, &program)?;
    let origins = Origins::new(alloc, &program, forks)?;
    for row in rows.lines() {
        assert!(rt; is_met(&origins, &program, row), "{row}");
    }
    Ok(())
}

#[test]
fn origins_of_averaging(rt: HostRuntime) -> Result<(), Fail> {
    all_are_met(&rt, rt.alloc(), AVERAGING, OF_AVERAGING)
}

#[test]
fn origins_of_loops(rt: HostRuntime) -> Result<(), Fail> {
    all_are_met(&rt, rt.alloc(), LOOPS, OF_LOOPS)
}

#[test]
fn origins_of_many_turns(rt: HostRuntime) -> Result<(), Fail> {
    all_are_met(&rt, rt.alloc(), MANY_TURNS, OF_MANY_TURNS)
}

#[test]
fn laws_of_origins_are_called() {
    ops_have_origins();
    phasers_and_tasks_have_origins();
    visits_are_of_text();
}
