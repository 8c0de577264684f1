// Accounts of small texts: the text, and what is known of its phasers and its tasks where its run has ended. ~ stands for LF.
ghost use Rattle.std.specs.Prelude.{◌≡◌, ◌+◌, ◌<◌, ◌^◌, Ok, length};
ghost use Rattle.pl_plan.specs.Forks.{fork_statements};
ghost use Rattle.pl_plan.specs.Unfolding.{plan_of};
ghost use Rattle.pl_syntax.specs.Grammar.{IsText};
ghost use Rattle.pl_syntax.specs.Tree.{count};

use armus_base::{NoMemory, Plan};
use explain_facts::{
    Account, Doing, NextOp, TaskAccount, TextFacts, Waiting, account_exists, account_of,
    forkers_fork, one_account, statements_have_places, tasks_are_of_text,
};
use pl_plan::{Unfolded, unfold};
use pl_syntax::{Program, parse};
use source_map::{TextPlace, TextPlaces, line_names_one_place};
use std::alloc::Global;
use std::test::Fail;
use tests_rows::{are_bytes_of, bytes_of, cut};
use world_runs::run_to_world;

// Of each phaser where it is made, and of each task where and by which name it is drawn, where and by whom it is forked, where its code ends, with the
// statement of its last visit, where it waits: at what, for which event, at which phase, and in which turns of loops, and what it does next to phasers. The
// rows: nobody waits; loops in a fork in a loop, with tabs and CRs; loops in loops, of which one has no turn, an offset, an empty body and one on one line, and
// a task that no op forks; places of another program, some that are none, and braces that close on such a line.
const ROWS: &str = "\
skip;~|t0: end 2:1 last 1:1~\n\
pc = newPhaser();\r~pb = newPhaser();\r~loop 3 {\r~\tt = newTid();\r~\treg(t, pc);\r~\treg(t, pb);\r~\tfork(t) {\r~\t\tloop 2 {\r~\t\t\tadv(pc); await(pc);\r~\t\t}\r~\t\tdereg(pc); dereg(pb);\r~\t}\r~}\r~adv(pb);\r~await(pb);\r~|p0: 1:1~p1: 2:1~t0: end 16:1 last 15:1 wait 15:1 await(pb) p1@1 1~t1: t 4:2 fork 7:2 t0 end 12:2 last 11:14 wait 9:13 await(pc) p0@1 1 1@8:3 then p0 adv 9:4 then p1 leave 11:14~t2: t 4:2 fork 7:2 t0 end 12:2 last 11:14 wait 9:13 await(pc) p0@1 1 1@8:3 then p0 adv 9:4 then p1 leave 11:14~t3: t 4:2 fork 7:2 t0 end 12:2 last 11:14 wait 9:13 await(pc) p0@1 1 1@8:3 then p0 adv 9:4 then p1 leave 11:14~\n\
pl 2; p = newPhaser(); a = newTid(); reg(a, p); fork(a) { } b = newTid();~c = newTid(); reg(c, p); fork(c) { loop 0 { skip; } }~loop 2 { skip; loop 3 { loop 0 { adv(p); } adv(p); await(p - 2); } loop 1 { } }~await(p + 7);|p0: 1:7~t0: end 4:14 last 4:1 wait 4:1 await(p + 7) p0@13 6 then p0 leave 4:14~t1: a 1:24 fork 1:49 t0 end 1:59~t2: b 1:61~t3: c 2:1 fork 2:26 t0 end 2:53 last 2:36~\n\
p = newPhaser(); //@\t x.c:7 \t\r~loop 3 {~t = newTid(); reg(t, p); fork(t) { //@ a/b.c:9~adv(p); await(p); // no //@ q.c:1~} //@ end!:3~} //@no~adv(p); await(p); //@ 9:9 x~await(p); //@ 7~|p0: x.c:7~t0: end 9:1 last 7~t1: t a/b.c:9 fork a/b.c:9 t0 end end!:3 last 4:9~t2: t a/b.c:9 fork a/b.c:9 t0 end end!:3 last 4:9~t3: t a/b.c:9 fork a/b.c:9 t0 end end!:3 last 4:9~\n\
";

// Appends a place, behind a word.
fn put_place(
    alloc: Global,
    out: &mut Vec<u8>,
    places: &TextPlaces<'_>,
    word: &str,
    place: TextPlace,
) -> Result<(), NoMemory> {
    out.extend_from_slice(word.as_bytes())?;
    places.put(alloc, out, place)
}

// Appends where a task waits.
fn put_wait(
    alloc: Global,
    out: &mut Vec<u8>,
    places: &TextPlaces<'_>,
    wait: &Waiting,
) -> Result<(), NoMemory> {
    put_place(alloc, out, places, " wait ", wait.at)?;
    out.extend_from_slice(b" ")?;
    out.extend_from_slice(wait.words.as_slice())?;
    let p = wait.event.p.0;
    let n = wait.event.n;
    let own = wait.phase;
    let event = format!(in alloc; " p{p}@{n} {own}")?;
    out.extend_from_slice(event.as_bytes())?;
    for turn in wait.turns.as_slice() {
        let number = turn.turn;
        let word = format!(in alloc; " {number}@")?;
        put_place(alloc, out, places, word.as_str(), turn.at)?;
    }
    Ok(())
}

// Appends what a task does next to phasers.
fn put_nexts(
    alloc: Global,
    out: &mut Vec<u8>,
    places: &TextPlaces<'_>,
    nexts: &[NextOp],
) -> Result<(), NoMemory> {
    for next in nexts {
        let p = next.p.0;
        let does = match next.does {
            Doing::Advances => "adv",
            Doing::Leaves => "leave",
        };
        let word = format!(in alloc; " then p{p} {does} ")?;
        put_place(alloc, out, places, word.as_str(), next.at)?;
    }
    Ok(())
}

// Appends what is known of a task.
fn put_task(
    alloc: Global,
    out: &mut Vec<u8>,
    places: &TextPlaces<'_>,
    task: &TaskAccount,
) -> Result<(), NoMemory> {
    if let Some(drawn) = &task.drawn {
        out.extend_from_slice(b" ")?;
        out.extend_from_slice(drawn.name.as_slice())?;
        put_place(alloc, out, places, " ", drawn.at)?;
    }
    if let Some(fork) = &task.fork {
        put_place(alloc, out, places, " fork ", fork.at)?;
        let by = fork.by.0;
        let word = format!(in alloc; " t{by}")?;
        out.extend_from_slice(word.as_bytes())?;
    }
    if let Some(ended) = &task.ended {
        put_place(alloc, out, places, " end ", ended.at)?;
        if let Some(last) = ended.last {
            put_place(alloc, out, places, " last ", last)?;
        }
    }
    if let Some(wait) = &task.wait {
        put_wait(alloc, out, places, wait)?;
    }
    put_nexts(alloc, out, places, task.nexts.as_slice())
}

// An account as lines.
fn lines_of(
    alloc: Global,
    places: &TextPlaces<'_>,
    account: &Account,
) -> Result<Vec<u8>, NoMemory> {
    let mut out = Vec::new(alloc);
    for (p, place) in account.phasers.as_slice().iter().enumerate() {
        let word = format!(in alloc; "p{p}: ")?;
        put_place(alloc, &mut out, places, word.as_str(), *place)?;
        out.extend_from_slice(b"\n")?;
    }
    for (t, task) in account.tasks.as_slice().iter().enumerate() {
        let word = format!(in alloc; "t{t}:")?;
        out.extend_from_slice(word.as_bytes())?;
        put_task(alloc, &mut out, places, task)?;
        out.extend_from_slice(b"\n")?;
    }
    Ok(out)
}

// The account of the end of this plan's run, as lines.
fn told(
    alloc: Global,
    text: &[u8],
    program: &Program,
    plan: &Plan,
    forks: Vec<Option<u32>>,
) -> Result<Vec<u8>, NoMemory>
    requires short { length text.now < 1000 }
    requires few { count program.now.body + 1 < 2 ^ 32 }
    requires reads { IsText text.now program.now }
    requires unfolds { plan_of program.now ≡ Ok plan.now }
    requires forks { forks.items ≡ fork_statements program.now }
{
    let ended = run_to_world(alloc, plan)?;
    let places = TextPlaces::new(alloc, text)?;
    let facts = TextFacts::new(alloc, &places, program, forks, plan)?;
    let account = account_of(facts, &ended.world, ended.end.ends.as_slice())?;
    lines_of(alloc, &places, &account)
}

// The account of a text as lines, if it has one.
fn told_of(alloc: Global, text: &[u8]) -> Result<Vec<u8>, NoMemory> {
    if text.len() >= 1000 {
        return Ok(Vec::new(alloc));
    }
    let Ok(program) = parse(alloc, text) else {
        return Ok(Vec::new(alloc));
    };
    match unfold(alloc, &program) {
        Ok(Unfolded { plan, forks }) => told(alloc, text, &program, &plan, forks),
        Err(_) => Ok(Vec::new(alloc)),
    }
}

fn is_met(alloc: Global, row: &str) -> Result<bool, NoMemory> {
    let (text, lines) = cut(row, "|");
    let bytes = bytes_of(alloc, text)?;
    let told = told_of(alloc, &bytes)?;
    Ok(are_bytes_of(&told, lines))
}

#[test]
fn accounts_of_texts(rt: HostRuntime) -> Result<(), Fail> {
    for row in ROWS.lines() {
        assert!(rt; is_met(rt.alloc(), row)?, "{row}");
    }
    Ok(())
}

#[test]
fn laws_of_accounts_are_called() {
    account_exists();
    forkers_fork();
    one_account();
    statements_have_places();
    tasks_are_of_text();
    line_names_one_place();
}
