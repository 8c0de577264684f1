// The command `gen`.
ghost use Rattle.std.specs.Prelude.{◌≡◌, ◌<◌, ◌∷◌, ◌++◌, [], IfOk, OnOk, List as Seq, ℕ, length};
ghost use Rattle.armus_base.specs.Plans.{Plan};
ghost use Rattle.adaptive.specs.declared.analysis.Wanted.{Wanted};
ghost use Rattle.pl_generator.specs.Generated.{generated_text};
ghost use Rattle.schedule.specs.Lines.{IsCut};
ghost use Rattle.pl_syntax.specs.Printed.{line};
ghost use Rattle.program_io.specs.Programs.{IsPlanOf};
ghost use Rattle.armus_top.specs.Runs.{IsRunOf};
ghost use Rattle.armus_top.specs.Generated.{IsFirstAndLast, IsGenOf};
ghost use Rattle.program_io.specs.calls.ExitNumbers.{number_of_status};
ghost use Rattle.armus_top.specs.inside.TwoLines.{HasTwoLines};

use crate::output::Output;
use crate::programs::checked_in;
use crate::running::CallSetting;
use adaptive::Wanted;
use armus_base::{Gate, List, NoMemory};
use command_line::RunKind;
use pl_generator::gen_text;
use schedule::first_line;
use std::alloc::{AllocError, Global};
use std::thread::Threads;
use task_runner::RunOptions;

// How many workers run a generated text.
const GENERATED_WORKERS: u8 = 8;

// The last line.
fn last_line(bytes: &[u8]) -> &[u8]
    requires some { 0 < length bytes.now }
    ensures last { (before : Seq (Seq ℕ)) × IsCut bytes.now (before ++ result.now ∷ []) }
{
    let (mut line, mut rest) = first_line(bytes);
    while !rest.is_empty() {
        let (next, more) = first_line(rest);
        line = next;
        rest = more;
    }
    line
}

// Puts a line behind others.
fn put_line(out: &mut Vec<u8>, words: &[u8]) -> Result<(), AllocError>
    ensures { OnOk result (out.new.items ≡ out.old.items ++ line words.now) }
{
    out.extend_from_slice(words)?;
    out.extend_from_slice(b"\n")
}

// Two lines.
fn two_lines(alloc: Global, first: &[u8], last: &[u8]) -> Result<List<u8>, NoMemory>
    ensures { IfOk result (λ text. text ≡ line first.now ++ line last.now) }
{
    let mut text = Vec::new(alloc);
    put_line(&mut text, first)?;
    put_line(&mut text, last)?;
    Ok(List::from_vec(text))
}

// The first and the last line of a report.
fn first_and_last(alloc: Global, report: &[u8]) -> Result<List<u8>, NoMemory>
    requires lines { HasTwoLines report.now }
    ensures text { IfOk result (IsFirstAndLast report.now) }
{
    let (first, more) = first_line(report);
    let last = last_line(more);
    two_lines(alloc, first, last)
}

impl<R: Threads + Sync, G: Gate> CallSetting<'_, R, G> {
    // The report of the run of the generated text. That text is read, checked and run as one that a user gives; it is never refused, by the law
    // `gen_is_accepted`, so the one end without an answer is want of memory.
    fn run_generated(&self, count: u16) -> Result<Output, NoMemory>
        ensures run { IfOk result (λ o. (plan : Plan) × IsPlanOf (generated_text count) plan × IsRunOf plan Wanted.Auto (number_of_status o.status) o.text) }
    {
        let text = gen_text(self.alloc, count)?;
        let checked = match checked_in(self.alloc, text.as_slice()) {
            Ok(checked) => checked,
            Err(_) => return Err(NoMemory),
        };
        let options = RunOptions {
            workers: GENERATED_WORKERS,
            wanted: Wanted::Auto,
            live: false,
        };
        self.run(&checked.plan, &options, RunKind::Plain)
    }

    /// The first and the last line of the report of the run of a generated text.
    pub fn generate(&self, count: u16) -> Result<Output, NoMemory>
        ensures run { IfOk result (λ o. IsGenOf count (number_of_status o.status) o.text) }
    {
        let report = self.run_generated(count)?;
        let text = first_and_last(self.alloc, report.text.as_slice())?;
        Ok(Output {
            text,
            status: report.status,
        })
    }
}
