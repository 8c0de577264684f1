// Serving a command on its input.
ghost use Rattle.std.specs.Prelude.{◌≡◌, ◌≢◌, IfErr, IfOk, false, true};
ghost use Rattle.armus_top.specs.Commands.{IsAnswered, limit_of, wanted_of, writes_live};
ghost use Rattle.program_io.specs.calls.Passages.{passage};
ghost use Rattle.armus_top.specs.calls.Inputs.{FitsLimit};
ghost use Rattle.armus_top.specs.inside.Answers.{IsEndOf};
ghost use Rattle.armus_top.specs.inside.Serving.{WaitsForNoThread, WaitsForThreads};
ghost use Rattle.program_io.specs.calls.ExitNumbers.{number_of_status};
ghost use Rattle.armus_top.specs.inside.Writing.{Answered};

use crate::checking::check;
use crate::output::{InputEnd, Output};
use crate::programs::{clock_plan_in, text_plan_in};
use crate::replaying::replay;
use crate::running::CallSetting;
use crate::writing::write_answer;
use adaptive::Wanted;
use armus_base::{Gate, Sink};
use command_line::{Command, Graph, RunKind};
use program_io::ExitStatus;
use std::sync::Wait;
use std::thread::Threads;
use task_runner::RunOptions;

impl<R: Threads + Sync, G: Gate> CallSetting<'_, R, G> {
    // What a command answers on its input that waits for no thread and writes no live lines.
    fn answer(&self, command: &Command, input: &[u8]) -> Result<Output, InputEnd>
        requires plain { WaitsForNoThread command.now }
        requires quiet { writes_live command.now ≡ false }
        requires fits { FitsLimit (limit_of command.now) input.now }
        ensures answer { IfOk result (λ o. IsAnswered command.now input.now (number_of_status o.status) o.text) }
        ensures refused { IfErr result (IsEndOf command.now input.now) }
    {
        match *command {
            Command::Check { print } => check(self.alloc, print, input),
            Command::Replay => replay(self.alloc, input),
            Command::Gen { count } => Ok(self.generate(count)?),
            Command::Run {
                workers,
                graph,
                kind,
            } => {
                let plan = text_plan_in(self.alloc, input)?;
                let options = options_of(workers, graph, false);
                Ok(self.run(&plan, &options, kind)?)
            }
            Command::Clock { workers, graph, .. } => {
                let plan = clock_plan_in(self.alloc, input)?;
                let options = options_of(workers, graph, false);
                Ok(self.run(&plan, &options, RunKind::Plain)?)
            }
            Command::Avoid {
                workers,
                graph,
                kept,
            } => {
                let plan = text_plan_in(self.alloc, input)?;
                let options = options_of(workers, graph, false);
                Ok(self.avoid(&plan, &options, kept)?)
            }
            Command::Record { .. } | Command::Pool { .. } => unreachable!(),
        }
    }

    // Serves a command that writes live lines, on its input.
    fn serve_live<K: Sink>(&self, command: &Command, input: &[u8], out: &mut K) -> ExitStatus
        requires plain { WaitsForNoThread command.now }
        requires live { writes_live command.now ≡ true }
        requires fits { FitsLimit (limit_of command.now) input.now }
        ensures done { Answered command.now input.now (passage K.taken K.faults out.old out.new) (number_of_status result) }
        ensures silent { number_of_status result ≢ 4 }
    {
        match *command {
            Command::Run { workers, graph, .. } => match text_plan_in(self.alloc, input) {
                Ok(plan) => {
                    let options = options_of(workers, graph, true);
                    self.run_live(&plan, &options, out)
                }
                Err(end) => write_answer(self.alloc, Err(end), out),
            },
            Command::Clock { workers, graph, .. } => match clock_plan_in(self.alloc, input) {
                Ok(plan) => {
                    let options = options_of(workers, graph, true);
                    self.run_live(&plan, &options, out)
                }
                Err(end) => write_answer(self.alloc, Err(end), out),
            },
            _ => unreachable!(),
        }
    }

    /// Serves a command on its input that waits for no thread.
    pub fn serve<K: Sink>(&self, command: &Command, input: &[u8], out: &mut K) -> ExitStatus
        requires plain { WaitsForNoThread command.now }
        requires fits { FitsLimit (limit_of command.now) input.now }
        ensures done { Answered command.now input.now (passage K.taken K.faults out.old out.new) (number_of_status result) }
        ensures silent { number_of_status result ≢ 4 }
        ensures unwritten { writes_live command.now ≡ false → number_of_status result ≡ 6 → out.new ≡ out.old }
    {
        if writes_live(command) {
            return self.serve_live(command, input, out);
        }
        let answer = self.answer(command, input);
        write_answer(self.alloc, answer, out)
    }
}

impl<R: Threads + Wait + Sync, G: Gate> CallSetting<'_, R, G> {
    // What a command answers on its input that waits for threads.
    fn answer_waiting(&self, command: &Command, input: &[u8]) -> Result<Output, InputEnd>
        requires waiting { WaitsForThreads command.now }
        requires fits { FitsLimit (limit_of command.now) input.now }
        ensures answer { IfOk result (λ o. IsAnswered command.now input.now (number_of_status o.status) o.text) }
        ensures refused { IfErr result (IsEndOf command.now input.now) }
    {
        match *command {
            Command::Record { workers } => {
                let plan = text_plan_in(self.alloc, input)?;
                let options = options_of(workers, Graph::Auto, false);
                Ok(self.record(&plan, &options, input)?)
            }
            Command::Pool { workers, graph } => {
                let plan = text_plan_in(self.alloc, input)?;
                let options = options_of(workers, graph, false);
                Ok(self.pool(&plan, &options)?)
            }
            _ => unreachable!(),
        }
    }

    /// Serves a command on its input that waits for threads.
    pub fn serve_waiting<K: Sink>(&self, command: &Command, input: &[u8], out: &mut K) -> ExitStatus
        requires waiting { WaitsForThreads command.now }
        requires fits { FitsLimit (limit_of command.now) input.now }
        ensures done { Answered command.now input.now (passage K.taken K.faults out.old out.new) (number_of_status result) }
        ensures silent { number_of_status result ≢ 4 }
        ensures unwritten { number_of_status result ≡ 6 → out.new ≡ out.old }
    {
        let answer = self.answer_waiting(command, input);
        write_answer(self.alloc, answer, out)
    }
}

// Whether a command writes live lines.
fn writes_live(command: &Command) -> bool
    ensures { result ≡ writes_live command.now }
{
    match command {
        Command::Run { kind, .. } => matches!(kind, RunKind::Live),
        Command::Clock { live, .. } => *live,
        _ => false,
    }
}

// The graph that is wanted of a report.
fn wanted_in(graph: Graph) -> Wanted
    ensures { result ≡ wanted_of graph }
{
    match graph {
        Graph::Auto => Wanted::Auto,
        Graph::Wfg => Wanted::Wfg,
        Graph::Sg => Wanted::Sg,
        Graph::Grg => Wanted::Grg,
    }
}

// How a run by so many workers is made that is reported by this graph: live, with a line for each dead task while it goes on.
fn options_of(workers: u8, graph: Graph, live: bool) -> RunOptions
    ensures workers { result.workers ≡ workers }
    ensures wanted { result.wanted ≡ wanted_of graph }
    ensures live { result.live ≡ live }
{
    RunOptions {
        workers,
        wanted: wanted_in(graph),
        live,
    }
}
