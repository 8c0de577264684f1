// The command that the words mean.
ghost use Rattle.std.specs.Prelude.{◌≡◌, ℕ, IfErr, IfOk, IfSome, IfNone, map, option_map, string_bytes};
ghost use Rattle.command_line.specs.Commands.{AreWorkers, IsGenerated, IsRunKind, IsWantedGraph, Means, Reads, first_of};
ghost use Rattle.command_line.specs.Words.{HaveForm};
ghost use Rattle.command_line.specs.inside.Rules.{given_of};
ghost use Rattle.command_line.specs.declared.command.Command.{Command};
ghost use Rattle.command_line.specs.declared.command.Graph.{Graph};
ghost use Rattle.command_line.specs.declared.command.RunKind.{RunKind};

use crate::command::{Command, Graph, RunKind};
use crate::forms::first_word_in;
use crate::numbers::{graph_in, number_in};
use crate::table::{DEFAULT_WORKERS, FirstWord, MAX_GENERATED};
use crate::values::{Values, values_in};
use armus_base::{MAX_SITES, MAX_WORKERS};
use clap::error::ErrorKind;
use std::alloc::{AllocError, Global};

// The number of workers.
fn workers_in(text: Option<&str>) -> Option<u8>
    ensures some { IfSome result (λ workers. AreWorkers (option_map (λ s. s.now) text.entry) workers) }
    ensures none { IfNone result ((workers : ℕ) → AreWorkers (option_map (λ s. s.now) text.entry) workers → ⊥) }
{
    match text {
        Some(text) => Some(number_in(text, u64::from(MAX_WORKERS))? as u8),
        None => Some(DEFAULT_WORKERS),
    }
}

// The wanted graph.
fn wanted_in(text: Option<&str>) -> Option<Graph>
    ensures some { IfSome result (λ graph. IsWantedGraph (option_map (λ s. s.now) text.entry) graph) }
    ensures none { IfNone result ((graph : Graph) → IsWantedGraph (option_map (λ s. s.now) text.entry) graph → ⊥) }
{
    match text {
        Some(text) => graph_in(text),
        None => Some(Graph::Auto),
    }
}

// The number of workers in a generated text.
fn generated_in(text: Option<&str>) -> Option<u16>
    ensures some { IfSome result (λ count. IsGenerated (option_map (λ s. s.now) text.entry) count) }
    ensures none { IfNone result ((count : ℕ) → IsGenerated (option_map (λ s. s.now) text.entry) count → ⊥) }
{
    match text {
        Some(text) => Some(number_in(text, u64::from(MAX_GENERATED))? as u16),
        None => None,
    }
}

// What goes beside the tasks: live lines or sites, and not both.
fn kind_in(live: bool, sites: Option<&str>) -> Option<RunKind>
    ensures some { IfSome result (λ kind. IsRunKind live (option_map (λ s. s.now) sites.entry) kind) }
    ensures none { IfNone result ((kind : RunKind) → IsRunKind live (option_map (λ s. s.now) sites.entry) kind → ⊥) }
{
    match sites {
        Some(_) if live => None,
        Some(text) => Some(RunKind::Sites {
            sites: number_in(text, u64::from(MAX_SITES))? as u8,
        }),
        None if live => Some(RunKind::Live),
        None => Some(RunKind::Plain),
    }
}

// The command of this first word with these values.
fn command_of(first: FirstWord, values: &Values<'_>) -> Option<Command>
    ensures some { IfSome result (λ c. (first_of c ≡ first) × Reads c (given_of values.now)) }
    ensures none { IfNone result ((c : Command) → first_of c ≡ first → Reads c (given_of values.now) → ⊥) }
{
    match first {
        FirstWord::Check => Some(Command::Check {
            print: values.print,
        }),
        FirstWord::Run => Some(Command::Run {
            workers: workers_in(values.workers)?,
            graph: wanted_in(values.graph)?,
            kind: kind_in(values.live, values.sites)?,
        }),
        FirstWord::Avoid => Some(Command::Avoid {
            workers: workers_in(values.workers)?,
            graph: wanted_in(values.graph)?,
            kept: values.kept,
        }),
        FirstWord::Record => Some(Command::Record {
            workers: workers_in(values.workers)?,
        }),
        FirstWord::Replay => Some(Command::Replay),
        FirstWord::Gen => Some(Command::Gen {
            count: generated_in(values.alone)?,
        }),
        FirstWord::Clock => Some(Command::Clock {
            workers: workers_in(values.workers)?,
            graph: wanted_in(values.graph)?,
            live: values.live,
        }),
        FirstWord::Pool => Some(Command::Pool {
            workers: workers_in(values.workers)?,
            graph: wanted_in(values.graph)?,
        }),
    }
}

/// The command that the words mean, if they mean one. The words are the command line without the program's name.
pub fn command_in(alloc: Global, words: &[String]) -> Result<Option<Command>, AllocError>
    ensures means { IfOk result (Means (map string_bytes words.now)) }
    ensures formed { IfErr result (λ _. HaveForm (map string_bytes words.now)) }
{
    let first = match first_word_in(words) {
        Some(first) => first,
        None => return Ok(None),
    };
    match values_in(alloc, first, words) {
        Ok(values) => Ok(command_of(first, &values)),
        Err(error) => {
            if error.kind() == ErrorKind::OutOfMemory {
                Err(AllocError)
            } else {
                Ok(None)
            }
        }
    }
}
