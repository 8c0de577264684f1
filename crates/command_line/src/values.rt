// The values of the options, read by `clap`.
ghost use Rattle.std.specs.Prelude.{◌≡◌, IfOk, IfErr, List, Option, false, map, string_bytes};
ghost use Rattle.clap.specs.Words.{app_of, kind_of, rule_of};
ghost use Rattle.program_io.specs.Texts.{Text};
ghost use Rattle.command_line.specs.Words.{AreWords, Use};
ghost use Rattle.command_line.specs.Commands.{given_by};
ghost use Rattle.command_line.specs.inside.Rules.{app_for, given_of, rule_for};

use crate::table::{ALONE, FirstWord, GRAPH, KEPT, LIVE, OptionWord, PRINT, SITES, WORKERS};
use clap::error::ErrorKind;
use clap::{Arg, ArgAction, Command, Error};
use std::alloc::{AllocError, Global};

/// The flags that are used, and the values as they are written.
#[derive(Drop)]
pub struct Values<'a> {
    pub print: bool,
    pub workers: Option<&'a str>,
    pub graph: Option<&'a str>,
    pub live: bool,
    pub kept: bool,
    pub sites: Option<&'a str>,
    pub alone: Option<&'a str>,
}

// The argument of an option.
fn arg_for<'a>(alloc: Global, option: OptionWord) -> Arg<'a>
    ensures rule { rule_of result ≡ rule_for option }
    ensures local { result.global ≡ false }
{
    let name: &'a str = option.name();
    let arg = Arg::new(alloc, name).long(name);
    if option.wants_value() {
        arg
    } else {
        arg.action(ArgAction::SetTrue)
    }
}

// The simple command of a first word.
fn command_for<'a>(alloc: Global, first: FirstWord) -> Result<Command<'a>, AllocError>
    ensures app { IfOk result (λ command. app_of command ≡ app_for first) }
{
    let word: &'a str = first.word();
    let command = Command::new(alloc, word);
    match first {
        FirstWord::Check => command.arg(arg_for(alloc, OptionWord::Print)),
        FirstWord::Run => command
            .arg(arg_for(alloc, OptionWord::Workers))?
            .arg(arg_for(alloc, OptionWord::Graph))?
            .arg(arg_for(alloc, OptionWord::Live))?
            .arg(arg_for(alloc, OptionWord::Sites)),
        FirstWord::Avoid => command
            .arg(arg_for(alloc, OptionWord::Workers))?
            .arg(arg_for(alloc, OptionWord::Graph))?
            .arg(arg_for(alloc, OptionWord::Kept)),
        FirstWord::Record => command.arg(arg_for(alloc, OptionWord::Workers)),
        FirstWord::Replay => Ok(command),
        FirstWord::Gen => command.arg(Arg::new(alloc, ALONE)),
        FirstWord::Clock => command
            .arg(arg_for(alloc, OptionWord::Workers))?
            .arg(arg_for(alloc, OptionWord::Graph))?
            .arg(arg_for(alloc, OptionWord::Live)),
        FirstWord::Pool => command
            .arg(arg_for(alloc, OptionWord::Workers))?
            .arg(arg_for(alloc, OptionWord::Graph)),
    }
}

/// The values in words that have the form of this command. Where they have it, an error is want of memory.
pub fn values_in<'a>(
    alloc: Global,
    first: FirstWord,
    words: &'a [String],
) -> Result<Values<'a>, Error>
    ensures ok { IfOk result (λ values. (uses : List Use) (alone : Option Text) → AreWords (map string_bytes words.entry.now) first uses alone
        → given_of values ≡ given_by uses alone) }
    ensures err { IfErr result (λ error. (uses : List Use) (alone : Option Text) → AreWords (map string_bytes words.entry.now) first uses alone
        → kind_of error ≡ ErrorKind.OutOfMemory) }
{
    let command = match command_for(alloc, first) {
        Ok(command) => command,
        Err(error) => return Err(Error::from(error)),
    };
    match command.try_get_matches_from(words) {
        Ok(matches) => Ok(Values {
            print: matches.get_flag(PRINT),
            workers: matches.get_str(WORKERS),
            graph: matches.get_str(GRAPH),
            live: matches.get_flag(LIVE),
            kept: matches.get_flag(KEPT),
            sites: matches.get_str(SITES),
            alone: matches.get_str(ALONE),
        }),
        Err(error) => Err(error),
    }
}
