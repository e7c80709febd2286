//! The words, read by one `clap` command.
ghost use Rattle.std.specs.Prelude.{◌≡◌, IfErr, IfOk, None, Some, codes, false, map, string_bytes};
ghost use Rattle.clap.specs.Words.{IsPlain, IsPlainArg, app_of, found_of, rows_of};
ghost use Rattle.clap.specs.Walk.{rule_of};
ghost use Rattle.clap.specs.declared.builder.command.Command.TheViews.{out-Command as fields_of};
ghost use Rattle.command_words.specs.Commands.{command_of, found_command, named_command, number_in, number_rule};
ghost use Rattle.command_words.specs.Commands.{plain_command, words_app};
ghost use Rattle.command_words.specs.Inner.{IsRead};

use crate::command::{Command, WordsFault};
use clap::{Arg, ArgMatches, value_parser};
use std::alloc::{AllocError, Global};

/// The greatest number of `--first`.
const MOST_FIRST: u32 = 2_147_483_647;

/// The greatest number of `--count`.
const MOST_COUNT: u32 = 1_000_000;

/// An option with a value: a number from 0 to `most`.
fn number_option<'a>(alloc: Global, name: &'a str, most: u32) -> Arg<'a>
    ensures rule { rule_of result ≡ number_rule name.now most }
    ensures plain { IsPlainArg result }
    ensures local { result.global ≡ false }
{
    Arg::new(alloc, name)
        .long(name)
        .value_parser(value_parser!(u32).range(0..=i64::from(most)))
}

/// The `clap` command that reads the words.
fn words_command<'a>(alloc: Global) -> Result<clap::Command<'a>, AllocError>
    ensures app { IfOk result (λ c. app_of c ≡ words_app) }
    ensures plain { IfOk result IsPlain }
    ensures local { IfOk result (λ c. (fields_of c).has_globals ≡ false) }
{
    clap::Command::new(alloc, "globex")
        .no_binary_name(true)
        .arg(Arg::new(alloc, "command").required(true))?
        .arg(number_option(alloc, "first", MOST_FIRST))?
        .arg(number_option(alloc, "count", MOST_COUNT))
}

/// The command of this name, where it is one that has no options.
fn plain_command(name: &str) -> Option<Command>
    ensures { result ≡ plain_command name.now }
{
    match name {
        "run" => Some(Command::Run),
        "replay" => Some(Command::Replay),
        "book" => Some(Command::Book),
        "fills" => Some(Command::Fills),
        "ledger" => Some(Command::Ledger),
        "steps" => Some(Command::Steps),
        "checkpoint" => Some(Command::Checkpoint),
        "amend" => Some(Command::Amend),
        "session" => Some(Command::Session),
        "opening" => Some(Command::Opening),
        "levels" => Some(Command::Levels),
        "rebuild" => Some(Command::Rebuild),
        _ => None,
    }
}

/// The command of a name and the two options: `drill` has both, and the others have neither.
fn named_command(name: &str, first: Option<u32>, count: Option<u32>) -> Option<Command>
    ensures { result ≡ named_command name.now first count }
{
    match (first, count) {
        (None, None) => plain_command(name),
        (Some(first), Some(count)) if name == "drill" => Some(Command::Drill { first, count }),
        _ => None,
    }
}

/// The number of an option, where the words have it.
fn number_in(matches: &ArgMatches<'_>, id: &str) -> Option<u32>
    requires { IsRead (found_of matches.now) id.now }
    ensures { result ≡ number_in id.now (rows_of (found_of matches.now)) }
{
    matches.get_one::<u32>(id)
}

/// The command of what `clap` found.
fn found_command(matches: &ArgMatches<'_>) -> Option<Command>
    requires first { IsRead (found_of matches.now) (codes "first") }
    requires count { IsRead (found_of matches.now) (codes "count") }
    ensures { result ≡ found_command (rows_of (found_of matches.now)) }
{
    let name = matches.get_str("command")?;
    let first = number_in(matches, "first");
    let count = number_in(matches, "count");
    named_command(name, first, count)
}

/// The command that the words after the program's name give. An `Err` is `Refused` where they give none, and `NoMemory`
/// where memory runs out.
pub fn read_command(alloc: Global, words: &[String]) -> Result<Command, WordsFault>
    ensures given { IfOk result (λ command. command_of (map string_bytes words.now) ≡ Some command) }
    ensures refused { IfErr result (λ fault.
        fault ≡ WordsFault.Refused → command_of (map string_bytes words.now) ≡ None) }
{
    let matches = words_command(alloc)?.try_get_matches_from(words)?;
    found_command(&matches).ok_or(WordsFault::Refused)
}
