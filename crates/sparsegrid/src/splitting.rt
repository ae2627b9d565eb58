//! The words of the command line, split into the options' values and the positional words.

ghost use Rattle.std.specs.Prelude.{◌≡◌, false, IfOk, map, string_bytes};
ghost use Rattle.clap.specs.Matches.{found_of};
ghost use Rattle.clap.specs.Simple.{app_of};
ghost use Rattle.clap.specs.Walk.{rows_of, rule_of};
ghost use Rattle.sparsegrid.specs.Words.{begins_with_dash};
ghost use Rattle.sparsegrid.specs.steps.Splitting as steps;
ghost use Rattle.sg_words.specs.Answers.{AnswersOption};

use crate::words::BadWords;
use clap::error::ErrorKind;
use clap::{Arg, ArgAction, ArgMatches, Command};
use sg_words::{Memory, Stop};
use std::alloc::Global;

/// An option of this name that takes a text.
fn text_option<'a>(alloc: Global, name: &'a str) -> Arg<'a>
    ensures rule { rule_of result ≡ steps.option_of name.now }
    ensures local { result.global ≡ false }
{
    Arg::new(alloc, name).long(name).action(ArgAction::Set)
}

/// The command: three options, and the positional words. All values are texts.
fn command<'a>(alloc: Global) -> Result<Command<'a>, Memory>
    ensures { IfOk result (λ command. app_of command ≡ steps.words_command) }
{
    let workers = text_option(alloc, "workers");
    let mode = text_option(alloc, "mode");
    let from = text_option(alloc, "from");
    let positionals = Arg::new(alloc, "positionals").action(ArgAction::Append);
    let command = Command::new(alloc, "sparsegrid")
        .no_binary_name(true)
        .disable_help_flag(true)
        .arg(workers)?
        .arg(mode)?
        .arg(from)?
        .arg(positionals)?;
    Ok(command)
}

/// Whether a word `--from`, before any `--`, has a word behind it that begins with `-`. The command can't tell `--from -` from `--from=-`.
pub(crate) fn has_dash_for_from(words: &[String]) -> bool
    ensures { result ≡ steps.has_dash_for_from (map string_bytes words.now) }
{
    let mut left = words;
    while let [word, rest @ ..] = left {
        if is_from_and_dash(word, rest) {
            return true;
        }
        if word.as_str() == "--" {
            return false;
        }
        left = rest;
    }
    false
}

/// Whether a word is `--from`, and the next one begins with `-`.
fn is_from_and_dash(word: &String, rest: &[String]) -> bool
    ensures { result ≡ steps.is_from_and_dash (string_bytes word.now) (map string_bytes rest.now) }
{
    match rest {
        [] => false,
        [next, ..] => word.as_str() == "--from" && begins_with_dash(next.as_str()),
    }
}

fn begins_with_dash(word: &str) -> bool
    ensures { result ≡ begins_with_dash word.now }
{
    match word.as_bytes() {
        [] => false,
        [byte, ..] => *byte == b'-',
    }
}

/// The words, split; refused if one names another option, or an option has no value or comes twice.
pub(crate) fn split<'a>(
    alloc: Global,
    words: &'a [String],
) -> Result<ArgMatches<'a>, Stop<BadWords>>
    ensures { AnswersOption (λ matches. rows_of (found_of matches)) result (steps.rows_split (map string_bytes words.now)) }
{
    let command = command(alloc)?;
    match command.try_get_matches_from(words) {
        Ok(matches) => Ok(matches),
        Err(error) => match error.kind() {
            ErrorKind::OutOfMemory => Err(Stop::Memory),
            _ => Err(Stop::Refused(BadWords)),
        },
    }
}
