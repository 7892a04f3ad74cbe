//! Parsing words into options and positionals, with one simple `clap` command.
ghost use Rattle.std.specs.Prelude.{false, ◌≡◌, IfOk, map, string_bytes};
ghost use Rattle.clap.specs.Words.{FailsBy, app_of, fault_of, found_of, kind_of, matches_of, new_rule, rows_of, rule_of};
ghost use Rattle.cli_words.specs.{bare_parser, flag_rule, option_rule, parser, IsGivenBy};

use crate::WordFault;
use clap::error::ErrorKind;
use clap::{Arg, ArgAction, ArgMatches, Command};
use std::alloc::Global;

/// The options and the positionals that words give. No rule about commands and numbers is tested yet.
#[derive(Clone, Copy)]
pub struct Given<'a> {
    pub events: bool,
    pub polls: bool,
    pub large: bool,
    pub cycles: Option<&'a str>,
    pub ops: Option<&'a str>,
    pub slack: Option<&'a str>,
    pub command: Option<&'a str>,
    pub second: Option<&'a str>,
    pub third: Option<&'a str>,
}

/// The options and positionals of these words. The error is `Refused` only where the words cannot be a command.
pub fn parse<'a>(alloc: Global, words: &'a [String]) -> Result<Given<'a>, WordFault>
    ensures { IsGivenBy (map string_bytes words.entry.now) result }
{
    match matches(alloc, words) {
        Ok(matches) => Ok(Given {
            events: matches.get_flag("events"),
            polls: matches.get_flag("polls"),
            large: matches.get_flag("large"),
            cycles: matches.get_str("cycles"),
            ops: matches.get_str("ops"),
            slack: matches.get_str("slack"),
            command: matches.get_str("command"),
            second: matches.get_str("second"),
            third: matches.get_str("third"),
        }),
        Err(error) => Err(word_fault(&error)),
    }
}

/// The words, parsed as six options and at most three positionals.
fn matches<'a>(alloc: Global, words: &'a [String]) -> Result<ArgMatches<'a>, clap::Error>
    ensures fails { FailsBy (fault_of parser (map string_bytes words.entry.now)) result }
    ensures rows { IfOk result (λ m. rows_of (found_of m)
        ≡ matches_of parser (map string_bytes words.entry.now)) }
{
    let parser = bare_parser(alloc)
        .arg(flag(alloc, "events"))?
        .arg(flag(alloc, "polls"))?
        .arg(flag(alloc, "large"))?
        .arg(option(alloc, "cycles"))?
        .arg(option(alloc, "ops"))?
        .arg(option(alloc, "slack"))?
        .arg(positional(alloc, "command"))?
        .arg(positional(alloc, "second"))?
        .arg(positional(alloc, "third"))?;
    parser.try_get_matches_from(words)
}

/// A parser without options and positionals. It takes no program's name, and has no help and no version.
fn bare_parser<'a>(alloc: Global) -> Command<'a>
    ensures { app_of result ≡ bare_parser }
{
    Command::new(alloc, "omnisim")
        .no_binary_name(true)
        .disable_help_flag(true)
        .disable_version_flag(true)
}

/// An option that takes no value.
fn flag<'a>(alloc: Global, name: &'a str) -> Arg<'a>
    ensures rule { rule_of result ≡ flag_rule name.entry.now }
    ensures local { result.global ≡ false }
{
    Arg::new(alloc, name).long(name).action(ArgAction::SetTrue)
}

/// An option that takes a value.
fn option<'a>(alloc: Global, name: &'a str) -> Arg<'a>
    ensures rule { rule_of result ≡ option_rule name.entry.now }
    ensures local { result.global ≡ false }
{
    Arg::new(alloc, name).long(name)
}

/// A positional, which need not be given.
fn positional<'a>(alloc: Global, name: &'a str) -> Arg<'a>
    ensures rule { rule_of result ≡ new_rule name.entry.now }
    ensures local { result.global ≡ false }
{
    Arg::new(alloc, name)
}

/// The fault of the words that an error of the parser means.
fn word_fault(error: &clap::Error) -> WordFault
    ensures { kind_of error.now ≡ ErrorKind.OutOfMemory → result ≡ WordFault.OutOfMemory }
{
    match error.kind() {
        ErrorKind::OutOfMemory => WordFault::OutOfMemory,
        _ => WordFault::Refused,
    }
}
