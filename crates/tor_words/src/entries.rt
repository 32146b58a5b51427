//! Commands that are made of tables.
ghost use Rattle.std.specs.Prelude.{◌≡◌, IfOk, Some, false, map};
ghost use Rattle.clap.specs.Words.{app_of, new_rule, rule_of};
ghost use Rattle.tor_words.specs.Rules.{rule_for, with_rules, command_of};

use clap::builder::ValueParser;
use clap::{Arg, ArgAction, Command};
use std::alloc::{AllocError, Global};

/// An option or an operand of a command: its name, the bounds of its number, and what help says of it.
pub(crate) enum Entry {
    /// An option without a value.
    Flag(&'static str, &'static str),
    /// An option with a value.
    Choice(&'static str, &'static str),
    /// An option whose value is a number from the one to the other.
    Number(&'static str, u64, u64, &'static str),
    /// A word that has to be there.
    Needed(&'static str, &'static str),
    /// The last words, of which there may be any number.
    Rest(&'static str, &'static str),
}

// What clap has to know of an option.
fn option_for<'a>(
    alloc: Global,
    name: &'static str,
    action: ArgAction,
    help: &'static str,
) -> Arg<'a>
    ensures rule { rule_of result ≡ record (new_rule name.now) { long = Some name.now; action = Some action } }
    ensures local { result.global ≡ false }
{
    Arg::new(alloc, name).long(name).action(action).help(help)
}

// What clap has to know of an operand.
fn operand_for<'a>(alloc: Global, name: &'static str, help: &'static str) -> Arg<'a>
    ensures rule { rule_of result ≡ new_rule name.now }
    ensures local { result.global ≡ false }
{
    Arg::new(alloc, name).help(help)
}

// What clap has to know of an entry.
fn arg_for<'a>(alloc: Global, entry: &Entry) -> Arg<'a>
    ensures rule { rule_of result ≡ rule_for entry.now }
    ensures local { result.global ≡ false }
{
    match *entry {
        Entry::Flag(name, help) => option_for(alloc, name, ArgAction::SetTrue, help),
        Entry::Choice(name, help) => option_for(alloc, name, ArgAction::Set, help),
        Entry::Number(name, low, high, help) => {
            let parser = ValueParser::Unsigned(low, high);
            option_for(alloc, name, ArgAction::Set, help).value_parser(parser)
        }
        Entry::Needed(name, help) => operand_for(alloc, name, help).required(true),
        Entry::Rest(name, help) => operand_for(alloc, name, help).num_args(1..),
    }
}

// The command with these entries, in their order, behind those that it has.
fn with_entries<'a>(
    alloc: Global,
    command: Command<'a>,
    entries: &[Entry],
) -> Result<Command<'a>, AllocError>
    ensures { IfOk result (λ c. app_of c ≡ with_rules (app_of command.entry) (map rule_for entries.now)) }
{
    match entries {
        [] => Ok(command),
        [entry, rest @ ..] => match command.arg(arg_for(alloc, entry)) {
            Ok(command) => with_entries(alloc, command, rest),
            Err(error) => Err(error),
        },
    }
}

/// The command of this name with these entries, in their order.
pub(crate) fn command_of<'a>(
    alloc: Global,
    name: &'a str,
    entries: &[Entry],
) -> Result<Command<'a>, AllocError>
    ensures { IfOk result (λ c. app_of c ≡ command_of name.now (map rule_for entries.now)) }
{
    let command = Command::new(alloc, name).no_binary_name(true);
    with_entries(alloc, command, entries)
}
