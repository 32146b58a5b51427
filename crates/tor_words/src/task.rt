//! What the words ask for, but for the files.
ghost use Rattle.std.specs.Prelude.{◌≡◌, List, is_some};
ghost use Rattle.clap.specs.Words.{found_of, rows_of};
ghost use Rattle.tor_words.specs.Given.{alone, asked_in, with_asked, task_in, refuses};

use crate::found::{has_flag, has_option};
use clap::ArgMatches;

/// What is counted of dumps.
#[derive(Clone, Copy, PartialEq, Eq)]
pub enum Counted {
    /// The distinct paths: the list of them, each with its number of routes.
    Listing,
    /// What the dumps hold, and what of it counts.
    Survey,
}

/// What is made of dumps alone.
#[derive(Clone, Copy, PartialEq, Eq)]
pub enum Made {
    /// The result: which paths are kept, and the labels and the marks of the edges.
    Result,
    /// The ties: which of the open edges stand or fall together.
    Ties,
    /// The asks: how much of what is open each contract would settle, if somebody knew it.
    Asks,
    /// The relationships that the result's labels say, as lines of serial-1.
    Serial,
}

/// A job without its files.
#[derive(Clone, Copy, PartialEq, Eq)]
pub(crate) enum Task {
    Count(Counted),
    Infer(Made),
    Sample,
    Migrate,
    Resume,
}

/// Why words are refused where known relationships would bind nothing.
const GIVEN_ALONE: &str =
    "--given takes no --list, no --survey, no --sample, no --migrate and no --resume\n";

/// The same where networks that buy from nobody would bind nothing.
const TOP_ALONE: &str = "--top takes no --list, no --survey, no --sample and no --migrate\n";

// One thing at most that is asked for, if it is no more than one: this task where it is asked for, and the other things.
fn with_asked(asked: bool, task: Task, others: Option<Option<Task>>) -> Option<Option<Task>>
    ensures { (tasks : List Task) → others ≡ alone tasks → result ≡ alone (with_asked asked task tasks) }
{
    if !asked {
        return others;
    }
    match others {
        Some(None) => Some(Some(task)),
        _ => None,
    }
}

// What is asked for in place of the result, if it is one thing at most.
fn alone_in(matches: &ArgMatches) -> Option<Option<Task>>
    ensures { result ≡ alone (asked_in (rows_of (found_of matches.now))) }
{
    let asked = with_asked(has_option(matches, "resume"), Task::Resume, Some(None));
    let asked = with_asked(has_flag(matches, "migrate"), Task::Migrate, asked);
    let asked = with_asked(has_option(matches, "sample"), Task::Sample, asked);
    let asked = with_asked(
        has_flag(matches, "serial1"),
        Task::Infer(Made::Serial),
        asked,
    );
    let asked = with_asked(has_flag(matches, "ask"), Task::Infer(Made::Asks), asked);
    let asked = with_asked(has_flag(matches, "ties"), Task::Infer(Made::Ties), asked);
    let asked = with_asked(
        has_flag(matches, "survey"),
        Task::Count(Counted::Survey),
        asked,
    );
    with_asked(
        has_flag(matches, "list"),
        Task::Count(Counted::Listing),
        asked,
    )
}

/// What is asked for: the result, or something in its place, if it is one thing at most.
pub(crate) fn task_in(matches: &ArgMatches) -> Option<Task>
    ensures { result ≡ task_in (rows_of (found_of matches.now)) }
{
    match alone_in(matches) {
        Some(Some(task)) => Some(task),
        Some(None) => Some(Task::Infer(Made::Result)),
        None => None,
    }
}

/// Why words are refused that have an option which this task has no use for, if they have one.
pub(crate) fn refusal_in(matches: &ArgMatches, task: Task) -> Option<&'static str>
    ensures { is_some result ≡ refuses (rows_of (found_of matches.now)) task }
{
    match task {
        Task::Infer(_) => None,
        Task::Resume => {
            if has_option(matches, "given") {
                Some(GIVEN_ALONE)
            } else {
                None
            }
        }
        Task::Count(_) | Task::Sample | Task::Migrate => {
            if has_option(matches, "given") {
                Some(GIVEN_ALONE)
            } else if has_option(matches, "top") {
                Some(TOP_ALONE)
            } else {
                None
            }
        }
    }
}
