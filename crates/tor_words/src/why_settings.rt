//! The settings of a telling.
ghost use Rattle.std.specs.Prelude.{◌≡◌, IfOk, IfErr, Some, None, map, option_map};
ghost use Rattle.clap.specs.Words.{found_of, rows_of};
ghost use Rattle.tor_words.specs.WhyGiven.{asked_in, ases_asked, edge_asked, neighbours_asked, path_asked, what_asked};
ghost use Rattle.tor_words.specs.WhyGiven.{why_settings_in, why_settings_given};
ghost use Rattle.tor_words.specs.Refused.{IsUsage, SaysUsage};

use crate::as_words::as_named;
use crate::found::first;
use crate::matching::matches_of;
use crate::name::Name;
use crate::refused::{WordsRefused, usage};
use crate::values::short_number;
use crate::why_command::why_command;
use clap::ArgMatches;
use std::alloc::Global;
use tor_arena::List;

/// What is asked of a result.
#[derive(Clone, Copy, PartialEq, Eq)]
pub enum Asked {
    /// Why the edge of these two AS numbers, which differ, is what it is.
    Edge { one: u32, other: u32 },
    /// Why the path of this number is kept or lost.
    Path { number: u32 },
    /// Which neighbours this AS has, and what they are to it.
    Neighbours { asked: u32 },
}

/// What a run of `torwhy` is asked for: why an edge of a result is what it is, why a path is kept or lost, or which
/// neighbours an AS has.
#[derive(Drop)]
pub struct WhySettings {
    /// The name of the result file.
    pub result: Name,
    /// What is asked of it.
    pub asked: Asked,
}

// The edge of two ASes, which have to differ.
fn edge_asked(one: Option<u32>, other: Option<u32>) -> Option<Asked>
    ensures { result ≡ edge_asked one other }
{
    match (one, other) {
        (Some(one), Some(other)) => {
            if one == other {
                None
            } else {
                Some(Asked::Edge { one, other })
            }
        }
        _ => None,
    }
}

// The path of a number.
fn path_asked(number: Option<u32>) -> Option<Asked>
    ensures { result ≡ path_asked number }
{
    match number {
        Some(number) => Some(Asked::Path { number }),
        None => None,
    }
}

// The neighbours of an AS.
fn neighbours_asked(asked: Option<u32>) -> Option<Asked>
    ensures { result ≡ neighbours_asked asked }
{
    match asked {
        Some(asked) => Some(Asked::Neighbours { asked }),
        None => None,
    }
}

// The neighbours of one AS, or the edge of two.
fn ases_asked(ases: &[&str]) -> Option<Asked>
    ensures { result ≡ ases_asked (map (λ t. t.now) ases.now) }
{
    match ases {
        [asked] => neighbours_asked(as_named(asked)),
        [one, other] => edge_asked(as_named(one), as_named(other)),
        _ => None,
    }
}

// What is asked: of the path of a number, with no AS beside it, or of ASes; or nothing.
fn what_asked(path: Option<&str>, ases: &[&str]) -> Option<Asked>
    ensures { result ≡ what_asked (option_map (λ s. s.now) path.entry) (map (λ t. t.now) ases.now) }
{
    match (path, ases) {
        (Some(text), []) => path_asked(short_number(text)),
        (Some(_), _) => None,
        (None, ases) => ases_asked(ases),
    }
}

// What the matches ask.
fn asked_in(matches: &ArgMatches) -> Option<Asked>
    ensures { result ≡ asked_in (rows_of (found_of matches.now)) }
{
    let path = first(matches, "path");
    match matches.get_strs("as") {
        Some(ases) => what_asked(path, ases),
        None => what_asked(path, &[]),
    }
}

/// Why words are refused that ask for no one thing.
const ONE_QUESTION: &str =
    "an AS is named, or two different ones, or --path with a number, each from 0 to 4294967295\n";

// The settings that the matches give, if the result is named, and one thing is asked of it.
fn why_settings_in(alloc: Global, matches: &ArgMatches) -> Result<WhySettings, WordsRefused>
    ensures ok { IfOk result (λ s. why_settings_in (rows_of (found_of matches.now)) ≡ Some s) }
    ensures err { IfErr result (λ e. IsUsage e → why_settings_in (rows_of (found_of matches.now)) ≡ None) }
    ensures text { IfErr result SaysUsage }
{
    let Some(text) = first(matches, "result") else {
        return Err(usage(alloc, "no result is named\n"));
    };
    let Some(asked) = asked_in(matches) else {
        return Err(usage(alloc, ONE_QUESTION));
    };
    match Name::from_text(alloc, text) {
        Ok(result) => Ok(WhySettings { result, asked }),
        Err(_) => Err(WordsRefused::NoMemory),
    }
}

/// The settings that the words after the program's name give to a telling, by clap's meaning of the command. Usage comes
/// exactly where they give none.
pub fn why_settings_of(alloc: Global, words: &List<Name>) -> Result<WhySettings, WordsRefused>
    ensures given { IfOk result (λ s. why_settings_given words.now ≡ Some s) }
    ensures refused { IfErr result (λ e. IsUsage e → why_settings_given words.now ≡ None) }
    ensures text { IfErr result SaysUsage }
{
    match matches_of(alloc, why_command(alloc), words) {
        Ok(matches) => {
            let settings = why_settings_in(alloc, &matches);
            drop(matches);
            settings
        }
        Err(refused) => Err(refused),
    }
}
