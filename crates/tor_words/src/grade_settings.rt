//! The settings of a grading.
ghost use Rattle.std.specs.Prelude.{◌≡◌, ◌<◌, IfOk, IfErr, Some, None, length, option_map};
ghost use Rattle.clap.specs.Words.{found_of, rows_of};
ghost use Rattle.tor_words.specs.GradeGiven.{cone_in, grade_settings_in, grade_settings_given};
ghost use Rattle.tor_words.specs.Refused.{IsUsage, SaysUsage};

use crate::found::{first, names_in};
use crate::grade_command::grade_command;
use crate::matching::matches_of;
use crate::name::Name;
use crate::refused::{WordsRefused, usage};
use crate::values::number_in;
use clap::ArgMatches;
use std::alloc::Global;
use tor_arena::List;

/// What a run of `torgrade` is asked for: what the paths of dumps are worth under known relationships, and maybe a customer cone.
#[derive(Drop)]
pub struct GradeSettings {
    /// The name of the file of known relationships.
    pub rel: Name,
    /// The AS whose customer cone is asked for, if one is.
    pub cone: Option<u32>,
    /// The names of the dumps, one at least, in the order in which they are read.
    pub dumps: List<Name>,
}

// The AS whose cone is asked for, if one is, unless the text names none.
fn cone_in(text: Option<&str>) -> Option<Option<u32>>
    ensures { result ≡ cone_in (option_map (λ s. s.now) text.entry) }
{
    match text {
        None => Some(None),
        Some(text) => match number_in(text, 0, 4_294_967_295) {
            Some(number) => Some(Some(number as u32)),
            None => None,
        },
    }
}

// The settings that the matches give, if the file and a dump are named, and the AS is one.
fn grade_settings_in(alloc: Global, matches: &ArgMatches) -> Result<GradeSettings, WordsRefused>
    ensures ok { IfOk result (λ s. grade_settings_in (rows_of (found_of matches.now)) ≡ Some s) }
    ensures err { IfErr result (λ e. IsUsage e → grade_settings_in (rows_of (found_of matches.now)) ≡ None) }
    ensures text { IfErr result SaysUsage }
    ensures named { IfOk result (λ s. 0 < length s.dumps) }
{
    let Some(text) = first(matches, "rel") else {
        return Err(usage(alloc, "no file of relationships is named\n"));
    };
    let Ok(dumps) = names_in(alloc, matches) else {
        return Err(WordsRefused::NoMemory);
    };
    if dumps.is_empty() {
        drop(dumps);
        return Err(usage(alloc, "no dump is named\n"));
    }
    let Some(cone) = cone_in(first(matches, "cone")) else {
        drop(dumps);
        return Err(usage(alloc, "--cone takes a number from 0 to 4294967295\n"));
    };
    match Name::from_text(alloc, text) {
        Ok(rel) => Ok(GradeSettings { rel, cone, dumps }),
        Err(_) => {
            drop(dumps);
            Err(WordsRefused::NoMemory)
        }
    }
}

/// The settings that the words after the program's name give to a grading, by clap's meaning of the command. Usage comes
/// exactly where they give none.
pub fn grade_settings_of(alloc: Global, words: &List<Name>) -> Result<GradeSettings, WordsRefused>
    ensures given { IfOk result (λ s. grade_settings_given words.now ≡ Some s) }
    ensures refused { IfErr result (λ e. IsUsage e → grade_settings_given words.now ≡ None) }
    ensures text { IfErr result SaysUsage }
    ensures named { IfOk result (λ s. 0 < length s.dumps) }
{
    match matches_of(alloc, grade_command(alloc), words) {
        Ok(matches) => {
            let settings = grade_settings_in(alloc, &matches);
            drop(matches);
            settings
        }
        Err(refused) => Err(refused),
    }
}
