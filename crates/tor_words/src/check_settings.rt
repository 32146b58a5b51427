//! The settings of a check.
ghost use Rattle.std.specs.Prelude.{◌≡◌, IfOk, IfErr, Some, None};
ghost use Rattle.clap.specs.Words.{found_of, rows_of};
ghost use Rattle.tor_words.specs.CheckGiven.{check_settings_in, check_settings_given};
ghost use Rattle.tor_words.specs.Refused.{IsUsage, SaysUsage};

use crate::command::check_command;
use crate::found::{first, has_flag, names_in};
use crate::matching::matches_of;
use crate::name::Name;
use crate::refused::{WordsRefused, usage};
use clap::ArgMatches;
use std::alloc::Global;
use tor_arena::List;

/// What a run of `torcheck` is asked for: whether a result meets the rules, and agrees with dumps.
#[derive(Drop)]
pub struct CheckSettings {
    /// The name of the result file.
    pub result: Name,
    /// The names of the dumps, maybe none, in the order in which they are read.
    pub dumps: List<Name>,
    /// Whether the result may have the paths of the dumps in any order.
    pub any_order: bool,
}

// The settings that the matches give, if the result is named.
fn check_settings_in(alloc: Global, matches: &ArgMatches) -> Result<CheckSettings, WordsRefused>
    ensures ok { IfOk result (λ s. check_settings_in (rows_of (found_of matches.now)) ≡ Some s) }
    ensures err { IfErr result (λ e. IsUsage e → check_settings_in (rows_of (found_of matches.now)) ≡ None) }
    ensures text { IfErr result SaysUsage }
{
    let Some(text) = first(matches, "result") else {
        return Err(usage(alloc, "no result is named\n"));
    };
    let Ok(name) = Name::from_text(alloc, text) else {
        return Err(WordsRefused::NoMemory);
    };
    match names_in(alloc, matches) {
        Ok(dumps) => Ok(CheckSettings {
            result: name,
            dumps,
            any_order: has_flag(matches, "any-order"),
        }),
        Err(_) => {
            drop(name);
            Err(WordsRefused::NoMemory)
        }
    }
}

/// The settings that the words after the program's name give to a check, by clap's meaning of the command. Usage comes
/// exactly where they give none.
pub fn check_settings_of(alloc: Global, words: &List<Name>) -> Result<CheckSettings, WordsRefused>
    ensures given { IfOk result (λ s. check_settings_given words.now ≡ Some s) }
    ensures refused { IfErr result (λ e. IsUsage e → check_settings_given words.now ≡ None) }
    ensures text { IfErr result SaysUsage }
{
    match matches_of(alloc, check_command(alloc), words) {
        Ok(matches) => {
            let settings = check_settings_in(alloc, &matches);
            drop(matches);
            settings
        }
        Err(refused) => Err(refused),
    }
}
