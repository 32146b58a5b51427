//! The settings of a hunt for leaks.
ghost use Rattle.std.specs.Prelude.{◌≡◌, ◌<◌, IfOk, IfErr, Some, None, length};
ghost use Rattle.clap.specs.Words.{found_of, rows_of};
ghost use Rattle.tor_words.specs.LeakGiven.{leak_settings_in, leak_settings_given};
ghost use Rattle.tor_words.specs.Refused.{IsUsage, SaysUsage};

use crate::found::{first, names_in};
use crate::leak_command::leak_command;
use crate::matching::matches_of;
use crate::name::Name;
use crate::refused::{WordsRefused, usage};
use clap::ArgMatches;
use std::alloc::Global;
use tor_arena::List;

/// What a run of `torleak` is asked for: which paths of dumps are leaks behind a result.
#[derive(Drop)]
pub struct LeakSettings {
    /// The name of the result file.
    pub result: Name,
    /// The names of the dumps, one at least, in the order in which they are read.
    pub dumps: List<Name>,
}

// The settings that the matches give, if the result and a dump are named.
fn leak_settings_in(alloc: Global, matches: &ArgMatches) -> Result<LeakSettings, WordsRefused>
    ensures ok { IfOk result (λ s. leak_settings_in (rows_of (found_of matches.now)) ≡ Some s) }
    ensures err { IfErr result (λ e. IsUsage e → leak_settings_in (rows_of (found_of matches.now)) ≡ None) }
    ensures text { IfErr result SaysUsage }
    ensures named { IfOk result (λ s. 0 < length s.dumps) }
{
    let Some(text) = first(matches, "result") else {
        return Err(usage(alloc, "no result is named\n"));
    };
    let Ok(dumps) = names_in(alloc, matches) else {
        return Err(WordsRefused::NoMemory);
    };
    if dumps.is_empty() {
        drop(dumps);
        return Err(usage(alloc, "no dump is named\n"));
    }
    match Name::from_text(alloc, text) {
        Ok(result) => Ok(LeakSettings { result, dumps }),
        Err(_) => {
            drop(dumps);
            Err(WordsRefused::NoMemory)
        }
    }
}

/// The settings that the words after the program's name give to a hunt for leaks, by clap's meaning of the command. Usage comes
/// exactly where they give none.
pub fn leak_settings_of(alloc: Global, words: &List<Name>) -> Result<LeakSettings, WordsRefused>
    ensures given { IfOk result (λ s. leak_settings_given words.now ≡ Some s) }
    ensures refused { IfErr result (λ e. IsUsage e → leak_settings_given words.now ≡ None) }
    ensures text { IfErr result SaysUsage }
    ensures named { IfOk result (λ s. 0 < length s.dumps) }
{
    match matches_of(alloc, leak_command(alloc), words) {
        Ok(matches) => {
            let settings = leak_settings_in(alloc, &matches);
            drop(matches);
            settings
        }
        Err(refused) => Err(refused),
    }
}
