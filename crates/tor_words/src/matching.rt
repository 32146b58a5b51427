//! What clap makes of the words of a command line.
ghost use Rattle.std.specs.Prelude.{◌≡◌, ◌≢◌, [], IfOk, IfErr};
ghost use Rattle.clap.specs.Words.{App, app_of, fault_of, found_of, rows_of};
ghost use Rattle.tor_words.specs.Matching.{IsPlain, IsTaken};
ghost use Rattle.tor_words.specs.Refused.{IsUsage, SaysUsage};

use crate::name::Name;
use crate::refused::{WordsRefused, refusal};
use clap::{ArgMatches, Command};
use std::alloc::{AllocError, Global};
use tor_arena::List;

/// What a command makes of the words behind the program's name, or why they are refused: memory ran out, for the command too, or they are
/// none for it.
pub(crate) fn matches_of<'a>(
    alloc: Global,
    command: Result<Command<'a>, AllocError>,
    words: &'a List<Name>,
) -> Result<ArgMatches<'a>, WordsRefused>
    ensures ok { (app : App) → IsPlain app → IfOk command.entry (λ c. app_of c ≡ app)
        → IfOk result (λ m. IsTaken app words.now (rows_of (found_of m))) }
    ensures err { (app : App) → IsPlain app → IfOk command.entry (λ c. app_of c ≡ app)
        → IfErr result (λ e. IsUsage e → fault_of app words.now ≢ []) }
    ensures text { IfErr result SaysUsage }
{
    let Ok(command) = command else {
        return Err(WordsRefused::NoMemory);
    };
    match command.try_get_matches_from(words.as_slice()) {
        Ok(matches) => Ok(matches),
        Err(error) => Err(refusal(alloc, &error)),
    }
}
