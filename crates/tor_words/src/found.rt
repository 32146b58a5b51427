//! What clap found among the words of a command line.
ghost use Rattle.std.specs.Prelude.{◌≡◌, ◌++◌, ◌∷◌, [], IfOk, OnOk, map, option_map};
ghost use Rattle.clap.specs.Words.{found_of, rows_of, first_of};
ghost use Rattle.tor_words.specs.Given.{names_in, has_flag, has_option};

use crate::name::Name;
use crate::values::is_true_text;
use clap::ArgMatches;
use std::alloc::Global;
use tor_arena::{List, NoMemory};

/// The first value of an option.
pub(crate) fn first<'a>(matches: &ArgMatches<'a>, id: &str) -> Option<&'a str>
    ensures { option_map (λ s. s.now) result ≡ first_of id.now (rows_of (found_of matches.now)) }
{
    matches.get_str(id)
}

/// Puts a copy of the text behind the names.
pub(crate) fn add_copy(alloc: Global, names: &mut List<Name>, text: &str) -> Result<(), NoMemory>
    ensures { OnOk result (names.new ≡ names.old ++ text.now ∷ []) }
{
    names.push(Name::from_text(alloc, text)?)
}

/// Copies of the texts.
fn names_of(alloc: Global, texts: &[&str]) -> Result<List<Name>, NoMemory>
    ensures { IfOk result (λ names. names ≡ map (λ t. t.now) texts.now) }
{
    let mut names = List::new(alloc);
    for text in texts {
        if let Err(NoMemory) = add_copy(alloc, &mut names, text) {
            drop(names);
            return Err(NoMemory);
        }
    }
    Ok(names)
}

/// The names behind the options.
pub(crate) fn names_in(alloc: Global, matches: &ArgMatches) -> Result<List<Name>, NoMemory>
    ensures { IfOk result (λ names. names ≡ names_in (rows_of (found_of matches.now))) }
{
    match matches.get_strs("dump") {
        Some(texts) => names_of(alloc, texts),
        None => Ok(List::new(alloc)),
    }
}

/// Whether the flag of this name stands among the words.
pub(crate) fn has_flag(matches: &ArgMatches, name: &str) -> bool
    ensures { result ≡ has_flag name.now (rows_of (found_of matches.now)) }
{
    is_true_text(first(matches, name))
}

/// Whether the option of this name does.
pub(crate) fn has_option(matches: &ArgMatches, name: &str) -> bool
    ensures { result ≡ has_option name.now (rows_of (found_of matches.now)) }
{
    first(matches, name).is_some()
}
