//! ASes as words name them.
ghost use Rattle.std.specs.Prelude.{◌≡◌};
ghost use Rattle.tor_words.specs.AsWords.{as_named};

use crate::values::short_number;

/// The AS that a word names: a number from 0 to 2^32 - 1, maybe with AS in capitals before it.
pub(crate) fn as_named(word: &str) -> Option<u32>
    ensures { result ≡ as_named word.now }
{
    match word.strip_prefix("AS") {
        Some(number) => short_number(number),
        None => short_number(word),
    }
}
