//! Lists of AS numbers.
ghost use Rattle.std.specs.Prelude.{◌≡◌, IfOk};
ghost use Rattle.tor_words.specs.AsLists.{as_list, AsListLaw};

use std::alloc::Global;
use text_fields::{after_byte, u32_of};
use tor_arena::{List, NoMemory};

/// The AS numbers that a text lists, as they stand there: from 0 to 2^32 - 1, in decimal, without sign, blank or leading zero, joined by
/// commas, and at least one. None for any other text. The only error is that memory ran out.
pub fn as_list(alloc: Global, text: &str) -> Result<Option<List<u32>>, NoMemory>
    ensures { IfOk result (λ ases. ases ≡ as_list text.now) }
{
    let mut ases = List::new(alloc);
    let mut rest = text.as_bytes();
    'numbers: while let Some((number, behind)) = u32_of(rest) {
        ases.push(number)?;
        if behind.is_empty() {
            return Ok(Some(ases));
        }
        let Some(more) = after_byte(b',', behind) else {
            return Ok(None);
        };
        rest = more;
    }
    Ok(None)
}

/// A text lists numbers exactly if it is their decimal forms, joined by commas.
pub fn as_list_law()
    ensures { AsListLaw }
{}
