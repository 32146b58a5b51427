//! Why octets were not read as a result.
ghost use Rattle.std.specs.Prelude.{◌≡◌};
ghost use Rattle.result_text.specs.declared.error.LineError.TheVariants.{NoMemory as no_memory};

use thiserror::Error;
use tor_arena::NoMemory;

/// Why octets were not read as a result.
#[derive(Clone, Copy, Debug, Error)]
pub enum ParseError {
    /// The octets are no text, and this is the number of their bad line, from 1.
    #[error("line {0} is bad")]
    BadLine(u64),
    /// Memory ran out.
    #[error("memory ran out")]
    NoMemory,
}

/// Why a line was not read.
#[derive(Clone, Copy)]
pub enum LineError {
    /// The line isn't in the grammar.
    Bad,
    /// Memory ran out.
    NoMemory,
}

impl From<NoMemory> for LineError {
    ghost from_gives = { λ _ e. e ≡ no_memory };

    fn from(_: NoMemory) -> LineError {
        LineError::NoMemory
    }
}
