//! Why a line of a row is refused.
use std::alloc::{AllocError, AllocFailed};
use tor_arena::NoMemory;

/// Why a line can't be taken.
#[derive(Clone, Copy)]
pub enum Refused {
    /// It is no line of a row, or stands where it says nothing.
    NotUnderstood,
    /// Memory ran out.
    NoMemory,
}

impl From<NoMemory> for Refused {
    fn from(_: NoMemory) -> Refused {
        Refused::NoMemory
    }
}

impl From<AllocError> for Refused {
    fn from(_: AllocError) -> Refused {
        Refused::NoMemory
    }
}

impl<T: Drop> From<AllocFailed<T>> for Refused {
    fn from(_: AllocFailed<T>) -> Refused {
        Refused::NoMemory
    }
}

/// The number that the text is.
pub fn number_of(text: &str) -> Result<u64, Refused> {
    match text.parse::<u64>() {
        Ok(number) => Ok(number),
        Err(_) => Err(Refused::NotUnderstood),
    }
}
