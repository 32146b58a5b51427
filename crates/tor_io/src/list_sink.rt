//! A sink in memory that grows.

ghost use Rattle.std.specs.Prelude.{◌≡◌, [], Some};

use crate::{Failed, Sink};
use std::alloc::Global;
use tor_arena::List;

/// A sink that keeps what it takes in a list. A write fails only where memory runs out.
#[derive(Drop)]
pub struct ListSink {
    held: List<u8>,
    faults: u64,
}

impl ListSink {
    /// A sink that has taken nothing. It takes no memory.
    pub fn new(alloc: Global) -> ListSink
        ensures { result.held ≡ [] }
    {
        ListSink {
            held: List::new(alloc),
            faults: 0,
        }
    }

    /// What was taken, in order. It takes no memory.
    pub fn into_list(self) -> List<u8>
        ensures { result ≡ self.held }
    {
        self.held
    }
}

impl Sink for ListSink {
    ghost held = { λ sink. Some sink.held };

    ghost faults = { λ sink. sink.faults };

    fn write(&mut self, piece: &[u8]) -> Result<usize, Failed> {
        if piece.is_empty() {
            return Ok(0);
        }
        if self.held.extend_from_slice(piece).is_err() {
            self.faults = self.faults.saturating_add(1);
            return Err(Failed);
        }
        Ok(piece.len())
    }
}
