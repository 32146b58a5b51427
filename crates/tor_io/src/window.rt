//! The octets that were read ahead.
ghost use Rattle.std.specs.Prelude.{◌≡◌, ◌≤◌, ◌<◌, ◌↔◌, [], true, length, take, drop, min, vec_len, OnOk, OnErr};
ghost use Rattle.std.specs.Io.KnownBytes.{Consumes, IsAtEnd, Keeps};

use crate::copy_prefix::copy_prefix;
use crate::retry;
use std::alloc::{AllocError, Global};
use std::io;
use std::io::Read;
use std::marker::Model;

/// How many octets are read at once.
const SIZE: usize = 65536;

/// A buffer, and which of its octets were read and not yet given. It is seen as these octets and its length.
#[derive(Drop)]
pub(crate) struct Window {
    bytes: Vec<u8>,
    start: usize,
    end: usize,
    ghost ordered: { start ≤ end },
    ghost within: { end ≤ vec_len bytes },
}

impl Model for Window {
    ghost use Rattle.std.specs.Prelude.{ℕ, ◌-◌, List, length, take, drop};

    ghost Value = { List ℕ × ℕ };

    ghost view = { λ w. (take (w.end - w.start) (drop w.start w.bytes.items), length w.bytes.items) };
}

impl Window {
    /// A buffer without octets. It takes no memory.
    pub(crate) fn new(alloc: Global) -> Window
        ensures { result.0 ≡ [] }
    {
        Window {
            bytes: Vec::new(alloc),
            start: 0,
            end: 0,
        }
    }

    /// Drops what was not yet given, and takes the memory where it has none yet.
    pub(crate) fn reset(&mut self) -> Result<(), AllocError>
        ensures none { self.new.0 ≡ [] }
        ensures room { OnOk result (0 < self.new.1) }
    {
        self.start = 0;
        self.end = 0;
        self.bytes.resize(SIZE, 0)
    }

    /// Whether all that was read is given.
    pub(crate) fn is_empty(&self) -> bool
        ensures { (result ≡ true) ↔ (self.now.0 ≡ []) }
    {
        self.start == self.end
    }

    /// Reads the next octets of the file, in place of those that are there. It reads none only at the end of the file, and nothing is
    /// there after an error.
    pub(crate) fn fill<F: Read>(&mut self, file: &mut F) -> io::Result<()>
        ensures room { self.new.1 ≡ self.old.1 }
        ensures read { OnOk result (Consumes (F.remaining file.old) (F.remaining file.new) self.new.0) }
        ensures at_end { OnOk result (self.new.0 ≡ [] → 0 < self.old.1 → IsAtEnd (F.remaining file.new)) }
        ensures none { OnErr result (self.new.0 ≡ []) }
        ensures unread { OnErr result (Keeps (F.remaining file.old) (F.remaining file.new)) }
    {
        self.start = 0;
        self.end = 0;
        self.end = retry::read(file, self.bytes.as_mut_slice())?;
        Ok(())
    }

    /// Moves as many of the octets as fit to the start of `buf`, and answers how many.
    pub(crate) fn give(&mut self, buf: &mut [u8]) -> usize
        ensures bound { result ≤ length buf.old }
        ensures count { result ≡ min (length buf.old) (length self.old.0) }
        ensures given { take result buf.new ≡ take result self.old.0 }
        ensures rest { drop result buf.new ≡ drop result buf.old }
        ensures left { self.new.0 ≡ drop result self.old.0 }
        ensures room { self.new.1 ≡ self.old.1 }
    {
        let count = copy_prefix(buf, &self.bytes[self.start..self.end]);
        self.start += count;
        count
    }
}
