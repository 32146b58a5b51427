//! Texts on their way to a sink, with the first write that fails noted.

ghost use Rattle.std.specs.Prelude.{◌≡◌, ◌∷◌, [], map, Some};
ghost use Rattle.std.specs.Fmt.{decimal};
ghost use Rattle.std.specs.List.{join_with_byte};
ghost use Rattle.text_fields.specs.Joined.{row_text};
ghost use Rattle.tor_io.specs.Outflow.{state, Puts, Finishes};

use crate::{Buffer, Failed, Sink};
use std::marker::Model;

/// A buffer, and whether a write of it has failed. Then nothing waits, and what is put is let go, so that only the end has to ask for
/// it.
#[derive(Drop)]
pub struct Outflow<'a> {
    buffer: &'a mut Buffer,
    failed: bool,
}

impl<'a> Model for Outflow<'a> {
    ghost use Rattle.std.specs.Prelude.{ℕ, List, Option, Some, None, if◌then◌else◌};

    ghost Value = { Option (List ℕ) };

    ghost view = { λ outflow. if outflow.failed then None else Some outflow.buffer.now };
}

impl<'a> Outflow<'a> {
    /// What waits in a buffer. It takes no memory.
    pub fn through(buffer: &'a mut Buffer) -> Outflow<'a>
        ensures { result ≡ Some buffer.old }
    {
        Outflow {
            buffer,
            failed: false,
        }
    }

    /// Puts octets behind those that wait. It takes no memory.
    #[inline]
    pub fn put<S: Sink>(&mut self, out: &mut S, piece: &[u8])
        ensures { Puts (state (S.held out.old) (S.faults out.old) self.old) (state (S.held out.new) (S.faults out.new) self.new) piece.now }
    {
        if !self.failed && self.buffer.put(out, piece).is_err() {
            self.failed = true;
        }
    }

    /// Puts one octet behind those that wait. It takes no memory.
    #[inline]
    pub fn put_byte<S: Sink>(&mut self, out: &mut S, byte: u8)
        ensures { Puts (state (S.held out.old) (S.faults out.old) self.old) (state (S.held out.new) (S.faults out.new) self.new)
            (byte ∷ []) }
    {
        if !self.failed && self.buffer.put_byte(out, byte).is_err() {
            self.failed = true;
        }
    }

    /// Puts a number, in decimal, behind what waits. It takes no memory.
    #[inline]
    pub fn put_number<S: Sink>(&mut self, out: &mut S, n: u64)
        ensures { Puts (state (S.held out.old) (S.faults out.old) self.old) (state (S.held out.new) (S.faults out.new) self.new)
            (decimal n) }
    {
        if !self.failed && self.buffer.put_number(out, n).is_err() {
            self.failed = true;
        }
    }

    /// Puts an octet, and a number behind it in decimal, behind what waits. It takes no memory.
    #[inline]
    pub fn put_number_behind<S: Sink>(&mut self, out: &mut S, byte: u8, n: u64)
        ensures { Puts (state (S.held out.old) (S.faults out.old) self.old) (state (S.held out.new) (S.faults out.new) self.new)
            (byte ∷ decimal n) }
    {
        if !self.failed && self.buffer.put_number_behind(out, byte, n).is_err() {
            self.failed = true;
        }
    }

    /// Puts numbers, in decimal and joined by this octet, behind what waits. It takes no memory.
    #[inline]
    pub fn put_joined<S: Sink>(&mut self, out: &mut S, byte: u8, numbers: &[u32])
        ensures { Puts (state (S.held out.old) (S.faults out.old) self.old) (state (S.held out.new) (S.faults out.new) self.new)
            (join_with_byte byte (map decimal numbers.now)) }
    {
        if !self.failed && self.buffer.put_joined(out, byte, numbers).is_err() {
            self.failed = true;
        }
    }

    /// Puts a number, an octet, numbers joined by another, and a last octet, behind what waits; numbers are in decimal. It takes no memory.
    #[inline]
    pub fn put_row<S: Sink>(
        &mut self,
        out: &mut S,
        n: u64,
        bar: u8,
        byte: u8,
        numbers: &[u32],
        last: u8,
    )
        ensures { Puts (state (S.held out.old) (S.faults out.old) self.old) (state (S.held out.new) (S.faults out.new) self.new)
            (row_text n bar byte numbers.now last) }
    {
        if !self.failed
            && self
                .buffer
                .put_row(out, n, bar, byte, numbers, last)
                .is_err()
        {
            self.failed = true;
        }
    }

    /// Writes what waits. Failed: a write failed, now or before. It takes no memory.
    pub fn finish<S: Sink>(&mut self, out: &mut S) -> Result<(), Failed>
        ensures { Finishes (state (S.held out.old) (S.faults out.old) self.old) (S.held out.new) (S.faults out.new) result }
    {
        if self.failed {
            return Err(Failed);
        }
        self.buffer.flush(out)
    }
}
