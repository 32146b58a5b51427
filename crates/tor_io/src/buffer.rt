//! A buffer in front of a sink.

ghost use Rattle.std.specs.Prelude.{◌≡◌, ◌≤◌, ◌+◌, ◌++◌, ◌∷◌, [], length, map, take, IfOk, OnOk, OnErr};
ghost use Rattle.std.specs.Fmt.{decimal};
ghost use Rattle.std.specs.List.{join_with_byte};
ghost use Rattle.std.specs.Io.KnownBytes.{append_known};
ghost use Rattle.text_fields.specs.Joined.{member_text, row_text};
ghost use Rattle.tor_io.specs.Counts.{HasCause};
ghost use Rattle.tor_io.specs.Contents.{GainsPrefix, PassesOn};

use crate::{Failed, Sink, write_all};
use std::alloc::Global;
use std::marker::Model;
use text_fields::{write_joined, write_number, write_row};
use tor_arena::NoMemory;

/// How many octets are written at once.
const SIZE: usize = 65536;

/// How many octets a number takes at most.
const MOST_DIGITS: usize = 20;

/// How much room is held ready for a number and an octet before it. What they take at most is less.
const ROOM: usize = 32;

/// Octets on their way to a sink, so that these are written in large pieces.
#[derive(Drop)]
pub struct Buffer {
    bytes: Vec<u8>,
    filled: usize,
}

impl Model for Buffer {
    ghost use Rattle.std.specs.Prelude.{◌≤◌, ℕ, List, take, vec_len};

    ghost Value = { List ℕ };

    ghost view = { λ buffer. take buffer.filled buffer.bytes.items };

    ghost invariant = { λ buffer. buffer.filled ≤ vec_len buffer.bytes };
}

// Copies the piece to its place behind the first `filled` octets, where there has to be room, and answers where it ends.
fn copy_behind(bytes: &mut [u8], filled: usize, piece: &[u8]) -> usize
    requires { filled + length piece.now ≤ length bytes.old }
    ensures end { result ≤ length bytes.new }
    ensures length { length bytes.new ≡ length bytes.old }
    ensures added { take result bytes.new ≡ take filled bytes.old ++ piece.now }
{
    let end = filled + piece.len();
    bytes[filled..end].copy_from_slice(piece);
    end
}

impl Buffer {
    /// An empty buffer. All of its memory is taken here; where there isn't enough, the answer is NoMemory.
    pub fn new(alloc: Global) -> Result<Buffer, NoMemory>
        ensures { IfOk result (λ buffer. buffer ≡ []) }
    {
        Ok(Buffer {
            bytes: vec![in alloc; 0; SIZE]?,
            filled: 0,
        })
    }

    /// Puts octets behind those that wait. Where there is no room, what waits is written first. Failed: a write failed, and the
    /// sink took a prefix of what waited and the piece. It takes no memory.
    pub fn put<S: Sink>(&mut self, sink: &mut S, piece: &[u8]) -> Result<(), Failed>
        ensures all { OnOk result (PassesOn (S.held sink.old) (S.held sink.new) self.new (self.old ++ piece.now)) }
        ensures prefix { OnErr result (GainsPrefix (S.held sink.old) (S.held sink.new) (self.old ++ piece.now)) }
        ensures cause { HasCause (S.faults sink.old) (S.faults sink.new) result }
    {
        if piece.len() > self.bytes.len() - self.filled {
            return self.put_at_last(sink, piece);
        }
        self.filled = copy_behind(&mut self.bytes, self.filled, piece);
        Ok(())
    }

    // What waits is written first.
    #[cold]
    #[inline(never)]
    fn put_at_last<S: Sink>(&mut self, sink: &mut S, piece: &[u8]) -> Result<(), Failed>
        ensures all { OnOk result (PassesOn (S.held sink.old) (S.held sink.new) self.new (self.old ++ piece.now)) }
        ensures prefix { OnErr result (GainsPrefix (S.held sink.old) (S.held sink.new) (self.old ++ piece.now)) }
        ensures cause { HasCause (S.faults sink.old) (S.faults sink.new) result }
    {
        if let Err(failed) = self.flush(sink) {
            return Err(failed);
        }
        if piece.len() > self.bytes.len() {
            return write_all(sink, piece);
        }
        self.filled = copy_behind(&mut self.bytes, 0, piece);
        Ok(())
    }

    /// Puts one octet behind those that wait. Where there is no room, what waits is written first. Failed: a write failed, and the
    /// sink took a prefix of these. It takes no memory.
    pub fn put_byte<S: Sink>(&mut self, sink: &mut S, byte: u8) -> Result<(), Failed>
        ensures all { OnOk result (PassesOn (S.held sink.old) (S.held sink.new) self.new (self.old ++ byte ∷ [])) }
        ensures prefix { OnErr result (GainsPrefix (S.held sink.old) (S.held sink.new) (self.old ++ byte ∷ [])) }
        ensures cause { HasCause (S.faults sink.old) (S.faults sink.new) result }
    {
        match self.bytes.get_mut(self.filled) {
            Some(place) => {
                *place = byte;
                self.filled += 1;
                Ok(())
            }
            None => self.put(sink, &[byte]),
        }
    }

    // A number, where there may be no room for it.
    #[cold]
    #[inline(never)]
    fn put_digits<S: Sink>(&mut self, sink: &mut S, n: u64) -> Result<(), Failed>
        ensures all { OnOk result (PassesOn (S.held sink.old) (S.held sink.new) self.new (self.old ++ decimal n)) }
        ensures prefix { OnErr result (GainsPrefix (S.held sink.old) (S.held sink.new) (self.old ++ decimal n)) }
        ensures cause { HasCause (S.faults sink.old) (S.faults sink.new) result }
    {
        let mut digits = [0u8; MOST_DIGITS];
        let end = write_number(&mut digits, 0, n);
        self.put(sink, &digits[..end])
    }

    // An octet and a number, where there may be no room for them.
    #[cold]
    #[inline(never)]
    fn put_digits_behind<S: Sink>(&mut self, sink: &mut S, byte: u8, n: u64) -> Result<(), Failed>
        ensures all { OnOk result (PassesOn (S.held sink.old) (S.held sink.new) self.new (self.old ++ byte ∷ decimal n)) }
        ensures prefix { OnErr result (GainsPrefix (S.held sink.old) (S.held sink.new) (self.old ++ byte ∷ decimal n)) }
        ensures cause { HasCause (S.faults sink.old) (S.faults sink.new) result }
    {
        let mut octets = [byte; MOST_DIGITS + 1];
        let end = write_number(&mut octets, 1, n);
        self.put(sink, &octets[..end])
    }

    /// Puts a number, in decimal, behind the octets that wait. Where there is no room, what waits is written first. Failed: a write failed,
    /// and the sink took a prefix of these. It takes no memory.
    #[inline]
    pub fn put_number<S: Sink>(&mut self, sink: &mut S, n: u64) -> Result<(), Failed>
        ensures all { OnOk result (PassesOn (S.held sink.old) (S.held sink.new) self.new (self.old ++ decimal n)) }
        ensures prefix { OnErr result (GainsPrefix (S.held sink.old) (S.held sink.new) (self.old ++ decimal n)) }
        ensures cause { HasCause (S.faults sink.old) (S.faults sink.new) result }
    {
        if self.bytes.len() - self.filled < MOST_DIGITS {
            return self.put_digits(sink, n);
        }
        self.filled = write_number(&mut self.bytes, self.filled, n);
        Ok(())
    }

    /// Puts an octet, and a number behind it in decimal, behind those that wait. Where there is no room, what waits is written first.
    /// Failed: a write failed, and the sink took a prefix of these. It takes no memory.
    #[inline]
    pub fn put_number_behind<S: Sink>(
        &mut self,
        sink: &mut S,
        byte: u8,
        n: u64,
    ) -> Result<(), Failed>
        ensures all { OnOk result (PassesOn (S.held sink.old) (S.held sink.new) self.new (self.old ++ byte ∷ decimal n)) }
        ensures prefix { OnErr result (GainsPrefix (S.held sink.old) (S.held sink.new) (self.old ++ byte ∷ decimal n)) }
        ensures cause { HasCause (S.faults sink.old) (S.faults sink.new) result }
    {
        if self.bytes.len() - self.filled < MOST_DIGITS + 1 {
            return self.put_digits_behind(sink, byte, n);
        }
        self.bytes[self.filled] = byte;
        self.filled = write_number(&mut self.bytes, self.filled + 1, n);
        Ok(())
    }

    // A number of a list by its place, behind an octet if it isn't the first.
    fn put_member<S: Sink>(
        &mut self,
        sink: &mut S,
        byte: u8,
        place: usize,
        number: u32,
    ) -> Result<(), Failed>
        ensures all { OnOk result (PassesOn (S.held sink.old) (S.held sink.new) self.new (self.old ++ member_text byte place number)) }
        ensures prefix { OnErr result (GainsPrefix (S.held sink.old) (S.held sink.new) (self.old ++ member_text byte place number)) }
        ensures cause { HasCause (S.faults sink.old) (S.faults sink.new) result }
    {
        if place == 0 {
            self.put_number(sink, u64::from(number))
        } else {
            self.put_number_behind(sink, byte, u64::from(number))
        }
    }

    // Numbers joined by an octet, where there may be no room for them.
    #[cold]
    #[inline(never)]
    fn put_members<S: Sink>(
        &mut self,
        sink: &mut S,
        byte: u8,
        numbers: &[u32],
    ) -> Result<(), Failed>
        ensures all { OnOk result (PassesOn (S.held sink.old) (S.held sink.new) self.new
            (self.old ++ join_with_byte byte (map decimal numbers.now))) }
        ensures prefix { OnErr result (GainsPrefix (S.held sink.old) (S.held sink.new)
            (self.old ++ join_with_byte byte (map decimal numbers.now))) }
        ensures cause { HasCause (S.faults sink.old) (S.faults sink.new) result }
    {
        for (place, number) in numbers.iter().enumerate() {
            self.put_member(sink, byte, place, *number)?;
        }
        Ok(())
    }

    /// Puts numbers, in decimal and joined by this octet, behind the octets that wait. Where there is no room, what waits is written
    /// first. Failed: a write failed, and the sink took a prefix of these. It takes no memory.
    #[inline]
    pub fn put_joined<S: Sink>(
        &mut self,
        sink: &mut S,
        byte: u8,
        numbers: &[u32],
    ) -> Result<(), Failed>
        ensures all { OnOk result (PassesOn (S.held sink.old) (S.held sink.new) self.new
            (self.old ++ join_with_byte byte (map decimal numbers.now))) }
        ensures prefix { OnErr result (GainsPrefix (S.held sink.old) (S.held sink.new)
            (self.old ++ join_with_byte byte (map decimal numbers.now))) }
        ensures cause { HasCause (S.faults sink.old) (S.faults sink.new) result }
    {
        if numbers.len() > (self.bytes.len() - self.filled) / ROOM {
            return self.put_members(sink, byte, numbers);
        }
        self.filled = write_joined(&mut self.bytes, self.filled, byte, numbers);
        Ok(())
    }

    // A number, and an octet behind it.
    fn put_number_and<S: Sink>(&mut self, sink: &mut S, n: u64, byte: u8) -> Result<(), Failed>
        ensures all { OnOk result (PassesOn (S.held sink.old) (S.held sink.new) self.new (self.old ++ (decimal n ++ byte ∷ []))) }
        ensures prefix { OnErr result (GainsPrefix (S.held sink.old) (S.held sink.new) (self.old ++ (decimal n ++ byte ∷ []))) }
        ensures cause { HasCause (S.faults sink.old) (S.faults sink.new) result }
    {
        self.put_number(sink, n)?;
        self.put_byte(sink, byte)
    }

    // Numbers joined by an octet, and another behind them.
    fn put_members_and<S: Sink>(
        &mut self,
        sink: &mut S,
        byte: u8,
        numbers: &[u32],
        last: u8,
    ) -> Result<(), Failed>
        ensures all { OnOk result (PassesOn (S.held sink.old) (S.held sink.new) self.new
            (self.old ++ (join_with_byte byte (map decimal numbers.now) ++ last ∷ []))) }
        ensures prefix { OnErr result (GainsPrefix (S.held sink.old) (S.held sink.new)
            (self.old ++ (join_with_byte byte (map decimal numbers.now) ++ last ∷ []))) }
        ensures cause { HasCause (S.faults sink.old) (S.faults sink.new) result }
    {
        self.put_members(sink, byte, numbers)?;
        self.put_byte(sink, last)
    }

    // A row, where there may be no room for it.
    #[cold]
    #[inline(never)]
    fn put_row_slowly<S: Sink>(
        &mut self,
        sink: &mut S,
        n: u64,
        bar: u8,
        byte: u8,
        numbers: &[u32],
        last: u8,
    ) -> Result<(), Failed>
        ensures all { OnOk result (PassesOn (S.held sink.old) (S.held sink.new) self.new
            (self.old ++ row_text n bar byte numbers.now last)) }
        ensures prefix { OnErr result (GainsPrefix (S.held sink.old) (S.held sink.new)
            (self.old ++ row_text n bar byte numbers.now last)) }
        ensures cause { HasCause (S.faults sink.old) (S.faults sink.new) result }
    {
        self.put_number_and(sink, n, bar)?;
        self.put_members_and(sink, byte, numbers, last)
    }

    /// Puts a number, an octet, numbers joined by another, and a last octet, behind the octets that wait; numbers are in decimal. Where
    /// there is no room, what waits is written first. Failed: a write failed, and the sink took a prefix of these. It takes no memory.
    #[inline]
    pub fn put_row<S: Sink>(
        &mut self,
        sink: &mut S,
        n: u64,
        bar: u8,
        byte: u8,
        numbers: &[u32],
        last: u8,
    ) -> Result<(), Failed>
        ensures all { OnOk result (PassesOn (S.held sink.old) (S.held sink.new) self.new
            (self.old ++ row_text n bar byte numbers.now last)) }
        ensures prefix { OnErr result (GainsPrefix (S.held sink.old) (S.held sink.new)
            (self.old ++ row_text n bar byte numbers.now last)) }
        ensures cause { HasCause (S.faults sink.old) (S.faults sink.new) result }
    {
        if numbers.len() >= (self.bytes.len() - self.filled) / ROOM {
            return self.put_row_slowly(sink, n, bar, byte, numbers, last);
        }
        self.filled = write_row(&mut self.bytes, self.filled, n, bar, byte, numbers, last);
        Ok(())
    }

    /// Writes what waits. Failed: a write failed, and the sink took a prefix of it. It takes no memory.
    pub fn flush<S: Sink>(&mut self, sink: &mut S) -> Result<(), Failed>
        ensures all { OnOk result (S.held sink.new ≡ append_known (S.held sink.old) self.old) }
        ensures empty { OnOk result (self.new ≡ []) }
        ensures prefix { OnErr result (GainsPrefix (S.held sink.old) (S.held sink.new) self.old) }
        ensures cause { HasCause (S.faults sink.old) (S.faults sink.new) result }
    {
        write_all(sink, &self.bytes[..self.filled])?;
        self.filled = 0;
        Ok(())
    }
}
