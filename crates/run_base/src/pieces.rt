//! Texts in pieces, put behind what waits in a buffer.
ghost use Rattle.std.specs.Prelude.{◌++◌, OnOk, OnErr};
ghost use Rattle.tor_io.specs.Counts.{HasCause};
ghost use Rattle.tor_io.specs.Contents.{GainsPrefix, PassesOn};
ghost use Rattle.run_base.specs.Pieces.{piece_text, pieces_text};

use tor_io::{Buffer, Failed, Sink};

/// A piece of a text.
#[derive(Clone, Copy)]
pub enum Piece<'a> {
    /// These octets.
    Word(&'static [u8]),
    /// A number, in decimal.
    Number(u64),
    /// Numbers, with a space between two.
    Numbers(&'a [u32]),
}

// Puts a piece behind what waits in the buffer. Failed: a write failed, and out took a prefix of both.
fn put_piece<O: Sink>(out: &mut O, buffer: &mut Buffer, piece: &Piece) -> Result<(), Failed>
    ensures all { OnOk result (PassesOn (O.held out.old) (O.held out.new) buffer.new (buffer.old ++ piece_text piece.now)) }
    ensures prefix { OnErr result (GainsPrefix (O.held out.old) (O.held out.new) (buffer.old ++ piece_text piece.now)) }
    ensures cause { HasCause (O.faults out.old) (O.faults out.new) result }
{
    match piece {
        Piece::Word(octets) => buffer.put(out, octets),
        Piece::Number(number) => buffer.put_number(out, *number),
        Piece::Numbers(numbers) => buffer.put_joined(out, b' ', numbers),
    }
}

/// Puts pieces behind what waits in the buffer. Failed: a write failed, and out took a prefix of both. It takes no memory.
pub fn put_pieces<O: Sink>(out: &mut O, buffer: &mut Buffer, pieces: &[Piece]) -> Result<(), Failed>
    ensures all { OnOk result (PassesOn (O.held out.old) (O.held out.new) buffer.new (buffer.old ++ pieces_text pieces.now)) }
    ensures prefix { OnErr result (GainsPrefix (O.held out.old) (O.held out.new) (buffer.old ++ pieces_text pieces.now)) }
    ensures cause { HasCause (O.faults out.old) (O.faults out.new) result }
{
    for piece in pieces {
        put_piece(out, buffer, piece)?;
    }
    Ok(())
}
