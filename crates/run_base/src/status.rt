//! How a run ended.
ghost use Rattle.std.specs.Prelude.{◌≡◌, ◌≢◌};
ghost use Rattle.std.specs.IoError.{error_kind};

use std::io;
use std::io::ErrorKind;

/// The exit status where the words of the command line can't be had, as where one isn't UTF-8, but for want of memory.
const NO_WORDS: u8 = 9;

/// How a run ended.
#[derive(Clone, Copy, PartialEq, Eq)]
pub enum Status {
    /// The text that was asked for was written whole, or of a check the yes.
    Done,
    /// A rule of a result is broken: the no of a check was written whole, or a run of `tor` didn't take the result up, as its note says.
    No,
    /// The words are no command of the program.
    Usage,
    /// A record of a dump has a fault, or a file that is read whole has a bad line.
    Malformed,
    /// A call on the shelf failed, as an open does at a file that isn't there.
    ReadFault,
    /// A call on out failed. A prefix of the text may have been written.
    WriteFault,
    /// There is too much: distinct paths, numbers on them, octets of a dump, or octets of a file that is read whole.
    Limit,
    /// Memory ran out. Nothing was written to out.
    NoMemory,
}

impl Status {
    ghost use Rattle.run_base.specs.Notes.{exit_code, plain_note};

    /// The exit status, from 0 to 7.
    pub fn code(self) -> u8
        ensures { result ≡ exit_code self }
    {
        match self {
            Status::Done => 0,
            Status::No => 1,
            Status::Usage => 2,
            Status::Malformed => 3,
            Status::ReadFault => 4,
            Status::WriteFault => 5,
            Status::Limit => 6,
            Status::NoMemory => 7,
        }
    }

    /// The note of a status whose note has no part of its own.
    pub fn plain_note(self) -> &'static [u8]
        ensures { result.now ≡ plain_note self }
    {
        match self {
            Status::WriteFault => b"write-fault\n",
            Status::NoMemory => b"no-memory\n",
            _ => b"",
        }
    }
}

/// The exit status where the words of the command line can't be had: 7, as of NoMemory, exactly where memory ran out, and
/// else, as where one isn't UTF-8, 9, which no status has.
pub fn code_of_failure(error: &io::Error) -> u8
    ensures memory { error_kind error.now ≡ ErrorKind.OutOfMemory → result ≡ 7 }
    ensures other { error_kind error.now ≢ ErrorKind.OutOfMemory → result ≡ 9 }
{
    match error.kind() {
        ErrorKind::OutOfMemory => Status::NoMemory.code(),
        _ => NO_WORDS,
    }
}
