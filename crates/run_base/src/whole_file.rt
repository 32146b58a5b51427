//! The reading of a file that is read whole.
ghost use Rattle.std.specs.Prelude.{◌≡◌, ◌≢◌, ◌<◌, ◌≤◌, ◌^◌, ◌+◌, ◌++◌, ◌∷◌, [], Err};
ghost use Rattle.std.specs.Prelude.{Some, IfOk, OnOk, OnErr, IfSome, IsOk, IsErrOf, length, take, drop};
ghost use Rattle.std.specs.Io.KnownBytes.{IsAtEnd, prepend_known};
ghost use Rattle.tor_io.specs.Counts.{Rose, HasCause};
ghost use Rattle.tor_io.specs.Contents.{LacksFile};
ghost use Rattle.run_base.specs.WholeFile.{IsLong, IsLongFile, LeavesRest, LeavesOnly, IsRestOf};
ghost use Rattle.run_base.specs.declared.whole_file.Unread.TheVariants.{Failed as failed, NoMemory as no_memory};

use std::alloc::{AllocError, Global};
use tor_arena::{List, NoMemory};
use tor_io::{Failed, OpenRefused, Shelf};

/// The most octets that are read at once.
pub const STEP: usize = 1 << 16;

/// Why a file was not read whole.
#[derive(Clone, Copy, PartialEq, Eq)]
pub enum Unread {
    /// A call on the shelf failed.
    Failed,
    /// It has more octets than may be.
    TooLong,
    /// Memory ran out.
    NoMemory,
}

impl From<Failed> for Unread {
    ghost from_gives = { λ _ e. e ≡ failed };

    fn from(_error: Failed) -> Unread {
        Unread::Failed
    }
}

impl From<NoMemory> for Unread {
    ghost from_gives = { λ _ e. e ≡ no_memory };

    fn from(_error: NoMemory) -> Unread {
        Unread::NoMemory
    }
}

impl From<AllocError> for Unread {
    ghost from_gives = { λ _ e. e ≡ no_memory };

    fn from(_error: AllocError) -> Unread {
        Unread::NoMemory
    }
}

/// Reads once, at most so many octets, to the prefix of the buffer. It answers how many came.
pub fn read_prefix<H: Shelf>(shelf: &mut H, buffer: &mut [u8], most: usize) -> Result<usize, Failed>
    requires some { 0 < most }
    requires room { most ≤ length buffer.old }
    ensures bound { IfOk result (λ n. n ≤ most) }
    ensures same_length { length buffer.new ≡ length buffer.old }
    ensures taken { IfOk result (λ n. H.left shelf.old ≡ prepend_known (take n buffer.new) (H.left shelf.new)) }
    ensures at_end { IfOk result (λ n. n ≡ 0 → IsAtEnd (H.left shelf.new)) }
    ensures unread { OnErr result (H.left shelf.new ≡ H.left shelf.old) }

    ensures files { H.files shelf.new ≡ H.files shelf.old }
    ensures opens { H.opens shelf.new ≡ H.opens shelf.old }
    ensures cause { HasCause (H.faults shelf.old) (H.faults shelf.new) result }
    ensures steady { H.steady shelf.old → H.steady shelf.new }
    ensures steady_reads { H.steady shelf.old → IsOk result }
{
    shelf.read(&mut buffer[..most])
}

/// The unread octets of the open file, at most `most`. Of more, one is read beyond these.
fn read_open<H: Shelf>(alloc: Global, shelf: &mut H, most: usize) -> Result<List<u8>, Unread>
    requires countable { most < 2 ^ 62 }
    ensures read { IfOk result (λ bytes. IfSome (H.left shelf.old) (λ left. left ≡ bytes)) }
    ensures short { IfOk result (λ bytes. length bytes ≤ most) }
    ensures read_out { OnOk result (IsAtEnd (H.left shelf.new)) }
    ensures long { IsErrOf result Unread.TooLong → IfSome (H.left shelf.old) (IsLong most) }
    ensures rest { IsErrOf result Unread.TooLong → IfSome (H.left shelf.old) (λ left.
        H.left shelf.new ≡ Some (drop (most + 1) left)) }
    ensures unread { IfSome (H.left shelf.old) (IsRestOf most (H.left shelf.new)) }

    ensures files { H.files shelf.new ≡ H.files shelf.old }
    ensures opens { H.opens shelf.new ≡ H.opens shelf.old }
    ensures later { H.faults shelf.old ≤ H.faults shelf.new }
    ensures failed { IsErrOf result Unread.Failed → Rose (H.faults shelf.old) (H.faults shelf.new) }
    ensures quiet { result ≢ Err Unread.Failed → H.faults shelf.new ≡ H.faults shelf.old }
    ensures steady { H.steady shelf.old → H.steady shelf.new }
    ensures steady_reads { H.steady shelf.old → result ≢ Err Unread.Failed }
{
    let mut buffer = Vec::new(alloc);
    buffer.resize(STEP, 0)?;
    let mut bytes = List::new(alloc);
    'parts: while bytes.len() <= most {
        let step = STEP.min(most + 1 - bytes.len());
        let count = read_prefix(shelf, buffer.as_mut_slice(), step)?;
        if count == 0 {
            return Ok(bytes);
        }
        bytes.extend_from_slice(&buffer[..count])?;
    }
    Err(Unread::TooLong)
}

/// Reads the file of this name whole, at most `most` octets. Failed: the open or a read failed. TooLong: it has more, of which one was
/// read. NoMemory: memory ran out. Whatever it answers, no octet behind the one beyond `most` was read.
pub fn read_whole<H: Shelf>(
    alloc: Global,
    shelf: &mut H,
    name: &str,
    most: usize,
) -> Result<List<u8>, Unread>
    requires countable { most < 2 ^ 62 }
    ensures read { IfOk result (λ bytes. IfSome (H.files shelf.old) (λ files. files name.now ≡ Some bytes)) }
    ensures short { IfOk result (λ bytes. length bytes ≤ most) }
    ensures read_out { OnOk result (IsAtEnd (H.left shelf.new)) }
    ensures long { IsErrOf result Unread.TooLong → IfSome (H.files shelf.old) (λ files. IsLongFile most (files name.now)) }
    ensures rest { IsErrOf result Unread.TooLong → LeavesRest most name.now (H.files shelf.old) (H.left shelf.new) }
    ensures unread { LeavesOnly most name.now (H.files shelf.old) (H.left shelf.new) }

    ensures files { H.files shelf.new ≡ H.files shelf.old }
    ensures opens { H.opens shelf.new ≡ H.opens shelf.old ++ name.now ∷ [] }
    ensures later { H.faults shelf.old ≤ H.faults shelf.new }
    ensures failed { IsErrOf result Unread.Failed → Rose (H.faults shelf.old) (H.faults shelf.new) }
    ensures quiet { result ≢ Err Unread.Failed → H.faults shelf.new ≡ H.faults shelf.old }
    ensures steady { H.steady shelf.old → H.steady shelf.new }
    ensures steady_failed { H.steady shelf.old → IsErrOf result Unread.Failed → LacksFile (H.files shelf.old) name.now }
{
    match shelf.open_file(name) {
        Ok(()) => read_open(alloc, shelf, most),
        Err(OpenRefused::Failed) => Err(Unread::Failed),
        Err(OpenRefused::NoMemory) => Err(Unread::NoMemory),
    }
}
