//! The result that a file holds.
ghost use Rattle.std.specs.Prelude.{ℕ, List as Items, ◌≡◌, ◌≢◌, ◌<◌, ◌≤◌, ◌^◌, ◌+◌, ◌++◌, ◌∷◌, [], Err, Some, IfOk};
ghost use Rattle.std.specs.Prelude.{IfErr, OnOk, IfSome, IsErrOf, drop};
ghost use Rattle.std.specs.Io.KnownBytes.{IsAtEnd};
ghost use Rattle.tor_io.specs.Counts.{Rose};
ghost use Rattle.tor_io.specs.Contents.{LacksFile};
ghost use Rattle.run_base.specs.WholeFile.{IsLong, IsLongFile, LeavesRest, LeavesOnly, IsRestOf};
ghost use Rattle.result_text.specs.Grammar.{IsTextOf};
ghost use Rattle.result_text.specs.Taking.{HasTaken, Takes};
ghost use Rattle.result_file.specs.FileText.{IsRead, AreLeft, AreOf, IsRefusal, IsNoText, IsBad};
ghost use Rattle.result_file.specs.declared.reading.NoResult.TheVariants.{Unread as unread};

use result_text::{ParseError, Parser, ResultFile};
use run_base::{STEP, Unread, read_prefix};
use std::alloc::Global;
use tor_io::{OpenRefused, Shelf};

/// Why a file gave no result.
#[derive(Clone, Copy, PartialEq, Eq)]
pub enum NoResult {
    /// It was not read whole, or memory ran out.
    Unread(Unread),
    /// Its octets are no text, and this is the number of their bad line.
    BadLine(u64),
}

/// Takes the unread octets of the open file, at most `most`. Of more, one is read beyond these.
fn take_open<H: Shelf>(
    alloc: Global,
    shelf: &mut H,
    parser: &mut Parser,
    most: usize,
) -> Result<(), Unread>
    requires countable { most < 2 ^ 62 }
    ensures taken { OnOk result (IsRead most (AreLeft (H.left shelf.old)) (Takes parser.old parser.new)) }
    ensures read_out { OnOk result (IsAtEnd (H.left shelf.new)) }
    ensures long { IsErrOf result Unread.TooLong → IfSome (H.left shelf.old) (IsLong most) }
    ensures rest { IsErrOf result Unread.TooLong → IfSome (H.left shelf.old) (λ left.
        H.left shelf.new ≡ Some (drop (most + 1) left)) }
    ensures unread { IfSome (H.left shelf.old) (IsRestOf most (H.left shelf.new)) }

    ensures files { H.files shelf.new ≡ H.files shelf.old }
    ensures opens { H.opens shelf.new ≡ H.opens shelf.old }
    ensures later { H.faults shelf.old ≤ H.faults shelf.new }
    ensures failed { IsErrOf result Unread.Failed → Rose (H.faults shelf.old) (H.faults shelf.new) }
    ensures quiet { result ≢ Err Unread.Failed → H.faults shelf.new ≡ H.faults shelf.old }
    ensures steady { H.steady shelf.old → H.steady shelf.new }
    ensures steady_reads { H.steady shelf.old → result ≢ Err Unread.Failed }
{
    let mut buffer = Vec::new(alloc);
    buffer.resize(STEP, 0)?;
    let mut taken = 0usize;
    'parts: while taken <= most {
        let step = STEP.min(most + 1 - taken);
        let count = read_prefix(shelf, buffer.as_mut_slice(), step)?;
        if count == 0 {
            return Ok(());
        }
        parser.take(alloc, &buffer[..count])?;
        taken += count;
    }
    Err(Unread::TooLong)
}

/// Takes the octets of the file of this name, at most `most`. Errors are those of `run_base::read_whole`.
fn take_file<H: Shelf>(
    alloc: Global,
    shelf: &mut H,
    parser: &mut Parser,
    name: &str,
    most: usize,
) -> Result<(), Unread>
    requires countable { most < 2 ^ 62 }
    ensures taken { OnOk result (IsRead most (AreOf (H.files shelf.old) name.now) (Takes parser.old parser.new)) }
    ensures read_out { OnOk result (IsAtEnd (H.left shelf.new)) }
    ensures long { IsErrOf result Unread.TooLong → IfSome (H.files shelf.old) (λ files. IsLongFile most (files name.now)) }
    ensures rest { IsErrOf result Unread.TooLong → LeavesRest most name.now (H.files shelf.old) (H.left shelf.new) }
    ensures unread { LeavesOnly most name.now (H.files shelf.old) (H.left shelf.new) }

    ensures files { H.files shelf.new ≡ H.files shelf.old }
    ensures opens { H.opens shelf.new ≡ H.opens shelf.old ++ name.now ∷ [] }
    ensures later { H.faults shelf.old ≤ H.faults shelf.new }
    ensures failed { IsErrOf result Unread.Failed → Rose (H.faults shelf.old) (H.faults shelf.new) }
    ensures quiet { result ≢ Err Unread.Failed → H.faults shelf.new ≡ H.faults shelf.old }
    ensures steady { H.steady shelf.old → H.steady shelf.new }
    ensures steady_failed { H.steady shelf.old → IsErrOf result Unread.Failed → LacksFile (H.files shelf.old) name.now }
{
    match shelf.open_file(name) {
        Ok(()) => take_open(alloc, shelf, parser, most),
        Err(OpenRefused::Failed) => Err(Unread::Failed),
        Err(OpenRefused::NoMemory) => Err(Unread::NoMemory),
    }
}

/// The result that was taken.
fn result_of(parser: Parser) -> Result<ResultFile, NoResult>
    ensures text { IfOk result (λ file. (octets : Items ℕ) → HasTaken parser octets → IsTextOf file octets) }
    ensures bad { IfErr result (λ e. (octets : Items ℕ) → HasTaken parser octets → IsRefusal e octets) }
{
    match parser.finish() {
        Ok(file) => Ok(file),
        Err(ParseError::BadLine(line)) => Err(NoResult::BadLine(line)),
        Err(ParseError::NoMemory) => Err(NoResult::Unread(Unread::NoMemory)),
    }
}

/// The result that the file of this name holds. Its octets, at most `most`, are read in steps and let go; a bad line is told when all are
/// read. Unread: as `run_base::read_whole` tells. BadLine: the octets are no text, and this is their bad line.
pub fn read_result<H: Shelf>(
    alloc: Global,
    shelf: &mut H,
    name: &str,
    most: usize,
) -> Result<ResultFile, NoResult>
    requires countable { most < 2 ^ 62 }
    ensures text { IfOk result (λ file. IsRead most (AreOf (H.files shelf.old) name.now) (IsTextOf file)) }
    ensures no_text { IfErr result (IsNoText most (H.files shelf.old) name.now) }
    ensures read_out { OnOk result (IsAtEnd (H.left shelf.new)) }
    ensures read_to_bad { IfErr result (λ e. IsBad e → IsAtEnd (H.left shelf.new)) }
    ensures long { IsErrOf result (unread Unread.TooLong) → IfSome (H.files shelf.old) (λ files. IsLongFile most (files name.now)) }
    ensures rest { IsErrOf result (unread Unread.TooLong) → LeavesRest most name.now (H.files shelf.old) (H.left shelf.new) }
    ensures unread { LeavesOnly most name.now (H.files shelf.old) (H.left shelf.new) }

    ensures files { H.files shelf.new ≡ H.files shelf.old }
    ensures opens { H.opens shelf.new ≡ H.opens shelf.old ++ name.now ∷ [] }
    ensures later { H.faults shelf.old ≤ H.faults shelf.new }
    ensures failed { IsErrOf result (unread Unread.Failed) → Rose (H.faults shelf.old) (H.faults shelf.new) }
    ensures quiet { result ≢ Err (unread Unread.Failed) → H.faults shelf.new ≡ H.faults shelf.old }
    ensures steady { H.steady shelf.old → H.steady shelf.new }
    ensures steady_failed { H.steady shelf.old → IsErrOf result (unread Unread.Failed) → LacksFile (H.files shelf.old) name.now }
{
    let mut parser = Parser::new(alloc);
    match take_file(alloc, shelf, &mut parser, name, most) {
        Ok(()) => result_of(parser),
        Err(unread) => Err(NoResult::Unread(unread)),
    }
}
