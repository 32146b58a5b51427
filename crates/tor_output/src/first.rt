//! The file that a run reads to its end before any dump: known relationships, or a result, which may be taken up.
ghost use Rattle.std.specs.Prelude.{◌≡◌, ◌≤◌, ◌+◌, ◌*◌, ◌^◌, ◌++◌, ◌∷◌, [], Some, IfOk, IfErr, IfSome, IsSome, OnOk, IsErrAnd, length};
ghost use Rattle.std.specs.Io.KnownBytes.{IsAtEnd};
ghost use Rattle.as_rel.specs.Serial.{IsReadingError};
ghost use Rattle.run_base.specs.Frames.{ReadsShelf};
ghost use Rattle.run_base.specs.Opening.{first_named};
ghost use Rattle.tor_output.specs.First.{Givens, Result as ResultAt, Earlier, AreSomeGivens, HoldsResult, IsSomeResult};
ghost use Rattle.tor_output.specs.First.{AreSound, TakesUpSome, first_given};
ghost use Rattle.relationships.specs.Givens.{NameTwo, NameOnce};
ghost use Rattle.as_rel.specs.Givens.{SaysKnown};
ghost use Rattle.tor_output.specs.Knowing.{said_givens};
ghost use Rattle.tor_output.specs.Opening.{IsAtFirst};
ghost use Rattle.tor_output.specs.Reach.{IsFirstInReach};
ghost use Rattle.tor_output.specs.Refusals.{AreGivensIn, TakesUpIn, IsUnwrittenAtFirst, IsFailedRead};

use crate::unwritten::Unwritten;
use as_rel::{KnownLines, MAX_REL, RelError, parse_known};
use result_file::{MAX_RESULT, NoResult, Ruling, read_result, ruling_of_file};
use result_text::ResultFile;
use run_base::{FirstFile, Refusal, read_whole};
use std::alloc::Global;
use tor_arena::{Keys, List};
use tor_io::Shelf;
use tor_words::Name;

// What the octets say is known. The octets are let go.
fn parse_givens(alloc: Global, keys: Keys, bytes: List<u8>) -> Result<KnownLines, RelError>
    ensures ok { IfOk result (SaysKnown bytes) }
    ensures err { IfErr result (λ e. IsReadingError e bytes) }
    ensures two { IfOk result (λ said. NameTwo said.givens) }
    ensures once { IfOk result (λ said. NameOnce said.givens) }
    ensures few { IfOk result (λ said. 6 * length said.givens ≤ length bytes + 1) }
{
    let said = parse_known(alloc, keys, bytes.as_slice());
    drop(bytes);
    said
}

// What the file of this name says is known.
fn givens_in<H: Shelf>(
    alloc: Global,
    keys: Keys,
    shelf: &mut H,
    name: &Name,
) -> Result<KnownLines, Unwritten>
    ensures known { IfOk result (λ said. AreGivensIn (Givens name.now) (H.files shelf.old) (Some said)) }
    ensures of_some { IfOk result (λ said. AreSomeGivens (Givens name.now) (Some said)) }
    ensures two { IfOk result (λ said. NameTwo said.givens) }
    ensures once { IfOk result (λ said. NameOnce said.givens) }
    ensures few { IfOk result (λ said. 6 * length said.givens ≤ 2 ^ 28 + 1) }
    ensures unwritten { IfErr result (IsUnwrittenAtFirst (Givens name.now) (H.files shelf.old) (H.steady shelf.old)) }
    ensures reach { IfErr result (IsFirstInReach (Givens name.now) (H.files shelf.old) (H.left shelf.new)) }
    ensures at_first { IfErr result IsAtFirst }
    ensures opens { H.opens shelf.new ≡ H.opens shelf.old ++ name.now ∷ [] }

    ensures reads_shelf { ReadsShelf H.Shelf (IsErrAnd result IsFailedRead) shelf.old shelf.new }
{
    match read_whole(alloc, shelf, name.as_text(), MAX_REL) {
        Ok(bytes) => match parse_givens(alloc, keys, bytes) {
            Ok(said) => Ok(said),
            Err(RelError::BadLine(line)) => Err(Unwritten::BadLine(FirstFile::Given, line)),
            Err(RelError::NoMemory) => Err(Unwritten::Refused(Refusal::NoMemory)),
        },
        Err(unread) => Err(Unwritten::First(FirstFile::Given, unread)),
    }
}

/// What is known, if a file of known relationships is named.
pub(crate) fn givens_for<H: Shelf>(
    alloc: Global,
    keys: Keys,
    shelf: &mut H,
    given: &Option<Name>,
) -> Result<Option<KnownLines>, Unwritten>
    ensures known { IfOk result (AreGivensIn (first_given given.now) (H.files shelf.old)) }
    ensures of_some { IfOk result (AreSomeGivens (first_given given.now)) }
    ensures sound { IfOk result AreSound }
    ensures few { IfOk result (λ said. 6 * length (said_givens said) ≤ 2 ^ 28 + 1) }
    ensures unwritten { IfErr result (IsUnwrittenAtFirst (first_given given.now) (H.files shelf.old) (H.steady shelf.old)) }
    ensures reach { IfErr result (IsFirstInReach (first_given given.now) (H.files shelf.old) (H.left shelf.new)) }
    ensures at_first { IfErr result IsAtFirst }
    ensures some { IfErr result (λ u. IsSome given.now) }
    ensures opens { H.opens shelf.new ≡ H.opens shelf.old ++ first_named given.now }

    ensures reads_shelf { ReadsShelf H.Shelf (IsErrAnd result IsFailedRead) shelf.old shelf.new }
{
    match given {
        None => Ok(None),
        Some(name) => match givens_in(alloc, keys, shelf, name) {
            Ok(said) => Ok(Some(said)),
            Err(unwritten) => Err(unwritten),
        },
    }
}

/// The result that the file of this name holds.
pub(crate) fn result_in<H: Shelf>(
    alloc: Global,
    shelf: &mut H,
    name: &Name,
) -> Result<ResultFile, Unwritten>
    ensures held { IfOk result (λ file. IfSome (H.files shelf.old) (λ files. HoldsResult (ResultAt name.now) files file)) }
    ensures of_some { IfOk result (IsSomeResult (ResultAt name.now)) }
    ensures unwritten { IfErr result (IsUnwrittenAtFirst (ResultAt name.now) (H.files shelf.old) (H.steady shelf.old)) }
    ensures reach { IfErr result (IsFirstInReach (ResultAt name.now) (H.files shelf.old) (H.left shelf.new)) }
    ensures at_first { IfErr result IsAtFirst }
    ensures opens { H.opens shelf.new ≡ H.opens shelf.old ++ name.now ∷ [] }
    ensures read_out { OnOk result (IsAtEnd (H.left shelf.new)) }

    ensures reads_shelf { ReadsShelf H.Shelf (IsErrAnd result IsFailedRead) shelf.old shelf.new }
{
    match read_result(alloc, shelf, name.as_text(), MAX_RESULT) {
        Ok(file) => Ok(file),
        Err(NoResult::BadLine(line)) => Err(Unwritten::BadLine(FirstFile::Result, line)),
        Err(NoResult::Unread(unread)) => Err(Unwritten::First(FirstFile::Result, unread)),
    }
}

/// The result that the file of this name holds, where it meets all rules.
pub(crate) fn earlier_in<H: Shelf>(
    alloc: Global,
    keys: Keys,
    shelf: &mut H,
    name: &Name,
) -> Result<ResultFile, Unwritten>
    ensures held { IfOk result (TakesUpIn (Earlier name.now) (H.files shelf.old)) }
    ensures of_some { IfOk result (TakesUpSome (Earlier name.now)) }
    ensures unwritten { IfErr result (IsUnwrittenAtFirst (Earlier name.now) (H.files shelf.old) (H.steady shelf.old)) }
    ensures reach { IfErr result (IsFirstInReach (Earlier name.now) (H.files shelf.old) (H.left shelf.new)) }
    ensures at_first { IfErr result IsAtFirst }
    ensures opens { H.opens shelf.new ≡ H.opens shelf.old ++ name.now ∷ [] }
    ensures read_out { OnOk result (IsAtEnd (H.left shelf.new)) }

    ensures reads_shelf { ReadsShelf H.Shelf (IsErrAnd result IsFailedRead) shelf.old shelf.new }
{
    match ruling_of_file(alloc, keys, shelf, name.as_text()) {
        Ok(Ruling::Met(file)) => Ok(file),
        Ok(Ruling::Broken { line, rule }) => Err(Unwritten::Broken(line, rule)),
        Err(unread) => Err(Unwritten::First(FirstFile::Result, unread)),
    }
}
