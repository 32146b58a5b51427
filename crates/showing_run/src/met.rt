//! The result of a file, where it meets the rules.
ghost use Rattle.std.specs.Prelude.{◌≡◌, ◌++◌, ◌∷◌, [], IfOk, IfErr, OnOk, IsErrAnd};
ghost use Rattle.std.specs.Io.KnownBytes.{IsAtEnd};
ghost use Rattle.run_base.specs.Frames.{ReadsShelf};
ghost use Rattle.run_base.specs.Stopping.{IsFailedCall};
ghost use Rattle.showing_run.specs.Asking.{HoldsMet};
ghost use Rattle.showing_run.specs.Unmet.{HoldsNone, HoldsNoneInReach};

use result_file::{Ruling, ruling_of_file};
use result_text::ResultFile;
use run_base::{FirstFile, Stop};
use std::alloc::Global;
use tor_arena::Keys;
use tor_io::Shelf;

/// The result that the file of this name holds, where it meets the rules 0 to 10.
pub(crate) fn result_met<H: Shelf>(
    alloc: Global,
    keys: Keys,
    shelf: &mut H,
    name: &str,
) -> Result<ResultFile, Stop>
    ensures met { IfOk result (HoldsMet (H.files shelf.old) name.now) }
    ensures unmet { IfErr result (HoldsNone (H.files shelf.old) (H.steady shelf.old) name.now) }
    ensures reach { IfErr result (HoldsNoneInReach (H.files shelf.old) (H.left shelf.new) name.now) }
    ensures read_out { OnOk result (IsAtEnd (H.left shelf.new)) }
    ensures opens { H.opens shelf.new ≡ H.opens shelf.old ++ name.now ∷ [] }

    ensures reads_shelf { ReadsShelf H.Shelf (IsErrAnd result IsFailedCall) shelf.old shelf.new }
{
    match ruling_of_file(alloc, keys, shelf, name) {
        Ok(Ruling::Met(file)) => Ok(file),
        Ok(Ruling::Broken { line, rule }) => Err(Stop::Broken { line, rule }),
        Err(unread) => Err(Stop::First(FirstFile::Result, unread)),
    }
}
