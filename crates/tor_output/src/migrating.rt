//! A result in the text of version 2.
ghost use Rattle.std.specs.Prelude.{◌≡◌, IfOk, IfErr, IfSome, IsErrAnd, OnOk};
ghost use Rattle.std.specs.Io.KnownBytes.{IsAtEnd};
ghost use Rattle.tor_words.specs.declared.job.Job.TheVariants.{Migrate};
ghost use Rattle.run_base.specs.Frames.{ReadsShelf};
ghost use Rattle.run_base.specs.Opening.{AllRead, OpensInOrder};
ghost use Rattle.tor_output.specs.Opening.{UnwrittenEnds, named_in};
ghost use Rattle.tor_output.specs.Reach.{IsUnwrittenInReach};
ghost use Rattle.tor_output.specs.Refusals.{IsFailedRead, IsUnwrittenIn};
ghost use Rattle.tor_output.specs.Seen.{Outcome, ComesOfSome};
ghost use Rattle.tor_output.specs.Written.{written};
ghost use Rattle.tor_output.specs.Output.{IsMigrated, IsOutput, IsOutputOf, migrated};

use crate::first::result_in;
use crate::output::{Output, result_noted};
use crate::unwritten::Unwritten;
use result_text::ResultFile;
use run_base::Refusal;
use std::alloc::Global;
use tor_arena::{List, NoMemory};
use tor_io::Shelf;
use tor_words::{Name, Settings};

// The same result with a list of givens.
fn with_givens(alloc: Global, mut file: ResultFile) -> ResultFile
    ensures { result ≡ migrated file }
{
    if file.givens.is_none() {
        file.givens = Some(List::new(alloc));
    }
    file
}

// The text of version 2 of a result, without a note.
fn migration_of(alloc: Global, file: ResultFile) -> Result<Output, NoMemory>
    ensures { IfOk result (λ output. IsMigrated file (written output)) }
{
    result_noted(alloc, with_givens(alloc, file), List::new(alloc))
}

/// The text of version 2 of the result that the file of this name holds.
pub(crate) fn migrated_output<H: Shelf>(
    alloc: Global,
    settings: &Settings,
    name: &Name,
    shelf: &mut H,
) -> Result<Output, Unwritten>
    requires job { settings.now.job ≡ Migrate name.now }
    ensures output { IfOk result (λ output. IfSome (H.files shelf.old) (λ files. IsOutputOf settings.now files (written output))) }
    ensures of_some { IfOk result (λ output. (outcome : Outcome) × ComesOfSome settings.now outcome ×
        IsOutput settings.now outcome (written output)) }
    ensures unwritten { IfErr result (IsUnwrittenIn settings.now (H.files shelf.old) (H.steady shelf.old)) }
    ensures read_out { OnOk result (IsAtEnd (H.left shelf.new)) }
    ensures reach { IfErr result (IsUnwrittenInReach settings.now (H.files shelf.old) (H.left shelf.new)) }
    ensures opens { OnOk result (OpensInOrder (named_in settings.now) (λ end. end ≡ AllRead) (H.opens shelf.old) (H.opens shelf.new)) }
    ensures opens_stop { IfErr result (λ u.
        OpensInOrder (named_in settings.now) (UnwrittenEnds u) (H.opens shelf.old) (H.opens shelf.new)) }

    ensures reads_shelf { ReadsShelf H.Shelf (IsErrAnd result IsFailedRead) shelf.old shelf.new }
{
    match result_in(alloc, shelf, name) {
        Ok(file) => match migration_of(alloc, file) {
            Ok(output) => Ok(output),
            Err(NoMemory) => Err(Unwritten::Refused(Refusal::NoMemory)),
        },
        Err(unwritten) => Err(unwritten),
    }
}
