//! Dumps that are read with nothing taken in before the first.
ghost use Rattle.std.specs.Prelude.{◌≡◌, ◌≤◌, ◌<◌, ◌++◌, Ok, IfOk, IfErr, IfSome, IsErrAnd, OnOk, length};
ghost use Rattle.std.specs.Io.KnownBytes.{IsAtEnd};
ghost use Rattle.tor_arena.specs.Limits.{max_paths};
ghost use Rattle.rel_infer.specs.SelfAcceptance.{AreTableRows};
ghost use Rattle.dump_read.specs.Wanted.{all_wanted};
ghost use Rattle.run_base.specs.Answers.{IsReadFault};
ghost use Rattle.run_base.specs.Frames.{ReadsShelf};
ghost use Rattle.run_base.specs.Opening.{OpensDumps};
ghost use Rattle.run_base.specs.Reading.{IsOfSomeDumps, nothing};
ghost use Rattle.tor_output.specs.Reach.{StopsDumpsInReach};
ghost use Rattle.tor_output.specs.Refusals.{IsStopAt};
ghost use Rattle.tor_output.specs.Seen.{seen_of_dumps};

use crate::output::has_table_rows;
use dump_read::{Taken, Wanted};
use run_base::{Refusal, nothing_taken, read_dumps};
use std::alloc::Global;
use tor_arena::{Keys, List};
use tor_io::Shelf;
use tor_words::{Name, Settings};

/// What is taken in of the dumps of these names, with the sets and the limit of the settings. Err: a dump isn't there, or a read of it
/// failed; it is malformed or past a limit; or memory ran out.
pub(crate) fn dumps_taken<H: Shelf>(
    alloc: Global,
    keys: Keys,
    settings: &Settings,
    dumps: &List<Name>,
    shelf: &mut H,
) -> Result<Taken, Refusal>
    requires some { 1 ≤ settings.now.max_paths }
    requires most { settings.now.max_paths ≤ max_paths }
    ensures seen { IfOk result (λ taken. IfSome (H.files shelf.old) (λ files.
        seen_of_dumps settings.now dumps.now files ≡ Ok taken)) }
    ensures of_some { IfOk result (IsOfSomeDumps (all_wanted settings.now.sets) (length dumps.now) (nothing settings.now.max_paths)) }
    ensures rows { IfOk result (λ taken. AreTableRows taken.table.rows) }
    ensures refused { IfErr result (IsStopAt (seen_of_dumps settings.now) dumps.now (H.files shelf.old) (H.steady shelf.old)) }
    ensures read_out { OnOk result (0 < length dumps.now → IsAtEnd (H.left shelf.new)) }
    ensures reach { IfErr result (StopsDumpsInReach dumps.now (H.files shelf.old) (H.left shelf.new)) }
    ensures opens { OnOk result (H.opens shelf.new ≡ H.opens shelf.old ++ dumps.now) }
    ensures opens_stop { IfErr result (λ r. OpensDumps 1 dumps.now r (H.opens shelf.old) (H.opens shelf.new)) }

    ensures reads_shelf { ReadsShelf H.Shelf (IsErrAnd result IsReadFault) shelf.old shelf.new }
{
    let mut taken = nothing_taken(alloc, keys, settings.max_paths);
    let wanted = Wanted::all(settings.sets);
    match read_dumps(alloc, shelf, dumps.as_slice(), &wanted, &mut taken) {
        Ok(()) => {
            has_table_rows(&taken.table);
            Ok(taken)
        }
        Err(stopped) => {
            drop(taken);
            Err(Refusal::Dumps(stopped))
        }
    }
}
