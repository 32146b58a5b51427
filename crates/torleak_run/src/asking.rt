//! What is found: the leaks among the paths of dumps behind a result.
ghost use Rattle.std.specs.Prelude.{◌≡◌, ◌⊎◌, ◌<◌, ◌≤◌, None, Some, IfErr, IfOk, OnOk, length};
ghost use Rattle.rel_infer.specs.GivenInference.{max_givens};
ghost use Rattle.result_rules.specs.File.{its_givens};
ghost use Rattle.result_rules.specs.Rules.{Accepts};
ghost use Rattle.route_leaks.specs.Leaks.{AreLeaksOf};
ghost use Rattle.torleak_run.specs.Hunting.{Hunts, error_of, limit_behind};

use dump_read::{DumpError, LimitKind, Taken, Wanted};
use path_order::{DistinctPaths, Order};
use path_table::AddRefused;
use result_file::{Ruling, ruling_of_file};
use result_text::ResultFile;
use route_leaks::{Leaks, leaks_of};
use run_base::{FirstFile, Stop, Stopped, nothing_taken, read_onto};
use std::alloc::Global;
use tor_arena::{Keys, MAX_PATHS, NoMemory};
use tor_io::Shelf;
use tor_words::LeakSettings;

// What is found of what dumps gave.
fn leaks_among(
    alloc: Global,
    keys: Keys,
    file: ResultFile,
    taken: Taken,
) -> Result<Leaks, AddRefused>
    requires accepted { Accepts file }
    requires few { length (its_givens file) ≤ max_givens }
    ensures leaks { IfOk result (AreLeaksOf file taken.table.rows) }
    ensures room { OnOk result (limit_behind file taken ≡ None) }
    ensures limit_met { IfErr result (λ why. (why ≡ AddRefused.NoMemory) ⊎ (limit_behind file taken ≡ Some why)) }
{
    let Taken {
        table,
        counts: _,
        files,
    } = taken;
    drop(files);
    match DistinctPaths::of_table(alloc, Order::Seen, 0, table) {
        Ok(seen) => leaks_of(alloc, keys, file, seen),
        Err(NoMemory) => {
            drop(file);
            Err(AddRefused::NoMemory)
        }
    }
}

// Why paths find no room, as an error of a dump.
fn error_of(refused: AddRefused) -> DumpError
    ensures { result ≡ error_of refused }
{
    match refused {
        AddRefused::TooManyPaths => DumpError::Limit(LimitKind::Paths),
        AddRefused::TooManyNumbers => DumpError::Limit(LimitKind::Numbers),
        AddRefused::NoMemory => DumpError::NoMemory,
    }
}

/// What is found with these settings.
pub(crate) fn hunted_of<H: Shelf>(
    alloc: Global,
    keys: Keys,
    settings: &LeakSettings,
    shelf: &mut H,
) -> Result<Leaks, Stop>
    requires named { 0 < length settings.now.dumps }
    ensures { Hunts settings.now H.Shelf result shelf.old shelf.new }
{
    let file = match ruling_of_file(alloc, keys, shelf, settings.result.as_text()) {
        Ok(Ruling::Met(file)) => file,
        Ok(Ruling::Broken { line, rule }) => return Err(Stop::Broken { line, rule }),
        Err(unread) => return Err(Stop::First(FirstFile::Result, unread)),
    };
    let start = nothing_taken(alloc, keys, MAX_PATHS);
    let dumps = settings.dumps.as_slice();
    let wanted = Wanted::all(file.sets);
    match read_onto(alloc, shelf, dumps, &wanted, start) {
        Ok(taken) => match leaks_among(alloc, keys, file, taken) {
            Ok(leaks) => Ok(leaks),
            Err(refused) => Err(Stop::Dumps(Stopped {
                dump: dumps.len() as u64,
                error: error_of(refused),
            })),
        },
        Err(stopped) => {
            drop(file);
            Err(Stop::Dumps(stopped))
        }
    }
}
