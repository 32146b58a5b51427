//! The reading of dumps, one after the other.
ghost use Rattle.std.specs.Prelude.{◌≡◌, ◌≢◌, ◌≤◌, ◌-◌, ◌<◌, ◌++◌, Ok, Err, OnOk, IfErr, IfSome, IsOk, length, take};
ghost use Rattle.std.specs.Io.KnownBytes.{IsAtEnd};
ghost use Rattle.tor_io.specs.Counts.{Rose};
ghost use Rattle.dump_read.specs.Seen.{Absent, end_named};
ghost use Rattle.dump_read.specs.Refusals.{IsOfDump};
ghost use Rattle.tor_arena.specs.Limits.{max_paths};
ghost use Rattle.dump_read.specs.Reach.{StopsBounded, LeavesRestOfDump};
ghost use Rattle.run_base.specs.Stopping.{ReadsDumps};
ghost use Rattle.run_base.specs.Reading.{nothing, seen_from, name_of_dump, IsOfSomeDumps};

use dump_read::{DumpError, LimitKind, Taken, Wanted, read_dump};
use path_clean::Asides;
use path_table::PathTable;
use std::alloc::Global;
use tor_arena::{Keys, List};
use tor_io::Shelf;
use tor_words::Name;

/// Where the reading of dumps stopped, and why.
#[derive(Clone, Copy, PartialEq, Eq)]
pub struct Stopped {
    /// The number of the dump, from 1; 0 where a result on top of which dumps are to be read has too many paths, so that none is opened.
    pub dump: u64,
    /// Why.
    pub error: DumpError,
}

/// Nothing taken in, with room for at most `limit` paths. It takes no memory.
pub fn nothing_taken(alloc: Global, keys: Keys, limit: u32) -> Taken
    requires some { 1 ≤ limit }
    requires most { limit ≤ max_paths }
    ensures { result ≡ nothing limit }
{
    Taken {
        table: PathTable::new(alloc, keys, limit),
        counts: Asides::new(),
        files: List::new(alloc),
    }
}

/// Reads the dumps in order, and takes in their routes that count. At Ok that is what dumps of some octets give, also where nothing is known of the
/// shelf's files.
pub fn read_dumps<H: Shelf>(
    alloc: Global,
    shelf: &mut H,
    dumps: &[Name],
    wanted: &Wanted,
    taken: &mut Taken,
) -> Result<(), Stopped>
    ensures read { OnOk result (IfSome (H.files shelf.old) (λ files.
        seen_from wanted.now 1 taken.old dumps.now files ≡ Ok taken.new)) }
    ensures some_dumps { OnOk result (IsOfSomeDumps wanted.now (length dumps.now) taken.old taken.new) }
    ensures stopped { IfErr result (λ e. IfSome (end_named e.dump e.error) (λ end. IfSome (H.files shelf.old) (λ files.
        seen_from wanted.now 1 taken.old dumps.now files ≡ Err end))) }
    ensures place { IfErr result (λ e. IsOfDump e.dump e.error) }
    ensures named { IfErr result (λ e. (1 ≤ e.dump) × (e.dump ≤ length dumps.now)) }
    ensures before { IfErr result (λ e. IfSome (H.files shelf.old) (λ files.
        IsOk (seen_from wanted.now 1 taken.old (take (e.dump - 1) dumps.now) files))) }
    ensures read_out { OnOk result (0 < length dumps.now → IsAtEnd (H.left shelf.new)) }
    ensures bounded { IfErr result (λ e.
        StopsBounded e.error (name_of_dump dumps.now e.dump) (H.files shelf.old) (H.left shelf.new)) }
    ensures shown { IfErr result (λ e. e.error ≡ DumpError.Limit LimitKind.Bytes →
        LeavesRestOfDump (name_of_dump dumps.now e.dump) (H.files shelf.old) (H.left shelf.new)) }

    ensures files { H.files shelf.new ≡ H.files shelf.old }
    ensures opens { OnOk result (H.opens shelf.new ≡ H.opens shelf.old ++ dumps.now) }
    ensures opens_stop { IfErr result (λ e. H.opens shelf.new ≡ H.opens shelf.old ++ take e.dump dumps.now) }
    ensures later { H.faults shelf.old ≤ H.faults shelf.new }
    ensures failed { IfErr result (λ e. e.error ≡ DumpError.ReadFault → Rose (H.faults shelf.old) (H.faults shelf.new)) }
    ensures quiet { OnOk result (H.faults shelf.new ≡ H.faults shelf.old) }
    ensures quiet_stop { IfErr result (λ e. e.error ≢ DumpError.ReadFault → H.faults shelf.new ≡ H.faults shelf.old) }
    ensures steady { H.steady shelf.old → H.steady shelf.new }
    ensures steady_failed { H.steady shelf.old → IfErr result (λ e. e.error ≡ DumpError.ReadFault →
        IfSome (H.files shelf.old) (λ files. seen_from wanted.now 1 taken.old dumps.now files ≡ Err (Absent e.dump))) }
{
    for (place, name) in dumps.iter().enumerate() {
        let dump = place as u64 + 1;
        match read_dump(alloc, shelf, name.as_text(), dump, wanted, taken) {
            Ok(()) => {}
            Err(error) => return Err(Stopped { dump, error }),
        }
    }
    Ok(())
}

/// The same on top of what was taken in before, which is let go where reading stops.
pub fn read_onto<H: Shelf>(
    alloc: Global,
    shelf: &mut H,
    dumps: &[Name],
    wanted: &Wanted,
    start: Taken,
) -> Result<Taken, Stopped>
    ensures { ReadsDumps H.Shelf wanted.now dumps.now start result shelf.old shelf.new }
{
    let mut taken = start;
    match read_dumps(alloc, shelf, dumps, wanted, &mut taken) {
        Ok(()) => Ok(taken),
        Err(stopped) => {
            drop(taken);
            Err(stopped)
        }
    }
}
