//! The verdict on a result file.
ghost use Rattle.std.specs.Prelude.{◌≡◌, ◌+◌, ◌≤◌, ◌++◌, [], IfOk, IfErr, OnOk, IsErrAnd, length, take};
ghost use Rattle.std.specs.Io.KnownBytes.{IsAtEnd};
ghost use Rattle.tor_arena.specs.Limits.{max_paths};
ghost use Rattle.dump_read.specs.declared.error.DumpError.TheVariants.{ReadFault as read_failed};
ghost use Rattle.dump_read.specs.Wanted.{all_wanted};
ghost use Rattle.result_rules.specs.File.{its_givens, most_lines};
ghost use Rattle.result_rules.specs.Rules.{IsMet};
ghost use Rattle.result_rules.specs.declared.rule.Rule.TheVariants.{PathsDistinct};
ghost use Rattle.run_base.specs.Frames.{ReadsShelf};
ghost use Rattle.run_base.specs.Reach.{IsDumpInReach};
ghost use Rattle.run_base.specs.Reading.{nothing};
ghost use Rattle.run_base.specs.Stopping.{Asks, StopsDumps};
ghost use Rattle.torcheck_run.specs.Checking.{JudgesDumps, JudgesTaken, checking};

use any_order::check_against_any_order;
use dump_read::{Taken, Wanted};
use rel_checker::check_against;
use result_file::{Ruling, ruling_of_file};
use result_rules::Verdict;
use result_text::ResultFile;
use run_base::{FirstFile, Stop, Stopped, nothing_taken, read_onto};
use std::alloc::Global;
use tor_arena::{Keys, MAX_PATHS};
use tor_io::Shelf;
use tor_words::{CheckSettings, Name};

/// What a result file is judged by.
#[derive(Clone, Copy)]
pub enum Judged {
    /// A rule of 0 to 10 is broken, so no dump is opened: this line, from 1, is the first that breaks it, and it is the least.
    ByFile { line: u64, rule: u8 },
    /// All of these are met, and the dumps decide.
    ByDumps(Verdict),
}

/// The verdict of what dumps gave, as they stand or in any order.
fn judged_by_taken(any_order: bool, file: &ResultFile, taken: &Taken) -> Verdict
    requires lines { length (its_givens file.now) + length file.now.paths ≤ most_lines }
    requires once { IsMet file.now PathsDistinct }
    ensures { JudgesTaken any_order file.now taken.now result }
{
    if any_order {
        check_against_any_order(file, &taken.table, &taken.counts)
    } else {
        check_against(file, &taken.table, &taken.counts)
    }
}

/// The verdict of the dumps on a result that meets the rules before: yes where none is named.
fn judged_by_dumps<H: Shelf>(
    alloc: Global,
    keys: Keys,
    shelf: &mut H,
    any_order: bool,
    file: &ResultFile,
    dumps: &[Name],
) -> Result<Verdict, Stopped>
    requires lines { length (its_givens file.now) + length file.now.paths ≤ most_lines }
    requires once { IsMet file.now PathsDistinct }
    ensures verdict { IfOk result (JudgesDumps any_order (H.files shelf.old) file.now dumps.now) }
    ensures stopped { IfErr result (λ e.
        StopsDumps (H.files shelf.old) (H.steady shelf.old) (all_wanted file.now.sets) dumps.now (nothing max_paths) e.dump e.error) }
    ensures read_out { OnOk result (IsAtEnd (H.left shelf.old) → IsAtEnd (H.left shelf.new)) }
    ensures reach { IfErr result (λ e. IsDumpInReach dumps.now (H.files shelf.old) (H.left shelf.new) e.dump e.error) }
    ensures opens { OnOk result (H.opens shelf.new ≡ H.opens shelf.old ++ dumps.now) }
    ensures opens_stop { IfErr result (λ e. H.opens shelf.new ≡ H.opens shelf.old ++ take e.dump dumps.now) }
    ensures reads_shelf { ReadsShelf H.Shelf (IsErrAnd result (λ e. e.error ≡ read_failed)) shelf.old shelf.new }
{
    if dumps.is_empty() {
        return Ok(Verdict::Yes);
    }
    let start = nothing_taken(alloc, keys, MAX_PATHS);
    let wanted = Wanted::all(file.sets);
    match read_onto(alloc, shelf, dumps, &wanted, start) {
        Ok(taken) => {
            let verdict = judged_by_taken(any_order, file, &taken);
            drop(taken);
            Ok(verdict)
        }
        Err(stopped) => Err(stopped),
    }
}

/// The verdict on the result file that the settings name.
pub(crate) fn judged_of<H: Shelf>(
    alloc: Global,
    keys: Keys,
    settings: &CheckSettings,
    shelf: &mut H,
) -> Result<Judged, Stop>
    ensures { Asks checking settings.now H.Shelf (λ judged. judged) result shelf.old shelf.new }
{
    match ruling_of_file(alloc, keys, shelf, settings.result.as_text()) {
        Ok(Ruling::Broken { line, rule }) => Ok(Judged::ByFile { line, rule }),
        Ok(Ruling::Met(file)) => {
            let judged = judged_by_dumps(
                alloc,
                keys,
                shelf,
                settings.any_order,
                &file,
                settings.dumps.as_slice(),
            );
            drop(file);
            match judged {
                Ok(verdict) => Ok(Judged::ByDumps(verdict)),
                Err(stopped) => Err(Stop::Dumps(stopped)),
            }
        }
        Err(unread) => Err(Stop::First(FirstFile::Result, unread)),
    }
}
