//! The result of dumps on top of an earlier one.
ghost use Rattle.std.specs.Prelude.{◌≡◌, ◌≤◌, ◌+◌, ◌<◌, ◌⊎◌, ◌++◌, Ok, IfOk, IfErr, IfSome, OnOk, IsErrAnd, length, unwrap_or, []};
ghost use Rattle.std.specs.Io.KnownBytes.{IsAtEnd};
ghost use Rattle.tor_arena.specs.Limits.{max_numbers, max_paths, max_ratio};
ghost use Rattle.result_rules.specs.Rules.{Accepts};
ghost use Rattle.result_text.specs.Text.{its_givens};
ghost use Rattle.rel_infer.specs.GivenInference.{max_givens};
ghost use Rattle.path_table.specs.Rows.{row_paths};
ghost use Rattle.rel_infer.specs.Earlier.{BeginsWithPathsOf, BeginsWithEarlier, IsRestOf};
ghost use Rattle.result_text.specs.declared.file.ResultFile.{ResultFile as File};
ghost use Rattle.tor_words.specs.declared.job.Job.TheVariants.{Resume};
ghost use Rattle.tor_words.specs.Given.{dumps_in};
ghost use Rattle.run_base.specs.Answers.{IsReadFault};
ghost use Rattle.run_base.specs.Frames.{ReadsShelf};
ghost use Rattle.run_base.specs.Opening.{AllRead, OpensDumps, OpensInOrder};
ghost use Rattle.tor_output.specs.Opening.{UnwrittenEnds, named_in};
ghost use Rattle.tor_output.specs.Output.{IsResultOn, IsResumed, IsOutput, IsOutputOf, IsOutputOn, IsOutputOnEarlier, IsOutputOnSome};
ghost use Rattle.tor_output.specs.Reach.{IsUnwrittenInReach, StopsDumpsInReach, StopsInReach};
ghost use Rattle.tor_output.specs.Refusals.{IsFailedRead, IsStopAt, IsUnwrittenIn, past_limit};
ghost use Rattle.tor_output.specs.First.{IsTakenUp, first_in};
ghost use Rattle.tor_output.specs.Begun.{IsBegun, KnowsFurther};
ghost use Rattle.tor_output.specs.Seen.{Outcome, ComesOfSome, joined};
ghost use Rattle.tor_output.specs.Written.{written};

use crate::first::earlier_in;
use crate::ordering::paths_behind;
use crate::output::{Output, has_table_rows, text_and_summary};
use crate::unwritten::Unwritten;
use dump_read::{DumpError, LimitKind, Taken, Wanted};
use path_clean::{Asides, Cause};
use path_order::DistinctPaths;
use rel_infer::{Rest, TableRefused, result_resumed, take_up};
use result_text::ResultFile;
use run_base::{Refusal, Stopped, read_dumps};
use std::alloc::Global;
use top_givens::bind_top;
use tor_arena::{Keys, List, NoMemory};
use tor_io::Shelf;
use tor_words::{Name, Settings};

// The same counts.
fn same_counts(asides: &Asides) -> Asides
    ensures { result ≡ asides.now }
{
    Asides::from_counts([
        asides.get(Cause::NoPath),
        asides.get(Cause::BadSegments),
        asides.get(Cause::Confed),
        asides.get(Cause::Sets),
        asides.get(Cause::Reserved),
        asides.get(Cause::Loop),
        asides.get(Cause::Short),
    ])
}

// What is taken in before the first dump, and what is left of the earlier result.
#[derive(Drop)]
struct Started {
    taken: Taken,
    rest: Rest,
}

// What is taken in before the first dump: the paths of the earlier result with their times, and its counts.
fn begun(
    alloc: Global,
    keys: Keys,
    settings: &Settings,
    earlier: ResultFile,
) -> Result<Started, Refusal>
    requires accepted { Accepts earlier }
    requires some { 1 ≤ settings.now.max_paths }
    requires most { settings.now.max_paths ≤ max_paths }
    ensures begun { IfOk result (λ begun. IsBegun settings.now earlier begun.rest begun.taken) }
    ensures refused { IfErr result (λ refusal.
        ((refusal ≡ past_limit) × (settings.now.max_paths < length earlier.paths)) ⊎ (refusal ≡ Refusal.NoMemory)) }
{
    let counts = same_counts(&earlier.asides);
    match take_up(alloc, keys, earlier, settings.max_paths) {
        Ok(up) => Ok(Started {
            taken: Taken {
                table: up.table,
                counts,
                files: List::new(alloc),
            },
            rest: up.rest,
        }),
        Err(TableRefused::TooManyPaths) => Err(Refusal::Dumps(Stopped {
            dump: 0,
            error: DumpError::Limit(LimitKind::Paths),
        })),
        Err(TableRefused::NoMemory) => Err(Refusal::NoMemory),
    }
}

// What is left of an earlier result, with what follows for the edges that only the further paths have, where networks buy from nobody.
fn known_further(
    alloc: Global,
    keys: Keys,
    top: &Option<List<u32>>,
    mut earlier: Rest,
    paths: &DistinctPaths,
) -> Result<Rest, NoMemory>
    requires few { length (unwrap_or earlier.givens []) + max_numbers ≤ max_givens }
    requires begins { BeginsWithEarlier (row_paths paths.now) earlier }
    ensures known { IfOk result (λ rest. (old : File) → IsRestOf old earlier → BeginsWithPathsOf (row_paths paths.now) old →
        KnowsFurther top.now (row_paths paths.now) old rest) }
    ensures few { IfOk result (λ rest. length (unwrap_or rest.givens []) ≤ max_givens) }
    ensures begins { IfOk result (BeginsWithEarlier (row_paths paths.now)) }
{
    let Some(top) = top else {
        return Ok(earlier);
    };
    paths.facts();
    let first = earlier.fates.len();
    let mut givens = earlier.givens.take().unwrap_or(List::new(alloc));
    match bind_top(
        alloc,
        keys,
        top.as_slice(),
        &[],
        paths.rows(),
        first,
        &mut givens,
    ) {
        Ok(()) => {
            earlier.givens = Some(givens);
            Ok(earlier)
        }
        Err(NoMemory) => {
            drop(givens);
            drop(earlier);
            Err(NoMemory)
        }
    }
}

// The result of paths on top of the earlier one.
fn result_on(
    alloc: Global,
    keys: Keys,
    settings: &Settings,
    earlier: Rest,
    paths: DistinctPaths,
    counts: Asides,
) -> Result<ResultFile, NoMemory>
    requires ratio { settings.now.ratio ≤ max_ratio }
    requires few { length (unwrap_or earlier.givens []) + max_numbers ≤ max_givens }
    requires begins { BeginsWithEarlier (row_paths paths) earlier }
    ensures { IfOk result (λ file. (old : File) → IsRestOf old earlier → BeginsWithPathsOf (row_paths paths) old →
        IsResultOn settings.now.top settings.now.ratio old paths counts file) }
{
    match known_further(alloc, keys, &settings.top, earlier, &paths) {
        Ok(rest) => result_resumed(alloc, keys, settings.ratio, rest, paths, counts),
        Err(NoMemory) => {
            drop(paths);
            Err(NoMemory)
        }
    }
}

// The result of what the dumps gave on top of the earlier one.
fn resumed_result(
    alloc: Global,
    keys: Keys,
    settings: &Settings,
    earlier: Rest,
    taken: Taken,
) -> Result<ResultFile, NoMemory>
    requires ratio { settings.now.ratio ≤ max_ratio }
    requires few { length (unwrap_or earlier.givens []) + max_numbers ≤ max_givens }
    requires begins { BeginsWithEarlier (row_paths taken.table.rows) earlier }
    ensures { IfOk result (λ file. (old : File) → IsRestOf old earlier → BeginsWithPathsOf (row_paths taken.table.rows) old →
        IsResumed settings.now old taken file) }
{
    let Taken {
        table,
        counts,
        files,
    } = taken;
    drop(files);
    match paths_behind(alloc, settings, earlier.fates.len(), table) {
        Ok(paths) => result_on(alloc, keys, settings, earlier, paths, counts),
        Err(NoMemory) => {
            drop(earlier);
            Err(NoMemory)
        }
    }
}

// Its text, and its summary.
fn resumed_text(
    alloc: Global,
    keys: Keys,
    settings: &Settings,
    earlier: Rest,
    taken: Taken,
) -> Result<Output, NoMemory>
    requires ratio { settings.now.ratio ≤ max_ratio }
    requires few { length (unwrap_or earlier.givens []) + max_numbers ≤ max_givens }
    requires begins { BeginsWithEarlier (row_paths taken.table.rows) earlier }
    ensures { IfOk result (λ output. (old : File) → IsRestOf old earlier → BeginsWithPathsOf (row_paths taken.table.rows) old →
        IsOutputOn settings.now old taken (written output)) }
{
    let file = resumed_result(alloc, keys, settings, earlier, taken)?;
    text_and_summary(alloc, file)
}

// The text of the result of what the dumps of the settings give on top of what was taken up of the earlier one, and its summary.
fn joined_output<H: Shelf>(
    alloc: Global,
    keys: Keys,
    settings: &Settings,
    earlier: Rest,
    mut taken: Taken,
    dumps: &List<Name>,
    shelf: &mut H,
) -> Result<Output, Refusal>
    requires ratio { settings.now.ratio ≤ max_ratio }
    requires few { length (unwrap_or earlier.givens []) + max_numbers ≤ max_givens }
    requires begun { (old : File) × Accepts old × IsBegun settings.now old earlier taken }
    requires dumps { dumps_in settings.now ≡ dumps.now }
    ensures output { IfOk result (λ output. (old : File) → IsBegun settings.now old earlier taken → IfSome (H.files shelf.old) (λ files.
        IsOutputOnEarlier settings.now old files (written output))) }
    ensures of_some { IfOk result (λ output. (old : File) → IsBegun settings.now old earlier taken →
        IsOutputOnSome settings.now old (written output)) }
    ensures refused { IfErr result (λ refusal. (old : File) → IsBegun settings.now old earlier taken →
        IsStopAt (joined old settings.now.max_paths) (dumps_in settings.now) (H.files shelf.old) (H.steady shelf.old) refusal) }
    ensures read_out { OnOk result (0 < length dumps.now → IsAtEnd (H.left shelf.new)) }
    ensures reach { IfErr result (StopsDumpsInReach dumps.now (H.files shelf.old) (H.left shelf.new)) }
    ensures opens { OnOk result (H.opens shelf.new ≡ H.opens shelf.old ++ dumps.now) }
    ensures opens_stop { IfErr result (λ r. OpensDumps 0 dumps.now r (H.opens shelf.old) (H.opens shelf.new)) }

    ensures reads_shelf { ReadsShelf H.Shelf (IsErrAnd result IsReadFault) shelf.old shelf.new }
{
    let wanted = Wanted::all(earlier.sets);
    match read_dumps(alloc, shelf, dumps.as_slice(), &wanted, &mut taken) {
        Ok(()) => {
            has_table_rows(&taken.table);
            match resumed_text(alloc, keys, settings, earlier, taken) {
                Ok(output) => Ok(output),
                Err(NoMemory) => Err(Refusal::NoMemory),
            }
        }
        Err(stopped) => {
            drop(earlier);
            drop(taken);
            Err(Refusal::Dumps(stopped))
        }
    }
}

// What the dumps of the settings give on top of the earlier result. All memory is taken here.
fn output_on<H: Shelf>(
    alloc: Global,
    keys: Keys,
    settings: &Settings,
    earlier: ResultFile,
    dumps: &List<Name>,
    shelf: &mut H,
) -> Result<Output, Refusal>
    requires dumps { dumps_in settings.now ≡ dumps.now }
    requires resumes { IsTakenUp (first_in settings.now) }
    requires some { 1 ≤ settings.now.max_paths }
    requires most { settings.now.max_paths ≤ max_paths }
    requires ratio { settings.now.ratio ≤ max_ratio }
    requires accepted { Accepts earlier }
    requires few { length (its_givens earlier) + max_numbers ≤ max_givens }
    requires read { IsAtEnd (H.left shelf.old) }
    ensures output { IfOk result (λ output. IfSome (H.files shelf.old) (λ files.
        IsOutputOnEarlier settings.now earlier files (written output))) }
    ensures of_some { IfOk result (λ output. IsOutputOnSome settings.now earlier (written output)) }
    ensures refused { IfErr result (IsStopAt (joined earlier settings.now.max_paths) (dumps_in settings.now)
        (H.files shelf.old) (H.steady shelf.old)) }
    ensures read_out { OnOk result (0 < length dumps.now → IsAtEnd (H.left shelf.new)) }
    ensures reach { IfErr result (StopsInReach settings.now (H.files shelf.old) (H.left shelf.new)) }
    ensures opens { OnOk result (H.opens shelf.new ≡ H.opens shelf.old ++ dumps.now) }
    ensures opens_stop { IfErr result (λ r. OpensDumps 0 dumps.now r (H.opens shelf.old) (H.opens shelf.new)) }

    ensures reads_shelf { ReadsShelf H.Shelf (IsErrAnd result IsReadFault) shelf.old shelf.new }
{
    match begun(alloc, keys, settings, earlier) {
        Ok(begun) => joined_output(alloc, keys, settings, begun.rest, begun.taken, dumps, shelf),
        Err(refusal) => Err(refusal),
    }
}

/// The text of the result of the dumps of these names on top of the one that the file of this name holds.
pub(crate) fn resumed_output<H: Shelf>(
    alloc: Global,
    keys: Keys,
    settings: &Settings,
    name: &Name,
    dumps: &List<Name>,
    shelf: &mut H,
) -> Result<Output, Unwritten>
    requires job { settings.now.job ≡ Resume name.now dumps.now }
    requires named { 0 < length dumps.now }
    requires some { 1 ≤ settings.now.max_paths }
    requires most { settings.now.max_paths ≤ max_paths }
    requires ratio { settings.now.ratio ≤ max_ratio }
    ensures output { IfOk result (λ output. IfSome (H.files shelf.old) (λ files. IsOutputOf settings.now files (written output))) }
    ensures of_some { IfOk result (λ output. (outcome : Outcome) × ComesOfSome settings.now outcome ×
        IsOutput settings.now outcome (written output)) }
    ensures unwritten { IfErr result (IsUnwrittenIn settings.now (H.files shelf.old) (H.steady shelf.old)) }
    ensures read_out { OnOk result (IsAtEnd (H.left shelf.new)) }
    ensures reach { IfErr result (IsUnwrittenInReach settings.now (H.files shelf.old) (H.left shelf.new)) }
    ensures opens { OnOk result (OpensInOrder (named_in settings.now) (λ end. end ≡ AllRead) (H.opens shelf.old) (H.opens shelf.new)) }
    ensures opens_stop { IfErr result (λ u.
        OpensInOrder (named_in settings.now) (UnwrittenEnds u) (H.opens shelf.old) (H.opens shelf.new)) }

    ensures reads_shelf { ReadsShelf H.Shelf (IsErrAnd result IsFailedRead) shelf.old shelf.new }
{
    match earlier_in(alloc, keys, shelf, name) {
        Ok(earlier) => match output_on(alloc, keys, settings, earlier, dumps, shelf) {
            Ok(output) => Ok(output),
            Err(refusal) => Err(Unwritten::Refused(refusal)),
        },
        Err(unwritten) => Err(unwritten),
    }
}
