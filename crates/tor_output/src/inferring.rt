//! What is made of dumps, and of known relationships: the result, its ties, or the lines of what its labels say.
ghost use Rattle.path_table.specs.Rows.{row_paths};
ghost use Rattle.std.specs.Prelude.{◌≡◌, ◌≢◌, ◌≤◌, ◌<◌, ◌+◌, ◌*◌, ◌^◌, ◌++◌, [], All, map, Ok, IfOk, IfErr, IfSome, IsErrAnd, OnOk, length, unwrap_or};
ghost use Rattle.std.specs.List.{AllPairs};
ghost use Rattle.std.specs.Io.KnownBytes.{IsAtEnd};
ghost use Rattle.tor_arena.specs.Limits.{max_paths, max_ratio};
ghost use Rattle.as_rel.specs.Serial.{rel_in, rel_text};
ghost use Rattle.as_rel.specs.Labelled.{ends_of, line_of_edge};
ghost use Rattle.asks.specs.AsksText.{asks_text};
ghost use Rattle.ties.specs.TiesText.{ties_text};
ghost use Rattle.relationships.specs.Givens.{NameTwo, NameOnce};
ghost use Rattle.tor_output.specs.Knowing.{said_givens};
ghost use Rattle.rel_infer.specs.SelfAcceptance.{AreTableRows};
ghost use Rattle.tor_words.specs.declared.job.Job.TheVariants.{Infer};
ghost use Rattle.run_base.specs.Answers.{IsReadFault};
ghost use Rattle.run_base.specs.Reading.{IsOfSomeDumps, nothing};
ghost use Rattle.dump_read.specs.Wanted.{all_wanted};
ghost use Rattle.dump_read.specs.declared.taking.Taken.{Taken as TakenIn};
ghost use Rattle.run_base.specs.Frames.{ReadsShelf};
ghost use Rattle.run_base.specs.Opening.{AllRead, OpensDumps, OpensInOrder};
ghost use Rattle.tor_output.specs.Opening.{UnwrittenEnds, named_in};
ghost use Rattle.tor_output.specs.Reach.{IsUnwrittenInReach, StopsDumpsInReach};
ghost use Rattle.tor_output.specs.Refusals.{IsFailedRead, IsStopAt, IsUnwrittenIn};
ghost use Rattle.tor_output.specs.Seen.{Outcome, ComesOfSome, seen_of_dumps};
ghost use Rattle.tor_output.specs.Written.{written};
ghost use Rattle.tor_output.specs.First.{AreSound};
ghost use Rattle.tor_output.specs.Output.{AreAsksWritten, AreTiesWritten, IsMade, IsOutput, IsOutputOf};

use crate::dumps::dumps_taken;
use crate::first::givens_for;
use crate::knowing::known_among;
use crate::ordering::paths_in_order;
use crate::output::{Output, faithful_result, has_table_rows, text_and_summary};
use crate::unwritten::Unwritten;
use as_rel::{KnownLines, print_rel, rel_of};
use asks::{AskLine, asks_of_paths};
use dump_read::Taken;
use path_order::DistinctPaths;
use relationships::Given;
use result_text::EdgeLine;
use run_base::Refusal;
use std::alloc::Global;
use ties::{TieLine, ties_of_paths};
use tor_arena::{Keys, List, NoMemory};
use tor_io::Shelf;
use tor_words::{Made, Name, Settings};

// The text of the result of what the dumps gave, and its summary.
fn labels_output(
    alloc: Global,
    keys: Keys,
    settings: &Settings,
    said: Option<KnownLines>,
    taken: Taken,
) -> Result<Output, NoMemory>
    requires ratio { settings.now.ratio ≤ max_ratio }
    requires sound { AreSound said }
    requires few { 6 * length (said_givens said) ≤ 2 ^ 28 + 1 }
    ensures { IfOk result (λ output. IsMade Made.Result settings.now said taken (written output)) }
{
    let file = faithful_result(alloc, keys, settings, said, taken)?;
    text_and_summary(alloc, file)
}

// The text of ties, without a note.
fn ties_alone(alloc: Global, lines: &[TieLine]) -> Result<Output, NoMemory>
    ensures text { IfOk result (λ output. (written output).text ≡ ties_text lines.now) }
    ensures note { IfOk result (λ output. (written output).note ≡ []) }
{
    let text = ties::text_of(alloc, lines)?;
    Ok(Output::Text(text, List::new(alloc)))
}

// The relationships that are known, if any are.
fn given_slice(givens: &Option<List<Given>>) -> &[Given]
    ensures { result.now ≡ unwrap_or givens.now [] }
{
    match givens {
        None => &[],
        Some(givens) => givens.as_slice(),
    }
}

// The ties of the paths that the dumps gave.
fn ties_output(
    alloc: Global,
    keys: Keys,
    settings: &Settings,
    said: Option<KnownLines>,
    taken: Taken,
) -> Result<Output, NoMemory>
    requires sound { AreSound said }
    requires few { 6 * length (said_givens said) ≤ 2 ^ 28 + 1 }
    ensures { IfOk result (λ output. IsMade Made.Ties settings.now said taken (written output)) }
{
    let Taken {
        table,
        counts: _,
        files,
    } = taken;
    drop(files);
    let Ok(paths) = paths_in_order(alloc, settings, table) else {
        drop(said);
        return Err(NoMemory);
    };
    match known_among(alloc, keys, &settings.top, said, &paths) {
        Ok(known) => ties_under(alloc, keys, known, paths),
        Err(NoMemory) => {
            drop(paths);
            Err(NoMemory)
        }
    }
}

// The ties of paths under what is known.
fn ties_under(
    alloc: Global,
    keys: Keys,
    known: Option<List<Given>>,
    paths: DistinctPaths,
) -> Result<Output, NoMemory>
    requires two { NameTwo (unwrap_or known []) }
    requires once { NameOnce (unwrap_or known []) }
    ensures { IfOk result (λ output. AreTiesWritten (unwrap_or known []) (row_paths paths) (written output)) }
{
    let lines = ties_of_paths(alloc, keys, given_slice(&known), paths);
    drop(known);
    let lines = lines?;
    let output = ties_alone(alloc, lines.as_slice());
    drop(lines);
    output
}

// The text of asks, without a note.
fn asks_alone(alloc: Global, lines: &[AskLine]) -> Result<Output, NoMemory>
    ensures text { IfOk result (λ output. (written output).text ≡ asks_text lines.now) }
    ensures note { IfOk result (λ output. (written output).note ≡ []) }
{
    let text = asks::text_of(alloc, lines)?;
    Ok(Output::Text(text, List::new(alloc)))
}

// The asks of the paths that the dumps gave.
fn asks_output(
    alloc: Global,
    keys: Keys,
    settings: &Settings,
    said: Option<KnownLines>,
    taken: Taken,
) -> Result<Output, NoMemory>
    requires sound { AreSound said }
    requires few { 6 * length (said_givens said) ≤ 2 ^ 28 + 1 }
    ensures { IfOk result (λ output. IsMade Made.Asks settings.now said taken (written output)) }
{
    let Taken {
        table,
        counts: _,
        files,
    } = taken;
    drop(files);
    let Ok(paths) = paths_in_order(alloc, settings, table) else {
        drop(said);
        return Err(NoMemory);
    };
    match known_among(alloc, keys, &settings.top, said, &paths) {
        Ok(known) => asks_under(alloc, keys, known, paths),
        Err(NoMemory) => {
            drop(paths);
            Err(NoMemory)
        }
    }
}

// The asks of paths under what is known.
fn asks_under(
    alloc: Global,
    keys: Keys,
    known: Option<List<Given>>,
    paths: DistinctPaths,
) -> Result<Output, NoMemory>
    requires two { NameTwo (unwrap_or known []) }
    requires once { NameOnce (unwrap_or known []) }
    ensures { IfOk result (λ output. AreAsksWritten (unwrap_or known []) (row_paths paths) (written output)) }
{
    let lines = asks_of_paths(alloc, keys, given_slice(&known), paths);
    drop(known);
    let lines = lines?;
    let output = asks_alone(alloc, lines.as_slice());
    drop(lines);
    output
}

// What the labels of edges say, without a note.
fn serial_alone(alloc: Global, keys: Keys, edges: &[EdgeLine]) -> Result<Output, NoMemory>
    requires order { All (λ e. e.low < e.high) edges.now }
    requires once { AllPairs (λ e f. ends_of e ≢ ends_of f) edges.now }
    ensures text { IfOk result (λ output. (written output).text ≡ rel_text (map line_of_edge edges.now)) }
    ensures again { IfOk result (λ output. rel_in (written output).text ≡ Ok (map line_of_edge edges.now)) }
    ensures note { IfOk result (λ output. (written output).note ≡ []) }
{
    let rel = rel_of(alloc, keys, edges)?;
    let text = print_rel(alloc, &rel);
    drop(rel);
    Ok(Output::Text(text?, List::new(alloc)))
}

// What the labels of the result of what the dumps gave say.
fn serial_output(
    alloc: Global,
    keys: Keys,
    settings: &Settings,
    said: Option<KnownLines>,
    taken: Taken,
) -> Result<Output, NoMemory>
    requires ratio { settings.now.ratio ≤ max_ratio }
    requires sound { AreSound said }
    requires few { 6 * length (said_givens said) ≤ 2 ^ 28 + 1 }
    ensures { IfOk result (λ output. IsMade Made.Serial settings.now said taken (written output)) }
{
    has_table_rows(&taken.table);
    let file = faithful_result(alloc, keys, settings, said, taken)?;
    let output = serial_alone(alloc, keys, file.edges.as_slice());
    drop(file);
    output
}

// What is made of what is known and what the dumps gave.
fn made_of(
    alloc: Global,
    keys: Keys,
    settings: &Settings,
    made: Made,
    said: Option<KnownLines>,
    taken: Taken,
) -> Result<Output, NoMemory>
    requires ratio { settings.now.ratio ≤ max_ratio }
    requires sound { AreSound said }
    requires few { 6 * length (said_givens said) ≤ 2 ^ 28 + 1 }
    ensures { IfOk result (λ output. IsMade made settings.now said taken (written output)) }
{
    match made {
        Made::Result => labels_output(alloc, keys, settings, said, taken),
        Made::Ties => ties_output(alloc, keys, settings, said, taken),
        Made::Asks => asks_output(alloc, keys, settings, said, taken),
        Made::Serial => serial_output(alloc, keys, settings, said, taken),
    }
}

// What is made of the dumps of these names, where this is known.
fn made_under<H: Shelf>(
    alloc: Global,
    keys: Keys,
    settings: &Settings,
    made: Made,
    said: Option<KnownLines>,
    dumps: &List<Name>,
    shelf: &mut H,
) -> Result<Output, Refusal>
    requires some { 1 ≤ settings.now.max_paths }
    requires most { settings.now.max_paths ≤ max_paths }
    requires ratio { settings.now.ratio ≤ max_ratio }
    requires sound { AreSound said }
    requires few { 6 * length (said_givens said) ≤ 2 ^ 28 + 1 }
    ensures output { IfOk result (λ output. IfSome (H.files shelf.old) (λ files. (taken : TakenIn) ×
        (seen_of_dumps settings.now dumps.now files ≡ Ok taken) × IsMade made settings.now said taken (written output))) }
    ensures of_some { IfOk result (λ output. (taken : TakenIn) ×
        IsOfSomeDumps (all_wanted settings.now.sets) (length dumps.now) (nothing settings.now.max_paths) taken ×
        AreTableRows taken.table.rows × IsMade made settings.now said taken (written output)) }
    ensures refused { IfErr result (IsStopAt (seen_of_dumps settings.now) dumps.now (H.files shelf.old) (H.steady shelf.old)) }
    ensures read_out { OnOk result (0 < length dumps.now → IsAtEnd (H.left shelf.new)) }
    ensures reach { IfErr result (StopsDumpsInReach dumps.now (H.files shelf.old) (H.left shelf.new)) }
    ensures opens { OnOk result (H.opens shelf.new ≡ H.opens shelf.old ++ dumps.now) }
    ensures opens_stop { IfErr result (λ r. OpensDumps 1 dumps.now r (H.opens shelf.old) (H.opens shelf.new)) }

    ensures reads_shelf { ReadsShelf H.Shelf (IsErrAnd result IsReadFault) shelf.old shelf.new }
{
    match dumps_taken(alloc, keys, settings, dumps, shelf) {
        Ok(taken) => match made_of(alloc, keys, settings, made, said, taken) {
            Ok(output) => Ok(output),
            Err(NoMemory) => Err(Refusal::NoMemory),
        },
        Err(refusal) => {
            drop(said);
            Err(refusal)
        }
    }
}

/// What is made of the dumps of these names, and of what the file of known relationships says, if one is named.
pub(crate) fn inferred_output<H: Shelf>(
    alloc: Global,
    keys: Keys,
    settings: &Settings,
    made: Made,
    given: &Option<Name>,
    dumps: &List<Name>,
    shelf: &mut H,
) -> Result<Output, Unwritten>
    requires job { settings.now.job ≡ Infer made given.now dumps.now }
    requires named { 0 < length dumps.now }
    requires some { 1 ≤ settings.now.max_paths }
    requires most { settings.now.max_paths ≤ max_paths }
    requires ratio { settings.now.ratio ≤ max_ratio }
    ensures output { IfOk result (λ output. IfSome (H.files shelf.old) (λ files. IsOutputOf settings.now files (written output))) }
    ensures of_some { IfOk result (λ output. (outcome : Outcome) × ComesOfSome settings.now outcome ×
        IsOutput settings.now outcome (written output)) }
    ensures unwritten { IfErr result (IsUnwrittenIn settings.now (H.files shelf.old) (H.steady shelf.old)) }
    ensures read_out { OnOk result (IsAtEnd (H.left shelf.new)) }
    ensures reach { IfErr result (IsUnwrittenInReach settings.now (H.files shelf.old) (H.left shelf.new)) }
    ensures opens { OnOk result (OpensInOrder (named_in settings.now) (λ end. end ≡ AllRead) (H.opens shelf.old) (H.opens shelf.new)) }
    ensures opens_stop { IfErr result (λ u.
        OpensInOrder (named_in settings.now) (UnwrittenEnds u) (H.opens shelf.old) (H.opens shelf.new)) }

    ensures reads_shelf { ReadsShelf H.Shelf (IsErrAnd result IsFailedRead) shelf.old shelf.new }
{
    match givens_for(alloc, keys, shelf, given) {
        Ok(said) => match made_under(alloc, keys, settings, made, said, dumps, shelf) {
            Ok(output) => Ok(output),
            Err(refusal) => Err(Unwritten::Refused(refusal)),
        },
        Err(unwritten) => Err(unwritten),
    }
}
