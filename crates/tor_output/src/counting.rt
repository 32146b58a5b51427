//! What is counted of dumps: the list of their paths, or their survey.
ghost use Rattle.std.specs.Prelude.{◌≡◌, ◌≤◌, ◌<◌, [], IfOk, IfErr, IfSome, IsErrAnd, OnOk, length};
ghost use Rattle.std.specs.Io.KnownBytes.{IsAtEnd};
ghost use Rattle.tor_arena.specs.Limits.{max_paths};
ghost use Rattle.tor_survey.specs.SurveyText.{survey_text};
ghost use Rattle.tor_survey.specs.Surveys.{survey_of};
ghost use Rattle.tor_words.specs.declared.job.Job.TheVariants.{Count};
ghost use Rattle.run_base.specs.Frames.{ReadsShelf};
ghost use Rattle.run_base.specs.Opening.{AllRead, OpensInOrder};
ghost use Rattle.tor_output.specs.Opening.{UnwrittenEnds, named_in};
ghost use Rattle.tor_output.specs.Reach.{IsUnwrittenInReach};
ghost use Rattle.tor_output.specs.Refusals.{IsFailedRead, IsUnwrittenIn};
ghost use Rattle.tor_output.specs.Seen.{Outcome, ComesOfSome};
ghost use Rattle.tor_output.specs.Written.{written};
ghost use Rattle.tor_output.specs.Listing.{listing};
ghost use Rattle.tor_output.specs.Output.{IsCounted, IsOutput, IsOutputOf, paths_taken};

use crate::dumps::dumps_taken;
use crate::ordering::paths_in_order;
use crate::output::Output;
use crate::unwritten::Unwritten;
use dump_read::Taken;
use run_base::Refusal;
use std::alloc::Global;
use tor_arena::{Keys, List, NoMemory};
use tor_io::{Buffer, Shelf};
use tor_survey::{survey_of, text_of};
use tor_words::{Counted, Name, Settings};

// The list of the distinct paths that the dumps gave. What it takes is all taken here.
fn listing_output(alloc: Global, settings: &Settings, taken: Taken) -> Result<Output, NoMemory>
    ensures text { IfOk result (λ output. (written output).text ≡ listing (paths_taken settings.now taken)) }
    ensures note { IfOk result (λ output. (written output).note ≡ []) }
{
    let Taken {
        table,
        counts: _,
        files,
    } = taken;
    drop(files);
    let paths = paths_in_order(alloc, settings, table)?;
    match Buffer::new(alloc) {
        Ok(buffer) => Ok(Output::Paths(paths, buffer)),
        Err(NoMemory) => {
            drop(paths);
            Err(NoMemory)
        }
    }
}

// The survey of what the dumps gave.
fn survey_output(alloc: Global, keys: Keys, taken: Taken) -> Result<Output, NoMemory>
    ensures text { IfOk result (λ output. (written output).text ≡ survey_text (survey_of taken)) }
    ensures note { IfOk result (λ output. (written output).note ≡ []) }
{
    let survey = survey_of(alloc, keys, taken)?;
    let text = text_of(alloc, &survey);
    drop(survey);
    Ok(Output::Text(text?, List::new(alloc)))
}

// What is counted of what the dumps gave.
fn counted_of(
    alloc: Global,
    keys: Keys,
    settings: &Settings,
    counted: Counted,
    taken: Taken,
) -> Result<Output, NoMemory>
    ensures { IfOk result (λ output. IsCounted counted settings.now taken (written output)) }
{
    match counted {
        Counted::Listing => listing_output(alloc, settings, taken),
        Counted::Survey => survey_output(alloc, keys, taken),
    }
}

/// What is counted of the dumps of these names.
pub(crate) fn counted_output<H: Shelf>(
    alloc: Global,
    keys: Keys,
    settings: &Settings,
    counted: Counted,
    dumps: &List<Name>,
    shelf: &mut H,
) -> Result<Output, Unwritten>
    requires job { settings.now.job ≡ Count counted dumps.now }
    requires named { 0 < length dumps.now }
    requires some { 1 ≤ settings.now.max_paths }
    requires most { settings.now.max_paths ≤ max_paths }
    ensures output { IfOk result (λ output. IfSome (H.files shelf.old) (λ files. IsOutputOf settings.now files (written output))) }
    ensures of_some { IfOk result (λ output. (outcome : Outcome) × ComesOfSome settings.now outcome ×
        IsOutput settings.now outcome (written output)) }
    ensures unwritten { IfErr result (IsUnwrittenIn settings.now (H.files shelf.old) (H.steady shelf.old)) }
    ensures read_out { OnOk result (IsAtEnd (H.left shelf.new)) }
    ensures reach { IfErr result (IsUnwrittenInReach settings.now (H.files shelf.old) (H.left shelf.new)) }
    ensures opens { OnOk result (OpensInOrder (named_in settings.now) (λ end. end ≡ AllRead) (H.opens shelf.old) (H.opens shelf.new)) }
    ensures opens_stop { IfErr result (λ u.
        OpensInOrder (named_in settings.now) (UnwrittenEnds u) (H.opens shelf.old) (H.opens shelf.new)) }

    ensures reads_shelf { ReadsShelf H.Shelf (IsErrAnd result IsFailedRead) shelf.old shelf.new }
{
    match dumps_taken(alloc, keys, settings, dumps, shelf) {
        Ok(taken) => match counted_of(alloc, keys, settings, counted, taken) {
            Ok(output) => Ok(output),
            Err(NoMemory) => Err(Unwritten::Refused(Refusal::NoMemory)),
        },
        Err(refusal) => Err(Unwritten::Refused(refusal)),
    }
}
