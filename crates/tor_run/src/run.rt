//! The run of `tor`.
ghost use Rattle.std.specs.Prelude.{◌≡◌, ◌≤◌, IfSome};
ghost use Rattle.tor_arena.specs.Limits.{max_paths, max_ratio};
ghost use Rattle.tor_words.specs.Given.{HasDumps};
ghost use Rattle.run_base.specs.Answers.{note_in};
ghost use Rattle.run_base.specs.Promises.{EndsIn, KeepsPromises, RunEnds};
ghost use Rattle.tor_output.specs.First.{AsksToResume};
ghost use Rattle.tor_output.specs.Grading.{AsksForSerial, GainsGrading};
ghost use Rattle.tor_output.specs.Inferring.{inferring};
ghost use Rattle.tor_output.specs.Resuming.{GainsResumed};
ghost use Rattle.tor_output.specs.Sampling.{known_by};

use result_text::one_value;
use run_base::{Answer, Note, Status, answer_of_words, note_answer};
use std::alloc::Global;
use tor_arena::{Keys, List};
use tor_io::{Failed, Shelf, Sink};
use tor_output::{answer_to_unwritten, output_for};
use tor_words::{Name, Settings, bounds_law, settings_of};

// The run with these settings, without its note.
fn answer_in<H: Shelf, O: Sink>(
    alloc: Global,
    keys: Keys,
    settings: &Settings,
    shelf: &mut H,
    out: &mut O,
) -> Answer
    requires named { HasDumps settings.now.job }
    requires some { 1 ≤ settings.now.max_paths }
    requires most { settings.now.max_paths ≤ max_paths }
    requires ratio { settings.now.ratio ≤ max_ratio }
    ensures { EndsIn inferring settings.now H.Shelf O.Sink result.status (note_in result) shelf.old shelf.new out.old out.new }
{
    match output_for(alloc, keys, settings, shelf) {
        Ok(output) => match output.write_to(alloc, out) {
            Ok(note) => Answer {
                status: Status::Done,
                note: Note::Octets(note),
            },
            Err(Failed) => Answer::plain(Status::WriteFault),
        },
        Err(unwritten) => answer_to_unwritten(alloc, unwritten),
    }
}

// The run without its note: what it answers doesn't depend on where the note goes.
fn answer<H: Shelf, O: Sink>(
    alloc: Global,
    keys: Keys,
    words: &List<Name>,
    shelf: &mut H,
    out: &mut O,
) -> Answer
    ensures { RunEnds inferring words.now H.Shelf O.Sink result.status (note_in result) shelf.old shelf.new out.old out.new }
{
    bounds_law();
    match settings_of(alloc, words) {
        Ok(settings) => answer_in(alloc, keys, &settings, shelf, out),
        Err(refused) => answer_of_words(refused),
    }
}

/// Runs `tor`: of the dumps that the words name, it writes the result, and its summary as a line to err, or with `--list` the distinct
/// paths, with `--survey` what the dumps hold, with `--ties` the ties of the open edges, with `--serial1` the labels as lines of serial-1;
/// with `--sample`, of the sample of that number in place of dumps, the summary alone; and with `--migrate`, of the result that the words
/// name, its text of version 2. With `--given` the file of known relationships is read before the dumps, and binds the result. With
/// `--resume` the result that it names is read before the dumps and taken up: what became of its paths stays, and the result of both is
/// written.
/// Done: this was written. No: the result that was to be taken up breaks a rule. Usage: the words are no command. Malformed, Limit: the
/// first end of the file that is read before any dump, or else of the dumps, is that bad line, that fault or that limit. ReadFault: a call
/// on the shelf failed, as an open does at a file that isn't there. WriteFault: a call on out failed. NoMemory: memory ran out, before
/// anything went to out. `docs/PROMISES.md` has each promise by name.
pub fn infer<H: Shelf, O: Sink, E: Sink>(
    alloc: Global,
    keys: Keys,
    words: &List<Name>,
    shelf: &mut H,
    out: &mut O,
    err: &mut E,
) -> Status
    ensures promises { KeepsPromises inferring words.now H.Shelf O.Sink E.Sink result shelf.old shelf.new out.old out.new err.old err.new }
    // With `--serial1` what is written says of the paths of the dumps which ones are kept under what is known: read as known relationships,
    // exactly these are free under it, and no path is unknown.
    ensures graded { result ≡ Status.Done → AsksForSerial words.now → IfSome (known_by words.now (H.files shelf.old)) (λ files.
        GainsGrading words.now files (O.held out.old) (O.held out.new)) }
    // With `--resume` it is the text of a result such that, where the one that was taken up is of some dumps, this one is of these and then
    // of those that the words name.
    ensures resumed { result ≡ Status.Done → AsksToResume words.now → IfSome (known_by words.now (H.files shelf.old)) (λ files.
        GainsResumed words.now files (O.held out.old) (O.held out.new)) }
{
    // Laws that the promises rest on: a text has one value, and settings have bounds.
    one_value();
    bounds_law();
    let answer = answer(alloc, keys, words, shelf, out);
    note_answer(answer, err)
}
