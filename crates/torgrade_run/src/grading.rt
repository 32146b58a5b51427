//! The run of `torgrade`.
ghost use Rattle.std.specs.Prelude.{◌<◌, length};
ghost use Rattle.run_base.specs.Answers.{note_in};
ghost use Rattle.run_base.specs.Promises.{EndsIn, KeepsPromises, RunEnds};
ghost use Rattle.torgrade_run.specs.Grading.{grading};

use crate::asking::graded_of;
use crate::writing::write_graded;
use run_base::{Answer, Status, answer_of_stop, answer_of_words, note_answer};
use std::alloc::Global;
use tor_arena::{Keys, List};
use tor_io::{Shelf, Sink};
use tor_words::{GradeSettings, Name, grade_settings_of};

// The run with these settings, without its note.
fn answer_in<H: Shelf, O: Sink>(
    alloc: Global,
    keys: Keys,
    settings: &GradeSettings,
    shelf: &mut H,
    out: &mut O,
) -> Answer
    requires named { 0 < length settings.now.dumps }
    ensures { EndsIn grading settings.now H.Shelf O.Sink result.status (note_in result) shelf.old shelf.new out.old out.new }
{
    match graded_of(alloc, keys, settings, shelf) {
        Ok(graded) => write_graded(alloc, &graded, out),
        Err(stop) => answer_of_stop(alloc, stop),
    }
}

// The run without its note: what it answers doesn't depend on where the note goes.
fn answer<H: Shelf, O: Sink>(
    alloc: Global,
    keys: Keys,
    words: &List<Name>,
    shelf: &mut H,
    out: &mut O,
) -> Answer
    ensures { RunEnds grading words.now H.Shelf O.Sink result.status (note_in result) shelf.old shelf.new out.old out.new }
{
    match grade_settings_of(alloc, words) {
        Ok(settings) => answer_in(alloc, keys, &settings, shelf, out),
        Err(refused) => answer_of_words(refused),
    }
}

/// Runs `torgrade`: the words name a file of known relationships, and dumps, which are read only where that file is good. It writes
/// each distinct path with its grade under these relationships, how many paths have each grade, and with `--cone` the customer cone of
/// an AS. Done: this was written, also where valleys are found. Usage: the words are no command. Malformed: the file has a bad line, or
/// the first end of the dumps is that fault. Limit: the file has more than 2^28 octets, or the first end of the dumps is that limit.
/// ReadFault: a call on the shelf failed, as an open does at a file that isn't there. WriteFault: a call on out failed. NoMemory:
/// memory ran out, before anything went to out. `docs/PROMISES.md` has each promise by name.
pub fn grade<H: Shelf, O: Sink, E: Sink>(
    alloc: Global,
    keys: Keys,
    words: &List<Name>,
    shelf: &mut H,
    out: &mut O,
    err: &mut E,
) -> Status
    ensures promises { KeepsPromises grading words.now H.Shelf O.Sink E.Sink result shelf.old shelf.new out.old out.new err.old err.new }
{
    let answer = answer(alloc, keys, words, shelf, out);
    note_answer(answer, err)
}
