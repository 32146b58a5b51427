//! The run of `torview`.
ghost use Rattle.tor_words.specs.ViewGiven.{AreWithin};
ghost use Rattle.run_base.specs.Answers.{note_in};
ghost use Rattle.run_base.specs.Promises.{EndsIn, KeepsPromises, RunEnds};
ghost use Rattle.showing_run.specs.Asking.{showing};
ghost use Rattle.showing_run.specs.Views.{viewing};

use crate::picture::{seen_in, write_picture};
use result_text::one_value;
use run_base::{Answer, Status, answer_of_stop, answer_of_words, note_answer};
use std::alloc::Global;
use tor_arena::{Keys, List};
use tor_io::{Shelf, Sink};
use tor_words::{Name, ViewSettings, view_settings_of};

// The run with these settings, without its note.
fn answer_in<H: Shelf, O: Sink>(
    alloc: Global,
    keys: Keys,
    settings: &ViewSettings,
    shelf: &mut H,
    out: &mut O,
) -> Answer
    requires within { AreWithin settings.now }
    ensures { EndsIn (showing viewing) settings.now H.Shelf O.Sink result.status (note_in result) shelf.old shelf.new out.old out.new }
{
    match seen_in(alloc, keys, settings, shelf) {
        Ok(picture) => write_picture(&picture, out),
        Err(stop) => answer_of_stop(alloc, stop),
    }
}

// The run without its note: what it answers doesn't depend on where the note goes.
fn answer<H: Shelf, O: Sink>(
    alloc: Global,
    keys: Keys,
    words: &List<Name>,
    shelf: &mut H,
    out: &mut O,
) -> Answer
    ensures { RunEnds (showing viewing) words.now H.Shelf O.Sink result.status (note_in result) shelf.old shelf.new out.old out.new }
{
    match view_settings_of(alloc, words) {
        Ok(settings) => answer_in(alloc, keys, &settings, shelf, out),
        Err(refused) => answer_of_words(refused),
    }
}

/// Runs `torview`: the words name a result file, and an AS. The result has to meet the rules 0 to 10; then it writes the picture of the AS
/// with its neighbours. Done: this was written. No: a rule is broken, or no edge of the result has the AS. Usage: the words are no
/// command. Limit: the result file has more than 2^31 octets. ReadFault: a call on the shelf failed, as an open does at a file that isn't
/// there. WriteFault: a call on out failed. NoMemory: memory ran out, before anything went to out. `docs/PROMISES.md` has each promise by
/// name.
pub fn view<H: Shelf, O: Sink, E: Sink>(
    alloc: Global,
    keys: Keys,
    words: &List<Name>,
    shelf: &mut H,
    out: &mut O,
    err: &mut E,
) -> Status
    ensures { KeepsPromises (showing viewing) words.now H.Shelf O.Sink E.Sink result shelf.old shelf.new out.old out.new
        err.old err.new }
{
    // A law that the promises rest on: a text has one value.
    one_value();
    let answer = answer(alloc, keys, words, shelf, out);
    note_answer(answer, err)
}
