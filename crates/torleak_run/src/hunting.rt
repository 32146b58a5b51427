//! The run of `torleak`.
ghost use Rattle.std.specs.Prelude.{◌<◌, length};
ghost use Rattle.run_base.specs.Answers.{note_in};
ghost use Rattle.run_base.specs.Promises.{EndsIn, KeepsPromises, RunEnds};
ghost use Rattle.torleak_run.specs.Hunting.{hunting};

use crate::asking::hunted_of;
use crate::writing::write_hunted;
use result_text::one_value;
use run_base::{Answer, Status, answer_of_stop, answer_of_words, note_answer};
use std::alloc::Global;
use tor_arena::{Keys, List};
use tor_io::{Shelf, Sink};
use tor_words::{LeakSettings, Name, leak_settings_of};

// The run with these settings, without its note.
fn answer_in<H: Shelf, O: Sink>(
    alloc: Global,
    keys: Keys,
    settings: &LeakSettings,
    shelf: &mut H,
    out: &mut O,
) -> Answer
    requires named { 0 < length settings.now.dumps }
    ensures { EndsIn hunting settings.now H.Shelf O.Sink result.status (note_in result) shelf.old shelf.new out.old out.new }
{
    match hunted_of(alloc, keys, settings, shelf) {
        Ok(leaks) => write_hunted(alloc, &leaks, out),
        Err(stop) => answer_of_stop(alloc, stop),
    }
}

// The run without its note: what it answers doesn't depend on where the note goes.
fn answer<H: Shelf, O: Sink>(
    alloc: Global,
    keys: Keys,
    words: &List<Name>,
    shelf: &mut H,
    out: &mut O,
) -> Answer
    ensures { RunEnds hunting words.now H.Shelf O.Sink result.status (note_in result) shelf.old shelf.new out.old out.new }
{
    match leak_settings_of(alloc, words) {
        Ok(settings) => answer_in(alloc, keys, &settings, shelf, out),
        Err(refused) => answer_of_words(refused),
    }
}

/// Runs `torleak`: the words name a result, and dumps, which are read only where it meets the rules 0 to 10. It writes a line for each
/// distinct path of the dumps that the result does not keep: whether it is a leak, which no orientation serves together with all kept paths
/// of the result, and with which walk; and else its grade under the labels of the result's edges. Last it writes how many paths there are of
/// each kind. Done: this was written, also where leaks are found. No: the result breaks a rule. Usage: the words are no command. Malformed:
/// the first end of the dumps is that fault. Limit: the result has more than 2^31 octets, the first end of the dumps is that limit, or their
/// paths pass it beside those of the result. ReadFault: a call on the shelf failed, as an open does at a file that isn't there. WriteFault: a
/// call on out failed. NoMemory: memory ran out, before anything went to out. `docs/PROMISES.md` has each promise by name.
pub fn hunt<H: Shelf, O: Sink, E: Sink>(
    alloc: Global,
    keys: Keys,
    words: &List<Name>,
    shelf: &mut H,
    out: &mut O,
    err: &mut E,
) -> Status
    ensures promises { KeepsPromises hunting words.now H.Shelf O.Sink E.Sink result shelf.old shelf.new out.old out.new err.old err.new }
{
    // A law that the promises rest on: a text has one value.
    one_value();
    let answer = answer(alloc, keys, words, shelf, out);
    note_answer(answer, err)
}
