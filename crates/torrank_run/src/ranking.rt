//! The run of `torrank`.
ghost use Rattle.run_base.specs.Answers.{note_in};
ghost use Rattle.run_base.specs.Promises.{EndsIn, KeepsPromises, RunEnds};
ghost use Rattle.torrank_run.specs.Ranking.{ranking};

use crate::asking::ranked_of;
use crate::writing::write_ranked;
use run_base::{Answer, Status, answer_of_stop, answer_of_words, note_answer};
use std::alloc::Global;
use tor_arena::{Keys, List};
use tor_io::{Shelf, Sink};
use tor_words::{Name, RankSettings, rank_settings_of};

// The run with these settings, without its note.
fn answer_in<H: Shelf, O: Sink>(
    alloc: Global,
    keys: Keys,
    settings: &RankSettings,
    shelf: &mut H,
    out: &mut O,
) -> Answer
    ensures { EndsIn ranking settings.now H.Shelf O.Sink result.status (note_in result) shelf.old shelf.new out.old out.new }
{
    match ranked_of(alloc, keys, settings, shelf) {
        Ok(ranked) => write_ranked(alloc, &ranked, out),
        Err(stop) => answer_of_stop(alloc, stop),
    }
}

// The run without its note: what it answers doesn't depend on where the note goes.
fn answer<H: Shelf, O: Sink>(
    alloc: Global,
    keys: Keys,
    words: &List<Name>,
    shelf: &mut H,
    out: &mut O,
) -> Answer
    ensures { RunEnds ranking words.now H.Shelf O.Sink result.status (note_in result) shelf.old shelf.new out.old out.new }
{
    match rank_settings_of(alloc, words) {
        Ok(settings) => answer_in(alloc, keys, &settings, shelf, out),
        Err(refused) => answer_of_words(refused),
    }
}

/// Runs `torrank`: the words name a file of known relationships. It writes the ranks of its ASes by the sizes of their customer cones, or
/// these cones, or the cycles of providers among them. No dump is read. Done: this was written, also where there are cycles. Usage: the
/// words are no command. Malformed: the file has a bad line. Limit: it has more than 2^28 octets. ReadFault: a call on the shelf failed, as
/// an open does at a file that isn't there. WriteFault: a call on out failed. NoMemory: memory ran out, before anything went to out.
/// `docs/PROMISES.md` has each promise by name.
pub fn rank<H: Shelf, O: Sink, E: Sink>(
    alloc: Global,
    keys: Keys,
    words: &List<Name>,
    shelf: &mut H,
    out: &mut O,
    err: &mut E,
) -> Status
    ensures promises { KeepsPromises ranking words.now H.Shelf O.Sink E.Sink result shelf.old shelf.new out.old out.new err.old err.new }
{
    let answer = answer(alloc, keys, words, shelf, out);
    note_answer(answer, err)
}
