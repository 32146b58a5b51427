//! The run of `torcheck`.
ghost use Rattle.std.specs.Prelude.{◌≡◌, ◌⊎◌, Some, IfSome};
ghost use Rattle.std.specs.Io.KnownBytes.{append_known};
ghost use Rattle.tor_io.specs.Counts.{IsQuiet};
ghost use Rattle.tor_io.specs.Contents.{Files, GainsPrefix};
ghost use Rattle.run_base.specs.Answers.{note_in};
ghost use Rattle.run_base.specs.Frames.{RunLeavesOut};
ghost use Rattle.run_base.specs.Notes.{plain_note};
ghost use Rattle.run_base.specs.Promises.{EndsIn, KeepsPromises, RunEnds};
ghost use Rattle.result_file.specs.VerdictText.{verdict_text};
ghost use Rattle.torcheck_run.specs.Checking.{checking, status_of, verdict_in};
ghost use Rattle.torcheck_run.specs.Judging.{CanBeJudged, IsVouched};

use crate::judging::{Judged, judged_of};
use result_file::verdict_text;
use result_rules::{Verdict, acceptance_law};
use result_text::one_value;
use run_base::{Answer, Status, answer_of_stop, answer_of_words, note_answer};
use std::alloc::Global;
use tor_arena::{Keys, List};
use tor_io::{Failed, Shelf, Sink, write_all};
use tor_words::{CheckSettings, Name, check_settings_of};

// The status of a run that has written this verdict.
fn status_of(verdict: Verdict) -> Status
    ensures { result ≡ status_of verdict }
{
    match verdict {
        Verdict::Yes => Status::Done,
        Verdict::No { .. } => Status::No,
    }
}

fn verdict_in(judged: Judged) -> Verdict
    ensures { result ≡ verdict_in judged }
{
    match judged {
        Judged::ByFile { line, rule } => Verdict::No { line, rule },
        Judged::ByDumps(verdict) => verdict,
    }
}

// Writes the verdict. All memory is taken before.
fn write_verdict<O: Sink>(alloc: Global, verdict: Verdict, out: &mut O) -> Answer
    ensures status { (result.status ≡ status_of verdict) ⊎ ((result.status ≡ Status.WriteFault) ⊎ (result.status ≡ Status.NoMemory)) }
    ensures known { result.status ≡ status_of verdict → O.held out.new ≡ append_known (O.held out.old) (verdict_text verdict) }
    ensures cut_off { result.status ≡ Status.WriteFault → GainsPrefix (O.held out.old) (O.held out.new) (verdict_text verdict) }
    ensures nothing { result.status ≡ Status.NoMemory → out.new ≡ out.old }
    ensures note { note_in result ≡ plain_note result.status }
    ensures leaves_out { RunLeavesOut O.Sink result.status out.old out.new }
{
    let status = status_of(verdict);
    let Ok(text) = verdict_text(alloc, verdict) else {
        return Answer::plain(Status::NoMemory);
    };
    let put = write_all(out, text.as_bytes());
    drop(text);
    match put {
        Ok(()) => Answer::plain(status),
        Err(Failed) => Answer::plain(Status::WriteFault),
    }
}

// The run with these settings, without its note.
fn answer_in<H: Shelf, O: Sink>(
    alloc: Global,
    keys: Keys,
    settings: &CheckSettings,
    shelf: &mut H,
    out: &mut O,
) -> Answer
    ensures { EndsIn checking settings.now H.Shelf O.Sink result.status (note_in result) shelf.old shelf.new out.old out.new }
{
    match judged_of(alloc, keys, settings, shelf) {
        Ok(judged) => write_verdict(alloc, verdict_in(judged), out),
        Err(stop) => answer_of_stop(alloc, stop),
    }
}

// The run without its note: what it answers doesn't depend on where the note goes.
fn answer<H: Shelf, O: Sink>(
    alloc: Global,
    keys: Keys,
    words: &List<Name>,
    shelf: &mut H,
    out: &mut O,
) -> Answer
    ensures { RunEnds checking words.now H.Shelf O.Sink result.status (note_in result) shelf.old shelf.new out.old out.new }
{
    match check_settings_of(alloc, words) {
        Ok(settings) => answer_in(alloc, keys, &settings, shelf, out),
        Err(refused) => answer_of_words(refused),
    }
}

/// Runs `torcheck`: the words name a result file, and maybe the dumps that it has to agree with, which are read only where
/// it meets the rules 0 to 10. Done: the verdict is yes. No: a rule is broken. Usage: the words are no command. Malformed:
/// the first end of the dumps is that fault. Limit: it is that limit, or the result file has more than 2^31 octets.
/// ReadFault: a call on the shelf failed, as an open does at a file that isn't there. WriteFault: a call on out failed.
/// NoMemory: memory ran out, before anything went to out. `docs/PROMISES.md` has each promise by name.
pub fn check<H: Shelf, O: Sink, E: Sink>(
    alloc: Global,
    keys: Keys,
    words: &List<Name>,
    shelf: &mut H,
    out: &mut O,
    err: &mut E,
) -> Status
    ensures promises { KeepsPromises checking words.now H.Shelf O.Sink E.Sink result shelf.old shelf.new out.old out.new err.old err.new }
    // What a yes has shown.
    ensures valid { result ≡ Status.Done → IfSome (H.files shelf.old) (IsVouched words.now) }
    // Where nothing stands in the way of a verdict, there is one.
    ensures always_judged { (files : Files) → H.files shelf.old ≡ Some files → CanBeJudged words.now files →
        IsQuiet (H.faults shelf.old) (H.faults shelf.new) ⊎ H.steady shelf.old →
        IsQuiet (O.faults out.old) (O.faults out.new) →
        ((result ≡ Status.Done) ⊎ (result ≡ Status.No)) ⊎ (result ≡ Status.NoMemory) }
{
    // Two laws that the promises rest on: a text has one value, and what meets all rules is valid.
    one_value();
    acceptance_law();
    let answer = answer(alloc, keys, words, shelf, out);
    note_answer(answer, err)
}
