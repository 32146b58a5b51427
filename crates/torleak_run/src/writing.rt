//! What a hunt writes.
ghost use Rattle.std.specs.Prelude.{◌≡◌, ◌⊎◌};
ghost use Rattle.std.specs.Io.KnownBytes.{append_known};
ghost use Rattle.tor_io.specs.Contents.{GainsPrefix};
ghost use Rattle.leak_text.specs.LeakText.{leaks_text};
ghost use Rattle.run_base.specs.Answers.{note_in};
ghost use Rattle.run_base.specs.Frames.{RunLeavesOut};
ghost use Rattle.run_base.specs.Notes.{plain_note};

use leak_text::write_leaks;
use route_leaks::Leaks;
use run_base::{Answer, Status};
use std::alloc::Global;
use tor_io::{Buffer, Failed, Sink};

/// Writes what is found. All memory is taken before.
pub(crate) fn write_hunted<O: Sink>(alloc: Global, leaks: &Leaks, out: &mut O) -> Answer
    ensures status { (result.status ≡ Status.Done) ⊎ ((result.status ≡ Status.WriteFault) ⊎ (result.status ≡ Status.NoMemory)) }
    ensures done { result.status ≡ Status.Done → O.held out.new ≡ append_known (O.held out.old) (leaks_text leaks.now) }
    ensures cut_off { result.status ≡ Status.WriteFault → GainsPrefix (O.held out.old) (O.held out.new) (leaks_text leaks.now) }
    ensures nothing { result.status ≡ Status.NoMemory → out.new ≡ out.old }
    ensures note { note_in result ≡ plain_note result.status }
    ensures leaves_out { RunLeavesOut O.Sink result.status out.old out.new }
{
    let Ok(mut buffer) = Buffer::new(alloc) else {
        return Answer::plain(Status::NoMemory);
    };
    match write_leaks(out, &mut buffer, leaks) {
        Ok(()) => Answer::plain(Status::Done),
        Err(Failed) => Answer::plain(Status::WriteFault),
    }
}
