//! The text of a picture after a result, and how it is written to out.
ghost use Rattle.std.specs.Prelude.{◌≡◌, ◌⊎◌, Some, IfOk, IfErr, IsTrue, IsFalse, string_bytes};
ghost use Rattle.std.specs.Io.KnownBytes.{append_known};
ghost use Rattle.tor_io.specs.Contents.{GainsPrefix};
ghost use Rattle.tor_words.specs.ViewGiven.{AreWithin};
ghost use Rattle.run_base.specs.Answers.{note_in};
ghost use Rattle.run_base.specs.Frames.{RunLeavesOut};
ghost use Rattle.run_base.specs.Notes.{plain_note};
ghost use Rattle.run_base.specs.Stopping.{Asks};
ghost use Rattle.showing_run.specs.Asking.{showing};
ghost use Rattle.showing_run.specs.Unmet.{SaysAbsent, IsUnanswered};
ghost use Rattle.showing_run.specs.Views.{HasEdge, IsPictureOf, IsSeen, absent_note, its_result, viewing};

use crate::met::result_met;
use drawing::{draw_neighbours, svg_of};
use result_text::{EdgeLine, ResultFile};
use run_base::{Answer, Status, Stop};
use std::alloc::{AllocError, Global};
use tor_arena::{Keys, List, NoMemory};
use tor_io::{Failed, Shelf, Sink, write_all};
use tor_words::ViewSettings;

/// The text of a picture, and the result after which it is drawn.
#[derive(Drop)]
pub(crate) struct Picture {
    /// The result.
    pub file: ResultFile,
    /// The text.
    pub text: List<u8>,
}

/// Whether an edge has this AS.
pub(crate) fn has_edge(edges: &[EdgeLine], asked: u32) -> bool
    ensures some { IsTrue result → HasEdge edges.now asked }
    ensures none { IsFalse result → HasEdge edges.now asked → ⊥ }
{
    for line in edges {
        if line.low == asked || line.high == asked {
            return true;
        }
    }
    false
}

// The note that no edge has this AS.
fn absent_note(alloc: Global, asked: u32) -> Result<String, AllocError>
    ensures { IfOk result (λ text. string_bytes text ≡ absent_note asked) }
{
    format!(in alloc; "absent|{asked}\n")
}

// Why there is no picture of a result without such an edge.
fn absent(alloc: Global, asked: u32) -> Stop
    ensures { SaysAbsent (absent_note asked) result }
{
    match absent_note(alloc, asked) {
        Ok(note) => Stop::Lacks(note),
        Err(AllocError) => Stop::NoMemory,
    }
}

// The text of the picture after the edges.
fn picture_of(
    alloc: Global,
    keys: Keys,
    settings: &ViewSettings,
    edges: &[EdgeLine],
) -> Result<List<u8>, NoMemory>
    requires within { AreWithin settings.now }
    ensures { IfOk result (IsPictureOf settings.now edges.now) }
{
    let most = settings.most as usize;
    let depth = settings.depth as usize;
    let drawing = draw_neighbours(alloc, keys, edges, settings.asked, most, depth)?;
    svg_of(alloc, &drawing, &settings.link)
}

// The picture of a result that meets the rules.
fn seen_of(
    alloc: Global,
    keys: Keys,
    settings: &ViewSettings,
    file: ResultFile,
) -> Result<Picture, Stop>
    requires within { AreWithin settings.now }
    ensures same { IfOk result (λ picture. picture.file ≡ file) }
    ensures seen { IfOk result (λ picture. IsSeen settings.now picture.file (Some picture.text)) }
    ensures unseen { IfErr result (IsUnanswered viewing settings.now file) }
{
    if !has_edge(file.edges.as_slice(), settings.asked) {
        return Err(absent(alloc, settings.asked));
    }
    match picture_of(alloc, keys, settings, file.edges.as_slice()) {
        Ok(text) => Ok(Picture { file, text }),
        Err(NoMemory) => Err(Stop::NoMemory),
    }
}

/// The picture with these settings.
pub(crate) fn seen_in<H: Shelf>(
    alloc: Global,
    keys: Keys,
    settings: &ViewSettings,
    shelf: &mut H,
) -> Result<Picture, Stop>
    requires within { AreWithin settings.now }
    ensures asks { Asks (showing viewing) settings.now H.Shelf its_result result shelf.old shelf.new }
    ensures seen { IfOk result (λ picture. IsSeen settings.now picture.file (Some picture.text)) }
{
    match result_met(alloc, keys, shelf, settings.result.as_text()) {
        Ok(file) => seen_of(alloc, keys, settings, file),
        Err(stop) => Err(stop),
    }
}

/// Writes the text of a picture. It takes no memory.
pub(crate) fn write_picture<O: Sink>(picture: &Picture, out: &mut O) -> Answer
    ensures status { (result.status ≡ Status.Done) ⊎ ((result.status ≡ Status.WriteFault) ⊎ (result.status ≡ Status.NoMemory)) }
    ensures done { result.status ≡ Status.Done → O.held out.new ≡ append_known (O.held out.old) picture.now.text }
    ensures cut_off { result.status ≡ Status.WriteFault → GainsPrefix (O.held out.old) (O.held out.new) picture.now.text }
    ensures nothing { result.status ≡ Status.NoMemory → out.new ≡ out.old }
    ensures note { note_in result ≡ plain_note result.status }
    ensures leaves_out { RunLeavesOut O.Sink result.status out.old out.new }
{
    match write_all(out, picture.text.as_slice()) {
        Ok(()) => Answer::plain(Status::Done),
        Err(Failed) => Answer::plain(Status::WriteFault),
    }
}
