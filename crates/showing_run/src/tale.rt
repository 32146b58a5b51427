//! What is told of a result, and its text, written to out.
ghost use Rattle.std.specs.Prelude.{◌≡◌, ◌⊎◌, [], Some, IfOk, IfErr, OnOk, OnErr, length, option_map, string_bytes};
ghost use Rattle.std.specs.Io.KnownBytes.{append_known};
ghost use Rattle.tor_io.specs.Contents.{GainsPrefix};
ghost use Rattle.tor_io.specs.Counts.{HasCause};
ghost use Rattle.result_rules.specs.Rules.{Accepts};
ghost use Rattle.run_base.specs.Answers.{note_in};
ghost use Rattle.run_base.specs.Frames.{RunLeavesOut};
ghost use Rattle.run_base.specs.Notes.{plain_note};
ghost use Rattle.run_base.specs.Stopping.{Asks};
ghost use Rattle.telling.specs.PathText.{AreFlagged};
ghost use Rattle.showing_run.specs.Asking.{showing};
ghost use Rattle.showing_run.specs.Unmet.{SaysAbsent, IsUnanswered};
ghost use Rattle.showing_run.specs.Whys.{IsTold, IsToldAround, IsToldAsked, IsToldOf, telling};
ghost use Rattle.showing_run.specs.Whys.{absent_note, its_result, said_text, tale_text};

use crate::met::result_met;
use crate::picture::has_edge;
use neighbour_text::{Neighbourhood, neighbourhood_of, write_neighbourhood};
use result_text::ResultFile;
use run_base::{Answer, Status, Stop};
use std::alloc::{AllocError, Global};
use telling::{NamedPaths, Question, Told, tell, write_told};
use tor_arena::{Keys, NoMemory};
use tor_io::{Buffer, Failed, Shelf, Sink};
use tor_words::{Asked, WhySettings};

/// What answers.
#[derive(Drop)]
pub(crate) enum Said {
    /// What is told of an edge or a path.
    Told(Told),
    /// The neighbours of an AS.
    Around(Neighbourhood),
}

/// What is told, and of which result.
#[derive(Drop)]
pub(crate) struct Tale {
    /// The result.
    pub file: ResultFile,
    /// What is told of it.
    pub said: Said,
}

// The note that there is no such edge, path or AS.
fn absent_note(alloc: Global, asked: Asked) -> Result<String, AllocError>
    ensures { IfOk result (λ text. string_bytes text ≡ absent_note asked) }
{
    match asked {
        Asked::Edge { one, other } => {
            let mut text = format!(in alloc; "absent|{one}|")?;
            write!(text, "{other}\n")?;
            Ok(text)
        }
        Asked::Path { number } => format!(in alloc; "absent|{number}\n"),
        Asked::Neighbours { asked } => format!(in alloc; "absent|{asked}\n"),
    }
}

// Why nothing is told of a result that has no such edge, path or AS.
fn absent(alloc: Global, asked: Asked) -> Stop
    ensures { SaysAbsent (absent_note asked) result }
{
    match absent_note(alloc, asked) {
        Ok(note) => Stop::Lacks(note),
        Err(AllocError) => Stop::NoMemory,
    }
}

// What is told of an edge or a path, if it is there.
fn told_of(
    alloc: Global,
    keys: Keys,
    file: &ResultFile,
    question: Question,
) -> Result<Option<Said>, NoMemory>
    requires accepted { Accepts file.now }
    ensures { IfOk result (λ said. IsToldOf file.now question (option_map (said_text file.now) said)) }
{
    match tell(alloc, keys, file, question)? {
        Some(told) => Ok(Some(Said::Told(told))),
        None => Ok(None),
    }
}

// The neighbours of an AS, if it stands on a path.
fn around(alloc: Global, file: &ResultFile, asked: u32) -> Result<Option<Said>, NoMemory>
    requires accepted { Accepts file.now }
    ensures { IfOk result (λ said. IsToldAround file.now asked (option_map (said_text file.now) said)) }
{
    let edges = file.edges.as_slice();
    if !has_edge(edges, asked) {
        return Ok(None);
    }
    let neighbours = neighbourhood_of(alloc, edges, asked)?;
    Ok(Some(Said::Around(neighbours)))
}

// What answers what is asked, if that is there.
fn said_of(
    alloc: Global,
    keys: Keys,
    file: &ResultFile,
    asked: Asked,
) -> Result<Option<Said>, NoMemory>
    requires accepted { Accepts file.now }
    ensures { IfOk result (λ said. IsToldAsked asked file.now (option_map (said_text file.now) said)) }
{
    match asked {
        Asked::Edge { one, other } => told_of(alloc, keys, file, Question::Edge { one, other }),
        Asked::Path { number } => told_of(alloc, keys, file, Question::Path { number }),
        Asked::Neighbours { asked } => around(alloc, file, asked),
    }
}

// What is told of a result that meets the rules.
fn tale_of(
    alloc: Global,
    keys: Keys,
    settings: &WhySettings,
    file: ResultFile,
) -> Result<Tale, Stop>
    requires accepted { Accepts file }
    ensures same { IfOk result (λ tale. tale.file ≡ file) }
    ensures told { IfOk result (λ tale. IsTold settings.now tale.file (Some (tale_text tale))) }
    ensures untold { IfErr result (IsUnanswered telling settings.now file) }
{
    match said_of(alloc, keys, &file, settings.asked) {
        Ok(Some(said)) => Ok(Tale { file, said }),
        Ok(None) => Err(absent(alloc, settings.asked)),
        Err(NoMemory) => Err(Stop::NoMemory),
    }
}

/// What is told with these settings.
pub(crate) fn told_in<H: Shelf>(
    alloc: Global,
    keys: Keys,
    settings: &WhySettings,
    shelf: &mut H,
) -> Result<Tale, Stop>
    ensures asks { Asks (showing telling) settings.now H.Shelf its_result result shelf.old shelf.new }
    ensures told { IfOk result (λ tale. IsTold settings.now tale.file (Some (tale_text tale))) }
{
    match result_met(alloc, keys, shelf, settings.result.as_text()) {
        Ok(file) => tale_of(alloc, keys, settings, file),
        Err(stop) => Err(stop),
    }
}

// Writes what is told through a buffer, which has to be empty. No path is named yet.
fn write_said<O: Sink>(
    out: &mut O,
    buffer: &mut Buffer,
    named: &mut NamedPaths,
    file: &ResultFile,
    said: &Said,
) -> Result<(), Failed>
    requires empty { buffer.old ≡ [] }
    requires many { length named.old ≡ length file.now.paths }
    requires none { AreFlagged [] named.old }
    ensures all { OnOk result (O.held out.new ≡ append_known (O.held out.old) (said_text file.now said.now)) }
    ensures prefix { OnErr result (GainsPrefix (O.held out.old) (O.held out.new) (said_text file.now said.now)) }
    ensures cause { HasCause (O.faults out.old) (O.faults out.new) result }
{
    match said {
        Said::Told(told) => write_told(out, buffer, named, file, told),
        Said::Around(neighbours) => write_neighbourhood(out, buffer, neighbours),
    }
}

/// Writes what is told. All memory is taken before.
pub(crate) fn write_tale<O: Sink>(alloc: Global, tale: &Tale, out: &mut O) -> Answer
    ensures status { (result.status ≡ Status.Done) ⊎ ((result.status ≡ Status.WriteFault) ⊎ (result.status ≡ Status.NoMemory)) }
    ensures done { result.status ≡ Status.Done → O.held out.new ≡ append_known (O.held out.old) (tale_text tale.now) }
    ensures cut_off { result.status ≡ Status.WriteFault → GainsPrefix (O.held out.old) (O.held out.new) (tale_text tale.now) }
    ensures nothing { result.status ≡ Status.NoMemory → out.new ≡ out.old }
    ensures note { note_in result ≡ plain_note result.status }
    ensures leaves_out { RunLeavesOut O.Sink result.status out.old out.new }
{
    let Ok(mut buffer) = Buffer::new(alloc) else {
        return Answer::plain(Status::NoMemory);
    };
    let Ok(mut named) = NamedPaths::none(alloc, tale.file.paths.len()) else {
        return Answer::plain(Status::NoMemory);
    };
    match write_said(out, &mut buffer, &mut named, &tale.file, &tale.said) {
        Ok(()) => Answer::plain(Status::Done),
        Err(Failed) => Answer::plain(Status::WriteFault),
    }
}
