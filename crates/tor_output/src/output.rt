//! What a run that is done writes.
ghost use Rattle.std.specs.Prelude.{◌≡◌, ◌≤◌, ◌++◌, ◌∷◌, [], IfOk, OnOk, OnErr, length, string_bytes};
ghost use Rattle.std.specs.Prelude.{◌+◌, ◌*◌, ◌^◌};
ghost use Rattle.tor_output.specs.Knowing.{said_givens};
ghost use Rattle.std.specs.Io.KnownBytes.{append_known};
ghost use Rattle.tor_arena.specs.Limits.{max_ratio};
ghost use Rattle.tor_io.specs.Counts.{HasCause};
ghost use Rattle.tor_io.specs.Contents.{GainsPrefix};
ghost use Rattle.tor_output.specs.First.{AreSound};
ghost use Rattle.tor_output.specs.Output.{Faithful};
ghost use Rattle.result_text.specs.Grammar.{IsTextOf};
ghost use Rattle.result_text.specs.Text.{text};
ghost use Rattle.rel_infer.specs.SelfAcceptance.{AreTableRows};
ghost use Rattle.tor_output.specs.Listing.{listing};
ghost use Rattle.tor_output.specs.Summary.{summary};
ghost use Rattle.tor_output.specs.Written.{written};

use crate::knowing::known_among;
use crate::listing::write_list;
use crate::ordering::paths_in_order;
use crate::summary::summary_text;
use as_rel::KnownLines;
use dump_read::Taken;
use path_order::DistinctPaths;
use path_table::PathTable;
use rel_infer::{ResultHead, result_with};
use result_text::{ResultFile, in_range, write_text};
use std::alloc::Global;
use tor_arena::{Keys, List, NoMemory};
use tor_io::{Buffer, Failed, Sink, write_all};
use tor_words::Settings;

/// What a run that is done writes: a text goes to out, and behind it a note to err.
#[derive(Drop)]
pub enum Output {
    /// A text that lies in memory, and its note.
    Text(List<u8>, List<u8>),
    /// The list of distinct paths, which is made while it goes through the buffer. It has no note.
    Paths(DistinctPaths, Buffer),
    /// A result, whose text is made while it goes through the buffer, and its note.
    Result {
        file: ResultFile,
        buffer: Buffer,
        note: List<u8>,
    },
}

impl Output {
    /// Writes the text, and gives the note. Failed: a write failed, and out took a prefix of the text. It takes no memory.
    pub fn write_to<O: Sink>(self, alloc: Global, out: &mut O) -> Result<List<u8>, Failed>
        ensures all { OnOk result (O.held out.new ≡ append_known (O.held out.old) (written self).text) }
        ensures note { IfOk result (λ note. note ≡ (written self).note) }
        ensures prefix { OnErr result (GainsPrefix (O.held out.old) (O.held out.new) (written self).text) }
        ensures cause { HasCause (O.faults out.old) (O.faults out.new) result }
    {
        match self {
            Output::Text(text, note) => put_text(out, text, note),
            Output::Paths(paths, buffer) => put_paths(alloc, out, paths, buffer),
            Output::Result { file, buffer, note } => put_result(out, file, buffer, note),
        }
    }
}

// Writes a text, and gives the note.
fn put_text<O: Sink>(out: &mut O, text: List<u8>, note: List<u8>) -> Result<List<u8>, Failed>
    ensures all { OnOk result (O.held out.new ≡ append_known (O.held out.old) text) }
    ensures note { IfOk result (λ n. n ≡ note) }
    ensures prefix { OnErr result (GainsPrefix (O.held out.old) (O.held out.new) text) }
    ensures cause { HasCause (O.faults out.old) (O.faults out.new) result }
{
    let put = write_all(out, text.as_slice());
    drop(text);
    match put {
        Ok(()) => Ok(note),
        Err(Failed) => {
            drop(note);
            Err(Failed)
        }
    }
}

// Writes what waits in the buffer, and then the list of distinct paths. It has no note.
fn put_paths<O: Sink>(
    alloc: Global,
    out: &mut O,
    paths: DistinctPaths,
    mut buffer: Buffer,
) -> Result<List<u8>, Failed>
    ensures all { OnOk result (O.held out.new ≡ append_known (O.held out.old) (buffer ++ listing paths)) }
    ensures note { IfOk result (λ n. n ≡ []) }
    ensures prefix { OnErr result (GainsPrefix (O.held out.old) (O.held out.new) (buffer ++ listing paths)) }
    ensures cause { HasCause (O.faults out.old) (O.faults out.new) result }
{
    let put = write_list(out, &mut buffer, &paths);
    drop(paths);
    drop(buffer);
    match put {
        Ok(()) => Ok(List::new(alloc)),
        Err(Failed) => Err(Failed),
    }
}

// Writes what waits in the buffer, and then the text of a result, and gives the note.
fn put_result<O: Sink>(
    out: &mut O,
    file: ResultFile,
    mut buffer: Buffer,
    note: List<u8>,
) -> Result<List<u8>, Failed>
    ensures all { OnOk result (O.held out.new ≡ append_known (O.held out.old) (buffer ++ text file)) }
    ensures note { IfOk result (λ n. n ≡ note) }
    ensures prefix { OnErr result (GainsPrefix (O.held out.old) (O.held out.new) (buffer ++ text file)) }
    ensures cause { HasCause (O.faults out.old) (O.faults out.new) result }
{
    let put = write_result(out, &mut buffer, &file);
    drop(file);
    drop(buffer);
    match put {
        Ok(()) => Ok(note),
        Err(Failed) => {
            drop(note);
            Err(Failed)
        }
    }
}

// Writes what waits in the buffer, and then the text of a result. Failed: a write failed, and out took a prefix of both.
fn write_result<O: Sink>(out: &mut O, buffer: &mut Buffer, file: &ResultFile) -> Result<(), Failed>
    ensures all { OnOk result (O.held out.new ≡ append_known (O.held out.old) (buffer.old ++ text file.now)) }
    ensures prefix { OnErr result (GainsPrefix (O.held out.old) (O.held out.new) (buffer.old ++ text file.now)) }
    ensures cause { HasCause (O.faults out.old) (O.faults out.new) result }
{
    buffer.flush(out)?;
    write_text(out, buffer, file)
}

/// The rows of a table are as a table has them.
pub(crate) fn has_table_rows(table: &PathTable)
    ensures { AreTableRows table.now.rows }
{
    table.facts();
}

/// The octets of a text.
fn octets_of(text: String) -> List<u8>
    ensures { result ≡ string_bytes text }
{
    List::from_vec(text.into_bytes())
}

/// The summary of a result, as a line.
pub(crate) fn summary_line(alloc: Global, file: &ResultFile) -> Result<List<u8>, NoMemory>
    ensures { IfOk result (λ line. line ≡ summary file.now ++ 10 ∷ []) }
{
    let mut line = summary_text(alloc, &file.asides, &file.totals)?;
    match line.push('\n') {
        Ok(()) => Ok(octets_of(line)),
        Err(_) => {
            drop(line);
            Err(NoMemory)
        }
    }
}

/// The result of what the dumps gave.
pub(crate) fn faithful_result(
    alloc: Global,
    keys: Keys,
    settings: &Settings,
    said: Option<KnownLines>,
    taken: Taken,
) -> Result<ResultFile, NoMemory>
    requires ratio { settings.now.ratio ≤ max_ratio }
    requires sound { AreSound said }
    requires few { 6 * length (said_givens said) ≤ 2 ^ 28 + 1 }
    ensures { IfOk result (Faithful settings.now said taken) }
{
    let Taken {
        table,
        counts,
        files,
    } = taken;
    drop(files);
    let Ok(paths) = paths_in_order(alloc, settings, table) else {
        drop(said);
        return Err(NoMemory);
    };
    let Ok(known) = known_among(alloc, keys, &settings.top, said, &paths) else {
        drop(paths);
        return Err(NoMemory);
    };
    let head = ResultHead {
        sets: settings.sets,
        ratio: settings.ratio,
        asides: counts,
    };
    result_with(alloc, keys, head, known, paths)
}

/// A result that is to be written, with this note. What its text takes is all taken here.
pub(crate) fn result_noted(
    alloc: Global,
    file: ResultFile,
    note: List<u8>,
) -> Result<Output, NoMemory>
    ensures text { IfOk result (λ output. IsTextOf file (written output).text) }
    ensures note { IfOk result (λ output. (written output).note ≡ note) }
{
    in_range(&file);
    match Buffer::new(alloc) {
        Ok(buffer) => Ok(Output::Result { file, buffer, note }),
        Err(NoMemory) => {
            drop(file);
            drop(note);
            Err(NoMemory)
        }
    }
}

/// The text of a result, and its summary as the note.
pub(crate) fn text_and_summary(alloc: Global, file: ResultFile) -> Result<Output, NoMemory>
    ensures text { IfOk result (λ output. IsTextOf file (written output).text) }
    ensures note { IfOk result (λ output. (written output).note ≡ summary file ++ 10 ∷ []) }
{
    match summary_line(alloc, &file) {
        Ok(note) => result_noted(alloc, file, note),
        Err(NoMemory) => {
            drop(file);
            Err(NoMemory)
        }
    }
}
