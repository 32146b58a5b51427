//! Runs of `infer`, `check`, `grade`, `hunt`, `rank`, `why` and `view` in memory.
use crate::conditions::Conditions;
use crate::files::Files;
use crate::hollow::Hollow;
use run_base::Status;
use showing_run::{view, why};
use std::alloc::Global;
use tor_arena::{Keys, List, NoMemory};
use tor_io::{MemShelf, MemSink, Shelf};
use tor_run::infer;
use tor_words::Name;
use torcheck_run::check;
use torgrade_run::grade;
use torleak_run::hunt;
use torrank_run::rank;

/// What is run, and with which words.
#[derive(Clone, Copy)]
pub struct Asked<'a> {
    /// The name of what is run.
    pub program: &'a str,
    /// The words, with spaces between them.
    pub words: &'a str,
}

/// How a run ended, and what it wrote.
#[derive(Drop)]
pub struct Told {
    /// The exit status.
    pub status: u8,
    /// Out, and what went there.
    pub out: MemSink,
    /// Err, and what went there.
    pub err: MemSink,
    /// Whether the call on files that fails is the next one behind the run.
    pub fails_next: bool,
}

/// More octets than any run of a row writes.
const ROOM: usize = 1_000_000;

fn words_of(alloc: Global, text: &str) -> Result<List<Name>, NoMemory> {
    let mut words = List::new(alloc);
    for word in text.split_whitespace() {
        words.push(Name::from_text(alloc, word)?)?;
    }
    Ok(words)
}

fn sink_of(alloc: Global, octets: u64, failing: u64) -> Result<MemSink, NoMemory> {
    let mut sink = MemSink::new(alloc, ROOM, (octets as usize).max(1))?;
    sink.fail_at(failing)?;
    Ok(sink)
}

fn shelf_of(alloc: Global, files: &Files, conditions: Conditions) -> Result<MemShelf, NoMemory> {
    let mut shelf = MemShelf::new(alloc);
    files.put_on(&mut shelf, conditions.cut)?;
    shelf.at_most((conditions.read_octets as usize).max(1));
    shelf.fail_at(conditions.failing_read)?;
    Ok(shelf)
}

fn infer_over<H: Shelf>(
    alloc: Global,
    keys: Keys,
    words: &List<Name>,
    shelf: &mut H,
    out: &mut MemSink,
    err: &mut MemSink,
) -> Status {
    infer(alloc, keys, words, shelf, out, err)
}

fn check_over<H: Shelf>(
    alloc: Global,
    keys: Keys,
    words: &List<Name>,
    shelf: &mut H,
    out: &mut MemSink,
    err: &mut MemSink,
) -> Status {
    check(alloc, keys, words, shelf, out, err)
}

fn grade_over<H: Shelf>(
    alloc: Global,
    keys: Keys,
    words: &List<Name>,
    shelf: &mut H,
    out: &mut MemSink,
    err: &mut MemSink,
) -> Status {
    grade(alloc, keys, words, shelf, out, err)
}

fn hunt_over<H: Shelf>(
    alloc: Global,
    keys: Keys,
    words: &List<Name>,
    shelf: &mut H,
    out: &mut MemSink,
    err: &mut MemSink,
) -> Status {
    hunt(alloc, keys, words, shelf, out, err)
}

fn rank_over<H: Shelf>(
    alloc: Global,
    keys: Keys,
    words: &List<Name>,
    shelf: &mut H,
    out: &mut MemSink,
    err: &mut MemSink,
) -> Status {
    rank(alloc, keys, words, shelf, out, err)
}

fn why_over<H: Shelf>(
    alloc: Global,
    keys: Keys,
    words: &List<Name>,
    shelf: &mut H,
    out: &mut MemSink,
    err: &mut MemSink,
) -> Status {
    why(alloc, keys, words, shelf, out, err)
}

fn view_over<H: Shelf>(
    alloc: Global,
    keys: Keys,
    words: &List<Name>,
    shelf: &mut H,
    out: &mut MemSink,
    err: &mut MemSink,
) -> Status {
    view(alloc, keys, words, shelf, out, err)
}

fn status_of<H: Shelf>(
    alloc: Global,
    keys: Keys,
    asked: Asked<'_>,
    shelf: &mut H,
    out: &mut MemSink,
    err: &mut MemSink,
) -> Status {
    let Ok(words) = words_of(alloc, asked.words) else {
        return Status::NoMemory;
    };
    match asked.program {
        "torcheck" => check_over(alloc, keys, &words, shelf, out, err),
        "torgrade" => grade_over(alloc, keys, &words, shelf, out, err),
        "torleak" => hunt_over(alloc, keys, &words, shelf, out, err),
        "torrank" => rank_over(alloc, keys, &words, shelf, out, err),
        "torwhy" => why_over(alloc, keys, &words, shelf, out, err),
        "torview" => view_over(alloc, keys, &words, shelf, out, err),
        _ => infer_over(alloc, keys, &words, shelf, out, err),
    }
}

fn run_over<H: Shelf>(
    alloc: Global,
    keys: Keys,
    conditions: Conditions,
    asked: Asked<'_>,
    shelf: &mut H,
) -> Result<Told, NoMemory> {
    let mut out = sink_of(alloc, conditions.write_octets, conditions.failing_write)?;
    let mut err = sink_of(alloc, ROOM as u64, conditions.failing_note)?;
    let status = status_of(alloc, keys, asked, shelf, &mut out, &mut err).code();
    Ok(Told {
        status,
        out,
        err,
        fails_next: false,
    })
}

// Whether the next call fails, and the one behind it doesn't.
fn fails_next(shelf: &mut MemShelf) -> bool {
    shelf.put("", &[]).is_ok() && shelf.open_file("").is_err() && shelf.open_file("").is_ok()
}

/// The run over the files under the conditions.
pub fn run(
    alloc: Global,
    keys: Keys,
    files: &Files,
    conditions: Conditions,
    asked: Asked<'_>,
) -> Result<Told, NoMemory> {
    if let Some(records) = conditions.hollow {
        return run_over(alloc, keys, conditions, asked, &mut Hollow::new(records));
    }
    let mut shelf = shelf_of(alloc, files, conditions)?;
    let mut told = run_over(alloc, keys, conditions, asked, &mut shelf)?;
    told.fails_next = fails_next(&mut shelf);
    Ok(told)
}
