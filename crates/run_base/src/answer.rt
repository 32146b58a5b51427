//! What a run answers where it has nothing to write.
ghost use Rattle.std.specs.Prelude.{◌≡◌, ◌≤◌, IfOk, OnErr, string_bytes};
ghost use Rattle.run_base.specs.Answers.{note_in, Answers, AnswersUnread, IsNoMemory, IsNoted};

use crate::notes::{FirstFile, limit_note, malformed_note, read_fault_note, too_long_note};
use crate::reading::Stopped;
use crate::status::Status;
use crate::whole_file::Unread;
use dump_read::DumpError;
use std::alloc::{AllocError, Global};
use tor_arena::List;
use tor_io::{Sink, write_all};
use tor_words::WordsRefused;

/// Why a run has nothing to write.
#[derive(Drop)]
pub enum Refusal {
    /// The words are no command, or memory ran out for them.
    Words(WordsRefused),
    /// The reading of the dumps stopped.
    Dumps(Stopped),
    /// Memory ran out.
    NoMemory,
}

/// What a note says.
#[derive(Drop)]
pub enum Note {
    /// What its status says by itself.
    Plain,
    /// These octets.
    Octets(List<u8>),
    /// This text.
    Text(String),
}

/// The status of a run, and its note.
#[derive(Drop)]
pub struct Answer {
    /// The status.
    pub status: Status,
    /// What its note says.
    pub note: Note,
}

impl Answer {
    /// The answer of a status whose note has no part of its own.
    pub fn plain(status: Status) -> Answer
        ensures status { result.status ≡ status }
        ensures note { result.note ≡ Note.Plain }
    {
        Answer {
            status,
            note: Note::Plain,
        }
    }

    /// The answer with this note, unless memory ran out for it.
    pub fn noted(status: Status, text: Result<String, AllocError>) -> Answer
        ensures said { IfOk text (λ t. (result.status ≡ status) × (note_in result ≡ string_bytes t)) }
        ensures memory { OnErr text (IsNoMemory result) }
    {
        match text {
            Ok(text) => Answer {
                status,
                note: Note::Text(text),
            },
            Err(AllocError) => Answer::plain(Status::NoMemory),
        }
    }

    /// The octets of the note.
    pub fn note(&self) -> &[u8]
        ensures { result.now ≡ note_in self.now }
    {
        match &self.note {
            Note::Plain => self.status.plain_note(),
            Note::Octets(text) => text.as_slice(),
            Note::Text(text) => text.as_bytes(),
        }
    }
}

// The answer where the reading of dumps stopped.
#[tactic(auto, using(crate::proofs::Notings::says))]
pub(crate) fn answer_to_stop(alloc: Global, stopped: Stopped) -> Answer
    ensures { Answers (Refusal.Dumps stopped) result }
{
    let dump = stopped.dump;
    match stopped.error {
        DumpError::Malformed(place, fault) => {
            Answer::noted(Status::Malformed, malformed_note(alloc, place, fault))
        }
        DumpError::Limit(kind) => Answer::noted(Status::Limit, limit_note(alloc, kind, dump)),
        DumpError::ReadFault => Answer::noted(Status::ReadFault, read_fault_note(alloc, dump)),
        DumpError::NoMemory => Answer::plain(Status::NoMemory),
    }
}

/// The answer where there is nothing to write.
pub fn answer_to(alloc: Global, refusal: Refusal) -> Answer
    ensures { Answers refusal result }
{
    match refusal {
        Refusal::Words(WordsRefused::Usage(text)) => Answer {
            status: Status::Usage,
            note: Note::Octets(text),
        },
        Refusal::Dumps(stopped) => answer_to_stop(alloc, stopped),
        Refusal::Words(WordsRefused::NoMemory) | Refusal::NoMemory => {
            Answer::plain(Status::NoMemory)
        }
    }
}

/// The answer where the file that is read first was not read.
#[tactic(auto, using(crate::proofs::Notings::says))]
pub fn answer_to_unread(alloc: Global, file: FirstFile, unread: Unread) -> Answer
    ensures { AnswersUnread file unread result }
{
    match unread {
        Unread::Failed => Answer::noted(Status::ReadFault, read_fault_note(alloc, 0)),
        Unread::TooLong => Answer::noted(Status::Limit, too_long_note(alloc, file)),
        Unread::NoMemory => Answer::plain(Status::NoMemory),
    }
}

/// Writes the note of an answer, and gives its status, which doesn't depend on where the note goes.
pub fn note_answer<E: Sink>(answer: Answer, err: &mut E) -> Status
    ensures status { result ≡ answer.status }
    ensures noted { IsNoted (λ note. note ≡ note_in answer) (E.faults err.old) (E.faults err.new) (E.held err.old) (E.held err.new) }
    ensures later { E.faults err.old ≤ E.faults err.new }
{
    let _ = write_all(err, answer.note());
    answer.status
}
