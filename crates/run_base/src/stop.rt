//! Why a run makes nothing of its files, and the answer then.
ghost use Rattle.std.specs.Prelude.{◌≡◌};
ghost use Rattle.run_base.specs.Stopping.{AnswersTo, AnswersWords};

use crate::answer::{Answer, Note, answer_to_stop, answer_to_unread};
use crate::notes::{FirstFile, bad_line_note, broken_note};
use crate::reading::Stopped;
use crate::status::Status;
use crate::whole_file::Unread;
use std::alloc::Global;
use tor_words::WordsRefused;

/// Why a run whose words give settings makes nothing of its files.
#[derive(Drop)]
pub enum Stop {
    /// The file that is read first was not read.
    First(FirstFile, Unread),
    /// This is its first bad line, from 1.
    BadLine(FirstFile, u64),
    /// It is a result that breaks rules: this line, from 1, is the first that breaks this one, the least.
    Broken { line: u64, rule: u8 },
    /// What is asked of it isn't there, as this note says.
    Lacks(String),
    /// The reading of the dumps stopped.
    Dumps(Stopped),
    /// Memory ran out.
    NoMemory,
}

/// The answer of a run whose words give no settings. It takes no memory.
pub fn answer_of_words(refused: WordsRefused) -> Answer
    ensures { AnswersWords refused result }
{
    match refused {
        WordsRefused::Usage(text) => Answer {
            status: Status::Usage,
            note: Note::Octets(text),
        },
        WordsRefused::NoMemory => Answer::plain(Status::NoMemory),
    }
}

/// The answer of a run that makes nothing of its files.
#[tactic(auto, using(crate::proofs::Notings::says))]
pub fn answer_of_stop(alloc: Global, stop: Stop) -> Answer
    ensures { AnswersTo stop result }
{
    match stop {
        Stop::First(file, unread) => answer_to_unread(alloc, file, unread),
        Stop::BadLine(file, line) => {
            Answer::noted(Status::Malformed, bad_line_note(alloc, file, line))
        }
        Stop::Broken { line, rule } => { Answer::noted(Status::No, broken_note(alloc, line, rule)) }
        Stop::Lacks(note) => Answer {
            status: Status::No,
            note: Note::Text(note),
        },
        Stop::Dumps(stopped) => answer_to_stop(alloc, stopped),
        Stop::NoMemory => Answer::plain(Status::NoMemory),
    }
}
