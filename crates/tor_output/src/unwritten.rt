//! Why there is no text to write, and the answer then.
ghost use Rattle.tor_output.specs.Refusals.{AnswersUnwritten};

use result_file::verdict_text;
use result_rules::Verdict;
use run_base::{
    Answer, FirstFile, Refusal, Status, Unread, answer_to, answer_to_unread, bad_line_note,
};
use std::alloc::Global;

/// Why there is no text to write.
#[derive(Drop)]
pub enum Unwritten {
    /// The file that is read first was not read.
    First(FirstFile, Unread),
    /// This is its first bad line, from 1.
    BadLine(FirstFile, u64),
    /// A result that was to be taken up breaks rules: this line, from 1, is the first that breaks this one, the least.
    Broken(u64, u8),
    /// The words, the dumps or want of memory.
    Refused(Refusal),
}

/// The answer where there is no text to write: its status, and the note that says why; NoMemory where there is no room for the note.
#[tactic(auto, using(run_base::proofs::Notings::says))]
pub fn answer_to_unwritten(alloc: Global, unwritten: Unwritten) -> Answer
    ensures { AnswersUnwritten unwritten result }
{
    match unwritten {
        Unwritten::First(file, unread) => answer_to_unread(alloc, file, unread),
        Unwritten::BadLine(file, line) => {
            Answer::noted(Status::Malformed, bad_line_note(alloc, file, line))
        }
        Unwritten::Broken(line, rule) => {
            Answer::noted(Status::No, verdict_text(alloc, Verdict::No { line, rule }))
        }
        Unwritten::Refused(refusal) => answer_to(alloc, refusal),
    }
}
