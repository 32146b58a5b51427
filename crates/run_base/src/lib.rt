//! What the runs of the programs share: how they end and what they note, the reading of dumps one after the other, and of a file that is
//! read whole.
#![tactic(auto)]

mod answer;
mod notes;
mod pieces;
mod reading;
mod status;
mod stop;
mod whole_file;

pub use answer::{Answer, Note, Refusal, answer_to, answer_to_unread, note_answer};
pub use notes::{FirstFile, bad_line_note, broken_note};
pub use pieces::{Piece, put_pieces};
pub use reading::{Stopped, nothing_taken, read_dumps, read_onto};
pub use status::{Status, code_of_failure};
pub use stop::{Stop, answer_of_stop, answer_of_words};
pub use whole_file::{STEP, Unread, read_prefix, read_whole};
