//! What is told of an edge and of a path of a result that meets all rules: why the edge is what it is, and why the path is kept or
//! lost; which why lines prove an order; and the text of what is told, walks step by step.
#![tactic(auto)]

mod answer;
mod downs;
mod edges;
mod excerpt;
mod goings;
mod laws;
mod named;
mod numbers;
mod paths;
mod proving;
mod reaching;
mod steps;
mod table;
mod told;
mod writing;

pub use answer::tell;
pub use edges::line_of;
pub use laws::{answer_law, either_law, peers_law, proving_law, short_lines_law};
pub use named::NamedPaths;
pub use paths::tell_path;
pub use proving::{proof_of, whys_for};
pub use told::{Going, Question, Told};
pub use writing::write_told;
