//! The text of a result, both ways.
#![tactic(auto)]

mod asides;
mod draft;
mod error;
mod file;
mod laws;
mod line;
mod line_reading;
mod next_line;
mod numbers;
mod parsing;
mod path_lines;
mod printing;
mod ranges;
mod reading;
mod taking;

pub use asides::put_asides;
pub use error::ParseError;
pub use file::{EdgeLine, PathLine, ResultFile, Totals};
pub use laws::{line_numbers, one_value, round_trip_law};
pub use parsing::parse;
pub use path_lines::{PathLineRef, PathLines};
pub use printing::{print, put_edge, write_text};
pub use ranges::in_range;
pub use relationships::{Fate, Given, Mark, Probe};
pub use taking::Parser;
pub use text_fields::put_number;
