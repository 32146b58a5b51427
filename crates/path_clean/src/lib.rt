//! AS paths that are cleaned.
#![tactic(auto)]

mod asides;
mod cleaned;
mod cleaning;
mod laws;
mod merged_paths;
mod plain;

pub use asides::Asides;
pub use cleaned::{Cause, Cleaned, Sets, is_cleaned};
pub use cleaning::{clean, is_clean_path, judge};
pub use laws::{clean_paths_stay, judged_last, paths_are_clean};
pub use merged_paths::MergedPaths;
