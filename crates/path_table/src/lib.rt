//! The table of distinct paths, each with how often it was added.
#![tactic(auto)]

mod distinct_rows;
mod hashed_paths;
mod hashing;
mod laws;
mod lookup;
mod repeats;
mod row_keys;
mod table;

pub use hashed_paths::{HashedPath, HashedPaths};
pub use laws::counting;
pub use lookup::Lookup;
pub use repeats::first_repeated;
pub use table::{AddRefused, Added, PathTable};
