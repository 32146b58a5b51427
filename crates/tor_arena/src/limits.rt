//! How many things there may be: one number for the code and for what its clauses say.

/// How many distinct paths dumps may give.
pub const MAX_PATHS: u32 = 1 << 23;

/// How many numbers the distinct paths of dumps may have in sum.
pub const MAX_NUMBERS: usize = 1 << 26;

/// How many times the lesser degree the greater one of two peers may be, where the most is asked for.
pub const MAX_RATIO: u32 = 1_000_000;

/// How many places each index type of this crate but that of walks can name: more than any input
/// within the limits of the product has of one kind.
pub(crate) const MOST_PLACES: usize = 1 << 28;

/// How many walks can be named: a result within the limits of the product has fewer, since a line
/// of a walk takes six octets at least.
pub(crate) const MOST_WALKS: usize = 1 << 29;
