//! A survey as plain data.
use path_clean::Asides;
use record_counts::TypeCount;
use tor_arena::List;

/// How many distinct paths there are, and how much is on them.
#[derive(Clone, Copy, Debug, PartialEq, Eq)]
pub struct Figures {
    /// Distinct paths.
    pub paths: u64,
    /// Distinct ASes on them.
    pub ases: u64,
    /// Distinct pairs of neighbours on them, whichever of the two comes first.
    pub edges: u64,
    /// The ASes of the longest path, and 0 where there is none.
    pub longest: u64,
}

/// What dumps hold, and what of it counts. Each count stops at 2^64 - 1.
#[derive(Drop)]
pub struct Survey {
    /// The records of each type and subtype that occurs, by type and then by subtype.
    pub types: List<TypeCount>,
    /// The peers of all peer tables.
    pub peers: u64,
    /// The routes of all records that are read.
    pub routes: u64,
    /// How many routes were set aside, by cause.
    pub asides: Asides,
    /// How many distinct paths the other routes gave, and how much is on them.
    pub figures: Figures,
    /// The dumps.
    pub dumps: u64,
    /// All records of the dumps.
    pub records: u64,
}
