//! The laws of counts. Each is the contract of a function that does nothing.
ghost use Rattle.record_counts.specs.Counted.{MoreLaw, CountsBothLaw, CountedLaw};

/// Where so many records of a type are counted more, its count is the sum, up to 2^64 - 1, and each other type keeps its own. Where
/// counts are put together, each type's count is the sum of its two, up to 2^64 - 1. What counting gives lists its types in ascending
/// order, none twice: those that were counted, and no other.
pub fn counting_law()
    ensures more { MoreLaw }
    ensures together { CountsBothLaw }
    ensures counted { CountedLaw }
{}
