//! The laws of the definitions. Each is the contract of a function that does nothing.
ghost use Rattle.std.specs.Prelude.{◌≡◌, ◌^◌};
ghost use Rattle.mrt_frame.specs.Limits.{max_file};
ghost use Rattle.mrt_frame.specs.Encoding.{EncodingLaw, OneReadingLaw};
ghost use Rattle.mrt_frame.specs.Reach.{ReachLaw};
ghost use Rattle.mrt_frame.specs.Counted.{FileCountsLaw, CountsTogetherLaw};

/// A file is cut into exactly the records that it encodes, and ends as what stands behind them says (RFC 6396, section 2).
/// They have at most 2^40 octets, and are all of it where it ends behind a whole record.
pub fn encoding_law()
    ensures cut { EncodingLaw }
    ensures one_reading { OneReadingLaw }
    ensures reach { ReachLaw }
{}

/// The counts of a file list the types of its records in ascending order, none twice and no other, each with how many of the records
/// have it, up to 2^64 - 1. The counts of some records, put together with those of others, are the counts of all of them.
pub fn counts_law()
    ensures file { FileCountsLaw }
    ensures together { CountsTogetherLaw }
{}

/// How many octets a file may have: each of its records ends at offset 2^40 or before.
pub fn limits_law()
    ensures file { max_file ≡ 2 ^ 40 }
{}
