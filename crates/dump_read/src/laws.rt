//! The laws of what is taken in and of what files hold. Each is the contract of a function that does nothing.

ghost use Rattle.dump_read.specs.FileLaws.{TogetherLaw};
ghost use Rattle.dump_read.specs.Wanted.{AllCountLaw};
ghost use Rattle.dump_read.specs.Laws.{TakingLaw, TakingOnLaw, DumpLaw, FitLaw, LimitLaw};

/// What routes that are taken in come to: the distinct paths to which they are cleaned, in order of first appearance, each with how
/// often it came, and for each cause how many of them are set aside, up to 2^64 - 1.
pub fn taking_law()
    ensures taking { TakingLaw }
    ensures taking_on { TakingOnLaw }
{}

/// The same of dumps that are read one after the other: behind each, all routes of the dumps so far that count are taken
/// in.
pub fn dump_law()
    ensures { DumpLaw }
{}

/// Where all routes are wanted, all count.
pub fn all_count_law()
    ensures { AllCountLaw }
{}

/// A limit is answered where the first routes are taken in, and the path of the next one is new and would pass it. Routes are all
/// taken in exactly where their distinct paths, with those before, are at most as many as may be, and have at most 2^26 numbers in sum.
pub fn limit_law()
    ensures limit { LimitLaw }
    ensures fit { FitLaw }
{}

/// What files hold together: each type that some record of theirs has is listed, with how many of the records of all files have it, and
/// peer entries and routes are those of all files. Each count stops at 2^64 - 1.
pub fn together_law()
    ensures together { TogetherLaw }
{}
