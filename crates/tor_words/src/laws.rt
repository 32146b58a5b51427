//! The law of settings.

ghost use Rattle.tor_words.specs.Given.{BoundsLaw};

/// The settings that words give are within their bounds: the ratio is at most 1000000, the most paths are from 1 to 8388608, and a dump is
/// named for each job that reads files of dumps.
pub fn bounds_law()
    ensures { BoundsLaw }
{}
