//! The law of the definitions in `specs/`, as the contract of a function.
ghost use Rattle.gao_prefs.specs.Supports.{SupportLaw};

/// As many kept paths hold an edge as there are votes for its two ends, where each path is of distinct ASes.
pub fn support_law()
    ensures { SupportLaw }
{}
