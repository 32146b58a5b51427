//! The laws. Each is the contract of a function that does nothing.

ghost use Rattle.path_clean.specs.Clean.{PathsAreClean, CleanPathsStay, JudgedLast};

/// What is cleaned to a path has at least two ASes, all distinct, none reserved.
pub fn paths_are_clean()
    ensures { PathsAreClean }
{}

/// A clean path that is one AS_SEQUENCE comes out as it stands.
pub fn clean_paths_stay()
    ensures { CleanPathsStay }
{}

/// A route is cleaned to what it is merged to, judged.
pub fn judged_last()
    ensures { JudgedLast }
{}
