//! Laws over the definitions in `specs/`, each as the contract of a function that does nothing.

ghost use Rattle.route_leaks.specs.Laws.{ElsewhereLaw, LostLeakLaw, RefutedLeakLaw, StaysLeakLaw};

/// Edges that are on no kept path of a result and not on a path bind nothing for it, so it is all one which other paths are there.
pub fn elsewhere_law()
    ensures { ElsewhereLaw }
{}

/// A path with a walk that refutes is a leak. So is each lost path of a result, and a leak stays one whatever paths the result is resumed
/// with.
pub fn leak_laws()
    ensures refuted { RefutedLeakLaw }
    ensures lost { LostLeakLaw }
    ensures stays { StaysLeakLaw }
{}
