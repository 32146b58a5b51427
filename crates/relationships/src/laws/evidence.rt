//! What walks and closures show of the orientations that serve.

ghost use Rattle.relationships.specs.Laws.Evidence.{RefutingLaw, ShowingLaw, ClosureLaw, AllowedLaw, ConsistencyLaw, ImpliedLaw, OpenLaw};
ghost use Rattle.relationships.specs.Laws.Evidence.{UnheldLaw};

/// A walk that refutes leaves no orientation that serves.
pub fn refuting_law()
    ensures { RefutingLaw }
{}

/// A shown order holds in every orientation that serves.
pub fn showing_law()
    ensures { ShowingLaw }
{}

/// An orientation that serves and is changed to agree with a consistent closure serves.
pub fn closure_law()
    ensures { ClosureLaw }
{}

/// No order of a consistent closure is ruled out by the orientations that serve.
pub fn allowed_law()
    ensures { AllowedLaw }
{}

/// A closure that does not hold the other order of its start is consistent.
pub fn consistency_law()
    ensures { ConsistencyLaw }
{}

/// An order in the closure of its opposite holds in every orientation that serves.
pub fn implied_law()
    ensures { ImpliedLaw }
{}

/// Where some orientation serves, an edge is not forced if neither of its orders is in the closure
/// of the other.
pub fn open_law()
    ensures { OpenLaw }
{}

/// Where some orientation serves, an edge that no path holds is not forced.
pub fn unheld_law()
    ensures { UnheldLaw }
{}
