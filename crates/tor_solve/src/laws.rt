//! The laws of the definitions in `specs/`. Each is the contract of a function.

ghost use Rattle.tor_solve.specs.Laws.{DecidedLaw, RefutationLaw};

/// Whether an order follows from another along the triples of paths can be decided.
pub fn decided_law()
    ensures { DecidedLaw }
{}

/// Where no two neighbours on a path are the same, no orientation serves the paths exactly if some walk
/// refutes over them (Aspvall, Plass and Tarjan 1979).
pub fn refutation_law()
    ensures { RefutationLaw }
{}
