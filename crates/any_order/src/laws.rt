//! The laws. Each is the contract of a function that does nothing.

ghost use Rattle.any_order.specs.Laws.{OneInAnyOrderLaw, OrderedAgreesLaw};

/// A file has one verdict beside the same dumps in any order: yes, or one line and rule 11.
pub fn one_in_any_order()
    ensures { OneInAnyOrderLaw }
{}

/// A result that agrees with paths in some order, as seen or the shortest ones first, also behind others that stay, agrees with them in any
/// order.
pub fn ordered_agrees()
    ensures { OrderedAgreesLaw }
{}
