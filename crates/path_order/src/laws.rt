//! The laws of the order. Each is the contract of a function that does nothing.

ghost use Rattle.path_order.specs.Laws.{PermutationLaw, RisingLaw, OnlyRisingLaw, OneOrderLaw};
ghost use Rattle.path_order.specs.Laws.{MovedPathsLaw, CountedOrderLaw, OrderedRowsLaw};

/// Ordered paths are the same paths with the same times, each as often.
pub fn permutation()
    ensures { PermutationLaw }
{}

/// Of distinct paths in the order `Short` each comes before all those behind it.
pub fn rising()
    ensures { RisingLaw }
{}

/// The order `Short` of distinct paths is the only one of them in which each comes before all those behind it.
pub fn only_rising()
    ensures { OnlyRisingLaw }
{}

/// Two lists of distinct paths with the same paths and the same times for each, in whatever order, have one order `Short`.
pub fn order_of_rows_alone()
    ensures { OneOrderLaw }
{}

/// Paths that are counted in whatever order, each as often, have one order `Short`, and the same rows, so as many and of as many numbers.
/// `path_table::counting` says that this is what adding them to a table one after the other comes to.
pub fn order_of_counted()
    ensures moved { MovedPathsLaw }
    ensures counted { CountedOrderLaw }
{}

/// In their order rows are the same ones, and what a table keeps true of its rows stays true: the paths are clean, no two are the same,
/// they are at most 2^23 with at most 2^26 numbers in sum, and each was seen.
pub fn keeping()
    ensures { OrderedRowsLaw }
{}
