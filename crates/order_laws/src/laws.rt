//! The laws. Each is the contract of a function that does nothing.

ghost use Rattle.order_laws.specs.RouteOrder.{MovedRoutesLaw, OneOrderOfRoutesLaw, FitTogetherLaw, TakenTogetherLaw};

/// Routes in another order give the same, and so do dumps: they are cleaned to the same paths, each as often, and as many are set aside for
/// each cause.
pub fn moved_routes()
    ensures { MovedRoutesLaw }
{}

/// What is taken in of routes, from nothing on or behind paths of others that stand in any order, has their distinct paths with their
/// times, and the counts. Where routes give the same, these are the same, and the paths are one list in the order `Short`. It is no matter
/// how the routes are cut into records and dumps (`dump_read::dump_law`).
pub fn one_order_of_routes()
    ensures { OneOrderOfRoutesLaw }
{}

/// Where routes give the same, the paths of both fit under a limit, or those of neither. So if one meets the limit of paths or of numbers,
/// the other meets one of the two.
pub fn limits_together()
    ensures fit { FitTogetherLaw }
    ensures taken { TakenTogetherLaw }
{}
