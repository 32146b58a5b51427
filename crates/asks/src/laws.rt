//! The laws of the definitions in `specs/`. Each is the contract of a function.

ghost use Rattle.asks.specs.AskLaws.{AgreeingAsksLaw, AskClosureLaw, ForcedByLaw, OneNumberLaw};

use ties::implication_law;
use tor_solve::decided_law;

/// An open edge is forced by an end of another exactly if one of its orders is in the closure of that order.
pub fn forced_by_law()
    ensures { ForcedByLaw }
{
    decided_law();
    implication_law();
}

/// So as many open edges are forced by an end of an open edge as are in the closure of that order.
pub fn ask_closure_law()
    ensures { AskClosureLaw }
{
    forced_by_law();
}

/// An end of an edge forces one number of open edges.
pub fn one_number_law()
    ensures { OneNumberLaw }
{}

/// Behind the returns of givens this is said of the orientations that agree with the givens.
pub fn agreeing_asks_law()
    ensures { AgreeingAsksLaw }
{}
