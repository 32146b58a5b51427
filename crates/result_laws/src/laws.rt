//! Laws over the definitions in `specs/`, each as the contract of a function that does nothing.

ghost use Rattle.result_laws.specs.Asked.{GivenAskLaw};
ghost use Rattle.result_laws.specs.Existing.{SomeResultLaw, SomeResumedLaw};
ghost use Rattle.result_laws.specs.Growing.{ForcedStaysLaw};
ghost use Rattle.result_laws.specs.Orders.{AnyOrderLaw};
ghost use Rattle.result_laws.specs.Possible.{NoneAddedLaw, OpenEdgeLaw, GivenOpenLaw};

/// No lost path could be added: no orientation that agrees with the givens serves it together with all kept paths, also those after it.
pub fn none_added_law()
    ensures { NoneAddedLaw }
{}

/// Either end of an open edge can be the provider: some orientation that agrees with the givens and serves all kept paths has the one,
/// and some has the other.
pub fn open_edge_law()
    ensures { OpenEdgeLaw }
{}

/// One given more, for an open edge, costs no path: with the edge given either way, exactly the same paths are kept.
pub fn given_open_law()
    ensures { GivenOpenLaw }
{}

/// With one given more, wherever it stands among them, of an edge that `tor --ask` has a line of, the same paths are kept, and exactly those
/// edges are forced that weren't which the given's provider forces: as many as the line says.
pub fn given_ask_law()
    ensures { GivenAskLaw }
{}

/// Whatever paths are added after those of a result, under the same givens: what is kept stays kept, what is lost stays lost, and an
/// edge that is forced stays forced, with its label.
pub fn forced_stays_law()
    ensures { ForcedStaysLaw }
{}

/// Where no path of a result is lost, the order of the paths doesn't matter: each result of the same paths under the same givens loses
/// none, and has the same edges, the same marks, and the same provider of each forced edge.
pub fn any_order_law()
    ensures { AnyOrderLaw }
{}

/// There is always a result: of the rows of every table, with whatever counts and ratio, and under givens each of two ASes and no two
/// of the same two, or none.
pub fn some_result_law()
    ensures { SomeResultLaw }
{}

/// And a result goes on from each one that meets all rules and whose paths are the first of the table.
pub fn some_resumed_law()
    ensures { SomeResumedLaw }
{}
