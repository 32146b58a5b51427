//! Laws over the definitions in `specs/`, each as the contract of a function that does nothing.

ghost use Rattle.top_laws.specs.Bound.{TopBehindLaw, TopOfFileLaw};
ghost use Rattle.top_laws.specs.FewGivens.{FewKnownLaw};
ghost use Rattle.top_laws.specs.MoreGivens.{MoreGivensLaw, TopMoreLaw};
ghost use Rattle.top_laws.specs.TopResults.{TopAcceptedLaw, TopResultLaw, TopResumedLaw};

/// In each result that a checker accepts and whose givens say of each edge with exactly one end in the top that no pair names that this end
/// is over the other: each of these edges is forced, with that provider; and where no such edge is named, no AS of the top has another AS
/// as its provider, and each path on which another AS stands between two of them is lost, with a walk.
pub fn top_accepted_law()
    ensures { TopAcceptedLaw }
{}

/// So it is in each result of a table under the givens of a file and what is known of the top behind them; also on top of an earlier result,
/// for the edges that neither its givens name nor its paths have.
pub fn top_result_law()
    ensures { TopResultLaw }
{}

/// On top of an earlier result that was made with the same top it is so for all edges that no line of the file names.
pub fn top_resumed_law()
    ensures { TopResumedLaw }
{}

/// A result that meets all rules meets them with more givens that name no edge of its paths.
pub fn more_givens_law()
    ensures { MoreGivensLaw }
{}

/// So what is known of the top on top of an earlier result contradicts nothing that is kept.
pub fn top_more_law()
    ensures { TopMoreLaw }
{}

/// The givens of a file, or of a result, and what is known of the top behind them are never more than there may be.
pub fn few_known_law()
    ensures { FewKnownLaw }
{}

/// What `bind_top` adds beside the lines of a file, and on top of an earlier result.
pub fn bound_law()
    ensures file { TopOfFileLaw }
    ensures behind { TopBehindLaw }
{}
