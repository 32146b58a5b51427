//! Laws over the definitions in `specs/`, each as the contract of a function that does nothing.

ghost use Rattle.telling.specs.Laws.Telling.{ProvingLaw, EitherLaw, PeersLaw, AnswerLaw};
ghost use Rattle.telling.specs.PathText.{ShortLinesLaw};

/// What walks prove holds in every orientation that agrees with the givens and serves the paths.
pub fn proving_law()
    ensures { ProvingLaw }
{}

/// Where labels have one order, and a consistent closure the other, either order is possible.
pub fn either_law()
    ensures { EitherLaw }
{}

/// Where labels have two ASes as peers, either order of the two is possible.
pub fn peers_law()
    ensures { PeersLaw }
{}

/// Each question about a result that meets all rules has an answer: something is told of each edge that is there, and of each path.
pub fn answer_law()
    ensures { AnswerLaw }
{}

/// However long the paths of a result are, a line of a telling prints at most 64 ASes of the path that its step names.
pub fn short_lines_law()
    ensures { ShortLinesLaw }
{}
