//! Which paths are kept.

ghost use Rattle.relationships.specs.Laws.Selection.{SelectionLaw, SelectionBehindLaw, KeptLaw, AllKeptLaw};

/// Which paths are kept is determined.
pub fn selection_law()
    ensures { SelectionLaw }
{}

/// Behind paths that are kept first, which paths are kept is determined; and where some orientation serves those, one serves them with
/// all that are kept, and all are kept exactly if one orientation serves all.
pub fn selection_behind_law()
    ensures { SelectionBehindLaw }
{}

/// Some orientation serves the kept paths.
pub fn kept_law()
    ensures { KeptLaw }
{}

/// All paths are kept exactly if one orientation serves all.
pub fn all_kept_law()
    ensures { AllKeptLaw }
{}
