//! Laws over the definitions in `specs/`, each as the contract of a function that does nothing.

ghost use Rattle.top_givens.specs.Laws.{TopMembersLaw, TopSoundLaw, FewTopLaw, SameTopLaw, NoneEarlierLaw, ResumedTopLaw};

/// What is known of the top are the edges with exactly one end in it that nothing names, and the end in the top is over the other.
pub fn top_members_law()
    ensures { TopMembersLaw }
{}

/// Each of these names two ASes, and no two of them the same two, nor does one of the givens before them.
pub fn top_sound_law()
    ensures { TopSoundLaw }
{}

/// There are no more of them than numbers on the paths.
pub fn few_top_law()
    ensures { FewTopLaw }
{}

/// The order and the number of times in which ASes and pairs are named don't matter.
pub fn same_top_law()
    ensures { SameTopLaw }
{}

/// On top of earlier paths no edge of these is bound.
pub fn none_earlier_law()
    ensures { NoneEarlierLaw }
{}

/// In two runs, one on top of the other, the same is known as in one run over all paths, where each line that names an edge with exactly one
/// end in the top gives a provider.
pub fn resumed_top_law()
    ensures { ResumedTopLaw }
{}
