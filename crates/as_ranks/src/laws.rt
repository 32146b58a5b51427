//! The laws of ranks and cycles, which do nothing but imply their contract.
ghost use Rattle.as_ranks.specs.Laws.{RankingLaw, CycleSizeLaw, UnrealTransitLaw};

/// A transit that isn't inside a cycle leads down in the ranks: its provider has more members in its cone than its customer, and stands
/// above it.
pub fn ranking_law()
    ensures { RankingLaw }
{}

/// A cycle has at least three ASes: each of two would be the provider of the other, in two lines of which the later one is bad.
pub fn cycle_size_law()
    ensures { CycleSizeLaw }
{}

/// Of any acyclic set of contracts at least one transit inside each cycle is none.
pub fn unreal_transit_law()
    ensures { UnrealTransitLaw }
{}
