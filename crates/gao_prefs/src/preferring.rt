//! What the edges prefer, in settling order.
//!
//! Preferences are sorted by lean and place together, so an unstable sort, which takes no memory, gives the one order.
ghost use Rattle.std.specs.Prelude.{◌≡◌, ◌≢◌, ◌<◌, ◌≤◌, ℕ, List, All, length, map, slice_index_or, IfOk};
ghost use Rattle.std.specs.List.{AllPairs};
ghost use Rattle.std.specs.List.Sorted.{IsPermutation};
ghost use Rattle.std.specs.Int.RustNames.{unsigned_abs};
ghost use Rattle.relationships.specs.declared.label.End.{End};
ghost use Rattle.relationships.specs.Graph.{edges, degree, support};
ghost use Rattle.relationships.specs.Preference.{lean, wanted};
ghost use Rattle.tor_arena.specs.Distinct.{AllDistinct};
ghost use Rattle.tor_arena.specs.Limits.{max_numbers};
ghost use Rattle.as_graph.specs.Limits.{most_paths};
ghost use Rattle.as_graph.specs.Paths.{paths_at};
ghost use Rattle.gao_prefs.specs.Ends.{number_at, degrees_of, votes_of};
ghost use Rattle.gao_prefs.specs.Preferences.{AreInOrder, AreSettled, HaveLeans, HaveWanted, IsPref, NotAfter};
ghost use Rattle.gao_prefs.specs.Preferences.{key_of, lean_by, wanted_by};
ghost use Rattle.gao_prefs.specs.Supports.{votes_cast};

use crate::per_end::{PerEnd, end_degrees};
use crate::tally::count_votes;
use as_graph::AsGraph;
use relationships::End;
use std::alloc::Global;
use tor_arena::{EdgeId, Index, List, NoMemory, PathId, reserve};

/// What an edge prefers.
#[derive(Clone, Copy)]
pub struct Pref {
    /// The edge.
    pub edge: EdgeId,
    /// The votes for its lower number, minus those for the higher.
    pub lean: i32,
    /// The end that it wants as the provider: that of more votes, then that of greater degree, and else the lower number.
    pub wanted: End,
}

/// What the votes of kept paths say of the edges.
#[derive(Drop)]
pub struct Voted {
    /// What each edge prefers, in the order in which edges are settled.
    pub prefs: List<Pref>,
    /// How many of the kept paths hold each edge, in the order of the edges.
    pub supports: List<u32>,
}

/// What an edge with these votes and degrees of its ends wants as the provider.
fn wanted_end(votes: &PerEnd, degrees: &PerEnd) -> End
    ensures { result ≡ wanted_by votes.now degrees.now }
{
    if votes.high < votes.low {
        return End::Low;
    }
    if votes.low < votes.high {
        return End::High;
    }
    if degrees.low < degrees.high {
        return End::High;
    }
    End::Low
}

/// What an edge with these votes and degrees of its ends prefers.
fn pref_of(edge: EdgeId, votes: &PerEnd, degrees: &PerEnd) -> Pref
    requires low { votes.now.low ≤ most_paths }
    requires high { votes.now.high ≤ most_paths }
    ensures edge { result.edge ≡ edge }
    ensures small { unsigned_abs result.lean ≤ most_paths }
    ensures lean { result.lean ≡ lean_by votes.now }
    ensures wanted { result.wanted ≡ wanted_by votes.now degrees.now }
{
    Pref {
        edge,
        lean: votes.low as i32 - votes.high as i32,
        wanted: wanted_end(votes, degrees),
    }
}

/// What the edges with these votes and degrees of their ends prefer, in the order of the edges. The only error is that memory ran
/// out.
fn prefs_of(alloc: Global, votes: &[PerEnd], degrees: &[PerEnd]) -> Result<Vec<Pref>, NoMemory>
    requires same { length degrees.now ≡ length votes.now }
    requires few { length votes.now < max_numbers }
    requires small { (k : ℕ) (e : End) → number_at votes.now k e ≤ most_paths }
    ensures length { IfOk result (λ prefs. length prefs.items ≡ length votes.now) }
    ensures small { IfOk result (λ prefs. All (λ pref. unsigned_abs pref.lean ≤ most_paths) prefs.items) }
    ensures each { IfOk result (λ prefs. (k : ℕ) (d : Pref) → k < length prefs.items →
        IsPref votes.now degrees.now k (slice_index_or prefs.items k d)) }
{
    let mut prefs = Vec::with_capacity(alloc, votes.len())?;
    for place in 0..votes.len() {
        let edge = EdgeId::from_place(place).unwrap();
        reserve(&mut prefs, 1)?;
        prefs.push_reserved(pref_of(edge, &votes[place], &degrees[place]));
    }
    Ok(prefs)
}

/// What preferences are sorted by: first their absolute leans, the greatest first, and then their edges.
fn sort_key(pref: &Pref) -> (u64, usize)
    ensures { result ≡ key_of pref.now }
{
    (
        u64::MAX - u64::from(pref.lean.unsigned_abs()),
        pref.edge.place(),
    )
}

/// Sorts preferences by falling absolute lean, and those of equal absolute lean by their edges. It takes no memory.
fn sort_by_lead(prefs: &mut Vec<Pref>)
    requires small { All (λ pref. unsigned_abs pref.lean ≤ most_paths) prefs.old.items }
    ensures same { IsPermutation prefs.old.items prefs.new.items }
    ensures sorted { (i j : ℕ) (d : Pref) → i ≤ j → j < length prefs.new.items →
        NotAfter (slice_index_or prefs.new.items i d) (slice_index_or prefs.new.items j d) }
{
    prefs.sort_unstable_by_key(|pref| sort_key(pref));
}

/// How many kept paths hold each edge, by the votes for its two ends: each of these paths casts one. The only error is that memory ran
/// out.
fn supports_of(alloc: Global, votes: &[PerEnd]) -> Result<List<u32>, NoMemory>
    requires small { (k : ℕ) (e : End) → number_at votes.now k e ≤ most_paths }
    ensures { IfOk result (λ supports. supports ≡ map votes_cast votes.now) }
{
    let mut supports = Vec::with_capacity(alloc, votes.len())?;
    for ends in votes {
        reserve(&mut supports, 1)?;
        supports.push_reserved(ends.low + ends.high);
    }
    Ok(List::from_vec(supports))
}

/// What the edges with these votes and degrees of their ends prefer, in the order in which edges are settled. The only error is that
/// memory ran out.
fn prefs_in_order(
    alloc: Global,
    votes: &[PerEnd],
    degrees: &[PerEnd],
) -> Result<List<Pref>, NoMemory>
    requires same { length degrees.now ≡ length votes.now }
    requires few { length votes.now < max_numbers }
    requires small { (k : ℕ) (e : End) → number_at votes.now k e ≤ most_paths }
    ensures { IfOk result (λ prefs. (graph : List (List ℕ)) (kept : List ℕ) →
        votes.now ≡ map (votes_of (degree graph) (paths_at graph kept)) (edges graph) →
        degrees.now ≡ map (degrees_of graph) (edges graph) → AreSettled graph kept prefs) }
{
    let mut prefs = prefs_of(alloc, votes, degrees)?;
    sort_by_lead(&mut prefs);
    Ok(List::from_vec(prefs))
}

/// What each edge prefers after the votes of the kept paths, one preference for each edge, in the order in which edges are settled:
/// by falling absolute lean, and at equal absolute lean in the order of the edges; and how many of the kept paths hold each edge, in the
/// order of the edges. The kept paths have to be there, no two the same, and each of distinct ASes. The only error is that memory ran
/// out.
pub fn preferences_with_supports(
    alloc: Global,
    graph: &AsGraph,
    kept: &[PathId],
) -> Result<Voted, NoMemory>
    requires there { All (λ path. path < length graph.now) kept.now }
    requires once { AllPairs ◌≢◌ kept.now }
    requires distinct { All AllDistinct (paths_at graph.now kept.now) }
    ensures prefs { IfOk result (λ voted. AreSettled graph.now kept.now voted.prefs) }
    ensures supports { IfOk result (λ voted. voted.supports ≡ map (support (paths_at graph.now kept.now)) (edges graph.now)) }
{
    graph.facts();
    let degrees = end_degrees(alloc, graph)?;
    let votes = count_votes(alloc, graph, kept, &degrees)?;
    let supports = supports_of(alloc, &votes)?;
    let prefs = prefs_in_order(alloc, &votes, &degrees)?;
    Ok(Voted { prefs, supports })
}

/// What each edge prefers after the votes of the kept paths, one preference for each edge, in the order in which edges are settled, as
/// `preferences_with_supports` says it of the same kept paths. The only error is that memory ran out.
pub fn preferences(alloc: Global, graph: &AsGraph, kept: &[PathId]) -> Result<List<Pref>, NoMemory>
    requires there { All (λ path. path < length graph.now) kept.now }
    requires once { AllPairs ◌≢◌ kept.now }
    requires distinct { All AllDistinct (paths_at graph.now kept.now) }
    ensures count { IfOk result (λ prefs. length prefs ≡ length (edges graph.now)) }
    ensures inside { IfOk result (λ prefs. All (λ pref. pref.edge < length (edges graph.now)) prefs) }
    ensures apart { IfOk result (λ prefs. AllDistinct (map (λ pref. pref.edge) prefs)) }
    ensures order { IfOk result (AreInOrder graph.now kept.now) }
    ensures leans { IfOk result (HaveLeans graph.now kept.now) }
    ensures wanted { IfOk result (HaveWanted graph.now kept.now) }
{
    let voted = preferences_with_supports(alloc, graph, kept)?;
    Ok(voted.prefs)
}
