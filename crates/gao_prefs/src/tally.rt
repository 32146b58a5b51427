//! The votes of kept paths.
ghost use Rattle.std.specs.Prelude.{◌≡◌, ◌≢◌, ◌+◌, ◌<◌, ◌≤◌, ◌^◌, ◌&&◌, ℕ, All, length, map, count_by, nat_eq, if◌then◌else◌, IfOk};
ghost use Rattle.std.specs.List.{AllPairs};
ghost use Rattle.relationships.specs.declared.label.End.{End};
ghost use Rattle.tor_arena.specs.Distinct.{AllDistinct};
ghost use Rattle.relationships.specs.Graph.{edges, degree};
ghost use Rattle.as_graph.specs.Limits.{most_paths, most_numbers};
ghost use Rattle.as_graph.specs.Paths.{paths_at};
ghost use Rattle.gao_prefs.specs.Limits.{most_votes};
ghost use Rattle.gao_prefs.specs.Ends.{same_end, number_at, degrees_of, is_vote, ballots, votes_of};

use crate::per_end::{PerEnd, other_end};
use crate::top::top_place;
use as_graph::{AsGraph, Step};
use relationships::End;
use std::alloc::Global;
use tor_arena::{EdgeId, Index, NoMemory, PathId};

/// Counts one vote more for an end of an edge.
fn vote(votes: &mut Vec<PerEnd>, edge: EdgeId, end: End)
    requires there { edge < length votes.old.items }
    requires small { number_at votes.old.items edge end < most_votes }
    ensures length { length votes.new.items ≡ length votes.old.items }
    ensures counted { (k : ℕ) (e : End) →
        number_at votes.new.items k e ≡ number_at votes.old.items k e + (if nat_eq edge k && same_end end e then 1 else 0) }
{
    let votes = &mut votes[edge.place()];
    // without a branch, as no processor guesses which end it is
    let is_low = end == End::Low;
    votes.low += u32::from(is_low);
    votes.high += u32::from(!is_low);
}

/// Votes for the AS that each step reaches, if these steps climb, and else for the AS that each leaves.
fn vote_each(votes: &mut Vec<PerEnd>, steps: &[Step], climbing: bool)
    requires inside { All (λ step. step.edge < length votes.old.items) steps.now }
    requires small { (k : ℕ) (e : End) → number_at votes.old.items k e ≤ 2 ^ 30 }
    requires few { length steps.now ≤ most_numbers }
    ensures length { length votes.new.items ≡ length votes.old.items }
    ensures counted { (k : ℕ) (e : End) →
        number_at votes.new.items k e ≡ number_at votes.old.items k e + count_by (is_vote climbing k e) steps.now }
{
    for step in steps {
        let end = if climbing {
            other_end(step.left())
        } else {
            step.left()
        };
        vote(votes, step.edge(), end);
    }
}

/// Votes as a kept path with these steps does: up to its top for the AS that a step reaches, and behind it for the AS that a step
/// leaves.
fn vote_path(votes: &mut Vec<PerEnd>, steps: &[Step], degrees: &[PerEnd])
    requires inside { All (λ step. step.edge < length votes.old.items) steps.now }
    requires known { length degrees.now ≡ length votes.old.items }
    requires small { (k : ℕ) (e : End) → number_at votes.old.items k e ≤ 2 ^ 29 }
    requires few { length steps.now ≤ most_numbers }
    ensures length { length votes.new.items ≡ length votes.old.items }
    ensures counted { (k : ℕ) (e : End) →
        number_at votes.new.items k e ≡ number_at votes.old.items k e + ballots degrees.now steps.now k e }
{
    let top = top_place(steps, degrees);
    vote_each(votes, &steps[..top], true);
    vote_each(votes, &steps[top..], false);
}

/// The votes of the kept paths for the two ends of each edge, in the order of the edges. The only error is that memory ran out.
pub(crate) fn count_votes(
    alloc: Global,
    graph: &AsGraph,
    kept: &[PathId],
    degrees: &[PerEnd],
) -> Result<Vec<PerEnd>, NoMemory>
    requires there { All (λ path. path < length graph.now) kept.now }
    requires once { AllPairs ◌≢◌ kept.now }
    requires distinct { All AllDistinct (paths_at graph.now kept.now) }
    requires known { degrees.now ≡ map (degrees_of graph.now) (edges graph.now) }
    ensures counted { IfOk result (λ votes.
        votes.items ≡ map (votes_of (degree graph.now) (paths_at graph.now kept.now)) (edges graph.now)) }
    ensures small { IfOk result (λ votes. (k : ℕ) (e : End) → number_at votes.items k e ≤ most_paths) }
{
    graph.facts();
    let mut votes = Vec::new(alloc);
    votes.resize(graph.edge_count(), PerEnd { low: 0, high: 0 })?;
    for path in kept {
        vote_path(&mut votes, graph.steps(*path), degrees);
    }
    Ok(votes)
}
