//! Which edges no kept path would let be a peering.
//!
//! On a kept path only the last step up and the first step down can be flat. All other edges are excluded in one pass, which keeps the
//! search linear.
ghost use Rattle.std.specs.Prelude.{◌≡◌, ◌<◌, ◌⊎◌, ◌↔◌, ℕ, false, All, length, slice_index_or, IsTrue, IfOk};
ghost use Rattle.relationships.specs.Relationship.{label_of};
ghost use Rattle.relationships.specs.Graph.{edges};
ghost use Rattle.relationships.specs.Steps.{is_up, step_slope};
ghost use Rattle.peering.specs.Exclusions.{goes_up, IsOneExcluded, ExcludedOn, IsExcluded, AllExcluded};

use as_graph::{AsGraph, Step};
use relationships::End;
use std::alloc::Global;
use tor_arena::{EdgeId, Index, NoMemory, PathId};

/// Whether a step from the end `left` of an edge goes up, where the provider is the end `over`.
fn climbs(over: End, left: End) -> bool
    ensures { result ≡ is_up (step_slope (label_of over) left) }
{
    over != left
}

/// Whether a step goes up.
fn is_climb(step: &Step, ends: &[End]) -> bool
    requires { step.now.edge < length ends.now }
    ensures { result ≡ goes_up ends.now step.now }
{
    climbs(ends[step.edge().place()], step.left())
}

/// Excludes the edge of the first of two steps if both go up, and that of the second if both go down.
fn exclude_pair(excluded: &mut Vec<bool>, first: EdgeId, second: EdgeId, up: bool, next_up: bool)
    requires first { first < length excluded.old.items }
    requires second { second < length excluded.old.items }
    ensures long { length excluded.new.items ≡ length excluded.old.items }
    ensures excluded { (k : ℕ) → IsTrue (slice_index_or excluded.new.items k false) ↔
        (IsTrue (slice_index_or excluded.old.items k false) ⊎ IsOneExcluded up next_up first second k) }
{
    let edge = if up { first } else { second };
    let was = excluded[edge.place()];
    // no branch waits for how the steps go
    excluded[edge.place()] = was || up == next_up;
}

/// Excludes the edges along a path with these steps that are neither that of the last step up nor that of the first down.
fn exclude_along(excluded: &mut Vec<bool>, steps: &[Step], ends: &[End])
    requires long { length excluded.old.items ≡ length ends.now }
    requires inside { All (λ step. step.edge < length ends.now) steps.now }
    ensures long { length excluded.new.items ≡ length ends.now }
    ensures excluded { (k : ℕ) → IsTrue (slice_index_or excluded.new.items k false) ↔
        (IsTrue (slice_index_or excluded.old.items k false) ⊎ ExcludedOn ends.now steps.now k) }
{
    if steps.is_empty() {
        return;
    }
    let mut up = is_climb(&steps[0], ends);
    for at in 1..steps.len() {
        let next_up = is_climb(&steps[at], ends);
        exclude_pair(
            excluded,
            steps[at - 1].edge(),
            steps[at].edge(),
            up,
            next_up,
        );
        up = next_up;
    }
}

/// For each edge whether it is neither that of the last step up nor that of the first down on some kept path, so that it can be no
/// peering. The only error is that memory ran out.
pub(crate) fn exclusions(
    alloc: Global,
    graph: &AsGraph,
    kept: &[PathId],
    ends: &[End],
) -> Result<Vec<bool>, NoMemory>
    requires there { All (λ path. path < length graph.now) kept.now }
    requires ends { length ends.now ≡ length (edges graph.now) }
    ensures long { IfOk result (λ excluded. length excluded.items ≡ length (edges graph.now)) }
    ensures excluded { IfOk result (λ excluded. (k : ℕ) → IsTrue (slice_index_or excluded.items k false) →
        IsExcluded graph.now kept.now ends.now k) }
    ensures all { IfOk result (λ excluded. AllExcluded graph.now kept.now ends.now excluded.items) }
{
    let mut excluded = Vec::new(alloc);
    excluded.resize(ends.len(), false)?;
    for path in kept {
        exclude_along(&mut excluded, graph.steps(*path), ends);
    }
    Ok(excluded)
}
