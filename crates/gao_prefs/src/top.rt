//! The top of a path.
ghost use Rattle.std.specs.Prelude.{◌≡◌, ◌<◌, ◌≤◌, All, length};
ghost use Rattle.relationships.specs.Preference.{top_of};
ghost use Rattle.gao_prefs.specs.Ends.{along};

use crate::per_end::{PerEnd, other_end};
use as_graph::Step;
use tor_arena::Index;

/// The place of the top of the path with these steps, which is its leftmost AS of highest degree, from the degrees of the ends of
/// all edges.
pub(crate) fn top_place(steps: &[Step], degrees: &[PerEnd]) -> usize
    requires inside { All (λ step. step.edge < length degrees.now) steps.now }
    ensures top { result ≡ top_of (λ degree. degree) (along degrees.now steps.now) }
    ensures within { result ≤ length steps.now }
{
    let Some(first) = steps.first() else {
        return 0;
    };
    let mut top = 0;
    let mut highest = degrees[first.edge().place()].of(first.left());
    for place in 0..steps.len() {
        let step = &steps[place];
        let reached = degrees[step.edge().place()].of(other_end(step.left()));
        if highest < reached {
            highest = reached;
            top = place + 1;
        }
    }
    top
}
