//! Whether a path is valley-free.
ghost use Rattle.std.specs.Prelude.{◌≡◌, ◌↔◌, ◌<◌, ℕ, All, List, length, IsTrue};
ghost use Rattle.relationships.specs.Relationship.{Labelling, slopes, ValleyFree};
ghost use Rattle.relationships.specs.Graph.{edges, labelling};
ghost use Rattle.relationships.specs.Steps.{is_up, is_down, step_slope};
ghost use Rattle.as_graph.specs.Paths.{path_at};
ghost use Rattle.as_graph.specs.Steps.{slopes_by};

use as_graph::{AsGraph, Labels, Step};
use relationships::{End, Label};
use tor_arena::{Index, PathId};

/// Whether a path of the graph, which has to be there, is valley-free under the labels, one for each edge: its steps go up to
/// providers, then across at most one peering, then down to customers. It takes no memory.
pub fn is_valley_free(graph: &AsGraph, labels: &Labels, path: PathId) -> bool
    requires labels { length labels.now ≡ length (edges graph.now) }
    requires there { path < length graph.now }
    ensures { IsTrue result ↔ ValleyFree (labelling (edges graph.now) labels.now) (path_at graph.now path) }
{
    graph.facts();
    are_free(graph.steps(path), labels.as_slice())
}

/// Whether the path with these steps is valley-free under the labels.
fn are_free(steps: &[Step], labels: &[Label]) -> bool
    requires { All (λ s. s.edge < length labels.now) steps.now }
    ensures { (L : Labelling) (path : List ℕ) → slopes L path ≡ slopes_by labels.now steps.now → IsTrue result ↔ ValleyFree L path }
{
    let mut falling = false;
    for step in steps {
        let label = labels[step.edge().place()];
        if goes_down(label, step.left()) {
            falling = true;
            continue;
        }
        if falling {
            return false;
        }
        falling = !goes_up(label, step.left());
    }
    true
}

/// Whether the step from this end of an edge with this label goes to a provider.
fn goes_up(label: Label, left: End) -> bool
    ensures { result ≡ is_up (step_slope label left) }
{
    matches!(
        (label, left),
        (Label::Low, End::High) | (Label::High, End::Low)
    )
}

/// Whether the step from this end of an edge with this label goes to a customer.
fn goes_down(label: Label, left: End) -> bool
    ensures { result ≡ is_down (step_slope label left) }
{
    matches!(
        (label, left),
        (Label::Low, End::Low) | (Label::High, End::High)
    )
}
