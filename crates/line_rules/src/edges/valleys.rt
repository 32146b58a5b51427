//! Whether kept paths are valley-free.
ghost use Rattle.std.specs.Prelude.{◌≡◌, ◌↔◌, ◌<◌, ℕ, All, List, length, IsTrue};
ghost use Rattle.result_text.specs.EdgeLabels.{labels_in};
ghost use Rattle.tor_arena.specs.Distinct.{AllDistinct};
ghost use Rattle.relationships.specs.Relationship.{Labelling, slopes, ValleyFree};
ghost use Rattle.relationships.specs.declared.fate.Fate.TheVariants.{Kept};
ghost use Rattle.relationships.specs.Steps.{step_slope, is_up, is_down};
ghost use Rattle.line_rules.specs.EdgeLines.{edges_of, AreApart};
ghost use Rattle.line_rules.specs.PathSteps.{place_in, AreCodedSteps, line_slopes};

use crate::edges::labels::Labels;
use crate::edges::step::Step;
use relationships::{End, Label};
use result_text::PathLineRef;

/// Whether a path with these steps is valley-free under the labels, if it is kept. It takes no memory.
pub(crate) fn is_served(labels: &Labels<'_>, line: &PathLineRef<'_>, steps: &[Step]) -> bool
    requires apart { AreApart labels.now }
    requires distinct { AllDistinct line.now.path }
    requires steps { AreCodedSteps (edges_of labels.now) line.now.path steps.now }
    ensures { IsTrue result ↔ (line.now.fate ≡ Kept → ValleyFree (labels_in labels.now) line.now.path) }
{
    !line.is_kept() || is_valley_free(labels, steps)
}

/// Whether the steps go up and then down, with at most one flat one between. The path falls from the first that doesn't go up.
fn is_valley_free(labels: &Labels<'_>, steps: &[Step]) -> bool
    requires { All (λ s. place_in s < length labels.now) steps.now }
    ensures { (L : Labelling) (path : List ℕ) → slopes L path ≡ line_slopes labels.now steps.now → IsTrue result ↔ ValleyFree L path }
{
    let mut falling = false;
    for step in steps {
        let label = labels.of(step.place());
        if falling && !goes_down(label, step.left()) {
            return false;
        }
        falling = !goes_up(label, step.left());
    }
    true
}

/// Whether the step from this end of an edge with this label goes to a provider.
fn goes_up(label: Label, left: End) -> bool
    ensures { result ≡ is_up (step_slope label left) }
{
    matches!(
        (label, left),
        (Label::Low, End::High) | (Label::High, End::Low)
    )
}

/// Whether the step from this end of an edge with this label goes to a customer.
fn goes_down(label: Label, left: End) -> bool
    ensures { result ≡ is_down (step_slope label left) }
{
    matches!(
        (label, left),
        (Label::Low, End::Low) | (Label::High, End::High)
    )
}
