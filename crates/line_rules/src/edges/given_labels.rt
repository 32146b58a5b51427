//! Whether the labels of edge lines say what is given.
ghost use Rattle.std.specs.Prelude.{◌≡◌, ◌↔◌, ◌<◌, length, IsTrue};
ghost use Rattle.relationships.specs.Relationship.{label_of};
ghost use Rattle.relationships.specs.Givens.{end_by};
ghost use Rattle.line_rules.specs.EdgeLines.{edges_of, AreApart};
ghost use Rattle.line_rules.specs.GivenLabels.{HasLabelAt, HasLabelsAt, lesser_place};
ghost use Rattle.line_rules.specs.Breaches.{First};

use crate::edges::labels::Labels;
use relationships::{Given, Label};
use tor_numbers::EdgeTable;

/// The first edge line whose label contradicts a given of its two ASes. It takes no memory.
pub(crate) fn find_contradicted(
    givens: &[Given],
    table: &EdgeTable,
    labels: &Labels<'_>,
) -> Option<usize>
    requires table { table.now ≡ edges_of labels.now }
    requires apart { AreApart labels.now }
    ensures { First (HasLabelsAt labels.now givens.now) (length labels.now) result }
{
    let mut first = None;
    for given in givens {
        first = lesser_place(first, contradicted_by(given, table, labels));
    }
    first
}

/// The edge line whose label contradicts a given, if there is one. It takes no memory.
fn contradicted_by(given: &Given, table: &EdgeTable, labels: &Labels<'_>) -> Option<usize>
    requires table { table.now ≡ edges_of labels.now }
    requires apart { AreApart labels.now }
    ensures { First (HasLabelAt labels.now given.now) (length labels.now) result }
{
    let Some(place) = table.place(given.over, given.under) else {
        return None;
    };
    if has_provider(labels.of(place), given) {
        None
    } else {
        Some(place)
    }
}

/// Whether a label has the provider of a given.
fn has_provider(label: Label, given: &Given) -> bool
    ensures { IsTrue result ↔ (label ≡ label_of (end_by given.now.over given.now.under)) }
{
    match label {
        Label::Low => given.over < given.under,
        Label::High => given.over >= given.under,
        Label::Peer => false,
    }
}

/// The lesser_place of two places, if there is one.
fn lesser_place(first: Option<usize>, second: Option<usize>) -> Option<usize>
    ensures { result ≡ lesser_place first second }
{
    match (first, second) {
        (None, _) => second,
        (Some(_), None) => first,
        (Some(a), Some(b)) => Some(a.min(b)),
    }
}
