//! The open edges of a table.
ghost use Rattle.std.specs.Prelude.{◌≡◌, length, map, IfOk};
ghost use Rattle.relationships.specs.Relationship.{label_of};
ghost use Rattle.relationships.specs.Graph.{edges};
ghost use Rattle.tor_clauses.specs.Formulas.{demands_of, MeetsDemands};
ghost use Rattle.ties.specs.Tied.{AreMarks};

use crate::laws::marks_law;
use as_graph::{Labels, Orientation};
use forced_edges::forced;
use relationships::{End, Label, Mark};
use std::alloc::Global;
use tor_arena::{List, NoMemory};
use tor_clauses::Fitted;

/// The label that has this provider.
fn label_by(end: End) -> Label
    ensures { result ≡ label_of end }
{
    match end {
        End::Low => Label::Low,
        End::High => Label::High,
    }
}

/// The labels that have these providers, no peerings.
fn labels_by(alloc: Global, ends: &[End]) -> Result<Labels, NoMemory>
    ensures { IfOk result (λ labels. labels ≡ map label_of ends.now) }
{
    let mut labels = Vec::with_capacity(alloc, ends.len())?;
    for end in ends {
        labels.push(label_by(*end))?;
    }
    Labels::from_slice(alloc, labels.as_slice())
}

/// The marks of the edges, by an orientation that serves the paths of the clauses. Which edges are forced is the same under all labels
/// under which these paths are valley-free, and those with its providers are had
/// without a search. The only error is that memory ran out.
pub fn marks_of(
    alloc: Global,
    fitted: &Fitted<'_>,
    orientation: &Orientation,
) -> Result<List<Mark>, NoMemory>
    requires many { length orientation.now ≡ length (edges fitted.now.graph) }
    requires served { MeetsDemands fitted.now.graph fitted.now.formula orientation.now }
    ensures { IfOk result (AreMarks (demands_of fitted.now.graph fitted.now.formula) (edges fitted.now.graph)) }
{
    fitted.facts();
    marks_law();
    let labels = labels_by(alloc, orientation.as_slice())?;
    let found = forced(alloc, fitted, &labels)?;
    Ok(found.marks)
}
