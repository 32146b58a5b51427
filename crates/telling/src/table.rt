//! The open edges of a result, found by their two ASes, and the orders of their labels.

ghost use Rattle.std.specs.Prelude.{◌≡◌, ◌<◌, ◌↔◌, ℕ, Some, length, slice_get, Contains, IsTrue, IfOk};
ghost use Rattle.relationships.specs.Relationship.{is_over};
ghost use Rattle.relationships.specs.Graph.{edge_of};
ghost use Rattle.relationships.specs.declared.mark.Mark.TheVariants as mark;
ghost use Rattle.result_text.specs.declared.file.EdgeLine.{EdgeLine as EdgeLineData};
ghost use Rattle.result_rules.specs.File.{its_edges, its_labels};
ghost use Rattle.result_rules.specs.Rules.{Accepts};
ghost use Rattle.telling.specs.Downs.{HaveLabels, HasOver};
ghost use Rattle.telling.specs.Told.{edge_on};

use crate::goings::{going_by, labels_along};
use crate::told::Going;
use relationships::{Label, Mark};
use result_text::ResultFile;
use std::alloc::Global;
use tor_arena::{Keys, NoMemory};
use tor_numbers::EdgeTable;

/// Edges, found by their two ASes, each with its label in the same place.
#[derive(Drop)]
pub(crate) struct Labelled {
    pub edges: EdgeTable,
    pub labels: Vec<Label>,
}

/// The open edges.
fn edges_in(alloc: Global, keys: Keys, file: &ResultFile) -> Result<EdgeTable, NoMemory>
    requires accepted { Accepts file.now }
    ensures opens { IfOk result (λ table. (line : EdgeLineData) → Contains file.now.edges line → line.mark ≡ mark.Open →
        Contains table (edge_on line)) }
    ensures only { IfOk result (λ table. (e : ℕ × ℕ) → Contains table e → Contains (its_edges file.now) e) }
{
    let mut table = EdgeTable::new(alloc, keys);
    for line in file.edges.as_slice() {
        if line.mark == Mark::Open {
            match table.add(line.low, line.high) {
                Ok(_) => {}
                Err(NoMemory) => {
                    drop(table);
                    return Err(NoMemory);
                }
            }
        }
    }
    Ok(table)
}

/// The open edges, with their labels.
pub(crate) fn labelled_in(
    alloc: Global,
    keys: Keys,
    file: &ResultFile,
) -> Result<Labelled, NoMemory>
    requires accepted { Accepts file.now }
    ensures { IfOk result (λ all. HaveLabels file.now all.edges all.labels.items) }
{
    let edges = edges_in(alloc, keys, file)?;
    match labels_along(alloc, file, &edges) {
        Ok(labels) => {
            prove!(labels.len() == edges.len());
            Ok(Labelled { edges, labels })
        }
        Err(NoMemory) => {
            drop(edges);
            Err(NoMemory)
        }
    }
}

/// Whether the label of the edge in this place, which is that of the two, has the one as the provider of the other.
pub(crate) fn is_over_at(
    file: &ResultFile,
    all: &Labelled,
    place: usize,
    over: u32,
    under: u32,
) -> bool
    requires accepted { Accepts file.now }
    requires labels { HaveLabels file.now all.now.edges all.now.labels.items }
    requires there { slice_get all.now.edges place ≡ Some (edge_of over under) }
    ensures { IsTrue result ↔ IsTrue (is_over (its_labels file.now) over under) }
{
    match going_by(all.labels[place], over, under) {
        Going::Down => true,
        Going::Up => false,
        Going::Flat => false,
    }
}

/// The provider by the label of the edge in a place.
pub(crate) fn over_at(file: &ResultFile, all: &Labelled, place: usize) -> u32
    requires accepted { Accepts file.now }
    requires labels { HaveLabels file.now all.now.edges all.now.labels.items }
    requires there { place < length all.now.edges }
    ensures { (x y : ℕ) → HasOver (its_labels file.now) all.now.edges place x y → result ≡ x }
{
    let (low, high) = all.edges.edge(place);
    match all.labels[place] {
        Label::High => high,
        Label::Low => low,
        Label::Peer => low,
    }
}
