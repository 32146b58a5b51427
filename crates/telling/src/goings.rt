//! How the steps of a path go under the labels of a result.

ghost use Rattle.std.specs.Prelude.{◌≡◌, ◌≢◌, ◌+◌, ℕ, length, map, slice_get, Some, Contains, IfOk, OnOk};
ghost use Rattle.relationships.specs.Relationship.{Labelling, slope, slopes};
ghost use Rattle.relationships.specs.Graph.{edge_of};
ghost use Rattle.result_text.specs.declared.file.ResultFile.{ResultFile as ResultFileData};
ghost use Rattle.result_rules.specs.File.{its_labels, its_paths};
ghost use Rattle.result_rules.specs.Rules.{Accepts};
ghost use Rattle.telling.specs.Labelling.{HasEdgesTo, HaveLabelsTo};
ghost use Rattle.telling.specs.Told.{going_of};

use crate::told::Going;
use relationships::Label;
use result_text::{EdgeLine, ResultFile};
use std::alloc::Global;
use tor_arena::{Keys, List, NoMemory};
use tor_numbers::EdgeTable;

/// How the step from one AS to another goes, by the label of their edge.
pub(crate) fn going_by(label: Label, from: u32, to: u32) -> Going
    ensures { (L : Labelling) → from ≢ to → L (edge_of from to).0 (edge_of from to).1 ≡ label → result ≡ going_of (slope L from to) }
{
    match label {
        Label::Peer => Going::Flat,
        Label::Low => { if from < to { Going::Down } else { Going::Up } }
        Label::High => { if from < to { Going::Up } else { Going::Down } }
    }
}

/// Adds the edges along a path.
fn add_edges(path: &[u32], table: &mut EdgeTable) -> Result<(), NoMemory>
    ensures { OnOk result (HasEdgesTo path.now (length path.now) table.new) }
{
    for at in 1..path.len() {
        table.add(path[at - 1], path[at])?;
    }
    Ok(())
}

/// The edges along a path.
fn edges_along(alloc: Global, keys: Keys, path: &[u32]) -> Result<EdgeTable, NoMemory>
    ensures { IfOk result (HasEdgesTo path.now (length path.now)) }
{
    let mut table = EdgeTable::new(alloc, keys);
    match add_edges(path, &mut table) {
        Ok(()) => Ok(table),
        Err(NoMemory) => {
            drop(table);
            Err(NoMemory)
        }
    }
}

/// Puts the label of a line into the place of its edge, if the table has that.
fn put_label(labels: &mut Vec<Label>, table: &EdgeTable, line: &EdgeLine)
    requires many { length labels.old.items ≡ length table.now }
    ensures many { length labels.new.items ≡ length table.now }
    ensures put { (file : ResultFileData) (k : ℕ) → Accepts file → slice_get file.edges k ≡ Some line.now →
        HaveLabelsTo (its_labels file) file.edges k table.now labels.old.items →
        HaveLabelsTo (its_labels file) file.edges (k + 1) table.now labels.new.items }
{
    let Some(place) = table.place(line.low, line.high) else {
        return;
    };
    labels[place] = line.label;
}

/// So many labels of peers.
fn peer_labels(alloc: Global, count: usize) -> Result<Vec<Label>, NoMemory>
    ensures { IfOk result (λ labels. length labels.items ≡ count) }
{
    let mut labels = Vec::with_capacity(alloc, count)?;
    for _ in 0..count {
        labels.push_reserved(Label::Peer);
    }
    Ok(labels)
}

/// The labels of the edges of a table, in their order, and of one that no line names that of peers.
pub(crate) fn labels_along(
    alloc: Global,
    file: &ResultFile,
    table: &EdgeTable,
) -> Result<Vec<Label>, NoMemory>
    requires accepted { Accepts file.now }
    ensures many { IfOk result (λ labels. length labels.items ≡ length table.now) }
    ensures labels { IfOk result (λ labels.
        HaveLabelsTo (its_labels file.now) file.now.edges (length file.now.edges) table.now labels.items) }
{
    let mut labels = peer_labels(alloc, table.len())?;
    for line in file.edges.as_slice() {
        put_label(&mut labels, table, line);
    }
    Ok(labels)
}

/// How the steps of a path of the result go under its labels, by the labels of the edges of a table that has its edges.
fn goings_along(
    alloc: Global,
    file: &ResultFile,
    table: &EdgeTable,
    path: &[u32],
) -> Result<List<Going>, NoMemory>
    requires accepted { Accepts file.now }
    requires there { Contains (its_paths file.now) path.now }
    requires edges { HasEdgesTo path.now (length path.now) table.now }
    ensures { IfOk result (λ goings. goings ≡ map going_of (slopes (its_labels file.now) path.now)) }
{
    let labels = labels_along(alloc, file, table)?;
    let mut goings = List::new(alloc);
    for at in 1..path.len() {
        let Some(place) = table.place(path[at - 1], path[at]) else {
            unreachable!();
        };
        match goings.push(going_by(labels[place], path[at - 1], path[at])) {
            Ok(()) => {}
            Err(NoMemory) => {
                drop(labels);
                drop(goings);
                return Err(NoMemory);
            }
        }
    }
    drop(labels);
    Ok(goings)
}

/// How the steps of a path of the result go under its labels. The keys are those of a hash table, and no answer depends on them. NoMemory
/// where memory ran out.
pub(crate) fn goings_of(
    alloc: Global,
    keys: Keys,
    file: &ResultFile,
    path: &[u32],
) -> Result<List<Going>, NoMemory>
    requires accepted { Accepts file.now }
    requires there { Contains (its_paths file.now) path.now }
    ensures { IfOk result (λ goings. goings ≡ map going_of (slopes (its_labels file.now) path.now)) }
{
    let table = edges_along(alloc, keys, path)?;
    let goings = goings_along(alloc, file, &table, path);
    drop(table);
    goings
}
