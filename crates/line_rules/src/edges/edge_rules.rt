//! The rules on edge lines.
ghost use Rattle.std.specs.Prelude.{◌≡◌, ◌↔◌, ◌+◌, ◌<◌, ◌≤◌, ◌++◌, ◌∷◌, [], fold, length, map, slice_get, IsTrue, IfOk, IfNone, OnOk};
ghost use Rattle.tor_arena.specs.Limits.{most_places, max_numbers};
ghost use Rattle.relationships.specs.Graph.{edge_of, edges_on, edges};
ghost use Rattle.result_rules.specs.File.{its_paths, its_edges, HasFewLines};
ghost use Rattle.result_rules.specs.declared.rule.Rule.{Rule};
ghost use Rattle.line_rules.specs.PathSteps.{IsCodedStep, AreCodedSteps, HaveCodedSteps};
ghost use Rattle.result_rules.specs.Rules.{IsMet};
ghost use Rattle.tor_numbers.specs.Edges.{with_edge};
ghost use Rattle.line_rules.specs.GivenLabels.{ServedAt};
ghost use Rattle.line_rules.specs.Breaches.{First, FindsBreach};

use crate::edges::given_labels::find_contradicted;
use crate::edges::labels::Labels;
use crate::edges::step::{Step, end_left};
use crate::edges::supports::count_kept;
use crate::edges::valleys::is_served;
use crate::lending::{givens_of, path_line_at, steps_at};
use result_text::{EdgeLine, ResultFile};
use std::alloc::Global;
use tor_arena::{Keys, List, NoMemory, PathId, RowRefused, Rows};
use tor_numbers::EdgeTable;

/// The edges of the paths, in order of first appearance, and the steps of each path. The keys are those of a hash table, and no answer
/// depends on them. NoMemory where memory ran out.
pub fn list_edges(
    alloc: Global,
    keys: Keys,
    file: &ResultFile,
) -> Result<(EdgeTable, Rows<PathId, Step>), NoMemory>
    requires { IsMet file.now Rule.PathsCleaned }
    ensures edges { IfOk result (λ listed. listed.0 ≡ edges (its_paths file.now)) }
    ensures steps { IfOk result (λ listed. HaveCodedSteps listed.0 (its_paths file.now) listed.1) }
{
    let mut table = EdgeTable::new(alloc, keys);
    let mut rows = Rows::new(alloc);
    match add_paths(alloc, file, &mut table, &mut rows) {
        Ok(()) => Ok((table, rows)),
        Err(NoMemory) => {
            drop(table);
            drop(rows);
            Err(NoMemory)
        }
    }
}

/// Adds the edges along the paths, and the steps of each, where there are no others.
fn add_paths(
    alloc: Global,
    file: &ResultFile,
    table: &mut EdgeTable,
    rows: &mut Rows<PathId, Step>,
) -> Result<(), NoMemory>
    requires clean { IsMet file.now Rule.PathsCleaned }
    requires no_edges { table.old ≡ [] }
    requires no_rows { rows.old ≡ [] }
    ensures edges { OnOk result (table.new ≡ edges (its_paths file.now)) }
    ensures steps { OnOk result (HaveCodedSteps table.new (its_paths file.now) rows.new) }
{
    rows.reserve(file.paths.len(), file.paths.paths().item_count())?;
    let mut steps = List::new(alloc);
    for place in 0..file.paths.len() {
        let line = path_line_at(&file.paths, place);
        steps.clear();
        add_steps(table, &mut steps, line.path())?;
        add_row(rows, steps.as_slice())?;
    }
    Ok(())
}

/// Adds a row, where there are not too many.
fn add_row(rows: &mut Rows<PathId, Step>, steps: &[Step]) -> Result<(), NoMemory>
    requires { length rows.old < most_places }
    ensures { OnOk result (rows.new ≡ rows.old ++ steps.now ∷ []) }
{
    match rows.push_row(steps) {
        Ok(_) => Ok(()),
        Err(RowRefused::NoMemory) => Err(NoMemory),
        Err(RowRefused::Full) => unreachable!(),
    }
}

/// Adds the edges along a path, and its steps, where there are no others.
fn add_steps(table: &mut EdgeTable, steps: &mut List<Step>, path: &[u32]) -> Result<(), NoMemory>
    requires room { length table.old + length path.now ≤ max_numbers }
    requires empty { steps.old ≡ [] }
    ensures edges { OnOk result (table.new ≡ fold with_edge table.old (edges_on path.now)) }
    ensures steps { OnOk result (AreCodedSteps table.new path.now steps.new) }
{
    for at in 1..path.len() {
        let step = add_step(table, path[at - 1], path[at])?;
        steps.push(step)?;
    }
    Ok(())
}

/// Adds the edge between two ASes, and answers the step from the first to the second.
fn add_step(table: &mut EdgeTable, from: u32, to: u32) -> Result<Step, NoMemory>
    requires room { length table.old < max_numbers }
    ensures edge { OnOk result (table.new ≡ with_edge table.old (edge_of from to)) }
    ensures step { IfOk result (IsCodedStep table.new from to) }
{
    let added = table.add(from, to)?;
    Ok(Step::new(added.place, end_left(from, to)))
}

/// The first place in which the edge lines and the edges of the paths, which the table has, differ; none where rule 5 is met. It takes no
/// memory.
pub fn find_unlisted(file: &ResultFile, table: &EdgeTable) -> Option<usize>
    requires { table.now ≡ edges (its_paths file.now) }
    ensures found { FindsBreach file.now Rule.EdgesListed result }
    ensures listed { IfNone result (its_edges file.now ≡ table.now) }
{
    let lines = file.edges.as_slice();
    let count = lines.len().max(table.len());
    for place in 0..count {
        if !is_listed(lines, table, place) {
            return Some(place);
        }
    }
    None
}

/// Whether the edge line in a place names the edge in that place, or there is neither.
fn is_listed(lines: &[EdgeLine], table: &EdgeTable, place: usize) -> bool
    ensures { IsTrue result ↔ (slice_get (map (λ e. (e.low, e.high)) lines.now) place ≡ slice_get table.now place) }
{
    match (lines.get(place), table.get(place)) {
        (Some(line), Some((low, high))) => line.low == low && line.high == high,
        (None, None) => true,
        _ => false,
    }
}

/// The place of the first edge line whose support is not the number of kept paths that hold the edge, by the steps of the paths; none
/// where rule 7 is met. NoMemory where memory ran out.
pub fn find_miscounted(
    alloc: Global,
    file: &ResultFile,
    steps: &Rows<PathId, Step>,
) -> Result<Option<usize>, NoMemory>
    requires clean { IsMet file.now Rule.PathsCleaned }
    requires listed { IsMet file.now Rule.EdgesListed }
    requires steps { HaveCodedSteps (its_edges file.now) (its_paths file.now) steps.now }
    ensures { IfOk result (FindsBreach file.now Rule.SupportCounted) }
{
    let counts = count_kept(alloc, file, steps)?;
    for (place, line) in file.edges.as_slice().iter().enumerate() {
        if line.support != counts[place] {
            return Ok(Some(place));
        }
    }
    Ok(None)
}

/// The first kept path that is not valley-free under the labels. It takes no memory.
fn find_unserved(
    file: &ResultFile,
    labels: &Labels<'_>,
    steps: &Rows<PathId, Step>,
) -> Option<usize>
    requires labels { labels.now ≡ file.now.edges }
    requires clean { IsMet file.now Rule.PathsCleaned }
    requires listed { IsMet file.now Rule.EdgesListed }
    requires steps { HaveCodedSteps (its_edges file.now) (its_paths file.now) steps.now }
    ensures { First (ServedAt file.now) (length file.now.paths) result }
{
    for place in 0..file.paths.len() {
        let line = path_line_at(&file.paths, place);
        if !is_served(labels, &line, steps_at(steps, place)) {
            return Some(place);
        }
    }
    None
}

/// The first line that the labels don't serve: a kept path with a valley, and where there is none an edge line whose label
/// contradicts a given, so that the given's return is a valley. The edge lines stand behind the path lines. None where rule 6 is met. It
/// takes no memory.
pub fn find_valley(
    file: &ResultFile,
    table: &EdgeTable,
    labels: &Labels<'_>,
    steps: &Rows<PathId, Step>,
) -> Option<usize>
    requires lines { HasFewLines file.now }
    requires table { table.now ≡ its_edges file.now }
    requires labels { labels.now ≡ file.now.edges }
    requires clean { IsMet file.now Rule.PathsCleaned }
    requires listed { IsMet file.now Rule.EdgesListed }
    requires steps { HaveCodedSteps (its_edges file.now) (its_paths file.now) steps.now }
    ensures { FindsBreach file.now Rule.LabelsServe result }
{
    if let Some(place) = find_unserved(file, labels, steps) {
        return Some(place);
    }
    match find_contradicted(givens_of(file), table, labels) {
        Some(place) => Some(file.paths.len() + place),
        None => None,
    }
}
