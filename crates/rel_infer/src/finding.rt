//! What is found of the edges of a graph: labels, marks and evidence.
ghost use Rattle.std.specs.Prelude.{◌≡◌, ◌≢◌, ◌≤◌, ◌<◌, All, length, IfOk};
ghost use Rattle.std.specs.List.{AllPairs};
ghost use Rattle.tor_arena.specs.Distinct.{AllDistinct};
ghost use Rattle.tor_arena.specs.Limits.{max_ratio};
ghost use Rattle.relationships.specs.Relationship.{ValleyFree};
ghost use Rattle.relationships.specs.Graph.{edges, labelling};
ghost use Rattle.as_graph.specs.Paths.{paths_at};
ghost use Rattle.tor_clauses.specs.Formulas.{FitsGraph, demands_of};
ghost use Rattle.forced_edges.specs.Marked.{AreExact, AreBorneOut};
ghost use Rattle.rel_infer.specs.Finding.{AreFound};

use crate::edge_lines::edge_lines;
use crate::labelling::labels_of;
use as_graph::{AsGraph, Labels};
use forced_edges::{Marks, forced_in};
use path_select::Selector;
use relationships::{Probe, Walks};
use result_text::EdgeLine;
use std::alloc::Global;
use tor_arena::{ArcId, List, NoMemory, NodeId, PathId};
use tor_digraph::RowDigraph;

/// What is found of the edges of a graph.
#[derive(Drop)]
pub(crate) struct Found {
    /// Their lines.
    pub edges: List<EdgeLine>,
    /// Walks that show why edges are forced.
    pub whys: Walks,
    /// Orders that show that edges are open.
    pub probes: List<Probe>,
}

// The edge lines, with the evidence of the marks.
fn found_by(edges: List<EdgeLine>, marks: Marks) -> Found
    ensures edges { result.edges ≡ edges }
    ensures whys { result.whys ≡ marks.whys }
    ensures probes { result.probes ≡ marks.probes }
{
    Found {
        edges,
        whys: marks.whys,
        probes: marks.probes,
    }
}

// The marks of the edges, where the paths that the selector has kept are kept. The rows are let go.
fn marks_of(
    alloc: Global,
    graph: &AsGraph,
    selector: &Selector,
    rows: RowDigraph<'_, NodeId, ArcId>,
    labels: &Labels,
) -> Result<Marks, NoMemory>
    requires fits { FitsGraph graph.now selector.now.formula }
    requires rows { rows ≡ selector.now.formula.net }
    requires count { length labels.now ≡ length (edges graph.now) }
    requires free { All (ValleyFree (labelling (edges graph.now) labels.now)) (demands_of graph.now selector.now.formula) }
    ensures many { IfOk result (λ m. length m.marks ≡ length (edges graph.now)) }
    ensures marks { IfOk result (AreExact graph.now selector.now.formula labels.now) }
    ensures evidence { IfOk result (AreBorneOut graph.now selector.now.formula labels.now) }
{
    forced_in(alloc, &selector.fitted(graph), &rows, labels)
}

/// What is found of the edges of a graph, where the paths that the selector has kept are kept, and `counted` of them vote and are
/// counted. The only error is that memory ran out.
pub(crate) fn found_in(
    alloc: Global,
    graph: &AsGraph,
    selector: &Selector,
    counted: &[PathId],
    ratio: u32,
) -> Result<Found, NoMemory>
    requires fits { FitsGraph graph.now selector.now.formula }
    requires apart { AllPairs ◌≢◌ selector.now.formula.paths }
    requires there { All (λ path. path < length graph.now) counted.now }
    requires once { AllPairs ◌≢◌ counted.now }
    requires distinct { All AllDistinct (paths_at graph.now counted.now) }
    requires small { ratio ≤ max_ratio }
    ensures { IfOk result (AreFound ratio graph.now selector.now.formula counted.now) }
{
    let rows = selector.clauses().digraph().in_rows(alloc)?;
    let labelled = match labels_of(alloc, graph, selector, &rows, counted, ratio) {
        Ok(labelled) => labelled,
        Err(NoMemory) => {
            drop(rows);
            return Err(NoMemory);
        }
    };
    let found = match marks_of(alloc, graph, selector, rows, &labelled.labels) {
        Ok(found) => found,
        Err(NoMemory) => {
            drop(labelled);
            return Err(NoMemory);
        }
    };
    let lines = edge_lines(
        alloc,
        graph,
        &labelled.labels,
        found.marks.as_slice(),
        labelled.supports.as_slice(),
    );
    drop(labelled);
    match lines {
        Ok(edges) => Ok(found_by(edges, found)),
        Err(NoMemory) => {
            drop(found);
            Err(NoMemory)
        }
    }
}
