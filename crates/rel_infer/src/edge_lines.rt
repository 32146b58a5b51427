//! The edge lines of a result.
ghost use Rattle.std.specs.Prelude.{◌≡◌, length, IfOk};
ghost use Rattle.relationships.specs.Graph.{edges};
ghost use Rattle.rel_infer.specs.EdgeLines.{AreLinesOf};

use as_graph::{AsGraph, Labels};
use relationships::Mark;
use result_text::EdgeLine;
use std::alloc::Global;
use tor_arena::{EdgeId, Index, List, NoMemory, reserve};

/// A line for each edge of a graph, with its label, its mark and its support. There has to be one of each for each edge. The only error
/// is that memory ran out.
pub(crate) fn edge_lines(
    alloc: Global,
    graph: &AsGraph,
    labels: &Labels,
    marks: &[Mark],
    supports: &[u32],
) -> Result<List<EdgeLine>, NoMemory>
    requires labels { length labels.now ≡ length (edges graph.now) }
    requires marks { length marks.now ≡ length (edges graph.now) }
    requires supports { length supports.now ≡ length (edges graph.now) }
    ensures { IfOk result (AreLinesOf (edges graph.now) labels.now marks.now supports.now) }
{
    let labels = labels.as_slice();
    let mut lines = Vec::with_capacity(alloc, graph.edge_count())?;
    for place in 0..graph.edge_count() {
        let edge = graph.edge(EdgeId::from_place(place).unwrap());
        let line = EdgeLine {
            low: edge.low,
            high: edge.high,
            label: labels[place],
            mark: marks[place],
            support: u64::from(supports[place]),
        };
        reserve(&mut lines, 1)?;
        lines.push_reserved(line);
    }
    Ok(List::from_vec(lines))
}
