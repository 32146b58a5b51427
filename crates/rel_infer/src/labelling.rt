//! The labels of the edges, and how many paths hold each.
ghost use Rattle.std.specs.Prelude.{◌≡◌, ◌≢◌, ◌≤◌, ◌<◌, All, length, map, IfOk};
ghost use Rattle.std.specs.List.{AllPairs};
ghost use Rattle.tor_arena.specs.Distinct.{AllDistinct};
ghost use Rattle.tor_arena.specs.Limits.{max_ratio};
ghost use Rattle.relationships.specs.Relationship.{ValleyFree};
ghost use Rattle.relationships.specs.Graph.{edges, labelling, degree, support};
ghost use Rattle.relationships.specs.Preference.{ServeEitherWay, NoneLeftOut};
ghost use Rattle.as_graph.specs.Paths.{paths_at};
ghost use Rattle.tor_clauses.specs.Formulas.{FitsGraph, demands_of};
ghost use Rattle.rel_infer.specs.Finding.{AreLabelsBy};

use as_graph::{AsGraph, Labels};
use gao_prefs::preferences_with_supports;
use path_select::Selector;
use peering::relabel;
use std::alloc::Global;
use tor_arena::{ArcId, List, NoMemory, NodeId, PathId};
use tor_digraph::RowDigraph;
use tor_orient::orient_in;

/// The labels of the edges of a graph, and their supports.
#[derive(Drop)]
pub(crate) struct Labelled {
    /// The label of each edge.
    pub labels: Labels,
    /// How many of the paths that are counted hold each edge, in the order of the edges.
    pub supports: List<u32>,
}

/// The labels of the edges of a graph, where the paths that the selector has kept are kept, the arcs of their clauses stand in these rows,
/// and `counted` of them vote: each edge has its preferred provider, and then, edge by edge, becomes a peering where it may. With them
/// comes how many of the paths that vote hold each edge, which the votes tell. The only error is that memory ran out.
pub(crate) fn labels_of(
    alloc: Global,
    graph: &AsGraph,
    selector: &Selector,
    rows: &RowDigraph<'_, NodeId, ArcId>,
    counted: &[PathId],
    ratio: u32,
) -> Result<Labelled, NoMemory>
    requires fits { FitsGraph graph.now selector.now.formula }
    requires rows { rows.now ≡ selector.now.formula.net }
    requires apart { AllPairs ◌≢◌ selector.now.formula.paths }
    requires there { All (λ path. path < length graph.now) counted.now }
    requires once { AllPairs ◌≢◌ counted.now }
    requires distinct { All AllDistinct (paths_at graph.now counted.now) }
    requires small { ratio ≤ max_ratio }
    ensures count { IfOk result (λ found. length found.labels ≡ length (edges graph.now)) }
    ensures labels { IfOk result
        (λ found. AreLabelsBy (degree graph.now) ratio (edges graph.now) (demands_of graph.now selector.now.formula)
        (paths_at graph.now counted.now) (labelling (edges graph.now) found.labels)) }
    ensures valley_free { IfOk result (λ found. All (ValleyFree (labelling (edges graph.now) found.labels))
        (demands_of graph.now selector.now.formula)) }
    ensures either_way { IfOk result (λ found. ServeEitherWay (labelling (edges graph.now) found.labels)
        (demands_of graph.now selector.now.formula)) }
    ensures none_left_out { IfOk result
        (λ found. NoneLeftOut (degree graph.now) ratio (demands_of graph.now selector.now.formula) (edges graph.now)
        (labelling (edges graph.now) found.labels)) }
    ensures supports { IfOk result (λ found. found.supports ≡ map (support (paths_at graph.now counted.now)) (edges graph.now)) }
{
    graph.facts();
    let kept = selector.kept();
    let voted = preferences_with_supports(alloc, graph, counted)?;
    let ends = orient_in(alloc, &selector.fitted(graph), rows, voted.prefs.as_slice())?;
    let labels = relabel(alloc, graph, kept, &ends, ratio)?;
    Ok(Labelled {
        labels,
        supports: voted.supports,
    })
}
