//! Which edges become peerings, edge by edge.
ghost use Rattle.std.specs.Prelude.{◌≡◌, ◌≢◌, ◌<◌, ◌≤◌, [], All, length, map, slice_index_or, IfOk};
ghost use Rattle.std.specs.List.{AllPairs};
ghost use Rattle.tor_arena.specs.Limits.{max_ratio};
ghost use Rattle.relationships.specs.declared.label.Label.{Label};
ghost use Rattle.relationships.specs.Relationship.{label_of, labels_of, ValleyFree, Serves};
ghost use Rattle.relationships.specs.Graph.{edges, degree, orientation as orientation_of, labelling};
ghost use Rattle.relationships.specs.Preference.{IsRelabelled, ServeEitherWay, NoneLeftOut};
ghost use Rattle.as_graph.specs.Paths.{paths_at};
ghost use Rattle.peering.specs.Peerings.{IsPeeredBeside, IsPeeredIfAllowed};

use crate::alike::is_alike;
use crate::excluding::exclusions;
use crate::opening::openings;
use crate::partners::Partners;
use as_graph::{AsGraph, Labels, Orientation};
use relationships::{End, Label};
use std::alloc::Global;
use tor_arena::{EdgeId, Index, NoMemory, PathId, reserve};

/// The label that has this provider.
fn label_by(end: End) -> Label
    ensures { result ≡ label_of end }
{
    match end {
        End::Low => Label::Low,
        End::High => Label::High,
    }
}

/// The labels that have these providers, no peerings. The only error is that memory ran out.
fn first_labels(alloc: Global, ends: &[End]) -> Result<Labels, NoMemory>
    ensures { IfOk result (λ labels. labels ≡ map label_of ends.now) }
{
    let mut labels = Vec::with_capacity(alloc, ends.len())?;
    for end in ends {
        reserve(&mut labels, 1)?;
        labels.push_reserved(label_by(*end));
    }
    Labels::from_slice(alloc, labels.as_slice())
}

/// Makes an edge a peering, unless one of its partners is one then.
fn offer(labels: &mut Labels, edge: EdgeId, partners: &Partners)
    requires labels { length labels.old ≡ length partners.now }
    requires edge { edge < length partners.now }
    ensures { IsPeeredBeside (slice_index_or partners.now edge []) edge labels.old labels.new }
{
    let first = labels.as_slice()[edge.place()];
    labels.set(edge, Label::Peer);
    if !partners.are_no_peers(edge, labels.as_slice()) {
        labels.set(edge, first);
    }
}

/// Settles an edge: it becomes a peering if it is open, its ends are alike in degree, and none of its partners is one then.
fn settle(
    graph: &AsGraph,
    labels: &mut Labels,
    edge: EdgeId,
    is_open: bool,
    partners: &Partners,
    ratio: u32,
)
    requires labels { length labels.old ≡ length (edges graph.now) }
    requires partners { length partners.now ≡ length (edges graph.now) }
    requires edge { edge < length (edges graph.now) }
    requires small { ratio ≤ max_ratio }
    ensures { IsPeeredIfAllowed graph.now ratio is_open (slice_index_or partners.now edge []) edge labels.old labels.new }
{
    if is_open && is_alike(graph, edge, ratio) {
        offer(labels, edge, partners);
    }
}

/// The labels that the edges have once peerings are found: from the providers of an orientation that serves the kept paths on, and
/// edge by edge in order, an edge becomes a peering if a kept path holds it, its greater degree is at most `ratio` times its lesser
/// one, and no kept path then has a valley under the labels so far. The kept paths have to be there, no two the same, and the
/// orientation has one end for each edge. The only error is that memory ran out.
pub fn relabel(
    alloc: Global,
    graph: &AsGraph,
    kept: &[PathId],
    orientation: &Orientation,
    ratio: u32,
) -> Result<Labels, NoMemory>
    requires there { All (λ path. path < length graph.now) kept.now }
    requires once { AllPairs ◌≢◌ kept.now }
    requires ends { length orientation.now ≡ length (edges graph.now) }
    requires served { Serves (orientation_of (edges graph.now) orientation.now) (paths_at graph.now kept.now) }
    requires small { ratio ≤ max_ratio }
    ensures count { IfOk result (λ labels. length labels ≡ length (edges graph.now)) }
    ensures relabelled { IfOk result
        (λ labels. IsRelabelled (degree graph.now) ratio (paths_at graph.now kept.now) (edges graph.now)
        (labels_of (orientation_of (edges graph.now) orientation.now)) (labelling (edges graph.now) labels)) }
    ensures valley_free { IfOk result (λ labels. All (ValleyFree (labelling (edges graph.now) labels)) (paths_at graph.now kept.now)) }
    ensures either_way { IfOk result (λ labels. ServeEitherWay (labelling (edges graph.now) labels) (paths_at graph.now kept.now)) }
    ensures none_left_out { IfOk result
        (λ labels. NoneLeftOut (degree graph.now) ratio (paths_at graph.now kept.now) (edges graph.now)
        (labelling (edges graph.now) labels)) }
{
    graph.facts();
    let ends = orientation.as_slice();
    let excluded = exclusions(alloc, graph, kept, ends)?;
    let mut partners = Partners::new(alloc, graph.edge_count())?;
    let opened = openings(alloc, graph, kept, excluded.as_slice(), &mut partners)?;
    let mut labels = first_labels(alloc, ends)?;
    for place in 0..graph.edge_count() {
        let edge = EdgeId::from_place(place).unwrap();
        settle(graph, &mut labels, edge, opened[place], &partners, ratio);
    }
    Ok(labels)
}
