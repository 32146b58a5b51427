//! Whether two degrees are within a ratio.
ghost use Rattle.std.specs.Prelude.{◌<◌, ◌≤◌, ◌*◌, ◌↔◌, max, min, length, IsTrue};
ghost use Rattle.tor_arena.specs.Limits.{max_numbers, max_ratio};
ghost use Rattle.relationships.specs.Graph.{edges, degree};
ghost use Rattle.relationships.specs.Preference.{IsAlike};
ghost use Rattle.peering.specs.Peerings.{edge_in};

use as_graph::AsGraph;
use tor_arena::EdgeId;

/// Whether the greater of two degrees is at most `ratio` times the lesser.
fn is_within(a: u64, b: u64, ratio: u32) -> bool
    requires first { a ≤ max_numbers }
    requires second { b ≤ max_numbers }
    requires small { ratio ≤ max_ratio }
    ensures { IsTrue result ↔ (max a b ≤ ratio * min a b) }
{
    a.max(b) <= ratio as u64 * a.min(b)
}

/// Whether the ends of an edge, which has to be there, are alike in degree.
pub(crate) fn is_alike(graph: &AsGraph, edge: EdgeId, ratio: u32) -> bool
    requires there { edge < length (edges graph.now) }
    requires small { ratio ≤ max_ratio }
    ensures { IsTrue result ↔ IsAlike (degree graph.now) ratio (edge_in graph.now edge) }
{
    graph.facts();
    let ends = graph.end_degrees(edge);
    is_within(ends.low as u64, ends.high as u64, ratio)
}
