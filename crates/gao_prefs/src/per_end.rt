//! A number for each end of an edge.
//!
//! Votes are two counts for each edge and no signed lean, of four octets, and counted without a branch. A graph has at most 2^26 paths,
//! and each has one vote at most for an end.
ghost use Rattle.std.specs.Prelude.{◌≡◌, map, IfOk};
ghost use Rattle.relationships.specs.Relationship.{opposite};
ghost use Rattle.relationships.specs.Graph.{edges};
ghost use Rattle.gao_prefs.specs.Ends.{at_end, degrees_of};

use as_graph::AsGraph;
use relationships::End;
use std::alloc::Global;
use tor_arena::{EdgeId, Index, NoMemory, reserve};

/// A number for each end of an edge.
#[derive(Clone, Copy)]
pub(crate) struct PerEnd {
    /// That of the lower number.
    pub(crate) low: u32,
    /// That of the higher number.
    pub(crate) high: u32,
}

impl PerEnd {
    /// The number of an end.
    pub fn of(&self, end: End) -> u32
        ensures { result ≡ at_end self.now end }
    {
        match end {
            End::Low => self.low,
            End::High => self.high,
        }
    }
}

/// The other end of an edge.
pub(crate) fn other_end(end: End) -> End
    ensures { result ≡ opposite end }
{
    match end {
        End::Low => End::High,
        End::High => End::Low,
    }
}

/// The degrees of the two ends of each edge, in the order of the edges. The only error is that memory ran out.
pub(crate) fn end_degrees(alloc: Global, graph: &AsGraph) -> Result<Vec<PerEnd>, NoMemory>
    ensures { IfOk result (λ degrees. degrees.items ≡ map (degrees_of graph.now) (edges graph.now)) }
{
    let count = graph.edge_count();
    let mut degrees = Vec::with_capacity(alloc, count)?;
    for place in 0..count {
        let ends = graph.end_degrees(EdgeId::from_place(place).unwrap());
        reserve(&mut degrees, 1)?;
        degrees.push_reserved(PerEnd {
            low: ends.low,
            high: ends.high,
        });
    }
    Ok(degrees)
}
