//! The neighbours of one AS, by what they are to it.
ghost use Rattle.std.specs.Prelude.{◌≡◌, IfOk};
ghost use Rattle.drawing.specs.Neighbours.{SortedNeighbours};
ghost use Rattle.neighbour_text.specs.NeighbourText.{IsNeighbourhood};

use drawing::{Group, Neighbour, sorted_neighbours};
use result_text::EdgeLine;
use std::alloc::Global;
use tor_arena::{List, NoMemory};

/// The neighbours of an AS, of each kind those with the greatest support first, and at equal support those with the least number.
#[derive(Drop)]
pub struct Neighbourhood {
    /// Its providers.
    pub providers: List<Neighbour>,
    /// Its peers.
    pub peers: List<Neighbour>,
    /// Its customers.
    pub customers: List<Neighbour>,
}

// The neighbours of one kind, in their order.
fn of_kind(
    alloc: Global,
    edges: &[EdgeLine],
    asked: u32,
    kind: Group,
) -> Result<List<Neighbour>, NoMemory>
    ensures { IfOk result (SortedNeighbours asked kind edges.now) }
{
    Ok(List::from_vec(sorted_neighbours(alloc, edges, asked, kind)?))
}

/// The neighbours of an AS, as these edges say. The only error is that memory ran out.
pub fn neighbourhood_of(
    alloc: Global,
    edges: &[EdgeLine],
    asked: u32,
) -> Result<Neighbourhood, NoMemory>
    ensures { IfOk result (IsNeighbourhood asked edges.now) }
{
    let providers = of_kind(alloc, edges, asked, Group::Providers)?;
    let peers = of_kind(alloc, edges, asked, Group::Peers)?;
    let customers = of_kind(alloc, edges, asked, Group::Customers)?;
    Ok(Neighbourhood {
        providers,
        peers,
        customers,
    })
}
