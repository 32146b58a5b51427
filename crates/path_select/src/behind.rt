//! The places of the paths behind the first ones of a graph.
ghost use Rattle.std.specs.Prelude.{◌≡◌, ◌-◌, ◌≤◌, length, IfOk};
ghost use Rattle.path_select.specs.Behind.{places_from};

use as_graph::AsGraph;
use std::alloc::Global;
use tor_arena::{Index, List, NoMemory, PathId};

/// The places of a graph but for the first, so many. The only error is that memory ran out.
pub fn places_behind(alloc: Global, graph: &AsGraph, count: usize) -> Result<List<PathId>, NoMemory>
    requires { count ≤ length graph.now }
    ensures { IfOk result (λ places. places ≡ places_from count (length graph.now - count)) }
{
    graph.facts();
    let mut places = List::new(alloc);
    for place in count..graph.path_count() {
        places.push(PathId::from_place(place).unwrap())?;
    }
    Ok(places)
}
