//! The numbers of the givens whose returns stand behind the paths of a graph.
ghost use Rattle.std.specs.Prelude.{◌≡◌, ◌≤◌, [], length, OnOk};
ghost use Rattle.rel_infer.specs.GivenInference.{max_givens};
ghost use Rattle.rel_infer.specs.Returns.{numbers_from};

use as_graph::AsGraph;
use relationships::Given;
use tor_arena::{List, NoMemory};

/// Adds the numbers, from 1, of those givens whose two are an edge of the graph, where there are no numbers yet. There are at most 2^28
/// givens. The only error is that memory ran out.
pub(crate) fn numbers_of(
    graph: &AsGraph,
    givens: &[Given],
    numbers: &mut List<u32>,
) -> Result<(), NoMemory>
    requires few { length givens.now ≤ max_givens }
    requires none { numbers.old ≡ [] }
    ensures { OnOk result (numbers.new ≡ numbers_from graph.now 1 givens.now) }
{
    for place in 0..givens.len() {
        let given = givens[place];
        if graph.edge_between(given.over, given.under).is_some() {
            numbers.push(place as u32 + 1)?;
        }
    }
    Ok(())
}
