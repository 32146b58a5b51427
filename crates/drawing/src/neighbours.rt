//! The neighbours in a group, in the order in which they are drawn.
ghost use Rattle.std.specs.Prelude.{◌≡◌, ◌<◌, ◌^◌, [], ◌∷◌, ◌++◌, All, OnOk, IfOk};
ghost use Rattle.std.specs.List.{AllPairs};
ghost use Rattle.std.specs.List.Sorted.{IsPermutation};
ghost use Rattle.drawing.specs.Neighbours.{neighbours, tally, SortedNeighbours, IsNoLater};
ghost use Rattle.drawing.specs.Order.{order_key, IsShort};

use crate::group::{Group, Neighbour, Tally, has_forced_edge, is_in, neighbour_of};
use result_text::EdgeLine;
use std::alloc::Global;
use tor_arena::NoMemory;

// Adds the neighbour at the other end of the edge, if it is in the group.
fn add_neighbour(
    found: &mut Vec<Neighbour>,
    asked: u32,
    group: Group,
    edge: &EdgeLine,
) -> Result<(), NoMemory>
    ensures added { OnOk result (found.new.items ≡ found.old.items ++ neighbours asked group (edge.now ∷ [])) }
    ensures short { OnOk result (edge.now.support < 2 ^ 64) }
{
    let neighbour = neighbour_of(asked, edge);
    if is_in(asked, group, edge) {
        found.push(neighbour)?;
        return Ok(());
    }
    Ok(())
}

/// The neighbours in the group, in the order of the edges. The only error is that memory ran out.
fn neighbours(
    alloc: Global,
    edges: &[EdgeLine],
    asked: u32,
    group: Group,
) -> Result<Vec<Neighbour>, NoMemory>
    ensures all { IfOk result (λ ns. ns.items ≡ neighbours asked group edges.now) }
    ensures short { IfOk result (λ ns. All IsShort ns.items) }
{
    let mut found = Vec::new(alloc);
    for edge in edges {
        match add_neighbour(&mut found, asked, group, edge) {
            Ok(()) => {}
            Err(NoMemory) => {
                drop(found);
                return Err(NoMemory);
            }
        }
    }
    Ok(found)
}

/// What neighbours are sorted by: the greatest support first, and then their numbers.
fn sort_key(neighbour: &Neighbour) -> (u64, u32)
    ensures { result ≡ order_key neighbour.now }
{
    (u64::MAX - neighbour.support, neighbour.number)
}

/// Sorts neighbours by falling support, and those of equal support by rising number. It takes no memory.
pub(crate) fn sort_neighbours(neighbours: &mut Vec<Neighbour>)
    requires { All IsShort neighbours.old.items }
    ensures same { IsPermutation neighbours.old.items neighbours.new.items }
    ensures sorted { AllPairs IsNoLater neighbours.new.items }
{
    neighbours.sort_unstable_by_key(|neighbour| sort_key(neighbour));
}

/// The neighbours of an AS in the group, as these edges say: those with the greatest support first, and at equal support those with the
/// least number. The only error is that memory ran out.
pub fn sorted_neighbours(
    alloc: Global,
    edges: &[EdgeLine],
    asked: u32,
    group: Group,
) -> Result<Vec<Neighbour>, NoMemory>
    ensures { IfOk result (λ ns. SortedNeighbours asked group edges.now ns.items) }
{
    let mut found = neighbours(alloc, edges, asked, group)?;
    sort_neighbours(&mut found);
    Ok(found)
}

/// How many neighbours there are, and how many of them by a forced edge.
pub(crate) fn tally(neighbours: &[Neighbour]) -> Tally
    ensures { result ≡ tally neighbours.now }
{
    let mut forced = 0;
    for neighbour in neighbours {
        if has_forced_edge(neighbour) {
            forced += 1;
        }
    }
    Tally {
        all: neighbours.len() as u64,
        forced,
    }
}
