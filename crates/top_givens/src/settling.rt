//! Edges that are bound by nothing more: those that are named, and those of paths that were taken before.
ghost use Rattle.std.specs.Prelude.{◌≡◌, ◌≤◌, ◌∷◌, [], length, take, flat_map, OnOk};
ghost use Rattle.relationships.specs.Graph.{edges_on};
ghost use Rattle.top_givens.specs.Binding.{SettlesMore};
ghost use Rattle.top_givens.specs.TopGivens.{given_pairs};

use crate::top_ases::TopAses;
use relationships::Given;
use tor_arena::{Index, NoMemory, PathId, Rows};
use tor_numbers::EdgeTable;

/// Adds the edge of two ASes, if exactly one of them is of the top: no other is ever asked for.
fn settle_pair(top: &TopAses, settled: &mut EdgeTable, a: u32, b: u32) -> Result<(), NoMemory>
    ensures { OnOk result (SettlesMore top.now ((a, b) ∷ []) settled.old settled.new) }
{
    if top.holds(a) == top.holds(b) {
        return Ok(());
    }
    settled.add(a, b)?;
    Ok(())
}

/// Adds the edges of the two of each given.
pub(crate) fn settle_givens(
    top: &TopAses,
    settled: &mut EdgeTable,
    givens: &[Given],
) -> Result<(), NoMemory>
    ensures { OnOk result (SettlesMore top.now (given_pairs givens.now) settled.old settled.new) }
{
    for given in givens {
        settle_pair(top, settled, given.over, given.under)?;
    }
    Ok(())
}

/// Adds the edges of these pairs.
pub(crate) fn settle_pairs(
    top: &TopAses,
    settled: &mut EdgeTable,
    pairs: &[(u32, u32)],
) -> Result<(), NoMemory>
    ensures { OnOk result (SettlesMore top.now pairs.now settled.old settled.new) }
{
    for pair in pairs {
        settle_pair(top, settled, pair.0, pair.1)?;
    }
    Ok(())
}

/// Adds the edges on a path.
fn settle_path(top: &TopAses, settled: &mut EdgeTable, path: &[u32]) -> Result<(), NoMemory>
    ensures { OnOk result (SettlesMore top.now (edges_on path.now) settled.old settled.new) }
{
    for place in 1..path.len() {
        settle_pair(top, settled, path[place - 1], path[place])?;
    }
    Ok(())
}

/// Adds the edges on the first paths.
pub(crate) fn settle_paths(
    top: &TopAses,
    settled: &mut EdgeTable,
    paths: &Rows<PathId, u32>,
    first: usize,
) -> Result<(), NoMemory>
    requires { first ≤ length paths.now }
    ensures { OnOk result (SettlesMore top.now (flat_map edges_on (take first paths.now)) settled.old settled.new) }
{
    for place in 0..paths.len().min(first) {
        let path = paths.row(PathId::from_place(place).unwrap());
        settle_path(top, settled, path)?;
    }
    Ok(())
}
