//! What is known of the edges of paths, in their order.
ghost use Rattle.std.specs.Prelude.{◌≡◌, ◌≤◌, ◌+◌, ◌∷◌, ◌++◌, ℕ, List as Items, [], length, take, flat_map, sum_by, OnOk};
ghost use Rattle.relationships.specs.Givens.{NameTwo, NameOnce};
ghost use Rattle.relationships.specs.Graph.{edge_of, edges_on, edges};
ghost use Rattle.relationships.specs.declared.given.Given.{Given as Known};
ghost use Rattle.top_givens.specs.Binding.{AreBound, BindsMore};
ghost use Rattle.top_givens.specs.TopGivens.{given_over, given_pairs, top_givens};

use crate::settling::{settle_givens, settle_pairs, settle_paths};
use crate::top_ases::TopAses;
use relationships::Given;
use std::alloc::Global;
use tor_arena::{Index, Keys, List, NoMemory, PathId, Rows};
use tor_numbers::EdgeTable;

/// One AS over another.
fn given_over(over: u32, under: u32) -> Given
    ensures { result ≡ given_over over under }
{
    Given { over, under }
}

/// Binds the edge of two ASes, if exactly one of them is of the top and the edge isn't settled, and settles it.
fn bind_pair(
    top: &TopAses,
    settled: &mut EdgeTable,
    left: u32,
    right: u32,
    givens: &mut List<Given>,
) -> Result<(), NoMemory>
    ensures { OnOk result (BindsMore top.now (edge_of left right ∷ []) settled.old givens.old settled.new givens.new) }
{
    let left_top = top.holds(left);
    if left_top == top.holds(right) {
        return Ok(());
    }
    if !settled.add(left, right)?.is_new {
        return Ok(());
    }
    if left_top {
        givens.push(given_over(left, right))
    } else {
        givens.push(given_over(right, left))
    }
}

/// Binds the edges on a path.
fn bind_path(
    top: &TopAses,
    settled: &mut EdgeTable,
    path: &[u32],
    givens: &mut List<Given>,
) -> Result<(), NoMemory>
    ensures { OnOk result (BindsMore top.now (edges_on path.now) settled.old givens.old settled.new givens.new) }
{
    for place in 1..path.len() {
        bind_pair(top, settled, path[place - 1], path[place], givens)?;
    }
    Ok(())
}

/// Binds the edges on the paths behind the first ones, whose edges are settled.
fn bind_paths(
    top: &TopAses,
    settled: &mut EdgeTable,
    paths: &Rows<PathId, u32>,
    first: usize,
    givens: &mut List<Given>,
) -> Result<(), NoMemory>
    requires { first ≤ length paths.now }
    ensures { OnOk result ((named : Items (ℕ × ℕ)) (start : Items Known) →
        AreBound top.now named start (flat_map edges_on (take first paths.now)) settled.old givens.old →
        AreBound top.now named start (flat_map edges_on paths.now) settled.new givens.new) }
{
    for place in first..paths.len() {
        let path = paths.row(PathId::from_place(place).unwrap());
        bind_path(top, settled, path, givens)?;
    }
    Ok(())
}

/// Settles what is bound by nothing more, in a table of no edges, and then binds the edges on the paths behind the first ones.
fn bind_behind(
    top: &TopAses,
    settled: &mut EdgeTable,
    others: &[(u32, u32)],
    paths: &Rows<PathId, u32>,
    first: usize,
    givens: &mut List<Given>,
) -> Result<(), NoMemory>
    requires first { first ≤ length paths.now }
    requires none { settled.old ≡ [] }
    ensures { OnOk result (givens.new ≡ givens.old ++
        top_givens top.now ((given_pairs givens.old ++ others.now) ++ edges (take first paths.now)) paths.now) }
{
    settle_givens(top, settled, givens.as_slice())?;
    settle_pairs(top, settled, others)?;
    settle_paths(top, settled, paths, first)?;
    bind_paths(top, settled, paths, first, givens)
}

/// Adds to what is known of edges what follows where these ASes are known to buy transit from nobody: for each edge of the paths, in order of
/// first appearance, of which exactly one end is of the top, that this end is over the other. But for edges whose two ASes a given or one of
/// the other pairs names, in either order, and for edges of the first paths, so many. It takes one look-up for each step with exactly one end
/// in the top. The only error is that memory ran out; then some of the givens may have been added.
pub fn bind_top(
    alloc: Global,
    keys: Keys,
    top: &[u32],
    others: &[(u32, u32)],
    paths: &Rows<PathId, u32>,
    first: usize,
    givens: &mut List<Given>,
) -> Result<(), NoMemory>
    requires { first ≤ length paths.now }
    ensures bound { OnOk result (givens.new ≡ givens.old ++
        top_givens top.now ((given_pairs givens.old ++ others.now) ++ edges (take first paths.now)) paths.now) }
    ensures two { OnOk result (NameTwo givens.old → NameTwo givens.new) }
    ensures once { OnOk result (NameOnce givens.old → NameOnce givens.new) }
    ensures few { OnOk result (length givens.new ≤ length givens.old + sum_by length paths.now) }
{
    let members = TopAses::new(alloc, top)?;
    let mut settled = EdgeTable::new(alloc, keys);
    bind_behind(&members, &mut settled, others, paths, first, givens)
}
