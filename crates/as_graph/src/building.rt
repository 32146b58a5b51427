//! How a graph is made of paths.
ghost use Rattle.std.specs.Prelude.{◌≡◌, ◌≢◌, ◌+◌, ◌<◌, ◌≤◌, ◌++◌, ◌∷◌, [], All, length, sum_by, IfOk, OnOk};
ghost use Rattle.tor_arena.specs.Distinct.{AllDistinct};
ghost use Rattle.tor_arena.specs.Limits.{most_places, max_paths, max_numbers};
ghost use Rattle.relationships.specs.Evidence.{NeighboursDiffer};
ghost use Rattle.relationships.specs.Graph.{edges_on};
ghost use Rattle.relationships.specs.Givens.{returns, NameTwo, NameOnce};
ghost use Rattle.relationships.specs.Steps.{end_left};
ghost use Rattle.tor_numbers.specs.Edges.{with_edges};
ghost use Rattle.as_graph.specs.Inside.{AddsReturns, AddsSteps, AreRowsOf, IsBuilt};

use crate::graph::AsGraph;
use crate::graph_edges::GraphEdges;
use crate::step::Step;
use crate::step_rows::{StepRows, push_bound};
use relationships::{End, Given};
use std::alloc::Global;
use tor_arena::{EdgeId, Index, Keys, NoMemory, PathId, Rows, reserve};

/// The graph of the paths. Each has to have at least two ASes, all distinct, and there may be at most 2^23 of them, with at most
/// 2^26 numbers in sum. Its tables are made with the keys. The only error is that memory ran out.
pub fn build(alloc: Global, keys: Keys, paths: &Rows<PathId, u32>) -> Result<AsGraph, NoMemory>
    requires several { All (λ path. 2 ≤ length path) paths.now }
    requires apart { All AllDistinct paths.now }
    requires few { length paths.now ≤ max_paths }
    requires short { sum_by length paths.now ≤ max_numbers }
    ensures { IfOk result (λ graph. graph ≡ paths.now) }
{
    let mut edges = GraphEdges::new(alloc, keys);
    let rows = rows_of(alloc, paths, &mut edges)?;
    Ok(AsGraph { edges, rows })
}

/// The steps of each path. Their edges are added, where there are no others.
fn rows_of(
    alloc: Global,
    paths: &Rows<PathId, u32>,
    edges: &mut GraphEdges,
) -> Result<StepRows, NoMemory>
    requires several { All (λ path. 2 ≤ length path) paths.now }
    requires apart { All AllDistinct paths.now }
    requires few { length paths.now ≤ max_paths }
    requires short { sum_by length paths.now ≤ max_numbers }
    requires empty { edges.old ≡ [] }
    ensures { IfOk result (IsBuilt paths.now (length paths.now) edges.new) }
{
    let mut steps = Vec::new(alloc);
    let mut bounds = Vec::new(alloc);
    // one further than there are, which `add_steps` makes sure of
    let further = paths.item_count().saturating_add(1);
    reserve(&mut steps, further.saturating_sub(paths.len()))?;
    reserve(&mut bounds, paths.len().saturating_add(1))?;
    add_paths(paths, edges, &mut steps, &mut bounds)?;
    Ok(StepRows { steps, bounds })
}

/// Adds the edges of the paths, and the steps of each as a row that ends at a bound of its own, where there are no others.
fn add_paths(
    paths: &Rows<PathId, u32>,
    edges: &mut GraphEdges,
    steps: &mut Vec<Step>,
    bounds: &mut Vec<u32>,
) -> Result<(), NoMemory>
    requires several { All (λ path. 2 ≤ length path) paths.now }
    requires apart { All AllDistinct paths.now }
    requires few { length paths.now ≤ max_paths }
    requires short { sum_by length paths.now ≤ max_numbers }
    requires empty { edges.old ≡ [] }
    requires none { steps.old.items ≡ [] }
    requires first { bounds.old.items ≡ [] }
    ensures { OnOk result (AreRowsOf paths.now (length paths.now) edges.new steps.new.items bounds.new.items) }
{
    push_bound(bounds, 0)?;
    for place in 0..paths.len() {
        let path = PathId::from_place(place).unwrap();
        add_steps(edges, steps, paths.row(path))?;
        push_bound(bounds, steps.len())?;
    }
    Ok(())
}

/// The graph of the paths and, behind these, of the returns of those givens whose two are neighbours on them: from the customer to the
/// provider and back. These add no edge. The paths have to be such as `build` takes; each given has to name two ASes, and no two of them
/// the same two, so that there are no more returns than edges. The only error is that memory ran out.
pub fn build_with(
    alloc: Global,
    keys: Keys,
    paths: &Rows<PathId, u32>,
    givens: &[Given],
) -> Result<AsGraph, NoMemory>
    requires several { All (λ path. 2 ≤ length path) paths.now }
    requires apart { All AllDistinct paths.now }
    requires few { length paths.now ≤ max_paths }
    requires short { sum_by length paths.now ≤ max_numbers }
    requires two { NameTwo givens.now }
    requires once { NameOnce givens.now }
    ensures { IfOk result (λ graph. graph ≡ paths.now ++ returns paths.now givens.now) }
{
    let AsGraph { edges, mut rows } = build(alloc, keys, paths)?;
    add_returns(&edges, &mut rows, givens)?;
    Ok(AsGraph { edges, rows })
}

/// Adds the steps of the return of each given whose two are an edge, where no two of the givens name the same two, and there are few
/// enough rows and edges.
fn add_returns(edges: &GraphEdges, rows: &mut StepRows, givens: &[Given]) -> Result<(), NoMemory>
    requires two { NameTwo givens.now }
    requires once { NameOnce givens.now }
    requires few { length rows.old + length edges.now < most_places }
    ensures { OnOk result (AddsReturns edges.now givens.now rows.old rows.new) }
{
    for given in givens {
        add_return(edges, rows, given)?;
    }
    Ok(())
}

/// Adds the steps of the return of a given, if its two are an edge.
fn add_return(edges: &GraphEdges, rows: &mut StepRows, given: &Given) -> Result<(), NoMemory>
    requires two { given.now.over ≢ given.now.under }
    requires few { length rows.old < most_places }
    ensures { OnOk result (AddsReturns edges.now (given.now ∷ []) rows.old rows.new) }
{
    let (over, under) = (given.over, given.under);
    match edges.find(over, under) {
        None => Ok(()),
        Some(edge) => {
            let there = step_on(edge, under, over);
            let back = step_on(edge, over, under);
            rows.push_two(there, back)
        }
    }
}

/// The step from one end of an edge of a graph to the other.
fn step_on(edge: EdgeId, from: u32, to: u32) -> Step
    requires { edge < max_numbers }
    ensures edge { result.edge ≡ edge }
    ensures left { result.left ≡ end_left from to }
{
    let left = if from < to { End::Low } else { End::High };
    Step::new(edge, left)
}

/// Adds the edges of a path, and its steps behind others.
fn add_steps(edges: &mut GraphEdges, steps: &mut Vec<Step>, path: &[u32]) -> Result<(), NoMemory>
    requires apart { NeighboursDiffer path.now }
    requires room { length edges.old + length path.now ≤ max_numbers }
    ensures edges { OnOk result (edges.new ≡ with_edges edges.old (edges_on path.now)) }
    ensures steps { OnOk result (AddsSteps edges.new path.now steps.old.items steps.new.items) }
{
    reserve(steps, path.len())?;
    for at in 1..path.len() {
        let (from, to) = (path[at - 1], path[at]);
        // most edges are there, and a short way to them lets the processor go on to the next
        let edge = match edges.find(from, to) {
            Some(edge) => edge,
            None => edges.add_new(from, to)?,
        };
        steps.push_reserved(step_on(edge, from, to));
    }
    Ok(())
}
