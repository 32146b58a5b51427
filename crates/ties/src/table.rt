//! The ties of distinct paths.
ghost use Rattle.std.specs.Prelude.{◌≡◌, ◌<◌, ◌≤◌, All, drop, length, map, sum_by, IfOk};
ghost use Rattle.tor_arena.specs.Limits.{max_numbers, max_paths};
ghost use Rattle.tor_arena.specs.Distinct.{AllDistinct};
ghost use Rattle.relationships.specs.Givens.{NameOnce, NameTwo};
ghost use Rattle.relationships.specs.Graph.{edges};
ghost use Rattle.relationships.specs.Selection.{IsServable};
ghost use Rattle.as_graph.specs.Paths.{paths_at};
ghost use Rattle.tor_clauses.specs.Formulas.{FitsGraph, demands_of};
ghost use Rattle.path_table.specs.Rows.{row_paths};
ghost use Rattle.ties.specs.Behind.{AreLinesBehind, AreTiesBehind};
ghost use Rattle.ties.specs.Ties.{AreTiesBy, AreTieLinesOf, tie_line_of};

use crate::marking::marks_of;
use crate::tie::{Side, Tie};
use crate::tying::ties;
use as_graph::{AsGraph, build_with};
use path_order::DistinctPaths;
use path_select::{Selector, places_behind, select_behind};
use relationships::Given;
use std::alloc::Global;
use tor_arena::{Keys, List, NoMemory, PathId, Rows};

// The ties of the open edges, where the paths that the selector has kept are kept.
fn ties_in(alloc: Global, graph: &AsGraph, selector: &Selector) -> Result<List<Tie>, NoMemory>
    requires { FitsGraph graph.now selector.now.formula }
    ensures ties { IfOk result (AreTiesBy graph.now (demands_of graph.now selector.now.formula)) }
    ensures inside { IfOk result (λ ts. All (λ t. t.edge < length (edges graph.now)) ts) }
{
    graph.facts();
    let fitted = selector.fitted(graph);
    let marks = marks_of(alloc, &fitted, selector.orientation())?;
    ties(alloc, &fitted, marks.as_slice())
}

// The ties of the first paths of a graph, so many, where those at the places `first` are kept first.
fn ties_behind(
    alloc: Global,
    keys: Keys,
    graph: &AsGraph,
    first: &[PathId],
    count: usize,
) -> Result<List<Tie>, NoMemory>
    requires there { All (λ path. path < length graph.now) first.now }
    requires servable { IsServable (paths_at graph.now first.now) }
    requires count { count ≤ length graph.now }
    ensures ties { IfOk result (AreTiesBehind graph.now (paths_at graph.now first.now) count) }
    ensures inside { IfOk result (λ ts. All (λ t. t.edge < length (edges graph.now)) ts) }
{
    let selection = select_behind(alloc, keys, graph, first, count)?;
    let ties = ties_in(alloc, graph, &selection.selector);
    drop(selection);
    ties
}

// The same where all paths behind them are kept first.
fn ties_of(alloc: Global, keys: Keys, graph: &AsGraph, count: usize) -> Result<List<Tie>, NoMemory>
    requires servable { IsServable (drop count graph.now) }
    requires count { count ≤ length graph.now }
    ensures ties { IfOk result (AreTiesBehind graph.now (drop count graph.now) count) }
    ensures inside { IfOk result (λ ts. All (λ t. t.edge < length (edges graph.now)) ts) }
{
    let first = places_behind(alloc, graph, count)?;
    ties_behind(alloc, keys, graph, first.as_slice(), count)
}

/// An open edge, by its two ASes, with the class of the edges that it is tied to.
#[derive(Clone, Copy)]
pub struct TieLine {
    /// The lower number.
    pub low: u32,
    /// The higher number.
    pub high: u32,
    /// The number of its class. Classes are numbered from 1, in the order of their first edges.
    pub class: u32,
    /// How it goes with the first edge of its class. That edge itself is `With`.
    pub side: Side,
}

// The line of a tie.
fn tie_line(graph: &AsGraph, tie: &Tie) -> TieLine
    requires { tie.now.edge < length (edges graph.now) }
    ensures { result ≡ tie_line_of (edges graph.now) tie.now }
{
    let edge = graph.edge(tie.edge);
    TieLine {
        low: edge.low,
        high: edge.high,
        class: tie.class,
        side: tie.side,
    }
}

// The lines of ties, one for each.
fn tie_lines(alloc: Global, graph: &AsGraph, ties: &[Tie]) -> Result<List<TieLine>, NoMemory>
    requires { All (λ t. t.edge < length (edges graph.now)) ties.now }
    ensures { IfOk result (λ lines. lines ≡ map (tie_line_of (edges graph.now)) ties.now) }
{
    let mut lines = List::new(alloc);
    for tie in ties {
        lines.push(tie_line(graph, tie))?;
    }
    Ok(lines)
}

// The lines of the ties of the first paths of a graph, so many, where all paths behind them are kept first.
fn lines_of(
    alloc: Global,
    keys: Keys,
    graph: &AsGraph,
    count: usize,
) -> Result<List<TieLine>, NoMemory>
    requires servable { IsServable (drop count graph.now) }
    requires count { count ≤ length graph.now }
    ensures { IfOk result (AreLinesBehind graph.now count) }
{
    let ties = ties_of(alloc, keys, graph, count)?;
    tie_lines(alloc, graph, ties.as_slice())
}

// The lines of the ties of distinct paths under givens. Each path has at least two ASes, all distinct; there are at most 2^23 paths, of at
// most 2^26 numbers in sum. Each given names two ASes, and no two of them the same two. The paths are let go once there is a graph, whose
// steps say them too.
fn ties_from(
    alloc: Global,
    keys: Keys,
    givens: &[Given],
    paths: Rows<PathId, u32>,
) -> Result<List<TieLine>, NoMemory>
    requires several { All (λ path. 2 ≤ length path) paths }
    requires apart { All AllDistinct paths }
    requires few { length paths ≤ max_paths }
    requires short { sum_by length paths ≤ max_numbers }
    requires two { NameTwo givens.now }
    requires once { NameOnce givens.now }
    ensures { IfOk result (AreTieLinesOf givens.now paths) }
{
    let count = paths.len();
    let built = build_with(alloc, keys, &paths, givens);
    drop(paths);
    let graph = built?;
    let lines = lines_of(alloc, keys, &graph, count);
    drop(graph);
    lines
}

/// The ties of distinct paths under relationships that are given, each of two ASes and no two of the same two: a line for each edge that the
/// kept paths and the givens leave open, in the order of the edges. Each path is kept exactly if some orientation that agrees with the
/// givens serves it together with those kept before it. The only error is that memory ran out.
pub fn ties_of_paths(
    alloc: Global,
    keys: Keys,
    givens: &[Given],
    paths: DistinctPaths,
) -> Result<List<TieLine>, NoMemory>
    requires two { NameTwo givens.now }
    requires once { NameOnce givens.now }
    ensures { IfOk result (AreTieLinesOf givens.now (row_paths paths)) }
{
    paths.facts();
    let (rows, times) = paths.into_rows();
    drop(times);
    ties_from(alloc, keys, givens, rows)
}
