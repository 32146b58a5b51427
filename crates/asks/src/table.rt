//! What the open edges of the paths of a table would settle.
ghost use Rattle.std.specs.Prelude.{◌≡◌, ◌<◌, ◌≤◌, All, drop, length, map, sum_by, IfOk};
ghost use Rattle.tor_arena.specs.Limits.{max_numbers, max_paths};
ghost use Rattle.tor_arena.specs.Distinct.{AllDistinct};
ghost use Rattle.relationships.specs.Givens.{NameOnce, NameTwo};
ghost use Rattle.relationships.specs.Graph.{edges};
ghost use Rattle.relationships.specs.Selection.{IsServable};
ghost use Rattle.as_graph.specs.Paths.{paths_at};
ghost use Rattle.tor_clauses.specs.Formulas.{FitsGraph, demands_of};
ghost use Rattle.path_table.specs.Rows.{row_paths};
ghost use Rattle.asks.specs.Behind.{AreAskLinesBehind, AreAsksBehind};
ghost use Rattle.asks.specs.Asks.{AreAsksBy, AreAskLinesOf, ask_line_of};

use crate::ask::Ask;
use crate::asking::asks;
use as_graph::{AsGraph, build_with};
use path_order::DistinctPaths;
use path_select::{Selector, places_behind, select_behind};
use relationships::Given;
use std::alloc::Global;
use ties::marks_of;
use tor_arena::{Keys, List, NoMemory, PathId, Rows};

// What the open edges would settle, where the paths that the selector has kept are kept.
fn asks_in(alloc: Global, graph: &AsGraph, selector: &Selector) -> Result<List<Ask>, NoMemory>
    requires { FitsGraph graph.now selector.now.formula }
    ensures asks { IfOk result (AreAsksBy graph.now (demands_of graph.now selector.now.formula)) }
    ensures inside { IfOk result (λ asks. All (λ a. a.edge < length (edges graph.now)) asks) }
{
    graph.facts();
    let fitted = selector.fitted(graph);
    let marks = marks_of(alloc, &fitted, selector.orientation())?;
    asks(alloc, &fitted, marks.as_slice())
}

// The same of the first paths of a graph, so many, where those at the places `first` are kept first.
fn asks_behind(
    alloc: Global,
    keys: Keys,
    graph: &AsGraph,
    first: &[PathId],
    count: usize,
) -> Result<List<Ask>, NoMemory>
    requires there { All (λ path. path < length graph.now) first.now }
    requires servable { IsServable (paths_at graph.now first.now) }
    requires count { count ≤ length graph.now }
    ensures asks { IfOk result (AreAsksBehind graph.now (paths_at graph.now first.now) count) }
    ensures inside { IfOk result (λ asks. All (λ a. a.edge < length (edges graph.now)) asks) }
{
    let selection = select_behind(alloc, keys, graph, first, count)?;
    let asks = asks_in(alloc, graph, &selection.selector);
    drop(selection);
    asks
}

// The same where all paths behind them are kept first.
fn asks_of(alloc: Global, keys: Keys, graph: &AsGraph, count: usize) -> Result<List<Ask>, NoMemory>
    requires servable { IsServable (drop count graph.now) }
    requires count { count ≤ length graph.now }
    ensures asks { IfOk result (AreAsksBehind graph.now (drop count graph.now) count) }
    ensures inside { IfOk result (λ asks. All (λ a. a.edge < length (edges graph.now)) asks) }
{
    let first = places_behind(alloc, graph, count)?;
    asks_behind(alloc, keys, graph, first.as_slice(), count)
}

/// An open edge, by its two ASes, with how many open edges are forced, this one counted, once it is known which of the two is the provider.
#[derive(Clone, Copy)]
pub struct AskLine {
    /// The lower number.
    pub low: u32,
    /// The higher number.
    pub high: u32,
    /// How many are forced if the lower number is the provider.
    pub if_low: u32,
    /// How many are forced if the higher number is.
    pub if_high: u32,
}

// The line of an open edge.
fn ask_line(graph: &AsGraph, ask: &Ask) -> AskLine
    requires { ask.now.edge < length (edges graph.now) }
    ensures { result ≡ ask_line_of (edges graph.now) ask.now }
{
    let edge = graph.edge(ask.edge);
    AskLine {
        low: edge.low,
        high: edge.high,
        if_low: ask.if_low,
        if_high: ask.if_high,
    }
}

// The lines of open edges, one for each.
fn ask_lines(alloc: Global, graph: &AsGraph, asks: &[Ask]) -> Result<List<AskLine>, NoMemory>
    requires { All (λ a. a.edge < length (edges graph.now)) asks.now }
    ensures { IfOk result (λ lines. lines ≡ map (ask_line_of (edges graph.now)) asks.now) }
{
    let mut lines = List::new(alloc);
    for ask in asks {
        lines.push(ask_line(graph, ask))?;
    }
    Ok(lines)
}

// The lines of the first paths of a graph, so many, where all paths behind them are kept first.
fn lines_of(
    alloc: Global,
    keys: Keys,
    graph: &AsGraph,
    count: usize,
) -> Result<List<AskLine>, NoMemory>
    requires servable { IsServable (drop count graph.now) }
    requires count { count ≤ length graph.now }
    ensures { IfOk result (AreAskLinesBehind graph.now count) }
{
    let asks = asks_of(alloc, keys, graph, count)?;
    ask_lines(alloc, graph, asks.as_slice())
}

// The lines of distinct paths under givens. Each path has at least two ASes, all distinct; there are at most 2^23 paths, of at most 2^26
// numbers in sum. Each given names two ASes, and no two of them the same two. The paths are let go once there is a graph, whose steps say
// them too.
fn asks_from(
    alloc: Global,
    keys: Keys,
    givens: &[Given],
    paths: Rows<PathId, u32>,
) -> Result<List<AskLine>, NoMemory>
    requires several { All (λ path. 2 ≤ length path) paths }
    requires apart { All AllDistinct paths }
    requires few { length paths ≤ max_paths }
    requires short { sum_by length paths ≤ max_numbers }
    requires two { NameTwo givens.now }
    requires once { NameOnce givens.now }
    ensures { IfOk result (AreAskLinesOf givens.now paths) }
{
    let count = paths.len();
    let built = build_with(alloc, keys, &paths, givens);
    drop(paths);
    let graph = built?;
    let lines = lines_of(alloc, keys, &graph, count);
    drop(graph);
    lines
}

/// Which contract would settle most: a line for each open edge of the distinct paths, in the order in which it is worth to ask for them,
/// under relationships that are given, each of two ASes and no two of the same two. Each path is kept exactly if some orientation that
/// agrees with the givens serves it together with those kept before it. Every orientation that is asked for agrees with the givens, so the
/// edges that they name are not open. The only error is that memory ran out.
pub fn asks_of_paths(
    alloc: Global,
    keys: Keys,
    givens: &[Given],
    paths: DistinctPaths,
) -> Result<List<AskLine>, NoMemory>
    requires two { NameTwo givens.now }
    requires once { NameOnce givens.now }
    ensures { IfOk result (AreAskLinesOf givens.now (row_paths paths)) }
{
    paths.facts();
    let (rows, times) = paths.into_rows();
    drop(times);
    asks_from(alloc, keys, givens, rows)
}
