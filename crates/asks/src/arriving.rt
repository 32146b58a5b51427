//! How many nodes of a digraph reach each node, 64 at once.
ghost use Rattle.std.specs.Prelude.{◌≡◌, ℕ, ◌<◌, ◌≤◌, Some, slice_get, replicate, length, IfOk};
ghost use Rattle.tor_arena.specs.Limits.{most_places};
ghost use Rattle.tor_solve.specs.Classes.{IsComponents};
ghost use Rattle.reach_counts.specs.Condensing.{IsOfClass, IsCondensed};
ghost use Rattle.asks.specs.Arriving.{AreArrivals, IsRaised, FillsBatches};

use reach_counts::{condensed, spread_nodes};
use std::alloc::Global;
use tor_arena::{ArcId, Index, NoMemory, NodeId, reserve};
use tor_digraph::{Digraph, RowDigraph};
use tor_solve::Components;

/// How many nodes go at once: a bit for each.
pub(crate) const LANES: usize = 64;

/// So many copies of an item.
fn filled<T: Copy>(alloc: Global, item: T, count: usize) -> Result<Vec<T>, NoMemory>
    ensures { IfOk result (λ items. items.items ≡ replicate count item) }
{
    let mut items = Vec::new(alloc);
    reserve(&mut items, count)?;
    items.resize(count, item)?;
    Ok(items)
}

/// Adds to the number of each class how many bits its word has.
fn add_ones(masks: &[u64], counts: &mut [u32])
    requires many { length masks.now ≡ length counts.old }
    requires room { (k n : ℕ) → slice_get counts.old k ≡ Some n → n ≤ most_places }
    ensures many { length counts.new ≡ length counts.old }
    ensures raised { (k n : ℕ) → slice_get counts.new k ≡ Some n → IsRaised masks.now counts.old k n }
{
    for place in 0..masks.len() {
        counts[place] += masks[place].count_ones();
    }
}

/// Counts for each class how many nodes reach its nodes, from numbers that are 0, in memory for the words.
fn count_arrivals(
    graph: &Digraph<NodeId, ArcId>,
    parts: &Components<NodeId>,
    rows: &RowDigraph<'_, NodeId, ArcId>,
    masks: &mut [u64],
    counts: &mut [u32],
)
    requires parts { IsComponents (λ node. node) graph.now parts.now }
    requires condensed { IsCondensed graph.now parts.now rows.now }
    requires whole { FillsBatches graph.now.nodes }
    requires masks { length masks.old ≡ parts.now.count }
    requires counts { counts.old ≡ replicate parts.now.count 0 }
    ensures many { length counts.new ≡ parts.now.count }
    ensures counts { AreArrivals graph.now parts.now.of graph.now.nodes counts.new }
{
    for batch in 0..graph.node_count() / LANES {
        spread_nodes(graph, parts, rows, batch * LANES, masks);
        add_ones(masks, counts);
    }
}

/// The numbers of the classes, in memory for the words.
fn arrivals_in(
    alloc: Global,
    graph: &Digraph<NodeId, ArcId>,
    parts: &Components<NodeId>,
    rows: &RowDigraph<'_, NodeId, ArcId>,
    masks: &mut [u64],
) -> Result<Vec<u32>, NoMemory>
    requires parts { IsComponents (λ node. node) graph.now parts.now }
    requires condensed { IsCondensed graph.now parts.now rows.now }
    requires whole { FillsBatches graph.now.nodes }
    requires masks { length masks.old ≡ parts.now.count }
    ensures many { IfOk result (λ counts. length counts.items ≡ parts.now.count) }
    ensures counts { IfOk result (λ counts. AreArrivals graph.now parts.now.of graph.now.nodes counts.items) }
{
    let mut counts = filled(alloc, 0, parts.count())?;
    count_arrivals(graph, parts, rows, masks, &mut counts);
    Ok(counts)
}

/// The same over rows of the digraph of the classes.
fn arrivals_by(
    alloc: Global,
    graph: &Digraph<NodeId, ArcId>,
    parts: &Components<NodeId>,
    rows: &RowDigraph<'_, NodeId, ArcId>,
) -> Result<Vec<u32>, NoMemory>
    requires parts { IsComponents (λ node. node) graph.now parts.now }
    requires condensed { IsCondensed graph.now parts.now rows.now }
    requires whole { FillsBatches graph.now.nodes }
    ensures many { IfOk result (λ counts. length counts.items ≡ parts.now.count) }
    ensures counts { IfOk result (λ counts. AreArrivals graph.now parts.now.of graph.now.nodes counts.items) }
{
    let mut masks = filled(alloc, 0, parts.count())?;
    let counts = arrivals_in(alloc, graph, parts, rows, &mut masks);
    drop(masks);
    counts
}

/// The same over the digraph of the classes.
fn arrivals_over(
    alloc: Global,
    graph: &Digraph<NodeId, ArcId>,
    parts: &Components<NodeId>,
    other: &Digraph<NodeId, ArcId>,
) -> Result<Vec<u32>, NoMemory>
    requires parts { IsComponents (λ node. node) graph.now parts.now }
    requires condensed { IsCondensed graph.now parts.now other.now }
    requires whole { FillsBatches graph.now.nodes }
    ensures many { IfOk result (λ counts. length counts.items ≡ parts.now.count) }
    ensures counts { IfOk result (λ counts. AreArrivals graph.now parts.now.of graph.now.nodes counts.items) }
{
    let rows = other.in_rows(alloc)?;
    let counts = arrivals_by(alloc, graph, parts, &rows);
    drop(rows);
    counts
}

/// For each strong component how many nodes reach its nodes, these counted. The nodes have to be a whole number of batches of 64. The only
/// error is that memory ran out.
pub(crate) fn arrivals(
    alloc: Global,
    graph: &Digraph<NodeId, ArcId>,
    parts: &Components<NodeId>,
) -> Result<Vec<u32>, NoMemory>
    requires parts { IsComponents (λ node. node) graph.now parts.now }
    requires whole { FillsBatches graph.now.nodes }
    ensures many { IfOk result (λ counts. length counts.items ≡ parts.now.count) }
    ensures counts { IfOk result (λ counts. AreArrivals graph.now parts.now.of graph.now.nodes counts.items) }
{
    let other = condensed(alloc, graph, parts)?;
    let counts = arrivals_over(alloc, graph, parts, &other);
    drop(other);
    counts
}
