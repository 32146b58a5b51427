//! What the open edges of a graph would settle.
ghost use Rattle.std.specs.Prelude.{◌≡◌, ℕ, ◌+◌, ◌*◌, ◌<◌, ◌≤◌, All, length, map, IfOk};
ghost use Rattle.tor_arena.specs.Limits.{max_numbers};
ghost use Rattle.relationships.specs.Graph.{edges};
ghost use Rattle.relationships.specs.Selection.{IsServable};
ghost use Rattle.tor_digraph.specs.Walks.{Net};
ghost use Rattle.tor_solve.specs.Classes.{IsComponents};
ghost use Rattle.reach_counts.specs.Condensing.{IsOfClass};
ghost use Rattle.tor_clauses.specs.Literals.{node_of};
ghost use Rattle.tor_clauses.specs.Formulas.{demands_of};
ghost use Rattle.ties.specs.Tied.{AreMarks, open_from};
ghost use Rattle.asks.specs.Asks.{AreAsks};
ghost use Rattle.asks.specs.Arriving.{AreArrivals, IsArrivalCount, FillsBatches};
ghost use Rattle.asks.specs.Narrowing.{AreCountedEdges, AreOpenAsks, IsNarrowed};

use crate::arriving::arrivals;
use crate::ask::Ask;
use crate::narrowing::narrowed;
use crate::numbering::{open_places, opens_before};
use crate::ranking::sort_asks;
use forced_edges::closure_reach_law;
use relationships::{End, Mark};
use std::alloc::Global;
use ties::implication_law;
use tor_arena::{ArcId, EdgeId, Index, List, NoMemory, NodeId, reserve};
use tor_clauses::{Fitted, Lit};
use tor_digraph::Digraph;
use tor_solve::{Components, components, decided_law};

/// How many orders of open edges lead to that of the open edge with this number in which this end is over the other.
fn leading_to(parts: &Components<NodeId>, counts: &[u32], number: usize, over: End) -> u32
    requires few { number < max_numbers }
    requires there { number * 2 + 1 < length parts.now.of }
    requires classes { (x k : ℕ) → IsOfClass parts.now.of x k → k < length counts.now }
    ensures { (net : Net ℕ) → AreArrivals net parts.now.of net.nodes counts.now →
        IsArrivalCount net net.nodes (node_of (record { edge = number; over = over })) result }
{
    let order = Lit::new(EdgeId::from_place(number).unwrap(), over);
    counts[parts.class_of(order.node())]
}

/// The open edges at these places with their numbers: as many orders follow from an order as lead to its opposite.
fn numbered(
    alloc: Global,
    places: &[EdgeId],
    parts: &Components<NodeId>,
    counts: &[u32],
) -> Result<Vec<Ask>, NoMemory>
    requires few { length places.now < max_numbers }
    requires there { length places.now * 2 ≤ length parts.now.of }
    requires classes { (x k : ℕ) → IsOfClass parts.now.of x k → k < length counts.now }
    ensures edges { IfOk result (λ asks. map (λ a. a.edge) asks.items ≡ places.now) }
    ensures numbers { IfOk result (λ asks. (net : Net ℕ) → AreArrivals net parts.now.of net.nodes counts.now →
        AreCountedEdges net places.now asks.items) }
{
    let mut asks = Vec::new(alloc);
    reserve(&mut asks, places.len())?;
    for place in 0..places.len() {
        asks.push_reserved(Ask {
            edge: places[place],
            if_low: leading_to(parts, counts, place, End::High),
            if_high: leading_to(parts, counts, place, End::Low),
        });
    }
    Ok(asks)
}

/// The same by the digraph of their orders and its strong components.
fn numbered_by(
    alloc: Global,
    places: &[EdgeId],
    other: &Digraph<NodeId, ArcId>,
    parts: &Components<NodeId>,
) -> Result<Vec<Ask>, NoMemory>
    requires few { length places.now < max_numbers }
    requires nodes { length places.now * 2 ≤ other.now.nodes }
    requires whole { FillsBatches other.now.nodes }
    requires parts { IsComponents (λ node. node) other.now parts.now }
    ensures edges { IfOk result (λ asks. map (λ a. a.edge) asks.items ≡ places.now) }
    ensures numbers { IfOk result (λ asks. AreCountedEdges other.now places.now asks.items) }
{
    let counts = arrivals(alloc, other, parts)?;
    let asks = numbered(alloc, places, parts, &counts);
    drop(counts);
    asks
}

/// The same by the digraph of their orders.
fn numbered_over(
    alloc: Global,
    places: &[EdgeId],
    other: &Digraph<NodeId, ArcId>,
) -> Result<Vec<Ask>, NoMemory>
    requires few { length places.now < max_numbers }
    requires nodes { length places.now * 2 ≤ other.now.nodes }
    requires whole { FillsBatches other.now.nodes }
    ensures edges { IfOk result (λ asks. map (λ a. a.edge) asks.items ≡ places.now) }
    ensures numbers { IfOk result (λ asks. AreCountedEdges other.now places.now asks.items) }
{
    let parts = components(alloc, other)?;
    let asks = numbered_by(alloc, places, other, &parts);
    drop(parts);
    asks
}

/// The digraph of the orders of open edges.
fn narrowed_to_open(
    alloc: Global,
    graph: &Digraph<NodeId, ArcId>,
    marks: &[Mark],
    count: usize,
) -> Result<Digraph<NodeId, ArcId>, NoMemory>
    requires inside { graph.now.nodes ≡ length marks.now * 2 }
    requires few { length marks.now < max_numbers }
    requires count { count ≡ length (open_from 0 marks.now) }
    ensures { IfOk result (λ other. IsNarrowed marks.now count graph.now other) }
{
    let before = opens_before(alloc, marks)?;
    let other = narrowed(alloc, graph, marks, before.as_slice(), count);
    drop(before);
    other
}

/// The open edges of a digraph of orders with their numbers.
fn open_asks(
    alloc: Global,
    graph: &Digraph<NodeId, ArcId>,
    marks: &[Mark],
    places: &[EdgeId],
) -> Result<Vec<Ask>, NoMemory>
    requires inside { graph.now.nodes ≡ length marks.now * 2 }
    requires few { length marks.now < max_numbers }
    requires places { places.now ≡ open_from 0 marks.now }
    ensures edges { IfOk result (λ asks. map (λ a. a.edge) asks.items ≡ places.now) }
    ensures numbers { IfOk result (λ asks. AreOpenAsks marks.now places.now graph.now asks.items) }
{
    let other = narrowed_to_open(alloc, graph, marks, places.len())?;
    let asks = numbered_over(alloc, places, &other);
    drop(other);
    asks
}

/// What the open edges of a graph would settle, one for each, in the order in which it is worth to ask for them. Some orientation has to
/// serve the paths of the clauses, and the marks, one for each edge, have to say which edges they force. The only error is that memory ran
/// out.
///
/// An open edge is forced by an order of another exactly if that leads to one of its two orders, along orders of open edges alone; and then
/// the opposite of that one leads to the opposite order. So what leads to each order is counted, 64 orders at once. At worst it takes open
/// orders times arcs between them, over 64.
pub fn asks(alloc: Global, fitted: &Fitted<'_>, marks: &[Mark]) -> Result<List<Ask>, NoMemory>
    requires served { IsServable (demands_of fitted.now.graph fitted.now.formula) }
    requires marks { AreMarks (demands_of fitted.now.graph fitted.now.formula) (edges fitted.now.graph) marks.now }
    ensures asks { IfOk result (AreAsks (demands_of fitted.now.graph fitted.now.formula) (edges fitted.now.graph) (open_from 0 marks.now)) }
    ensures inside { IfOk result (λ asks. All (λ a. a.edge < length (edges fitted.now.graph)) asks) }
{
    fitted.facts();
    decided_law();
    implication_law();
    closure_reach_law();
    let places = open_places(alloc, marks)?;
    let mut asks = open_asks(alloc, fitted.digraph(), marks, places.as_slice())?;
    sort_asks(&mut asks);
    Ok(List::from_vec(asks))
}
