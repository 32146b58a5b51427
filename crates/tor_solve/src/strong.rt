//! Strong components.
ghost use Rattle.std.specs.Prelude.{[], ◌≡◌, ◌≢◌, ◌+◌, ◌<◌, ◌≤◌, List, slice_get, length, OnOk, IfOk};
ghost use Rattle.tor_digraph.specs.Closing.{Has, IsClosing};
ghost use Rattle.tor_digraph.specs.Reached.{IsSearched, IsGrown};
ghost use Rattle.tor_solve.specs.Classes.{IsClass, IsComponents, IsReversed};

use crate::class::Components;
use std::alloc::Global;
use tor_arena::{Arena, Index, List, NoMemory};
use tor_digraph::{Digraph, GraphRefused, Reached};

/// The strong components in topological order: two nodes have the same class exactly if each
/// reaches the other, no arc leads to a lesser class, and each number below the count is a class.
/// The only error is that memory ran out.
///
/// It searches twice, as Kosaraju and Sharir do: first along the arcs from each node, then
/// against them from each node in the order opposite to that in which the first search left them.
/// What a start of the second search adds is one class.
pub fn components<N: Index, A: Index>(
    alloc: Global,
    graph: &Digraph<N, A>,
) -> Result<Components<N>, NoMemory>
    ensures { IfOk result (λ c. IsComponents N.place_of graph.now c) }
{
    let order = closing_order(alloc, graph)?;
    match reversed(alloc, graph) {
        Ok(other) => {
            let classes = class_all(alloc, graph, &other, order.as_slice());
            drop(other);
            drop(order);
            classes
        }
        Err(NoMemory) => {
            drop(order);
            Err(NoMemory)
        }
    }
}

/// All nodes, in the order in which a search leaves them for good.
fn closing_order<N: Index, A: Index>(
    alloc: Global,
    graph: &Digraph<N, A>,
) -> Result<List<N>, NoMemory>
    ensures order { IfOk result (λ order. IsClosing graph.now.arcs order) }
    ensures all { IfOk result (λ order. (x : N) → N.place_of x < graph.now.nodes → Has order x) }
    ensures inside { IfOk result (λ order. (x : N) → Has order x → N.place_of x < graph.now.nodes) }
    ensures few { IfOk result (λ order. length order ≤ N.LIMIT) }
{
    let mut reached = graph.reach_none(alloc)?;
    match reach_each(graph, &mut reached) {
        Ok(()) => Ok(reached.into_nodes()),
        Err(NoMemory) => {
            drop(reached);
            Err(NoMemory)
        }
    }
}

/// Adds what is reached from each node in turn.
fn reach_each<N: Index, A: Index>(
    graph: &Digraph<N, A>,
    reached: &mut Reached<N, A>,
) -> Result<(), NoMemory>
    requires { IsSearched N.place_of A.place_of graph.now.nodes graph.now.arcs reached.old }
    ensures searched { OnOk result (IsSearched N.place_of A.place_of graph.now.nodes graph.now.arcs reached.new) }
    ensures all { OnOk result ((x : N) → N.place_of x < graph.now.nodes → Has reached.new.nodes x) }
{
    for place in 0..graph.node_count() {
        let node = N::from_place(place).unwrap();
        graph.reach_more(node, reached)?;
    }
    Ok(())
}

/// The digraph with each arc reversed round.
fn reversed<N: Index, A: Index>(
    alloc: Global,
    graph: &Digraph<N, A>,
) -> Result<Digraph<N, A>, NoMemory>
    ensures { IfOk result (λ other. IsReversed graph.now other) }
{
    let mut other = Digraph::new(alloc);
    match add_reversed(graph, &mut other) {
        Ok(()) => Ok(other),
        Err(NoMemory) => {
            drop(other);
            Err(NoMemory)
        }
    }
}

/// Adds the nodes of a digraph and each arc, reversed round, to one that has neither nodes nor arcs.
fn add_reversed<N: Index, A: Index>(
    graph: &Digraph<N, A>,
    other: &mut Digraph<N, A>,
) -> Result<(), NoMemory>
    requires nodes { other.old.nodes ≡ 0 }
    requires arcs { other.old.arcs ≡ [] }
    ensures { OnOk result (IsReversed graph.now other.new) }
{
    match other.add_nodes(graph.node_count()) {
        Ok(()) => {}
        Err(refused) => return Err(for_memory(refused)),
    }
    for place in 0..graph.arc_count() {
        let arc = A::from_place(place).unwrap();
        let (tail, head) = graph.ends(arc);
        match other.add_arc(head, tail) {
            Ok(_) => {}
            Err(refused) => return Err(for_memory(refused)),
        }
    }
    Ok(())
}

/// Why a digraph that is not full was not added to.
fn for_memory(refused: GraphRefused) -> NoMemory
    requires { refused ≢ GraphRefused.Full }
{
    match refused {
        GraphRefused::NoMemory => NoMemory,
        GraphRefused::Full => unreachable!(),
    }
}

/// The classes, each made of the nodes without a class that reach the node that was left last.
fn class_all<N: Index, A: Index>(
    alloc: Global,
    graph: &Digraph<N, A>,
    other: &Digraph<N, A>,
    order: &[N],
) -> Result<Components<N>, NoMemory>
    requires other { IsReversed graph.now other.now }
    requires order { IsClosing graph.now.arcs order.now }
    requires all { (x : N) → N.place_of x < graph.now.nodes → Has order.now x }
    requires inside { (x : N) → Has order.now x → N.place_of x < graph.now.nodes }
    requires few { length order.now ≤ N.LIMIT }
    ensures { IfOk result (λ c. IsComponents N.place_of graph.now c) }
{
    let mut classes = Arena::new(alloc);
    match class_into(alloc, graph, other, order, &mut classes) {
        Ok(count) => Ok(Components::new(classes, count)),
        Err(NoMemory) => {
            drop(classes);
            Err(NoMemory)
        }
    }
}

/// Gives each node its class, where none has one yet, and answers how many there are.
fn class_into<N: Index, A: Index>(
    alloc: Global,
    graph: &Digraph<N, A>,
    other: &Digraph<N, A>,
    order: &[N],
    classes: &mut Arena<N, u32>,
) -> Result<u32, NoMemory>
    requires other { IsReversed graph.now other.now }
    requires order { IsClosing graph.now.arcs order.now }
    requires all { (x : N) → N.place_of x < graph.now.nodes → Has order.now x }
    requires inside { (x : N) → Has order.now x → N.place_of x < graph.now.nodes }
    requires few { length order.now ≤ N.LIMIT }
    requires empty { classes.old.items ≡ [] }
    ensures { IfOk result (λ count. IsComponents N.place_of graph.now (record { of = classes.new.items; count = count })) }
{
    classes.push_copies(0, graph.node_count())?;
    let mut reached = other.reach_none(alloc)?;
    let count = class_each(graph, other, order, &mut reached, classes);
    drop(reached);
    count
}

/// The same in memory for the searches, where nothing is reached yet.
fn class_each<N: Index, A: Index>(
    graph: &Digraph<N, A>,
    other: &Digraph<N, A>,
    order: &[N],
    reached: &mut Reached<N, A>,
    classes: &mut Arena<N, u32>,
) -> Result<u32, NoMemory>
    requires other { IsReversed graph.now other.now }
    requires order { IsClosing graph.now.arcs order.now }
    requires all { (x : N) → N.place_of x < graph.now.nodes → Has order.now x }
    requires inside { (x : N) → Has order.now x → N.place_of x < graph.now.nodes }
    requires few { length order.now ≤ N.LIMIT }
    requires searched { IsSearched N.place_of A.place_of other.now.nodes other.now.arcs reached.old }
    requires none { reached.old.nodes ≡ [] }
    requires many { length classes.old.items ≡ graph.now.nodes }
    ensures { IfOk result (λ count. IsComponents N.place_of graph.now (record { of = classes.new.items; count = count })) }
{
    let mut count = 0;
    prove!(graph.node_count() <= N::LIMIT);
    for left in (0..order.len()).rev() {
        let root = order[left];
        if !reached.has(root) {
            add_class(other, root, reached, classes, count)?;
            count += 1;
        }
    }
    Ok(count)
}

/// Reaches all that the root reaches, and gives what is new the class.
fn add_class<N: Index, A: Index>(
    graph: &Digraph<N, A>,
    root: N,
    reached: &mut Reached<N, A>,
    classes: &mut Arena<N, u32>,
    class: u32,
) -> Result<(), NoMemory>
    requires root { N.place_of root < graph.now.nodes }
    requires many { length classes.old.items ≡ graph.now.nodes }
    requires searched { IsSearched N.place_of A.place_of graph.now.nodes graph.now.arcs reached.old }
    ensures many { length classes.new.items ≡ graph.now.nodes }
    ensures searched { OnOk result (IsSearched N.place_of A.place_of graph.now.nodes graph.now.arcs reached.new) }
    ensures grown { OnOk result (IsGrown graph.now.arcs root reached.old.nodes reached.new.nodes) }
    ensures marked { OnOk result ((x : N) → Has reached.new.nodes x → (Has reached.old.nodes x → ⊥) →
        IsClass N.place_of classes.new.items x class) }
    ensures kept { OnOk result ((x : N) → Has reached.old.nodes x →
        slice_get classes.new.items (N.place_of x) ≡ slice_get classes.old.items (N.place_of x)) }
{
    let had = reached.nodes().len();
    graph.reach_more(root, reached)?;
    let (_, fresh) = reached.nodes().split_at(had);
    mark(fresh, classes, class);
    Ok(())
}

/// Gives the nodes the class.
fn mark<N: Index>(nodes: &[N], classes: &mut Arena<N, u32>, class: u32)
    requires { (x : N) → Has nodes.now x → N.place_of x < length classes.old.items }
    ensures many { length classes.new.items ≡ length classes.old.items }
    ensures marked { (x : N) → Has nodes.now x → IsClass N.place_of classes.new.items x class }
    ensures kept { (x : N) → (Has nodes.now x → ⊥) →
        slice_get classes.new.items (N.place_of x) ≡ slice_get classes.old.items (N.place_of x) }
{
    for node in nodes {
        classes.put(*node, class);
    }
}
