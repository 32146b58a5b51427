//! One step of a search in depth.
ghost use Rattle.std.specs.Prelude.{◌≡◌, ◌<◌, ◌≤◌, ◌++◌, ◌∷◌, [], List, Some, slice_get, length, OnOk};
ghost use Rattle.tor_digraph.specs.Search.{IsSearch, IsGrowth, IsLater, IsLess, GrowsOn};
ghost use Rattle.tor_digraph.specs.Found.{IsFound, HasRootsOf};

use crate::digraph::Digraph;
use crate::found::{Found, Open};
use crate::trace::Trace;
use tor_arena::{Index, List, NoMemory};

/// Looks along the next arc of a node, or leaves the node for good.
fn step<N: Index, A: Index>(
    graph: &Digraph<N, A>,
    top: Open<N, A>,
    found: &mut Trace<N, A>,
    nodes: &mut List<N>,
    stack: &mut List<Open<N, A>>,
) -> Result<(), NoMemory>
    requires many { length found.old.items ≡ graph.now.nodes }
    requires few { graph.now.nodes ≤ N.LIMIT }
    requires search { IsSearch N.place_of A.place_of graph.now.arcs found.old.items nodes.old (stack.old ++ top ∷ []) }
    ensures many { length found.new.items ≡ graph.now.nodes }
    ensures search { OnOk result (IsSearch N.place_of A.place_of graph.now.arcs found.new.items nodes.new stack.new) }
    ensures later { OnOk result (IsLater N.place_of found.old.items found.new.items) }
    ensures less { OnOk result (IsLess A.place_of graph.now.arcs found.old.items (stack.old ++ top ∷ []) found.new.items stack.new) }
    ensures growth { OnOk result (GrowsOn graph.now.arcs nodes.old (stack.old ++ top ∷ []) nodes.new stack.new) }
{
    match top.next {
        None => nodes.push(top.node),
        Some(arc) => {
            let (_, head) = graph.ends(arc);
            let next = graph.next_arc(arc);
            stack.push(Open {
                node: top.node,
                next,
            })?;
            match *found.get(head) {
                Found::No => {
                    let along = Found::Along {
                        tail: top.node,
                        arc,
                        depth: stack.len() as u32,
                    };
                    let first = graph.first_arc(head);
                    found.put(head, along);
                    stack.push(Open {
                        node: head,
                        next: first,
                    })
                }
                _ => Ok(()),
            }
        }
    }
}

/// Looks along all arcs of the nodes on the stack, and of the nodes that are found so.
fn search<N: Index, A: Index>(
    graph: &Digraph<N, A>,
    found: &mut Trace<N, A>,
    nodes: &mut List<N>,
    stack: &mut List<Open<N, A>>,
) -> Result<(), NoMemory>
    requires many { length found.old.items ≡ graph.now.nodes }
    requires few { graph.now.nodes ≤ N.LIMIT }
    requires search { IsSearch N.place_of A.place_of graph.now.arcs found.old.items nodes.old stack.old }
    ensures many { length found.new.items ≡ graph.now.nodes }
    ensures search { OnOk result (IsSearch N.place_of A.place_of graph.now.arcs found.new.items nodes.new []) }
    ensures later { OnOk result (IsLater N.place_of found.old.items found.new.items) }
    ensures growth { OnOk result (GrowsOn graph.now.arcs nodes.old stack.old nodes.new []) }
{
    while let Some(top) = stack.pop() {
        step(graph, top, found, nodes, stack)?;
    }
    Ok(())
}

/// Looks along all walks from a start that was not found before.
pub(crate) fn explore<N: Index, A: Index>(
    graph: &Digraph<N, A>,
    start: N,
    found: &mut Trace<N, A>,
    nodes: &mut List<N>,
    stack: &mut List<Open<N, A>>,
) -> Result<(), NoMemory>
    requires start { N.place_of start < graph.now.nodes }
    requires many { length found.old.items ≡ graph.now.nodes }
    requires search { IsSearch N.place_of A.place_of graph.now.arcs found.old.items nodes.old [] }
    requires absent { slice_get found.old.items (N.place_of start) ≡ Some Found.No }
    ensures many { length found.new.items ≡ graph.now.nodes }
    ensures search { OnOk result (IsSearch N.place_of A.place_of graph.now.arcs found.new.items nodes.new []) }
    ensures growth { OnOk result (IsGrowth {A = A} graph.now.arcs start nodes.old nodes.new []) }
    ensures found { OnOk result (IsFound N.place_of found.new.items start) }
    ensures starts { OnOk result (HasRootsOf N.place_of start found.old.items found.new.items) }
{
    prove!(graph.node_count() <= N::LIMIT);
    let next = graph.first_arc(start);
    stack.clear();
    found.put(start, Found::Start);
    stack.push(Open { node: start, next })?;
    search(graph, found, nodes, stack)
}
