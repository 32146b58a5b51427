//! Ways: walks of arcs.
ghost use Rattle.std.specs.Prelude.{◌<◌, List, Some, IfOk, OnOk};
ghost use Rattle.tor_digraph.specs.Found.{IsFound, IsRoot, IsFalling, HasTreeArcs, LeadsFromRoot};
ghost use Rattle.tor_digraph.specs.Walks.{IsWay};
ghost use Rattle.tor_digraph.specs.Back.{IsBack};

use crate::found::Found;
use crate::trace::Trace;
use std::alloc::Global;
use tor_arena::{Index, List, NoMemory};

/// A walk of arcs.
#[derive(Drop)]
pub struct Way<N, A> {
    /// The nodes, from the start of the walk to its end.
    pub nodes: List<N>,
    /// The arcs that lead from each node to the next, so one fewer.
    pub arcs: List<A>,
}

/// Steps back from a node, the last of them from the root.
#[derive(Drop)]
struct Back<N, A> {
    root: N,
    steps: List<(N, A)>,
}

/// Goes back from a node that was found to the one from which the search came to it first.
fn go_back<N: Index, A: Index>(
    alloc: Global,
    found: &Trace<N, A>,
    node: N,
) -> Result<Back<N, A>, NoMemory>
    requires found { IsFound N.place_of found.now.items node }
    requires falls { IsFalling N.place_of found.now.items }
    ensures root { IfOk result (λ b. IsRoot N.place_of found.now.items b.root) }
    ensures back { IfOk result (λ b. (arcs : List (N × N)) → HasTreeArcs N.place_of A.place_of arcs found.now.items →
        IsBack A.place_of arcs b.root node b.steps) }
{
    let mut root = node;
    let mut steps = List::new(alloc);
    while let Found::Along { tail, arc, .. } = *found.get(root) {
        match steps.push((root, arc)) {
            Ok(()) => root = tail,
            Err(NoMemory) => {
                drop(steps);
                return Err(NoMemory);
            }
        }
    }
    Ok(Back { root, steps })
}

/// The way that stays at a node.
fn way_at<N: Index, A: Index>(alloc: Global, node: N) -> Result<Way<N, A>, NoMemory>
    ensures { IfOk result (λ w. (arcs : List (N × N)) → IsWay A.place_of arcs node node w.nodes w.arcs) }
{
    let mut nodes = List::new(alloc);
    match nodes.push(node) {
        Ok(()) => Ok(Way {
            nodes,
            arcs: List::new(alloc),
        }),
        Err(NoMemory) => {
            drop(nodes);
            Err(NoMemory)
        }
    }
}

/// Goes on along steps back, the last first.
fn go_on<N: Index, A: Index>(steps: &mut List<(N, A)>, way: &mut Way<N, A>) -> Result<(), NoMemory>
    ensures { OnOk result ((arcs : List (N × N)) (start from end : N) → IsBack A.place_of arcs from end steps.old →
        IsWay A.place_of arcs start from way.old.nodes way.old.arcs → IsWay A.place_of arcs start end way.new.nodes way.new.arcs) }
{
    while let Some(step) = steps.pop() {
        way.nodes.push(step.0)?;
        way.arcs.push(step.1)?;
    }
    Ok(())
}

/// The same steps, the other way round.
fn reversed<N: Index, A: Index>(alloc: Global, back: &mut Back<N, A>) -> Result<Way<N, A>, NoMemory>
    ensures { IfOk result (λ w. (arcs : List (N × N)) (end : N) → IsBack A.place_of arcs back.old.root end back.old.steps →
        IsWay A.place_of arcs back.old.root end w.nodes w.arcs) }
{
    let mut way = way_at(alloc, back.root)?;
    match go_on(&mut back.steps, &mut way) {
        Ok(()) => Ok(way),
        Err(NoMemory) => {
            drop(way);
            Err(NoMemory)
        }
    }
}

/// A walk to a node that was found, from the start of its search tree.
pub(crate) fn way_to<N: Index, A: Index>(
    alloc: Global,
    found: &Trace<N, A>,
    node: N,
) -> Result<Way<N, A>, NoMemory>
    requires found { IsFound N.place_of found.now.items node }
    requires falls { IsFalling N.place_of found.now.items }
    ensures { IfOk result (λ w. LeadsFromRoot N.place_of A.place_of found.now.items node w.nodes w.arcs) }
{
    let mut back = go_back(alloc, found, node)?;
    let way = reversed(alloc, &mut back);
    drop(back);
    way
}
