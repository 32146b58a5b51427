//! Which orders lead to their opposites, settled in batches.
//!
//! A batch begins with orders that don't join it, as long as that is cheap. Behind a hub each that joins has visited thousands of orders,
//! in each batch anew. Arcs are counted and not nodes, else all would look along the arcs of one hub.
ghost use Rattle.std.specs.Prelude.{[], ◌≡◌, ℕ, Contains, OnOk, IfOk};
ghost use Rattle.order_trials.specs.Showing.{IsFullyShown};
ghost use Rattle.order_trials.specs.Settling.{IsSettled, IsSettling};
ghost use Rattle.forced_edges.specs.Batches.{IsWaiting, AreNodesOf, IsBatchSettled};

use order_trials::{Problem, Settling, Shown};
use std::alloc::Global;
use tor_arena::{List, NoMemory, NodeId};
use tor_digraph::NodeSet;

/// Settles those of the orders that need not wait, and adds the others to those that wait, of which there is none yet. The first are
/// settled alone, until so many arcs lead out of what their searches have tried.
fn settle_each(
    alloc: Global,
    problem: &Problem<'_>,
    nodes: &[NodeId],
    arcs: usize,
    settling: &mut Settling,
    waiting: &mut List<NodeId>,
) -> Result<(), NoMemory>
    requires inside { AreNodesOf problem.now nodes.now }
    requires settling { IsSettling problem.now settling.old }
    requires none { settling.old.together.items ≡ [] }
    requires empty { waiting.old ≡ [] }
    ensures settling { OnOk result (IsSettling problem.now settling.new) }
    ensures batch { OnOk result (IsBatchSettled problem.now nodes.now settling.old.shown settling.new.shown waiting.new) }
{
    let mut left = arcs;
    for place in 0..nodes.len() {
        let node = nodes[place];
        let done = settling.settle(alloc, problem, node, left > 0)?;
        let_wait(done, node, waiting)?;
        left = left_of(left, problem, &settling.trial.nodes);
    }
    Ok(())
}

/// Settles those of the orders that need not wait, and answers the others. The first are settled alone, until there are as many arcs
/// out of what their searches have tried as nodes that the batch before this one has reached.
fn settle_batch(
    alloc: Global,
    problem: &Problem<'_>,
    nodes: &[NodeId],
    settling: &mut Settling,
) -> Result<List<NodeId>, NoMemory>
    requires inside { AreNodesOf problem.now nodes.now }
    requires settling { IsSettling problem.now settling.old }
    ensures settling { OnOk result (IsSettling problem.now settling.new) }
    ensures batch { IfOk result (IsBatchSettled problem.now nodes.now settling.old.shown settling.new.shown) }
{
    let arcs = settling.together.len();
    settling.together.clear();
    let mut waiting = List::new(alloc);
    match settle_each(alloc, problem, nodes, arcs, settling, &mut waiting) {
        Ok(()) => Ok(waiting),
        Err(error) => {
            drop(waiting);
            Err(error)
        }
    }
}

/// Settles all of these orders, in batches: within a batch what all of them lead to is visited once.
fn settle_batches(
    alloc: Global,
    problem: &Problem<'_>,
    nodes: &[NodeId],
    settling: &mut Settling,
) -> Result<(), NoMemory>
    requires inside { AreNodesOf problem.now nodes.now }
    requires settling { IsSettling problem.now settling.old }
    ensures settling { OnOk result (IsSettling problem.now settling.new) }
    ensures settled { OnOk result ((n : ℕ) → Contains nodes.now n → IsSettled problem.now settling.new.shown.nodes.items n) }
{
    let mut waiting = settle_batch(alloc, problem, nodes, settling)?;
    while !waiting.is_empty() {
        waiting = settle_batch(alloc, problem, waiting.as_slice(), settling)?;
    }
    Ok(())
}

/// What is left of so many arcs but for those that leave these nodes: none, if these are as many or more.
fn left_of(arcs: usize, problem: &Problem<'_>, nodes: &NodeSet) -> usize
    requires { nodes.now.count ≡ problem.now.formula.net.nodes }
{
    if arcs == 0 {
        return 0;
    }
    let mut left = arcs;
    for place in 0..nodes.len() {
        left = left.saturating_sub(problem.row(nodes.get(place)).len());
    }
    left
}

/// Adds an order that is not settled to those that wait.
fn let_wait(done: bool, node: NodeId, waiting: &mut List<NodeId>) -> Result<(), NoMemory>
    ensures { OnOk result (IsWaiting done node waiting.old waiting.new) }
{
    if !done {
        waiting.push(node)?;
    }
    Ok(())
}

/// Settles all of these orders, and answers those that are shown by it.
pub(crate) fn settle_all(
    alloc: Global,
    problem: &Problem<'_>,
    nodes: &[NodeId],
) -> Result<Shown, NoMemory>
    requires inside { AreNodesOf problem.now nodes.now }
    ensures shown { IfOk result (IsFullyShown problem.now) }
    ensures settled { IfOk result (λ shown. (n : ℕ) → Contains nodes.now n → IsSettled problem.now shown.nodes.items n) }
{
    let mut settling = Settling::new(alloc, problem)?;
    match settle_batches(alloc, problem, nodes, &mut settling) {
        Ok(()) => Ok(settling.into_shown()),
        Err(error) => {
            drop(settling);
            Err(error)
        }
    }
}
