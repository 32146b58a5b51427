//! Probes: orders against the labels that bear out the open edges, one after the other.
ghost use Rattle.std.specs.Prelude.{◌≡◌, ◌<◌, OnOk};
ghost use Rattle.tor_digraph.specs.Spreading.{IsClosed};
ghost use Rattle.order_trials.specs.Probing.{Probes};

use crate::problem::Problem;
use relationships::Probe;
use tor_arena::{List, NoMemory, NodeId};
use tor_clauses::negation_node;
use tor_digraph::{NodeSet, spread};

/// Adds an order to the probes, and covers what it leads to, but not past the orders of the labels, unless its opposite is shown or it
/// is covered. The only error is that memory ran out.
pub fn probe_order(
    problem: &Problem<'_>,
    node: NodeId,
    shown: &NodeSet,
    covered: &mut NodeSet,
    probes: &mut List<Probe>,
) -> Result<(), NoMemory>
    requires there { node < problem.now.formula.net.nodes }
    requires shown { shown.now.count ≡ problem.now.formula.net.nodes }
    requires covered { covered.old.count ≡ problem.now.formula.net.nodes }
    requires covers { IsClosed problem.now.formula.net.arcs problem.now.held covered.old.items }
    ensures count { covered.new.count ≡ problem.now.formula.net.nodes }
    ensures probes { OnOk result (Probes problem.now shown.now.items node covered.old.items covered.new.items probes.old probes.new) }
{
    problem.facts();
    if shown.has(negation_node(node)) {
        return Ok(());
    }
    if covered.has(node) {
        return Ok(());
    }
    spread(problem.rows(), node, problem.held(), covered)?;
    let (over, under) = problem.order(node);
    probes.push(Probe { over, under })
}
