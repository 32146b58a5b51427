//! Probes: orders against the labels that bear out the open edges.
ghost use Rattle.std.specs.Prelude.{[], ◌≡◌, length, OnOk};
ghost use Rattle.relationships.specs.Graph.{edges};
ghost use Rattle.order_trials.specs.Candidates.{AreCandidates};
ghost use Rattle.order_trials.specs.Showing.{AreShown};
ghost use Rattle.forced_edges.specs.Findings.{AllSettled, AreMarkedBy, AreRight};

use crate::marks::Marks;
use order_trials::{Problem, probe_order};
use std::alloc::Global;
use tor_arena::{NoMemory, NodeId};
use tor_digraph::NodeSet;

/// Takes probes from the orders against the labels, the last first. Nothing is covered, all edges are marked by the orders that are shown,
/// and there is no probe yet.
fn probe_all(
    problem: &Problem<'_>,
    against: &[NodeId],
    shown: &NodeSet,
    covered: &mut NodeSet,
    marks: &mut Marks,
) -> Result<(), NoMemory>
    requires against { AreCandidates problem.now against.now }
    requires shown { shown.now.count ≡ problem.now.formula.net.nodes }
    requires count { covered.old.count ≡ problem.now.formula.net.nodes }
    requires uncovered { covered.old.items ≡ [] }
    requires walks { AreShown problem.now shown.now.items (length shown.now.items) marks.old.whys }
    requires settled { AllSettled problem.now shown.now.items }
    requires many { length marks.old.marks ≡ length (edges problem.now.graph) }
    requires marked { AreMarkedBy problem.now.labels shown.now.items marks.old.marks }
    requires unprobed { marks.old.probes ≡ [] }
    ensures { OnOk result (AreRight problem.now marks.new) }
{
    problem.facts();
    for left in (0..against.len()).rev() {
        let node = against[left];
        probe_order(problem, node, shown, covered, &mut marks.probes)?;
    }
    Ok(())
}

/// Takes probes from the orders against the labels, the last first: each but one whose opposite is shown, or to which an earlier probe
/// leads. These orders stand as a search in depth leaves them, so what leads to one of them stands behind it, unless each leads to the
/// other, and there are as few probes as there can be. All edges are marked by the orders that are shown, and there is no probe yet.
pub(crate) fn choose_probes(
    alloc: Global,
    problem: &Problem<'_>,
    against: &[NodeId],
    shown: &NodeSet,
    marks: &mut Marks,
) -> Result<(), NoMemory>
    requires against { AreCandidates problem.now against.now }
    requires shown { shown.now.count ≡ problem.now.formula.net.nodes }
    requires walks { AreShown problem.now shown.now.items (length shown.now.items) marks.old.whys }
    requires settled { AllSettled problem.now shown.now.items }
    requires many { length marks.old.marks ≡ length (edges problem.now.graph) }
    requires marked { AreMarkedBy problem.now.labels shown.now.items marks.old.marks }
    requires unprobed { marks.old.probes ≡ [] }
    ensures { OnOk result (AreRight problem.now marks.new) }
{
    let mut covered = NodeSet::new(alloc, problem.node_count())?;
    let done = probe_all(problem, against, shown, &mut covered, marks);
    drop(covered);
    done
}
