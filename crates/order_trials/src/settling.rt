//! Whether an order leads to its opposite, one order after the other.
//!
//! An order that no arc leaves is settled without a search. Three quarters of the searches of a fan were for these.
ghost use Rattle.std.specs.Prelude.{◌≡◌, ◌<◌, IfOk};
ghost use Rattle.order_trials.specs.Showing.{IsFullyShown};
ghost use Rattle.order_trials.specs.Settling.{IsTogether, IsSettling, Settles};

use crate::problem::Problem;
use crate::showing::Shown;
use crate::trial::search;
use std::alloc::Global;
use tor_arena::{NoMemory, NodeId};
use tor_clauses::negation_node;
use tor_digraph::{NodeSet, Trail, spread};

/// Orders that are settled, in batches: whether each leads to its opposite.
#[derive(Drop)]
pub struct Settling {
    /// What was reached in this batch, from all its orders together. None of it leads to its opposite.
    pub together: NodeSet,
    /// What the search from one order has tried.
    pub trial: Trail,
    /// The orders to which their opposites lead, as far as is known, with all that follows from them.
    pub shown: Shown,
}

impl Settling {
    /// No order is settled yet. The only error is that memory ran out.
    pub fn new(alloc: Global, problem: &Problem<'_>) -> Result<Settling, NoMemory>
        ensures { IfOk result (IsSettling problem.now) }
    {
        let shown = Shown::new(alloc, problem.node_count())?;
        let trial = match Trail::new(alloc, problem.node_count()) {
            Ok(trial) => trial,
            Err(error) => {
                drop(shown);
                return Err(error);
            }
        };
        match NodeSet::new(alloc, problem.node_count()) {
            Ok(together) => Ok(Settling {
                together,
                trial,
                shown,
            }),
            Err(error) => {
                drop(trial);
                drop(shown);
                Err(error)
            }
        }
    }

    /// The orders that are shown, with their walks. It takes no memory.
    pub fn into_shown(self) -> Shown
        ensures { result ≡ self.shown }
    {
        let Settling {
            together,
            trial,
            shown,
        } = self;
        drop(together);
        drop(trial);
        shown
    }

    /// Settles whether an order leads to its opposite, or answers that it has to wait for another batch, since what was reached leads to
    /// its opposite. Alone it does not join the batch. The only error is that memory ran out.
    pub fn settle(
        &mut self,
        alloc: Global,
        problem: &Problem<'_>,
        node: NodeId,
        alone: bool,
    ) -> Result<bool, NoMemory>
        requires there { node < problem.now.formula.net.nodes }
        requires together { IsTogether problem.now self.old.shown.nodes.items self.old.together }
        requires trial { self.old.trial.nodes.count ≡ problem.now.formula.net.nodes }
        requires shown { IsFullyShown problem.now self.old.shown }
        ensures { IfOk result (Settles problem.now node self.old self.new) }
    {
        problem.facts();
        // from an order that no arc leaves, nothing follows
        if problem.row(node).is_empty() {
            return Ok(true);
        }
        let other = negation_node(node);
        if self.shown.nodes.has(other) {
            return Ok(true);
        }
        if self.together.has(node) {
            return Ok(true);
        }
        if self.together.has(other) {
            return Ok(false);
        }
        if let Some(clash) = search(problem, &self.together, node, &mut self.trial)? {
            self.shown
                .show_opposite(alloc, problem, node, &self.trial, clash)?;
            return Ok(true);
        }
        if alone {
            return Ok(true);
        }
        spread(problem.rows(), node, &self.shown.nodes, &mut self.together)?;
        Ok(true)
    }
}
