//! Literals that fail, since they lead to their opposites.
//!
//! Where a wish fails, the opposite of the last literal on its way that fails too is settled. The first unique implication point of SAT
//! solvers comes to much the same.
ghost use Rattle.std.specs.Prelude.{◌≡◌, ◌≤◌, ◌<◌, ℕ, List, Contains, IfOk, IfSome, IfNone};
ghost use Rattle.tor_arena.specs.Limits.{most_places};
ghost use Rattle.tor_digraph.specs.Walks.{Reaches};
ghost use Rattle.tor_digraph.specs.Spreading.{IsClosed};
ghost use Rattle.tor_digraph.specs.Trails.{IsTrail};
ghost use Rattle.tor_clauses.specs.Literals.{opposite_node};
ghost use Rattle.tor_orient.specs.Steps.{HasOpposites, IsFailing, IsLast, IsOver, NoneLeadsOut};

use crate::finding::find;
use std::alloc::Global;
use tor_arena::{ArcId, NoMemory, NodeId};
use tor_clauses::negation_node;
use tor_digraph::{NodeSet, RowDigraph, Trail};

/// A search from a literal for its opposite.
#[derive(Drop)]
pub(crate) struct Search {
    /// The literals to which it has come, and from where.
    pub(crate) tried: Trail,
    /// Those that lie behind one on the way back.
    pub(crate) behind: NodeSet,
}

impl Search {
    /// A search over so many nodes that has come to none.
    pub(crate) fn new(alloc: Global, count: usize) -> Result<Search, NoMemory>
        requires { count ≤ most_places }
        ensures { IfOk result (IsOver count) }
    {
        let tried = Trail::new(alloc, count)?;
        Ok(Search {
            tried,
            behind: NodeSet::new(alloc, count)?,
        })
    }
}

/// On the way by which a search has come from a literal to its opposite the last literal whose own opposite stands behind it. The other
/// memory is for the part of the way that lies behind.
fn last_failing(tried: &Trail, start: NodeId, behind: &mut NodeSet) -> Result<NodeId, NoMemory>
    requires start { start < behind.old.count }
    requires trail { (arcs : List (ℕ × ℕ)) × IsTrail arcs start tried.now }
    requires found { IsLast (opposite_node start) tried.now.nodes.items }
    requires count { tried.now.nodes.count ≡ behind.old.count }
    requires both { HasOpposites behind.old.count }
    ensures count { behind.new.count ≡ behind.old.count }
    ensures there { IfOk result (λ last. last < behind.old.count) }
    ensures failing { IfOk result (λ last. (arcs : List (ℕ × ℕ)) → IsTrail arcs start tried.now → IsFailing arcs start last) }
{
    behind.clear();
    let mut place = tried.nodes.len() - 1;
    while place > 0 {
        behind.add(tried.nodes.get(place))?;
        place = tried.origin_of(place).place as usize;
        let node = tried.nodes.get(place);
        if behind.has(negation_node(node)) {
            return Ok(node);
        }
    }
    Ok(start)
}

/// Whether a literal fails whose opposite is not settled: none where it does not lead to its opposite, and then all is tried that follows
/// from it; else the last literal on a way to that which fails too. The search does not go on past what is settled.
pub(crate) fn failing_behind(
    rows: &RowDigraph<'_, NodeId, ArcId>,
    node: NodeId,
    settled: &NodeSet,
    search: &mut Search,
) -> Result<Option<NodeId>, NoMemory>
    requires there { node < rows.now.nodes }
    requires count { settled.now.count ≡ rows.now.nodes }
    requires search { IsOver rows.now.nodes search.old }
    requires both { HasOpposites rows.now.nodes }
    requires closed { NoneLeadsOut rows.now.arcs settled.now.items }
    requires unsettled { Contains settled.now.items (opposite_node node) → ⊥ }
    ensures search { IsOver rows.now.nodes search.new }
    ensures none { IfOk result (λ last. IfNone last (Reaches rows.now.arcs node (opposite_node node) → ⊥)) }
    ensures trail { IfOk result (λ last. IfNone last (IsTrail rows.now.arcs node search.new.tried)) }
    ensures near { IfOk result (λ last. IfNone last (IsClosed rows.now.arcs settled.now.items search.new.tried.nodes.items)) }
    ensures there { IfOk result (λ last. IfSome last (λ n. n < rows.now.nodes)) }
    ensures some { IfOk result (λ last. IfSome last (IsFailing rows.now.arcs node)) }
{
    let other = negation_node(node);
    if find(rows, node, other, settled, &mut search.tried)? {
        let last = last_failing(&search.tried, node, &mut search.behind)?;
        return Ok(Some(last));
    }
    Ok(None)
}
