//! Ends that were changed.
ghost use Rattle.std.specs.Prelude.{◌≡◌, ℕ, ◌*◌, ◌<◌, [], length, OnOk};
ghost use Rattle.tor_digraph.specs.Trails.{StandsAt};
ghost use Rattle.tor_clauses.specs.Flipping.{IsAgreed};
ghost use Rattle.tor_mend.specs.Searches.{AreUnheld, IsVisited};
ghost use Rattle.tor_mend.specs.Mends.{flipped_back, AreInside};

use as_graph::Orientation;
use relationships::End;
use tor_arena::{EdgeId, Index, List, NoMemory};
use tor_clauses::Lit;
use tor_digraph::NodeSet;

/// An edge whose provider was changed, and which end it was.
#[derive(Clone, Copy)]
pub struct Flip {
    /// The edge.
    pub edge: EdgeId,
    /// Its provider before.
    pub was: End,
}

/// Makes the literals that were visited hold, none of which holds. Where memory runs out, some of them hold.
pub(crate) fn flip_all(
    ends: &mut Orientation,
    visited: &NodeSet,
    flips: &mut List<Flip>,
) -> Result<(), NoMemory>
    requires count { visited.now.count ≡ length ends.old * 2 }
    requires unheld { AreUnheld ends.old visited.now.items }
    requires flips { AreInside (length ends.old) flips.old }
    ensures many { length ends.new ≡ length ends.old }
    ensures flips { AreInside (length ends.new) flips.new }
    ensures back { flipped_back ends.new flips.new ≡ flipped_back ends.old flips.old }
    ensures inside { OnOk result ((k x : ℕ) → StandsAt visited.now.items k x → x < length ends.old * 2) }
    ensures agreed { OnOk result (IsAgreed ends.old ends.new (IsVisited visited.now.items)) }
{
    for place in 0..visited.len() {
        let lit = Lit::of_node(visited.get(place));
        let edge = lit.edge();
        let was = ends.as_slice()[edge.place()];
        flips.push(Flip { edge, was })?;
        ends.set(edge, lit.over());
    }
    Ok(())
}

/// Takes all flips back, the last first. It takes no memory.
pub fn flip_back(ends: &mut Orientation, flips: &mut List<Flip>)
    requires { AreInside (length ends.old) flips.old }
    ensures ends { ends.new ≡ flipped_back ends.old flips.old }
    ensures none { flips.new ≡ [] }
{
    while let Some(flip) = flips.pop() {
        ends.set(flip.edge, flip.was);
    }
}
