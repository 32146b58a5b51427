//! Which end is over the other by a label.
ghost use Rattle.std.specs.Prelude.{ℕ, ◌≡◌, ◌<◌, ◌*◌, length, IfOk, IsTrue, Contains};
ghost use Rattle.tor_clauses.specs.Literals.{most_edges};
ghost use Rattle.order_trials.specs.Held.{end_of_label, held};

use relationships::{End, Label};
use std::alloc::Global;
use tor_arena::{EdgeId, Index, NoMemory};
use tor_clauses::Lit;
use tor_digraph::NodeSet;

/// The end that is over the other by a label. A peering is read as if its lower number were the provider.
fn end_by(label: Label) -> End
    ensures { result ≡ end_of_label label }
{
    match label {
        Label::High => End::High,
        _ => End::Low,
    }
}

/// The nodes of the orders that the labels have, one for each edge.
pub(crate) fn held_nodes(alloc: Global, labels: &[Label]) -> Result<NodeSet, NoMemory>
    requires few { length labels.now < most_edges }
    ensures count { IfOk result (λ nodes. nodes.count ≡ length labels.now * 2) }
    ensures held { IfOk result (λ nodes. (n : ℕ) → Contains nodes.items n → IsTrue (held labels.now n)) }
{
    let mut nodes = NodeSet::new(alloc, labels.len() * 2)?;
    for place in 0..labels.len() {
        let edge = EdgeId::from_place(place).unwrap();
        let over = end_by(labels[place]);
        match nodes.add(Lit::new(edge, over).node()) {
            Ok(_) => {}
            Err(NoMemory) => {
                drop(nodes);
                return Err(NoMemory);
            }
        }
    }
    Ok(nodes)
}
