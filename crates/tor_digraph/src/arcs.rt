//! The arcs that leave a node.
ghost use Rattle.tor_digraph.specs.Leaving.{arcs_on};
ghost use Rattle.std.specs.Prelude.{◌<◌, length, IfSome};
ghost use Rattle.std.specs.Iterator.{YieldsFirstBy, item_count};

use crate::digraph::Digraph;
use tor_arena::Index;

/// The arcs that leave a node, the latest first, each with its head.
#[derive(Drop)]
pub struct ArcsFrom<'a, N: Index, A: Index> {
    pub(crate) graph: &'a Digraph<N, A>,
    pub(crate) next: Option<A>,
}

impl<'a, N: Index, A: Index> Iterator for ArcsFrom<'a, N, A> {
    type Item = (A, N);

    ghost can_next = { λ s. IfSome s.next (λ a. A.place_of a < length s.graph.now.arcs) };

    ghost next_gives = { YieldsFirstBy (λ x. (A.place_of x.0, x.1)) (λ s. arcs_on N.place_of A.place_of s.graph.now.arcs s.next) };

    ghost remaining = { item_count (λ s. arcs_on N.place_of A.place_of s.graph.now.arcs s.next) };

    fn next(&mut self) -> Option<(A, N)> {
        let arc = self.next?;
        let (_, head) = self.graph.ends(arc);
        self.next = self.graph.next_arc(arc);
        Some((arc, head))
    }
}
