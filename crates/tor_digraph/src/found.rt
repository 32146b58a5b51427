//! How a node was found.
ghost use Rattle.std.specs.Prelude.{◌≡◌, ◌↔◌, IsTrue};

/// How a node was found: not at all, as the start, or along an arc from its tail, so many arcs
/// from the start.
#[derive(Clone, Copy)]
pub(crate) enum Found<N, A> {
    No,
    Start,
    Along { tail: N, arc: A, depth: u32 },
}

/// A node whose arcs are looked at one by one, and the next of them.
#[derive(Clone, Copy)]
pub(crate) struct Open<N, A> {
    pub(crate) node: N,
    pub(crate) next: Option<A>,
}

impl<N, A> Found<N, A> {
    /// Whether the node was found.
    pub(crate) fn is_seen(&self) -> bool
        ensures { IsTrue result ↔ (self.now ≡ Found.No → ⊥) }
    {
        match self {
            Found::No => false,
            _ => true,
        }
    }
}
