//! What stands for each edge: a provider or a label.
ghost use Rattle.std.specs.Prelude.{◌≡◌, ◌<◌, length, slice_set, IfOk};

use relationships::{End, Label};
use std::alloc::Global;
use std::marker::Model;
use tor_arena::{EdgeId, Index, NoMemory};

/// One of these for each edge, in the order of the edges.
#[derive(Drop)]
pub struct PerEdge<E> {
    items: Vec<E>,
}

impl<E> Model for PerEdge<E> {
    ghost use Rattle.std.specs.Prelude.{List};

    ghost Value = { List E };

    ghost view = { λ per_edge. per_edge.items.items };
}

/// A provider for each edge.
pub type Orientation = PerEdge<End>;

/// A label for each edge.
pub type Labels = PerEdge<Label>;

impl<E: Copy> PerEdge<E> {
    /// The edges have these, in order. The only error is that memory ran out.
    pub fn from_slice(alloc: Global, items: &[E]) -> Result<PerEdge<E>, NoMemory>
        ensures { IfOk result (λ made. made ≡ items.now) }
    {
        let items = Vec::from_slice(alloc, items)?;
        Ok(PerEdge { items })
    }

    /// What the edges have, in order. It takes no memory.
    pub fn as_slice(&self) -> &[E]
        ensures { result.now ≡ self.now }
    {
        self.items.as_slice()
    }

    /// Changes what an edge has that is there, and of no other. It takes no memory.
    pub fn set(&mut self, edge: EdgeId, item: E)
        requires { edge < length self.old }
        ensures { self.new ≡ slice_set self.old edge item }
    {
        self.items[edge.place()] = item;
    }
}
