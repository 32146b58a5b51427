//! The class of each node.
ghost use Rattle.std.specs.Prelude.{◌≡◌, ◌<◌, length};
ghost use Rattle.tor_solve.specs.Classes.{IsClass};

use std::marker::Model;
use tor_arena::{Arena, Index};

/// The class of each node, and how many classes there are.
#[derive(Drop)]
pub struct Components<N: Index> {
    classes: Arena<N, u32>,
    count: u32,
}

impl<N: Index> Model for Components<N> {
    ghost use Rattle.tor_solve.specs.Classes.{Classes};

    ghost Value = { Classes };

    ghost view = { λ c. record { of = c.classes.items; count = c.count } };
}

impl<N: Index> Components<N> {
    pub(crate) fn new(classes: Arena<N, u32>, count: u32) -> Components<N>
        ensures { result ≡ record { of = classes.items; count = count } }
    {
        Components { classes, count }
    }

    /// The class of a node, which has to have been in the graph. It takes no memory.
    pub fn class_of(&self, node: N) -> usize
        requires { N.place_of node < length self.now.of }
        ensures { IsClass N.place_of self.now.of node result }
    {
        *self.classes.get(node) as usize
    }

    /// How many classes there are. It takes no memory.
    pub fn count(&self) -> usize
        ensures { result ≡ self.now.count }
    {
        self.count as usize
    }
}
