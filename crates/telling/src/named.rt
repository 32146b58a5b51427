//! Which paths the steps of a telling have named.
ghost use Rattle.std.specs.Prelude.{◌≡◌, ◌+◌, ◌<◌, ℕ, List, [], ◌∷◌, ◌++◌, length, IfOk};
ghost use Rattle.telling.specs.PathText.{AreFlagged, was_named};

use std::alloc::Global;
use std::marker::Model;
use tor_arena::{Index, NoMemory, PathId};

/// Which paths of a result the steps so far have named: a flag for each path, in their order.
#[derive(Drop)]
pub struct NamedPaths {
    flags: Vec<bool>,
}

impl Model for NamedPaths {
    ghost use Rattle.std.specs.Prelude.{List, Bool};

    ghost Value = { List Bool };

    ghost view = { λ named. named.flags.items };
}

impl NamedPaths {
    /// None of so many paths. The only error is that memory ran out.
    pub fn none(alloc: Global, count: usize) -> Result<NamedPaths, NoMemory>
        ensures count { IfOk result (λ named. length named ≡ count) }
        ensures none { IfOk result (AreFlagged []) }
    {
        let flags = vec![in alloc; false; count]?;
        Ok(NamedPaths { flags })
    }

    /// Names a path, and answers whether it was named before.
    pub(crate) fn name(&mut self, path: PathId) -> bool
        requires { path < length self.old }
        ensures count { length self.new ≡ length self.old }
        ensures before { (before : List ℕ) → AreFlagged before self.old → result ≡ was_named before (path + 1) }
        ensures after { (before : List ℕ) → AreFlagged before self.old → AreFlagged (before ++ (path + 1) ∷ []) self.new }
    {
        let place = path.place();
        let before = self.flags[place];
        self.flags[place] = true;
        before
    }
}
