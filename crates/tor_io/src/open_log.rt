//! The names by which files were asked for.
ghost use Rattle.std.specs.Prelude.{◌≡◌, ◌++◌, ◌∷◌, ℕ, List, []};
ghost use Rattle.std.specs.Borrow.{ftrue};

use std::marker::{Model, PhantomData};

/// The names by which a shelf was asked to open files, in order. Clauses alone read them: it takes no memory, and its calls do nothing when
/// they run.
#[derive(Drop)]
pub struct OpenLog {
    marker: PhantomData<u8>,
    pub ghost names: { List (List ℕ) },
}

impl Model for OpenLog {
    ghost also_owns = { λ _. ftrue };
}

impl OpenLog {
    /// No name.
    pub fn new() -> OpenLog
        ensures { result.names ≡ [] }
    {
        OpenLog {
            marker: PhantomData,
        }
    }

    /// Adds a name, as the last one.
    pub fn add(&mut self, _name: &[u8])
        ensures { self.new.names ≡ self.old.names ++ _name.now ∷ [] }
    {}
}
