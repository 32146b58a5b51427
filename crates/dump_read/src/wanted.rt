//! What is wanted of dumps.
ghost use Rattle.std.specs.Prelude.{◌≡◌, None};
ghost use Rattle.dump_read.specs.Wanted.{all_wanted, family_counts, peer_counts};

use mrt_header::Family;
use path_clean::Sets;
use tor_arena::List;

/// The families whose routes count.
#[derive(Clone, Copy, PartialEq, Eq)]
pub enum Families {
    /// IPv4 and IPv6.
    Both,
    /// One of them.
    Only(Family),
}

/// What is wanted of dumps: what becomes of sets in AS_PATHs, and which routes count. Of the others nothing is taken in; their records
/// are read and tested like any.
#[derive(Drop)]
pub struct Wanted {
    /// What becomes of sets in AS_PATHs.
    pub sets: Sets,
    /// The families whose routes count.
    pub families: Families,
    /// The ASes of the peers whose routes count, in any order. None where those of all peers do.
    pub from: Option<List<u32>>,
}

impl Wanted {
    /// All routes count. It takes no memory.
    pub fn all(sets: Sets) -> Wanted
        ensures { result ≡ all_wanted sets }
    {
        Wanted {
            sets,
            families: Families::Both,
            from: None,
        }
    }

    /// Whether routes of this family count, where those of their peers do. It takes no memory.
    pub(crate) fn has_family(&self, family: Family) -> bool
        ensures { result ≡ family_counts self.now.families family }
    {
        match self.families {
            Families::Both => true,
            Families::Only(only) => only == family,
        }
    }
}
