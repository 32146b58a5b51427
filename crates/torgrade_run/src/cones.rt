//! The customer cone that is asked for.
ghost use Rattle.std.specs.Prelude.{IfOk};
ghost use Rattle.torgrade_run.specs.GradeText.{IsConeAsked};

use as_rel::{Rel, cone};
use std::alloc::Global;
use tor_arena::{Keys, List, NoMemory};

/// The customer cone of an AS.
#[derive(Drop)]
pub(crate) struct Cone {
    /// The AS.
    pub of: u32,
    /// The ASes of its cone, in ascending order.
    pub members: List<u32>,
}

/// The cone of an AS under known relationships, if one is asked for.
pub(crate) fn cone_asked(
    alloc: Global,
    keys: Keys,
    rel: &Rel,
    asked: Option<u32>,
) -> Result<Option<Cone>, NoMemory>
    ensures { IfOk result (IsConeAsked rel.now asked) }
{
    match asked {
        None => Ok(None),
        Some(of) => {
            let members = cone(alloc, keys, rel, of)?;
            Ok(Some(Cone { of, members }))
        }
    }
}
