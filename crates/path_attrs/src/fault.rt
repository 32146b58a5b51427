//! What is wrong with a record.
use crate::block::AttrCut;

/// What is wrong with the body of a table dump's record (RFC 6396, section 4).
#[derive(Clone, Copy, Debug, PartialEq, Eq)]
pub enum RibFault {
    /// A field is not whole in the body.
    Cut,
    /// Octets stand behind the last field.
    Tail,
    /// The prefix length is above that of an address, 32 or 128.
    PrefixLong,
    /// A RIB record stands before any peer table.
    NoPeerTable,
    /// A peer index is not below the peer table's count.
    PeerRange,
    /// The attributes are no list of whole attributes.
    AttrCut,
}

impl From<AttrCut> for RibFault {
    ghost use Rattle.std.specs.Prelude.{◌≡◌};
    ghost use Rattle.path_attrs.specs.declared.fault.RibFault.{RibFault};

    ghost from_gives = { λ _ fault. fault ≡ RibFault.AttrCut };

    fn from(_: AttrCut) -> RibFault {
        RibFault::AttrCut
    }
}
