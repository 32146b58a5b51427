//! The route of a TABLE_DUMP record.
ghost use Rattle.std.specs.Prelude.{◌≡◌, ◌≢◌, ◌⊎◌, IfErr};
ghost use Rattle.path_attrs.specs.Fields.{Gives};
ghost use Rattle.rib_bodies.specs.TableDump.{behind_fields, route_of};

use mrt_header::Family;
use path_attrs::{Attrs, RibFault, attributes, number16, octet, octets};

// The octets behind the fields before the attributes. Fields of which only the length counts are passed over at once.
fn behind_fields(family: Family, body: &[u8]) -> Result<&[u8], RibFault>
    ensures gives { Gives (λ rest. rest.now) result (behind_fields family body.now) }
    ensures only { IfErr result (λ fault. (fault ≡ RibFault.Cut) ⊎ (fault ≡ RibFault.PrefixLong)) }
{
    let address_len = family.octets();
    // view and sequence, and the prefix
    let Ok((_, rest)) = octets(body, 4 + address_len, RibFault::Cut) else {
        return Err(RibFault::Cut);
    };
    let Ok((prefix_len, rest)) = octet(rest, RibFault::Cut) else {
        return Err(RibFault::Cut);
    };
    if usize::from(prefix_len) > 8 * address_len {
        return Err(RibFault::PrefixLong);
    }
    // status, time, and the address and the AS number of the peer
    let Ok((_, rest)) = octets(rest, 7 + address_len, RibFault::Cut) else {
        return Err(RibFault::Cut);
    };
    Ok(rest)
}

/// The path attributes of the route of a TABLE_DUMP record (RFC 6396, section 4.2), or the first fault of its body in the order
/// of the fields. Its addresses are of the family. It takes no memory.
#[tactic(auto, unfolding(crate::specs::TableDump::route_of))]
pub fn read_v1(family: Family, body: &[u8]) -> Result<Attrs<'_>, RibFault>
    ensures route { result ≡ route_of family body.now }
    ensures never { (result ≢ Err RibFault.NoPeerTable) × (result ≢ Err RibFault.PeerRange) }
{
    let rest = behind_fields(family, body)?;
    let Ok((len, rest)) = number16(rest, RibFault::Cut) else {
        return Err(RibFault::Cut);
    };
    let Ok((block, rest)) = octets(rest, usize::from(len), RibFault::Cut) else {
        return Err(RibFault::Cut);
    };
    let Ok(attrs) = attributes(block) else {
        return Err(RibFault::AttrCut);
    };
    if !rest.is_empty() {
        return Err(RibFault::Tail);
    }
    Ok(attrs)
}
