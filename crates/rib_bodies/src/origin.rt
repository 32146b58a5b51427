//! Where routes come from: their prefixes, and the peer of a TABLE_DUMP record.
ghost use Rattle.std.specs.Prelude.{◌≡◌};
ghost use Rattle.path_attrs.specs.Fields.{Gives};
ghost use Rattle.rib_bodies.specs.Origins.{rib_prefix, table_dump_origin, table_dump_prefix};

use crate::peers::Peer;
use crate::prefix::{Prefix, address_at, prefix_of};
use mrt_header::Family;
use path_attrs::{RibFault, number16, octet, octets};

/// Where the route of a TABLE_DUMP record comes from.
#[derive(Clone, Copy, PartialEq, Eq)]
pub struct RouteSource {
    /// The prefix.
    pub prefix: Prefix,
    /// The peer that gave the route. Its AS number is as the record has it, 23456 for one of four octets.
    pub peer: Peer,
}

/// The prefix of a unicast RIB (RFC 6396, section 4.3.2; RFC 8050, section 4), or the first fault of the fields up to it, Cut or
/// PrefixLong. What stands behind these isn't tested. It takes no memory.
#[tactic(auto, unfolding(crate::specs::Origins::rib_prefix))]
pub fn read_rib_prefix(family: Family, body: &[u8]) -> Result<Prefix, RibFault>
    ensures { result ≡ rib_prefix family body.now }
{
    let Ok((_sequence, rest)) = octets(body, 4, RibFault::Cut) else {
        return Err(RibFault::Cut);
    };
    let Ok((bits, rest)) = octet(rest, RibFault::Cut) else {
        return Err(RibFault::Cut);
    };
    if usize::from(bits) > 8 * family.octets() {
        return Err(RibFault::PrefixLong);
    }
    let Ok((field, _rest)) = octets(rest, usize::from(bits).div_ceil(8), RibFault::Cut) else {
        return Err(RibFault::Cut);
    };
    Ok(prefix_of(family, bits, field))
}

// The prefix of a TABLE_DUMP record, and the octets behind it.
#[tactic(auto, unfolding(crate::specs::Origins::table_dump_prefix))]
fn table_dump_prefix(family: Family, body: &[u8]) -> Result<(Prefix, &[u8]), RibFault>
    ensures { Gives (λ x. (x.0, x.1.now)) result (table_dump_prefix family body.now) }
{
    let Ok((_view, rest)) = octets(body, 2, RibFault::Cut) else {
        return Err(RibFault::Cut);
    };
    let Ok((_sequence, rest)) = octets(rest, 2, RibFault::Cut) else {
        return Err(RibFault::Cut);
    };
    let Ok((field, rest)) = octets(rest, family.octets(), RibFault::Cut) else {
        return Err(RibFault::Cut);
    };
    let Ok((bits, rest)) = octet(rest, RibFault::Cut) else {
        return Err(RibFault::Cut);
    };
    if usize::from(bits) > 8 * family.octets() {
        return Err(RibFault::PrefixLong);
    }
    Ok((prefix_of(family, bits, field), rest))
}

/// Where the route of a TABLE_DUMP record comes from (RFC 6396, section 4.2), or the first fault of the fields up to the peer's AS, Cut or
/// PrefixLong. What stands behind these isn't tested. Its addresses are of the family. It takes no memory.
#[tactic(auto, unfolding(crate::specs::Origins::table_dump_origin))]
pub fn read_v1_origin(family: Family, body: &[u8]) -> Result<RouteSource, RibFault>
    ensures { Gives (λ origin. (origin.prefix, origin.peer)) result (table_dump_origin family body.now) }
{
    let (prefix, rest) = table_dump_prefix(family, body)?;
    let Ok((_status, rest)) = octets(rest, 1, RibFault::Cut) else {
        return Err(RibFault::Cut);
    };
    let Ok((_originated, rest)) = octets(rest, 4, RibFault::Cut) else {
        return Err(RibFault::Cut);
    };
    let (address, rest) = address_at(family, rest)?;
    let Ok((as_number, _rest)) = number16(rest, RibFault::Cut) else {
        return Err(RibFault::Cut);
    };
    Ok(RouteSource {
        prefix,
        peer: Peer {
            as_number: u32::from(as_number),
            address,
        },
    })
}
