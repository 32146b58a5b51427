//! Addresses and prefixes.
ghost use Rattle.std.specs.Prelude.{◌≡◌, ◌*◌, ◌+◌, ◌<◌, ◌≤◌, length};
ghost use Rattle.std.specs.Net.Addr.{ipv4_octets, ipv6_segments, segments_of};
ghost use Rattle.mrt_header.specs.Kinds.{address_octets};
ghost use Rattle.path_attrs.specs.Fields.{Gives, octets};
ghost use Rattle.rib_bodies.specs.Addresses.{address_of, masked, masked_octet, prefix_of, with_bits};
ghost use Rattle.rib_bodies.specs.Peers.{address_at};

use mrt_header::Family;
use path_attrs::{RibFault, octets};
use std::net::{IpAddr, Ipv4Addr, Ipv6Addr};

/// A prefix: an address, and how many of its bits are the prefix. All bits behind these are zero.
#[derive(Clone, Copy, PartialEq, Eq)]
pub struct Prefix {
    /// The address.
    pub address: IpAddr,
    /// The length of the prefix in bits.
    pub bits: u8,
}

// An octet of which so many bits are kept.
fn with_bits(bits: usize, octet: u8) -> u8
    ensures { result ≡ with_bits bits octet }
{
    let unused = 8usize.saturating_sub(bits);
    let number = u16::from(octet);
    (number - number % (1u16 << unused)) as u8
}

// The octet of this place, where only the first bits are those of the field.
fn masked_octet(bits: usize, field: &[u8], place: usize) -> u8
    requires { place < 16 }
    ensures { result ≡ masked_octet bits field.now place }
{
    match field.get(place) {
        Some(octet) => with_bits(bits.saturating_sub(8 * place), *octet),
        None => 0,
    }
}

// The same of two octets.
fn masked_segment(bits: usize, field: &[u8], place: usize) -> u16
    requires { place < 8 }
    ensures { result ≡ masked_octet bits field.now (2 * place) * 256 + masked_octet bits field.now (2 * place + 1) }
{
    let high = masked_octet(bits, field, 2 * place);
    let low = masked_octet(bits, field, 2 * place + 1);
    u16::from(high) * 256 + u16::from(low)
}

// The address of IPv6 of which only the first bits are those of the field.
fn masked_v6(bits: usize, field: &[u8]) -> Ipv6Addr
    ensures { ipv6_segments result ≡ segments_of (masked 16 bits field.now) }
{
    Ipv6Addr::new(
        masked_segment(bits, field, 0),
        masked_segment(bits, field, 1),
        masked_segment(bits, field, 2),
        masked_segment(bits, field, 3),
        masked_segment(bits, field, 4),
        masked_segment(bits, field, 5),
        masked_segment(bits, field, 6),
        masked_segment(bits, field, 7),
    )
}

// The same of IPv4.
#[tactic(auto, unfolding(crate::specs::Addresses::masked))]
fn masked_v4(bits: usize, field: &[u8]) -> Ipv4Addr
    ensures { ipv4_octets result ≡ masked 4 bits field.now }
{
    Ipv4Addr::new(
        masked_octet(bits, field, 0),
        masked_octet(bits, field, 1),
        masked_octet(bits, field, 2),
        masked_octet(bits, field, 3),
    )
}

/// The prefix of so many bits, which stand in this field.
pub(crate) fn prefix_of(family: Family, bits: u8, field: &[u8]) -> Prefix
    ensures { result ≡ prefix_of family bits field.now }
{
    let address = match family {
        Family::Ipv4 => IpAddr::V4(masked_v4(usize::from(bits), field)),
        Family::Ipv6 => IpAddr::V6(masked_v6(usize::from(bits), field)),
    };
    Prefix { address, bits }
}

/// The address of the family that stands first, and the octets behind it. Cut where fewer octets are left.
pub(crate) fn address_at(family: Family, bytes: &[u8]) -> Result<(IpAddr, &[u8]), RibFault>
    ensures { Gives (λ x. (x.0, x.1.now)) result (address_at family bytes.now) }
{
    let Ok((field, rest)) = octets(bytes, family.octets(), RibFault::Cut) else {
        return Err(RibFault::Cut);
    };
    Ok((whole_address(family, field), rest))
}

// The address of these octets.
fn whole_address(family: Family, field: &[u8]) -> IpAddr
    requires { length field.now ≡ address_octets family }
    ensures { result ≡ address_of family field.now }
{
    match family {
        Family::Ipv4 => match field.as_array::<4>() {
            Some(octets) => IpAddr::V4(Ipv4Addr::from_octets(*octets)),
            None => unreachable!(),
        },
        Family::Ipv6 => match field.as_array::<16>() {
            Some(octets) => IpAddr::V6(Ipv6Addr::from_octets(*octets)),
            None => unreachable!(),
        },
    }
}
