//! The peers of a peer table as values (RFC 6396, section 4.3.1).
ghost use Rattle.std.specs.Prelude.{◌≡◌, ◌<◌, [], ◌∷◌, length, IfOk, MatchOption};
ghost use Rattle.path_attrs.specs.Fields.{Gives, number};
ghost use Rattle.rib_bodies.specs.Encoding.{octets_of_as};
ghost use Rattle.rib_bodies.specs.Peers.{family_of_peer, first_peer, peers_at, peers_named, table_head};

use crate::prefix::address_at;
use byteorder::{BigEndian, ByteOrder};
use mrt_header::Family;
use path_attrs::{RibFault, number16, octet, octets};
use std::marker::Model;
use std::net::IpAddr;

/// The bit of a peer type that says an IPv6 address.
const IPV6: u8 = 0x01;

/// The bit of a peer type that says an AS number of four octets.
const AS4: u8 = 0x02;

/// A peer: its AS and its address.
#[derive(Clone, Copy, PartialEq, Eq)]
pub struct Peer {
    /// The number of its AS.
    pub as_number: u32,
    /// Its address.
    pub address: IpAddr,
}

// The family of a peer's address, by the peer's type.
fn family_of_peer(kind: u8) -> Family
    ensures { result ≡ family_of_peer kind }
{
    if kind & IPV6 == 0 {
        Family::Ipv4
    } else {
        Family::Ipv6
    }
}

// The AS number that stands first, by the peer's type, and the octets behind it.
fn as_number_at(kind: u8, bytes: &[u8]) -> Result<(u32, &[u8]), RibFault>
    ensures { Gives (λ x. (x.0, x.1.now)) result (number RibFault.Cut (octets_of_as kind) bytes.now) }
{
    if kind & AS4 == 0 {
        let Ok((number, rest)) = number16(bytes, RibFault::Cut) else {
            return Err(RibFault::Cut);
        };
        return Ok((u32::from(number), rest));
    }
    let Ok((field, rest)) = octets(bytes, 4, RibFault::Cut) else {
        return Err(RibFault::Cut);
    };
    Ok((BigEndian::read_u32(field), rest))
}

// The peer that stands first, and the octets behind it.
#[tactic(auto, unfolding(crate::specs::Peers::first_peer))]
fn first_peer(bytes: &[u8]) -> Result<(Peer, &[u8]), RibFault>
    ensures { Gives (λ x. (x.0, x.1.now)) result (first_peer bytes.now) }
{
    let Ok((kind, rest)) = octet(bytes, RibFault::Cut) else {
        return Err(RibFault::Cut);
    };
    let Ok((_bgp_id, rest)) = octets(rest, 4, RibFault::Cut) else {
        return Err(RibFault::Cut);
    };
    let (address, rest) = address_at(family_of_peer(kind), rest)?;
    let (as_number, rest) = as_number_at(kind, rest)?;
    Ok((Peer { as_number, address }, rest))
}

// How many peers a table has, and the octets behind that number.
#[tactic(auto, unfolding(crate::specs::Peers::table_head))]
fn table_head(body: &[u8]) -> Result<(u16, &[u8]), RibFault>
    ensures { Gives (λ x. (x.0, x.1.now)) result (table_head body.now) }
{
    let Ok((_collector, rest)) = octets(body, 4, RibFault::Cut) else {
        return Err(RibFault::Cut);
    };
    let Ok((name_len, rest)) = number16(rest, RibFault::Cut) else {
        return Err(RibFault::Cut);
    };
    let Ok((_name, rest)) = octets(rest, usize::from(name_len), RibFault::Cut) else {
        return Err(RibFault::Cut);
    };
    number16(rest, RibFault::Cut)
}

/// The peers of a table that are still to come, by their places, where they lie.
#[derive(Drop)]
pub struct PeerCursor<'a> {
    count: u16,
    rest: &'a [u8],
}

impl<'a> Model for PeerCursor<'a> {
    ghost use Rattle.std.specs.Prelude.{List, IsOk};
    ghost use Rattle.rib_bodies.specs.declared.peers.Peer.{Peer};
    ghost use Rattle.rib_bodies.specs.Peers.{peers_at, peers_of_count};

    ghost Value = { List Peer };

    ghost view = { λ cursor. peers_of_count cursor.count cursor.rest.now };

    ghost invariant = { λ cursor. IsOk (peers_at cursor.count cursor.rest.now) };
}

// So many peers, and nothing behind them.
fn peers_over(count: u16, bytes: &[u8]) -> Result<PeerCursor<'_>, RibFault>
    ensures few { IfOk result (λ peers. length peers ≡ count) }
    ensures peers { result ≡ peers_at count bytes.now }
{
    let mut rest = bytes;
    'peers: for _ in 0..count {
        match first_peer(rest) {
            Ok((_, behind)) => rest = behind,
            Err(fault) => return Err(fault),
        }
    }
    if !rest.is_empty() {
        return Err(RibFault::Tail);
    }
    Ok(PeerCursor { count, rest: bytes })
}

impl<'a> PeerCursor<'a> {
    /// The peers of a PEER_INDEX_TABLE record (RFC 6396, section 4.3.1), by their places, or the first fault of its body in the order of
    /// the fields, which is that of `read_peers`. The whole body is tested. It takes no memory.
    pub fn over(body: &'a [u8]) -> Result<PeerCursor<'a>, RibFault>
        ensures peers { result ≡ peers_named body.now }
        ensures few { IfOk result (λ peers. length peers < 65536) }
    {
        let (count, rest) = table_head(body)?;
        peers_over(count, rest)
    }

    /// The next peer. None where there is none. It takes no memory.
    pub fn next(&mut self) -> Option<Peer>
        ensures { MatchOption result ((self.old ≡ []) × (self.new ≡ [])) (λ peer. self.old ≡ peer ∷ self.new) }
    {
        if self.count == 0 {
            return None;
        }
        let Ok((peer, rest)) = first_peer(self.rest) else {
            unreachable!()
        };
        self.count -= 1;
        self.rest = rest;
        Some(peer)
    }
}
