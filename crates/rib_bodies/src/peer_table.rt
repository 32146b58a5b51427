//! Peer tables (RFC 6396, section 4.3.1).
ghost use Rattle.std.specs.Prelude.{◌≡◌, ◌+◌, ◌<◌, ◌⊎◌, IfOk, IfErr};
ghost use Rattle.path_attrs.specs.Fields.{Gives};
ghost use Rattle.rib_bodies.specs.Encoding.{octets_of_ip, octets_of_as};
ghost use Rattle.rib_bodies.specs.PeerTable.{behind_peer, behind_peers, peers_of};

use path_attrs::{RibFault, number16, octet, octets};

/// The bit of a peer type that says an IPv6 address.
const IPV6: u8 = 0x01;

/// The bit of a peer type that says an AS number of four octets.
const AS4: u8 = 0x02;

/// A peer table, of which only the number of its peers is kept.
#[derive(Clone, Copy)]
pub struct Peers {
    /// How many peers the table has.
    pub count: u32,
}

// How many octets stand behind the type of a peer: its BGP identifier, its address and its AS number.
fn octets_behind(kind: u8) -> usize
    ensures { result ≡ 4 + octets_of_ip kind + octets_of_as kind }
{
    let ip_len = if kind & IPV6 == 0 { 4 } else { 16 };
    let as_len = if kind & AS4 == 0 { 2 } else { 4 };
    4 + ip_len + as_len
}

// The octets behind the peer that stands first.
fn after_peer(bytes: &[u8]) -> Result<&[u8], RibFault>
    ensures fault { IfErr result (λ fault. fault ≡ RibFault.Cut) }
    ensures gives { Gives (λ rest. rest.now) result (behind_peer bytes.now) }
{
    let Ok((kind, rest)) = octet(bytes, RibFault::Cut) else {
        return Err(RibFault::Cut);
    };
    let Ok((_, rest)) = octets(rest, octets_behind(kind), RibFault::Cut) else {
        return Err(RibFault::Cut);
    };
    Ok(rest)
}

// The octets behind so many peers.
fn after_peers(count: u16, bytes: &[u8]) -> Result<&[u8], RibFault>
    ensures fault { IfErr result (λ fault. fault ≡ RibFault.Cut) }
    ensures gives { Gives (λ rest. rest.now) result (behind_peers count bytes.now) }
{
    let mut rest = bytes;
    'peers: for _ in 0..count {
        rest = after_peer(rest)?;
    }
    Ok(rest)
}

/// The peer table of a PEER_INDEX_TABLE record (RFC 6396, section 4.3.1), or the first fault of its body in the order of the
/// fields, which is Cut or Tail. It takes no memory.
#[tactic(auto, unfolding(crate::specs::PeerTable::peers_of))]
pub fn read_peers(body: &[u8]) -> Result<Peers, RibFault>
    ensures peers { result ≡ peers_of body.now }
    ensures only { IfErr result (λ fault. (fault ≡ RibFault.Cut) ⊎ (fault ≡ RibFault.Tail)) }
    ensures bound { IfOk result (λ peers. peers.count < 65536) }
{
    let Ok((_collector, rest)) = octets(body, 4, RibFault::Cut) else {
        return Err(RibFault::Cut);
    };
    let Ok((name_len, rest)) = number16(rest, RibFault::Cut) else {
        return Err(RibFault::Cut);
    };
    let Ok((_name, rest)) = octets(rest, usize::from(name_len), RibFault::Cut) else {
        return Err(RibFault::Cut);
    };
    let Ok((count, rest)) = number16(rest, RibFault::Cut) else {
        return Err(RibFault::Cut);
    };
    let Ok(rest) = after_peers(count, rest) else {
        return Err(RibFault::Cut);
    };
    if !rest.is_empty() {
        return Err(RibFault::Tail);
    }
    Ok(Peers {
        count: u32::from(count),
    })
}
