//! Addresses and prefixes as text. Each function puts something behind what waits for the sink, and takes no memory.
ghost use Rattle.std.specs.Net.Addr.{ipv4_octets};
ghost use Rattle.std.specs.Net.Text.{ipv4_text};
ghost use Rattle.tor_io.specs.Outflow.{state, Puts};
ghost use Rattle.address_text.specs.AddressText.{address_text, prefix_text};

use crate::groups::put_hex_groups;
use rib_bodies::Prefix;
use std::net::{IpAddr, Ipv4Addr};
use tor_io::{Outflow, Sink};

// Four decimal numbers.
fn put_ipv4<S: Sink>(out: &mut S, flow: &mut Outflow<'_>, address: Ipv4Addr)
    ensures { Puts (state (S.held out.old) (S.faults out.old) flow.old) (state (S.held out.new) (S.faults out.new) flow.new)
        (ipv4_text (ipv4_octets address)) }
{
    let octets = address.octets();
    flow.put_number(out, u64::from(octets[0]));
    flow.put_number_behind(out, b'.', u64::from(octets[1]));
    flow.put_number_behind(out, b'.', u64::from(octets[2]));
    flow.put_number_behind(out, b'.', u64::from(octets[3]));
}

/// Puts the text of an address: IPv4 in four decimal numbers, and IPv6 as RFC 5952, section 4, has it, always in hexadecimal groups.
pub fn put_address<S: Sink>(out: &mut S, flow: &mut Outflow<'_>, address: IpAddr)
    ensures { Puts (state (S.held out.old) (S.faults out.old) flow.old) (state (S.held out.new) (S.faults out.new) flow.new)
        (address_text address) }
{
    match address {
        IpAddr::V4(address) => put_ipv4(out, flow, address),
        IpAddr::V6(address) => put_hex_groups(out, flow, &address.segments()),
    }
}

/// Puts the text of a prefix: that of its address, and behind a slash its length in bits.
pub fn put_prefix<S: Sink>(out: &mut S, flow: &mut Outflow<'_>, prefix: &Prefix)
    ensures { Puts (state (S.held out.old) (S.faults out.old) flow.old) (state (S.held out.new) (S.faults out.new) flow.new)
        (prefix_text prefix.now) }
{
    put_address(out, flow, prefix.address);
    flow.put_number_behind(out, b'/', u64::from(prefix.bits));
}
