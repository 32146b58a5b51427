//! The records of a dump, octet by octet.
ghost use Rattle.std.specs.Prelude.{◌≡◌, ◌≤◌, ◌++◌, OnOk, length};
ghost use Rattle.tor_sample.specs.Records.{as_numbers, sample_attributes, sample_entry, sample_record, sample_rib, peer_table};

use tor_arena::{List, NoMemory};

/// The subtype of a record that is a RIB of IPv4 prefixes.
const RIB_IPV4_UNICAST: u8 = 2;

/// How many octets the attributes of a route have beside the numbers of its path.
const ATTRIBUTE_OCTETS: u16 = 9;

/// How many octets a RIB of one route has beside the numbers of its path.
const RIB_OCTETS: u32 = 27;

// The octets of one peer table: its header, and one peer with an AS number of four octets.
static PEER_TABLE: [u8; 33] = [
    0, 0, 0, 0, 0, 13, 0, 1, 0, 0, 0, 21, 192, 0, 2, 1, 0, 0, 0, 1, 2, 10, 0, 0, 1, 192, 0, 2, 2,
    0, 0, 0, 10,
];

/// Puts the peer table at the end.
pub(crate) fn put_peer_table(out: &mut List<u8>) -> Result<(), NoMemory>
    ensures { OnOk result (out.new ≡ out.old ++ peer_table) }
{
    out.extend_from_slice(&PEER_TABLE)
}

// The numbers of the networks' ASes: 1000 for the first network, and so on.
fn put_as_numbers(out: &mut List<u8>, path: &[u16]) -> Result<(), NoMemory>
    ensures { OnOk result (out.new ≡ out.old ++ as_numbers path.now) }
{
    for network in path {
        out.extend_from_slice(&(1000 + u32::from(*network)).to_be_bytes())?;
    }
    Ok(())
}

// ORIGIN and AS_PATH.
fn put_attributes(out: &mut List<u8>, path: &[u16]) -> Result<(), NoMemory>
    requires { length path.now ≤ 10 }
    ensures { OnOk result (out.new ≡ out.old ++ sample_attributes path.now) }
{
    let count = path.len() as u8;
    out.extend_from_slice(&[0x40, 1, 1, 0, 0x40, 2, 2 + 4 * count, 2, count])?;
    put_as_numbers(out, path)
}

// The only entry of a RIB: the index of the peer, the time, and the attributes behind their length.
fn put_entry(out: &mut List<u8>, path: &[u16]) -> Result<(), NoMemory>
    requires { length path.now ≤ 10 }
    ensures { OnOk result (out.new ≡ out.old ++ sample_entry path.now) }
{
    out.extend_from_slice(&[0, 0, 0, 0, 0, 0])?;
    out.extend_from_slice(&(ATTRIBUTE_OCTETS + 4 * path.len() as u16).to_be_bytes())?;
    put_attributes(out, path)
}

// The body of a record: its number, a prefix of 24 bits and one entry.
fn put_rib(out: &mut List<u8>, number: u16, path: &[u16]) -> Result<(), NoMemory>
    requires { length path.now ≤ 10 }
    ensures { OnOk result (out.new ≡ out.old ++ sample_rib number path.now) }
{
    out.extend_from_slice(&u32::from(number).to_be_bytes())?;
    out.extend_from_slice(&[24, 10])?;
    out.extend_from_slice(&number.to_be_bytes())?;
    out.extend_from_slice(&[0, 1])?;
    put_entry(out, path)
}

/// Puts the record of the route of this number at the end.
pub(crate) fn put_record(out: &mut List<u8>, number: u16, path: &[u16]) -> Result<(), NoMemory>
    requires { length path.now ≤ 10 }
    ensures { OnOk result (out.new ≡ out.old ++ sample_record 2 (sample_rib number path.now)) }
{
    out.extend_from_slice(&[0, 0, 0, 0, 0, 13, 0, RIB_IPV4_UNICAST])?;
    out.extend_from_slice(&(RIB_OCTETS + 4 * path.len() as u32).to_be_bytes())?;
    put_rib(out, number, path)
}
