//! The kinds of records that are read.
ghost use Rattle.std.specs.Prelude.{◌≡◌};
ghost use Rattle.mrt_header.specs.Kinds.{address_octets, table_dump, rib, table_dump_v2, kind_of};

/// The type of a routing table, a record a route (RFC 6396, section 4.2).
const TABLE_DUMP: u16 = 12;

/// The type of a routing table with one table of its peers (RFC 6396, section 4.3).
const TABLE_DUMP_V2: u16 = 13;

/// The family of an address.
#[derive(Clone, Copy, PartialEq, Eq)]
pub enum Family {
    /// IPv4, addresses of 4 octets.
    Ipv4,
    /// IPv6, addresses of 16 octets.
    Ipv6,
}

/// Which fields an entry of a RIB has.
#[derive(Clone, Copy, PartialEq, Eq)]
pub enum EntryForm {
    /// Those of RFC 6396, section 4.3.4.
    Plain,
    /// A path identifier besides, since a peer may give several paths to one prefix (RFC 8050, section 4).
    WithPathId,
}

/// How the body of a RIB is to be read.
#[derive(Clone, Copy, PartialEq, Eq)]
pub struct RibForm {
    /// That of its prefix.
    pub family: Family,
    /// Which fields its entries have.
    pub entries: EntryForm,
}

/// What the body of a record is, of the records that are read.
#[derive(Clone, Copy, PartialEq, Eq)]
pub enum RecordKind {
    /// A route of TABLE_DUMP (RFC 6396, section 4.2).
    TableDump(Family),
    /// A peer table of TABLE_DUMP_V2 (RFC 6396, section 4.3.1).
    PeerTable,
    /// A unicast RIB of TABLE_DUMP_V2 (RFC 6396, section 4.3.2; RFC 8050, section 4).
    Rib(RibForm),
}

impl Family {
    /// How many octets an address has.
    pub fn octets(self) -> usize
        ensures { result ≡ address_octets self }
    {
        match self {
            Family::Ipv4 => 4,
            Family::Ipv6 => 16,
        }
    }
}

fn table_dump(subtype: u16) -> Option<RecordKind>
    ensures { result ≡ table_dump subtype }
{
    match subtype {
        1 => Some(RecordKind::TableDump(Family::Ipv4)),
        2 => Some(RecordKind::TableDump(Family::Ipv6)),
        _ => None,
    }
}

fn rib(family: Family, entries: EntryForm) -> RecordKind
    ensures { result ≡ rib family entries }
{
    RecordKind::Rib(RibForm { family, entries })
}

fn table_dump_v2(subtype: u16) -> Option<RecordKind>
    ensures { result ≡ table_dump_v2 subtype }
{
    match subtype {
        1 => Some(RecordKind::PeerTable),
        2 => Some(rib(Family::Ipv4, EntryForm::Plain)),
        4 => Some(rib(Family::Ipv6, EntryForm::Plain)),
        8 => Some(rib(Family::Ipv4, EntryForm::WithPathId)),
        10 => Some(rib(Family::Ipv6, EntryForm::WithPathId)),
        _ => None,
    }
}

impl RecordKind {
    /// What the body of a record of this type and subtype is. None: such a record isn't read. It takes no memory.
    pub fn of(kind: u16, subtype: u16) -> Option<RecordKind>
        ensures { result ≡ kind_of kind subtype }
    {
        match kind {
            TABLE_DUMP => table_dump(subtype),
            TABLE_DUMP_V2 => table_dump_v2(subtype),
            _ => None,
        }
    }
}
