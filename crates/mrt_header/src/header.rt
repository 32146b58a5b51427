//! Headers of records.
ghost use Rattle.std.specs.Prelude.{◌≡◌, ◌≤◌, ◌&&◌, nat_lt, length};
ghost use Rattle.mrt_header.specs.Headers.{kind_in, subtype_in, length_in, IsHead};
ghost use Rattle.mrt_header.specs.Kinds.{is_read, kind_of};
ghost use Rattle.mrt_header.specs.Limits.{max_body};

use crate::record_kind::RecordKind;
use byteorder::{BigEndian, ByteOrder};
use record_counts::RecordType;

/// The header of a record, without its timestamp.
#[derive(Clone, Copy)]
pub struct Header {
    /// The type of the record.
    pub kind: u16,
    /// Its subtype.
    pub subtype: u16,
    /// How many octets its body has.
    pub len: u32,
}

/// What stands where a header is to begin.
#[derive(Clone, Copy)]
pub enum Head {
    /// No octet.
    Nothing,
    /// Fewer octets than a header has.
    Cut,
    /// A whole header.
    Whole(Header),
}

/// Octets of a header.
pub const HEADER: usize = 12;

/// How many octets the body of a record that is read may have.
pub const MAX_BODY: u32 = 1 << 26;

impl Header {
    /// The header that these twelve octets are (RFC 6396, section 2).
    fn parse(bytes: &[u8]) -> Header
        requires { length bytes.now ≡ 12 }
        ensures kind { result.kind ≡ kind_in bytes.now }
        ensures subtype { result.subtype ≡ subtype_in bytes.now }
        ensures len { result.len ≡ length_in bytes.now }
    {
        Header {
            kind: BigEndian::read_u16(&bytes[4..]),
            subtype: BigEndian::read_u16(&bytes[6..]),
            len: BigEndian::read_u32(&bytes[8..]),
        }
    }

    /// The type and the subtype of the record. It takes no memory.
    pub fn record_type(self) -> RecordType
        ensures { result ≡ record { kind = self.kind; subtype = self.subtype } }
    {
        RecordType {
            kind: self.kind,
            subtype: self.subtype,
        }
    }

    /// What the body of the record is, if it is one that is read. It takes no memory.
    pub fn record_kind(self) -> Option<RecordKind>
        ensures { result ≡ kind_of self.kind self.subtype }
    {
        RecordKind::of(self.kind, self.subtype)
    }

    /// Whether the record is one that is read, and its body is too long. It takes no memory.
    pub fn is_oversize(self) -> bool
        ensures { result ≡ (is_read self.kind self.subtype && nat_lt max_body self.len) }
    {
        self.record_kind().is_some() && self.len > MAX_BODY
    }
}

/// What stands where a header is to begin, by its octets, of which at most twelve are given: fewer only where there are no more. It takes
/// no memory.
pub fn head_of(bytes: &[u8]) -> Head
    requires { length bytes.now ≤ 12 }
    ensures { IsHead bytes.now result }
{
    if bytes.is_empty() {
        return Head::Nothing;
    }
    if bytes.len() < HEADER {
        return Head::Cut;
    }
    Head::Whole(Header::parse(bytes))
}
