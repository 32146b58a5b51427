//! The segments of an AS_PATH.
ghost use Rattle.std.specs.Prelude.{◌≡◌, ◌*◌, ◌<◌, ◌≤◌, length, IfSome, option_map};
ghost use Rattle.byteorder.specs.Endian.{big_number};
ghost use Rattle.path_segments.specs.Segments.{octets_in, segment_kind, segment, segment_of};
ghost use Rattle.path_segments.specs.PathOf.{is_confed};

use byteorder::{BigEndian, ByteOrder};
use tor_arena::List;

/// How many octets an AS number has.
#[derive(Clone, Copy)]
pub enum Width {
    /// Two octets, as in TABLE_DUMP.
    Two,
    /// Four octets, as in TABLE_DUMP_V2.
    Four,
}

/// The kinds of segment of an AS_PATH (RFC 4271, section 4.3; RFC 5065, section 3).
#[derive(Clone, Copy)]
pub enum SegKind {
    /// AS_SET, type 1.
    Set,
    /// AS_SEQUENCE, type 2.
    Sequence,
    /// AS_CONFED_SEQUENCE, type 3.
    ConfedSequence,
    /// AS_CONFED_SET, type 4.
    ConfedSet,
}

/// One segment of an AS_PATH: its kind, and its AS numbers in order.
#[derive(Drop)]
pub struct Segment {
    /// Its kind.
    pub kind: SegKind,
    /// Its AS numbers, in order.
    pub ases: List<u32>,
}

impl Width {
    // How many octets a number has.
    pub(crate) fn octets(self) -> usize
        ensures { result ≡ octets_in self }
    {
        match self {
            Width::Two => 2,
            Width::Four => 4,
        }
    }

    // The number that stands first.
    pub(crate) fn number(self, bytes: &[u8]) -> u32
        requires { octets_in self ≤ length bytes.now }
        ensures { result ≡ big_number (octets_in self) bytes.now }
    {
        match self {
            Width::Two => u32::from(BigEndian::read_u16(bytes)),
            Width::Four => BigEndian::read_u32(bytes),
        }
    }
}

impl SegKind {
    /// Whether it is that of a segment of a confederation (RFC 5065, section 3).
    pub fn is_confed(self) -> bool
        ensures { result ≡ is_confed self }
    {
        matches!(self, SegKind::ConfedSequence | SegKind::ConfedSet)
    }

    fn from_code(code: u8) -> Option<SegKind>
        ensures { result ≡ segment_kind code }
    {
        match code {
            1 => Some(SegKind::Set),
            2 => Some(SegKind::Sequence),
            3 => Some(SegKind::ConfedSequence),
            4 => Some(SegKind::ConfedSet),
            _ => None,
        }
    }
}

// The head of the first segment, where the segment is whole: its kind and its count of numbers, and the octets from
// the first number on.
#[tactic(auto, unfolding(crate::specs::Segments::segment))]
pub(crate) fn head_of(bytes: &[u8], width: Width) -> Option<(SegKind, usize, &[u8])>
    ensures whole { IfSome result (λ x. octets_in width * x.1 ≤ length x.2.now) }
    ensures shorter { IfSome result (λ x. length x.2.now < length bytes.now) }
    ensures gives { option_map (λ x. segment_of width x.1 x.2.now x.0) result ≡ segment width bytes.now }
{
    match bytes {
        [code, count, octets @ ..]
            if *count > 0 && width.octets() * usize::from(*count) <= octets.len() => {
            let Some(kind) = SegKind::from_code(*code) else {
                return None;
            };
            Some((kind, usize::from(*count), octets))
        }
        _ => None,
    }
}
