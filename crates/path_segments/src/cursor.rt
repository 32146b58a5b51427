//! An AS_PATH that is read where it lies, segment by segment and number by number.

ghost use Rattle.std.specs.Prelude.{◌≡◌, ◌++◌, [], ◌∷◌, length, Some, IfOk, IfSome, MatchOption};
ghost use Rattle.path_segments.specs.Segments.{segments_of};
ghost use Rattle.path_segments.specs.PathOf.{count_in, cut_to};
ghost use Rattle.path_segments.specs.declared.as_path.Width.TheVariants.{Four};

use crate::as_path::{SegKind, Segment, Width, head_of};
use std::alloc::Global;
use std::marker::Model;
use tor_arena::{List, NoMemory};

/// The type of an AS_SEQUENCE.
const SEQUENCE: u8 = 2;

/// The segments of an AS_PATH that are still to come.
#[derive(Drop)]
pub struct SegmentCursor<'a> {
    rest: &'a [u8],
    width: Width,
}

impl<'a> Model for SegmentCursor<'a> {
    ghost use Rattle.std.specs.Prelude.{List, IsSome};
    ghost use Rattle.path_segments.specs.declared.as_path.Segment.{Segment};
    ghost use Rattle.path_segments.specs.Segments.{segments_in, segments_of};

    ghost Value = { List Segment };

    ghost view = { λ cursor. segments_in cursor.width cursor.rest.now };

    ghost invariant = { λ cursor. IsSome (segments_of cursor.width cursor.rest.now) };
}

impl<'a> SegmentCursor<'a> {
    /// The segments of the value of an AS_PATH, with AS numbers of the width. None exactly where the value is malformed, as
    /// `segments` answers. It takes no memory.
    pub fn over(value: &'a [u8], width: Width) -> Option<SegmentCursor<'a>>
        ensures { result ≡ segments_of width value.now }
    {
        let mut rest = value;
        'segments: while !rest.is_empty() {
            let Some((_, count, octets)) = head_of(rest, width) else {
                return None;
            };
            rest = octets.split_at(width.octets() * count).1;
        }
        Some(SegmentCursor { rest: value, width })
    }

    /// The next segment. None where there is none. It takes no memory.
    pub fn next(&mut self) -> Option<SegmentRef<'a>>
        ensures { MatchOption result ((self.old ≡ []) × (self.new ≡ [])) (λ segment. self.old ≡ segment ∷ self.new) }
    {
        let Some((kind, count, octets)) = head_of(self.rest, self.width) else {
            return None;
        };
        self.rest = octets.split_at(self.width.octets() * count).1;
        Some(SegmentRef {
            kind,
            count,
            octets,
            width: self.width,
        })
    }

    /// The same segments once more. It takes no memory.
    pub fn again(&self) -> SegmentCursor<'a>
        ensures { result ≡ self.now }
    {
        SegmentCursor {
            rest: self.rest,
            width: self.width,
        }
    }
}

/// A segment of an AS_PATH where it lies.
#[derive(Drop)]
pub struct SegmentRef<'a> {
    kind: SegKind,
    count: usize,
    // from its first number on
    octets: &'a [u8],
    width: Width,
}

impl<'a> Model for SegmentRef<'a> {
    ghost use Rattle.std.specs.Prelude.{◌*◌, ◌≤◌, length};
    ghost use Rattle.path_segments.specs.declared.as_path.Segment.{Segment};
    ghost use Rattle.path_segments.specs.Segments.{octets_in, big_numbers};

    ghost Value = { Segment };

    ghost view = { λ segment. record {
      kind = segment.kind;
      ases = big_numbers (octets_in segment.width) segment.count segment.octets.now;
    } };

    ghost invariant = { λ segment. octets_in segment.width * segment.count ≤ length segment.octets.now };
}

impl<'a> SegmentRef<'a> {
    /// Its kind. It takes no memory.
    pub fn kind(&self) -> SegKind
        ensures { result ≡ self.now.kind }
    {
        self.kind
    }

    // How many ASes it counts.
    pub(crate) fn count(&self) -> usize
        ensures { result ≡ count_in self.now }
    {
        match self.kind {
            SegKind::Set => 1,
            SegKind::Sequence => self.count,
            SegKind::ConfedSequence | SegKind::ConfedSet => 0,
        }
    }

    // The same as far as it has so many ASes.
    pub(crate) fn cut_to(self, most: usize) -> SegmentRef<'a>
        ensures { result ≡ cut_to most self.entry }
    {
        SegmentRef {
            kind: self.kind,
            count: self.count.min(most),
            octets: self.octets,
            width: self.width,
        }
    }

    /// Its AS numbers in order. It takes no memory.
    pub fn ases(&self) -> NumberCursor<'a>
        ensures { result ≡ self.now.ases }
    {
        NumberCursor {
            rest: self.octets,
            count: self.count,
            width: self.width,
        }
    }
}

/// The AS numbers of a segment that are still to come.
#[derive(Drop)]
pub struct NumberCursor<'a> {
    rest: &'a [u8],
    count: usize,
    width: Width,
}

impl<'a> Model for NumberCursor<'a> {
    ghost use Rattle.std.specs.Prelude.{◌*◌, ◌≤◌, ℕ, List, length};
    ghost use Rattle.path_segments.specs.Segments.{octets_in, big_numbers};

    ghost Value = { List ℕ };

    ghost view = { λ cursor. big_numbers (octets_in cursor.width) cursor.count cursor.rest.now };

    ghost invariant = { λ cursor. octets_in cursor.width * cursor.count ≤ length cursor.rest.now };
}

impl NumberCursor<'_> {
    /// How many numbers are still to come. It takes no memory.
    pub fn len(&self) -> usize
        ensures { result ≡ length self.now }
    {
        self.count
    }

    /// The next number. None where there is none. It takes no memory.
    pub fn next(&mut self) -> Option<u32>
        ensures { MatchOption result ((self.old ≡ []) × (self.new ≡ [])) (λ number. self.old ≡ number ∷ self.new) }
    {
        if self.count == 0 {
            return None;
        }
        let number = self.width.number(self.rest);
        self.rest = self.rest.split_at(self.width.octets()).1;
        self.count -= 1;
        Some(number)
    }
}

/// The numbers of the value of an AS_PATH, with numbers of four octets, that is one AS_SEQUENCE. None says nothing of the value: what
/// goes over any value has to be asked then. It takes no memory.
pub fn sole_sequence(value: &[u8]) -> Option<NumberCursor<'_>>
    ensures { IfSome result (λ ases. segments_of Four value.now ≡ Some (record { kind = SegKind.Sequence; ases = ases } ∷ [])) }
{
    match value {
        [code, count, octets @ ..]
            if *code == SEQUENCE && *count > 0 && octets.len() == 4 * usize::from(*count) => {
            Some(NumberCursor {
                rest: octets,
                count: usize::from(*count),
                width: Width::Four,
            })
        }
        _ => None,
    }
}

// The numbers of a segment.
pub(crate) fn numbers_of(alloc: Global, segment: &SegmentRef<'_>) -> Result<List<u32>, NoMemory>
    ensures { IfOk result (λ ases. ases ≡ segment.now.ases) }
{
    let mut ases = List::new(alloc);
    let mut left = segment.ases();
    'numbers: while let Some(number) = left.next() {
        if let Err(error) = ases.push(number) {
            drop(ases);
            return Err(error);
        }
    }
    Ok(ases)
}

// One segment more.
pub(crate) fn push_segment(
    alloc: Global,
    found: &mut List<Segment>,
    segment: &SegmentRef<'_>,
) -> Result<(), NoMemory>
    ensures { IfOk result (λ _. found.new ≡ found.old ++ (segment.now ∷ [])) }
{
    match numbers_of(alloc, segment) {
        Ok(ases) => found.push(Segment {
            kind: segment.kind(),
            ases,
        }),
        Err(error) => Err(error),
    }
}
