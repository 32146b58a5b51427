//! The AS path of a route, read where it lies: AS_PATH alone, or merged with AS4_PATH (RFC 6793, section 4.2.3).
//!
//! A merge takes no memory, since it is the first segments of AS_PATH and then those of AS4_PATH. Where numbers have four octets only
//! AS_PATH is looked at. The other attributes are looked for only where AS4_PATH is there.

ghost use Rattle.std.specs.Prelude.{◌≡◌, ◌≤◌, [], ◌∷◌, filter, MatchOption, IfSome, option_and_then, option_map};
ghost use Rattle.path_attrs.specs.Attributes.{first_value};
ghost use Rattle.path_segments.specs.Segments.{segments_of};
ghost use Rattle.path_segments.specs.declared.as_path.Width.TheVariants.{Two, Four};
ghost use Rattle.path_segments.specs.PathOf.{
  as4_path,
  as4_segments,
  ases_in,
  has_no_confed,
  is_aggregated_anew,
  is_as4_aggregator,
  is_outside,
  leading_in,
  merged_with,
  names_as,
  path_of,
  IsPath,
};

use crate::as_path::Width;
use crate::cursor::{SegmentCursor, SegmentRef};
use byteorder::{BigEndian, ByteOrder};
use path_attrs::{AS_PATH, Attrs};
use std::marker::Model;

/// The type code of AGGREGATOR.
const AGGREGATOR: u8 = 7;

/// The type code of AS4_PATH.
const AS4_PATH: u8 = 17;

/// The type code of AS4_AGGREGATOR.
const AS4_AGGREGATOR: u8 = 18;

/// The AS that stands in two octets for one above 65535.
const AS_TRANS: u16 = 23456;

/// Why a route has no AS path.
#[derive(Clone, Copy)]
pub enum Pathless {
    /// It has no AS_PATH.
    Absent,
    /// The value of its AS_PATH is malformed (RFC 7606, section 7.2).
    Malformed,
}

/// The first segments of an AS_PATH that are still to come.
#[derive(Drop)]
struct LeadingCursor<'a> {
    // How many ASes they count. None: these are all segments.
    most: Option<usize>,
    segments: SegmentCursor<'a>,
}

impl<'a> Model for LeadingCursor<'a> {
    ghost use Rattle.std.specs.Prelude.{List};
    ghost use Rattle.path_segments.specs.declared.as_path.Segment.{Segment};
    ghost use Rattle.path_segments.specs.PathOf.{leading_in};

    ghost Value = { List Segment };

    ghost view = { λ cursor. leading_in cursor.most cursor.segments };
}

impl<'a> LeadingCursor<'a> {
    fn next(&mut self) -> Option<SegmentRef<'a>>
        ensures { MatchOption result ((self.old ≡ []) × (self.new ≡ [])) (λ segment. self.old ≡ segment ∷ self.new) }
    {
        let Some(most) = self.most else {
            return self.segments.next();
        };
        if most == 0 {
            return None;
        }
        let Some(segment) = self.segments.next() else {
            return None;
        };
        let count = segment.count();
        if count <= most {
            self.most = Some(most - count);
            Some(segment)
        } else {
            self.most = Some(0);
            Some(segment.cut_to(most))
        }
    }

    fn again(&self) -> LeadingCursor<'a>
        ensures { result ≡ self.now }
    {
        LeadingCursor {
            most: self.most,
            segments: self.segments.again(),
        }
    }
}

/// The segments of an AS4_PATH that are still to come, but for those of confederations.
#[derive(Drop)]
struct OutsideCursor<'a> {
    segments: SegmentCursor<'a>,
}

impl<'a> Model for OutsideCursor<'a> {
    ghost use Rattle.std.specs.Prelude.{List, filter};
    ghost use Rattle.path_segments.specs.declared.as_path.Segment.{Segment};
    ghost use Rattle.path_segments.specs.PathOf.{is_outside};

    ghost Value = { List Segment };

    ghost view = { λ cursor. filter is_outside cursor.segments };
}

impl<'a> OutsideCursor<'a> {
    fn next(&mut self) -> Option<SegmentRef<'a>>
        ensures { MatchOption result ((self.old ≡ []) × (self.new ≡ [])) (λ segment. self.old ≡ segment ∷ self.new) }
    {
        next_outside(&mut self.segments)
    }

    fn again(&self) -> OutsideCursor<'a>
        ensures { result ≡ self.now }
    {
        OutsideCursor {
            segments: self.segments.again(),
        }
    }
}

/// The segments of the AS path of a route that are still to come, where they lie.
#[derive(Drop)]
pub struct PathCursor<'a> {
    // Of AS_PATH.
    leading: LeadingCursor<'a>,
    // Of AS4_PATH. None: it isn't merged.
    behind: Option<OutsideCursor<'a>>,
}

impl<'a> Model for PathCursor<'a> {
    ghost use Rattle.std.specs.Prelude.{List, [], ◌++◌, unwrap_or};
    ghost use Rattle.path_segments.specs.declared.as_path.Segment.{Segment};

    ghost Value = { List Segment };

    ghost view = { λ cursor. cursor.leading ++ unwrap_or cursor.behind [] };
}

impl<'a> PathCursor<'a> {
    /// The segments of the AS path of a route by the first AS_PATH of its attributes, with AS numbers of the width, as `path_of`
    /// answers. Where numbers have two octets, AS4_PATH is merged, if it counts. It takes no memory.
    pub fn over(attrs: &'a Attrs<'_>, width: Width) -> Result<PathCursor<'a>, Pathless>
        ensures { IsPath result (path_of width attrs.now) }
    {
        let Some(value) = attrs.first(AS_PATH) else {
            return Err(Pathless::Absent);
        };
        let Some(segments) = SegmentCursor::over(value, width) else {
            return Err(Pathless::Malformed);
        };
        match width {
            Width::Two => Ok(merged_with(attrs, segments)),
            Width::Four => Ok(PathCursor::of_all(segments)),
        }
    }

    // All segments of AS_PATH, and nothing behind them.
    pub(crate) fn of_all(segments: SegmentCursor<'a>) -> PathCursor<'a>
        ensures { result ≡ segments.entry }
    {
        PathCursor {
            leading: LeadingCursor {
                most: None,
                segments,
            },
            behind: None,
        }
    }

    /// The next segment. None where there is none. It takes no memory.
    pub fn next(&mut self) -> Option<SegmentRef<'a>>
        ensures { MatchOption result ((self.old ≡ []) × (self.new ≡ [])) (λ segment. self.old ≡ segment ∷ self.new) }
    {
        match self.leading.next() {
            Some(segment) => Some(segment),
            None => match &mut self.behind {
                Some(behind) => behind.next(),
                None => None,
            },
        }
    }

    /// The same segments once more. It takes no memory.
    pub fn again(&self) -> PathCursor<'a>
        ensures { result ≡ self.now }
    {
        PathCursor {
            leading: self.leading.again(),
            behind: self.behind.as_ref().map(|behind| behind.again()),
        }
    }
}

// The next segment that is none of a confederation.
fn next_outside<'a>(segments: &mut SegmentCursor<'a>) -> Option<SegmentRef<'a>>
    ensures { MatchOption result ((filter is_outside segments.old ≡ []) × (segments.new ≡ []))
        (λ segment. filter is_outside segments.old ≡ segment ∷ filter is_outside segments.new) }
{
    'segments: while let Some(segment) = segments.next() {
        if !segment.kind().is_confed() {
            return Some(segment);
        }
    }
    None
}

fn has_no_confed(segments: SegmentCursor<'_>) -> bool
    ensures { result ≡ has_no_confed segments.entry }
{
    let mut left = segments;
    'segments: while let Some(segment) = left.next() {
        if segment.kind().is_confed() {
            return false;
        }
    }
    true
}

// How many ASes the segments count.
fn count_of(segments: SegmentCursor<'_>) -> usize
    requires { ases_in segments ≤ 65535 }
    ensures { result ≡ ases_in segments.entry }
{
    let mut left = segments;
    let mut count = 0;
    'segments: while let Some(segment) = left.next() {
        count += segment.count();
    }
    count
}

fn names_as(aggregator: Option<&[u8]>) -> bool
    ensures { result ≡ names_as (option_map (λ value. value.now) aggregator.entry) }
{
    match aggregator {
        Some(value) => value.len() == 6 && BigEndian::read_u16(value) != AS_TRANS,
        None => false,
    }
}

fn is_as4_aggregator(aggregator: Option<&[u8]>) -> bool
    ensures { result ≡ is_as4_aggregator (option_map (λ value. value.now) aggregator.entry) }
{
    match aggregator {
        Some(value) => value.len() == 8,
        None => false,
    }
}

// Whether a speaker that knows no numbers of four octets has aggregated the route anew.
fn is_aggregated_anew(attrs: &Attrs<'_>) -> bool
    ensures { result ≡ is_aggregated_anew attrs.now }
{
    names_as(attrs.first(AGGREGATOR)) && is_as4_aggregator(attrs.first(AS4_AGGREGATOR))
}

// The segments of the first AS4_PATH, those of confederations among them. None: there is none that is well formed.
fn as4_segments<'a>(attrs: &'a Attrs<'_>) -> Option<SegmentCursor<'a>>
    ensures as4 { result ≡ option_and_then (segments_of Four) (first_value as4_path attrs.now) }
    ensures few { IfSome result (λ as4. ases_in as4 ≤ 65535) }
{
    match attrs.first(AS4_PATH) {
        Some(value) => SegmentCursor::over(value, Width::Four),
        None => None,
    }
}

// The segments of AS_PATH with numbers of two octets, merged with AS4_PATH where that counts.
fn merged_with<'a>(attrs: &'a Attrs<'_>, segments: SegmentCursor<'a>) -> PathCursor<'a>
    requires { ases_in segments ≤ 65535 }
    ensures { result ≡ merged_with Two attrs.now segments.entry (as4_segments attrs.now) }
{
    let Some(as4) = as4_segments(attrs) else {
        return PathCursor::of_all(segments);
    };
    if !has_no_confed(segments.again()) || is_aggregated_anew(attrs) {
        return PathCursor::of_all(segments);
    }
    let count = count_of(segments.again());
    let as4_count = count_of(as4.again());
    if as4_count > count {
        return PathCursor::of_all(segments);
    }
    PathCursor {
        leading: LeadingCursor {
            most: Some(count - as4_count),
            segments,
        },
        behind: Some(OutsideCursor { segments: as4 }),
    }
}
