//! The AS path of a route, and the segments of a value, as lists.
ghost use Rattle.std.specs.Prelude.{◌≡◌, IfOk};
ghost use Rattle.path_segments.specs.Segments.{segments_of};
ghost use Rattle.path_segments.specs.PathOf.{path_of};

use crate::as_path::{Segment, Width};
use crate::cursor::{SegmentCursor, push_segment};
use crate::path_cursor::{PathCursor, Pathless};
use path_attrs::Attrs;
use std::alloc::Global;
use tor_arena::{List, NoMemory};

/// The AS path of a route.
#[derive(Drop)]
pub enum PathOf {
    /// It has no AS_PATH.
    Absent,
    /// The value of its AS_PATH is malformed (RFC 7606, section 7.2).
    Malformed,
    /// Its segments in order.
    Segments(List<Segment>),
}

/// The AS path of a route by the first AS_PATH of its attributes, with AS numbers of the width. Where these have two octets, AS4_PATH
/// is merged (RFC 6793, section 4.2.3), if it counts. NoMemory where memory ran out. `PathCursor` goes over the same segments and
/// takes no memory.
pub fn path_of(alloc: Global, attrs: &Attrs<'_>, width: Width) -> Result<PathOf, NoMemory>
    ensures { IfOk result (λ path. path ≡ path_of width attrs.now) }
{
    let segments = match PathCursor::over(attrs, width) {
        Ok(segments) => segments,
        Err(Pathless::Absent) => return Ok(PathOf::Absent),
        Err(Pathless::Malformed) => return Ok(PathOf::Malformed),
    };
    match listed(alloc, segments) {
        Ok(found) => Ok(PathOf::Segments(found)),
        Err(error) => Err(error),
    }
}

// The segments as a list.
fn listed(alloc: Global, segments: PathCursor<'_>) -> Result<List<Segment>, NoMemory>
    ensures { IfOk result (λ found. found ≡ segments.entry) }
{
    let mut left = segments;
    let mut found = List::new(alloc);
    'segments: while let Some(segment) = left.next() {
        if let Err(error) = push_segment(alloc, &mut found, &segment) {
            drop(found);
            return Err(error);
        }
    }
    Ok(found)
}

/// The segments of the value of an AS_PATH in order, with AS numbers of the width. None exactly where the value is malformed
/// (RFC 7606, section 7.2): where a segment is of another type than 1 to 4, has count zero, or is not whole. A value of no
/// octets has no segments. NoMemory where memory ran out.
pub fn segments(
    alloc: Global,
    value: &[u8],
    width: Width,
) -> Result<Option<List<Segment>>, NoMemory>
    ensures { IfOk result (λ found. found ≡ segments_of width value.now) }
{
    let Some(segments) = SegmentCursor::over(value, width) else {
        return Ok(None);
    };
    match listed(alloc, PathCursor::of_all(segments)) {
        Ok(found) => Ok(Some(found)),
        Err(error) => Err(error),
    }
}
