//! How a route is cleaned.
ghost use Rattle.std.specs.Prelude.{◌≡◌, IfOk};
ghost use Rattle.tor_arena.specs.Distinct.{is_distinct};
ghost use Rattle.path_clean.specs.Paths.{is_cleaned};
ghost use Rattle.path_clean.specs.Clean.{judged, cleaned_as, clean_of, merge_segments, merged_of};
ghost use Rattle.path_clean.specs.Behind.{cause_of, IsPutBehind};

use crate::cleaned::{Cause, Cleaned, Sets, are_distinct, has_reserved, is_plainly_sound};
use crate::plain::plain_ases;
use path_attrs::Attrs;
use path_merge::{Oddity, append_merged, append_segments};
use path_segments::{PathCursor, Pathless, Width};
use std::alloc::Global;
use std::collections::BTreeSet;
use tor_arena::{List, NoMemory};

/// Paths of at most so many numbers are searched for loops in place.
const SHORT_PATH: usize = 64;

/// What a route's attributes are cleaned to, with AS numbers of the width: a path, or the cause for which the route is set aside,
/// the first in this order. No AS_PATH: NoPath. A malformed one: BadSegments. Else its segments are cleaned, merged with AS4_PATH
/// where that counts, as `path_attrs::path_of` answers. A confederation segment: Confed. An AS_SET whose members are all equal is
/// read as that one AS; at any other, `Skip` sets the route aside, Sets, and `Cut` ends the path before it. Then equal neighbours
/// are merged. A reserved number is left: Reserved. An AS stands twice: Loop. Fewer than two are left: Short. NoMemory where memory
/// ran out.
pub fn clean(
    alloc: Global,
    sets: Sets,
    attrs: &Attrs<'_>,
    width: Width,
) -> Result<Cleaned, NoMemory>
    ensures { IfOk result (λ cleaned. cleaned ≡ clean_of sets width attrs.now) }
{
    let mut path = Vec::new(alloc);
    match merge_behind(&mut path, sets, attrs, width)? {
        None => judge_owned(alloc, path),
        Some(cause) => Ok(Cleaned::Aside(cause)),
    }
}

/// A merged path that is judged.
fn judge_owned(alloc: Global, path: Vec<u32>) -> Result<Cleaned, NoMemory>
    ensures { IfOk result (λ cleaned. cleaned ≡ judged path.items) }
{
    match judge(alloc, path.as_slice())? {
        None => Ok(Cleaned::Path(List::from_vec(path))),
        Some(cause) => Ok(Cleaned::Aside(cause)),
    }
}

/// Puts what a route's attributes are merged to behind the numbers, as `MergedPaths::merge` says.
#[inline(always)]
pub(crate) fn merge_behind(
    numbers: &mut Vec<u32>,
    sets: Sets,
    attrs: &Attrs<'_>,
    width: Width,
) -> Result<Option<Cause>, NoMemory>
    ensures { IfOk result (IsPutBehind numbers.old.items numbers.new.items (merged_of sets width attrs.now)) }
{
    match plain_ases(attrs, width) {
        Some(ases) => {
            append_merged(numbers, ases)?;
            Ok(None)
        }
        None => merge_any(numbers, sets, attrs, width),
    }
}

/// The same of any route, segment by segment.
#[inline(never)]
fn merge_any(
    numbers: &mut Vec<u32>,
    sets: Sets,
    attrs: &Attrs<'_>,
    width: Width,
) -> Result<Option<Cause>, NoMemory>
    ensures { IfOk result (IsPutBehind numbers.old.items numbers.new.items (merged_of sets width attrs.now)) }
{
    match PathCursor::over(attrs, width) {
        Ok(segments) => merge_segments(numbers, sets, segments),
        Err(Pathless::Absent) => Ok(Some(Cause::NoPath)),
        Err(Pathless::Malformed) => Ok(Some(Cause::BadSegments)),
    }
}

fn merge_segments(
    numbers: &mut Vec<u32>,
    sets: Sets,
    segments: PathCursor<'_>,
) -> Result<Option<Cause>, NoMemory>
    ensures { IfOk result (IsPutBehind numbers.old.items numbers.new.items (merge_segments sets segments.entry)) }
{
    match append_segments(numbers.len(), numbers, segments)? {
        None => Ok(None),
        Some(oddity) => Ok(cause_of(sets, oddity)),
    }
}

/// Why a route with this among its segments is set aside, if it is.
fn cause_of(sets: Sets, oddity: Oddity) -> Option<Cause>
    ensures { result ≡ cause_of sets oddity }
{
    match oddity {
        Oddity::Confederation => Some(Cause::Confed),
        Oddity::MixedSet => match sets {
            Sets::Cut => None,
            Sets::Skip => Some(Cause::Sets),
        },
    }
}

/// Whether no number stands there twice. Long paths are sorted into a set, since the time for a search in place grows with the
/// square of the length.
#[inline(always)]
fn has_no_loop(alloc: Global, path: &[u32]) -> Result<bool, NoMemory>
    ensures { IfOk result (λ distinct. distinct ≡ is_distinct path.now) }
{
    if path.len() <= SHORT_PATH {
        Ok(are_distinct(path))
    } else {
        are_distinct_by_set(alloc, path)
    }
}

/// Whether a path has at least two ASes, all distinct, none reserved, as `is_cleaned` answers, but fast for long paths too.
/// NoMemory where memory for that ran out.
pub fn is_clean_path(alloc: Global, path: &[u32]) -> Result<bool, NoMemory>
    ensures { IfOk result (λ clean. clean ≡ is_cleaned path.now) }
{
    if path.len() < 2 || has_reserved(path) {
        return Ok(false);
    }
    has_no_loop(alloc, path)
}

fn are_distinct_by_set(alloc: Global, path: &[u32]) -> Result<bool, NoMemory>
    ensures { IfOk result (λ distinct. distinct ≡ is_distinct path.now) }
{
    let mut seen = BTreeSet::new(alloc);
    let mut at = path.len();
    'numbers: while at > 0 {
        at -= 1;
        if !seen.insert(path[at])? {
            return Ok(false);
        }
    }
    Ok(true)
}

/// The second step of `clean`: why a route with this merged path is set aside, if it is. A reserved number: Reserved. An AS
/// stands twice: Loop. Fewer than two ASes: Short. NoMemory where memory ran out.
pub fn judge(alloc: Global, path: &[u32]) -> Result<Option<Cause>, NoMemory>
    ensures { IfOk result (λ cause. cleaned_as cause path.now ≡ judged path.now) }
{
    if path.len() >= 2 && is_plainly_sound(path) {
        return Ok(None);
    }
    if has_reserved(path) {
        return Ok(Some(Cause::Reserved));
    }
    if !has_no_loop(alloc, path)? {
        return Ok(Some(Cause::Loop));
    }
    if path.len() < 2 {
        return Ok(Some(Cause::Short));
    }
    Ok(None)
}
