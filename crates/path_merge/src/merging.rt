//! The ASes of segments, with equal neighbours merged as they go onto a path, which lies behind other numbers.
//!
//! A sequence goes by its runs of equal numbers, so that the number before is looked up in no list.

ghost use Rattle.std.specs.Prelude.{◌≡◌, ◌+◌, ◌<◌, ◌≤◌, ◌==◌, ◌++◌, nat_eq, fold, take, vec_len, vec_capacity, IfOk, OnOk};
ghost use Rattle.std.specs.List.{list_any, list_all, dedup};
ghost use Rattle.path_segments.specs.PathOf.{is_confed};
ghost use Rattle.path_merge.specs.Merging.{are_equal, is_set, is_mixed_set, ases_of, ends_behind, merged_behind, with_run};
ghost use Rattle.path_merge.specs.Merging.{oddity_in, oddity_from_set};
ghost use Rattle.path_merge.specs.Merging.{GoesBehind, MergesOnto};

use path_segments::{NumberCursor, PathCursor, SegKind, SegmentRef};
use tor_arena::{NoMemory, reserve};

/// What among segments is no plain part of a path. The first of the two decides.
#[derive(Clone, Copy, PartialEq, Eq)]
pub enum Oddity {
    /// A segment of a confederation.
    Confederation,
    /// An AS_SET whose members differ.
    MixedSet,
}

fn is_set(kind: SegKind) -> bool
    ensures { result ≡ is_set kind }
{
    matches!(kind, SegKind::Set)
}

fn are_all(number: u32, ases: NumberCursor<'_>) -> bool
    ensures { result ≡ list_all (λ other. other == number) ases.entry }
{
    let mut left = ases;
    'numbers: while let Some(other) = left.next() {
        if other != number {
            return false;
        }
    }
    true
}

fn is_uniform(ases: NumberCursor<'_>) -> bool
    ensures { result ≡ are_equal ases.entry }
{
    let mut left = ases;
    match left.next() {
        None => true,
        Some(first) => are_all(first, left),
    }
}

fn has_mixed_set(segment: &SegmentRef<'_>) -> bool
    ensures { result ≡ is_mixed_set segment.now }
{
    is_set(segment.kind()) && !is_uniform(segment.ases())
}

/// Puts the number of a run at the end of others, where the next one is another. There is room for it.
#[inline(always)]
fn end_run(numbers: &mut Vec<u32>, last: u32, next: u32)
    requires { vec_len numbers.old < vec_capacity numbers.old }
    ensures items { numbers.new.items ≡ with_run numbers.old.items last next }
    ensures len { vec_len numbers.new ≤ vec_len numbers.old + 1 }
    ensures capacity { vec_capacity numbers.new ≡ vec_capacity numbers.old }
{
    if next == last {
        return;
    }
    numbers.push_reserved(last);
}

/// Puts numbers at the end of others, with equal neighbours among them merged. NoMemory where memory ran out: the others may then be
/// anything.
#[inline(always)]
pub fn append_merged(numbers: &mut Vec<u32>, ases: NumberCursor<'_>) -> Result<(), NoMemory>
    ensures { OnOk result (numbers.new.items ≡ numbers.old.items ++ dedup nat_eq ases.entry) }
{
    reserve(numbers, ases.len())?;
    let mut left = ases;
    let Some(first) = left.next() else {
        return Ok(());
    };
    let mut last = first;
    'numbers: while let Some(number) = left.next() {
        end_run(numbers, last, number);
        last = number;
    }
    numbers.push_reserved(last);
    Ok(())
}

/// Whether the number stands last, behind the first `start`.
fn ends_behind(start: usize, numbers: &[u32], number: u32) -> bool
    ensures { result ≡ ends_behind start numbers.now number }
{
    start < numbers.len() && number == numbers[numbers.len() - 1]
}

/// Puts a number at the end of a path that begins behind the first `start` numbers, unless it stands there already.
fn append_number(start: usize, numbers: &mut Vec<u32>, number: u32) -> Result<(), NoMemory>
    ensures { OnOk result (numbers.new.items ≡ merged_behind start numbers.old.items number) }
{
    if ends_behind(start, numbers.as_slice(), number) {
        return Ok(());
    }
    numbers.push(number)?;
    Ok(())
}

/// Puts numbers at the end of a path, with equal neighbours merged.
fn append_numbers(
    start: usize,
    numbers: &mut Vec<u32>,
    ases: NumberCursor<'_>,
) -> Result<(), NoMemory>
    ensures { OnOk result (numbers.new.items ≡ fold (merged_behind start) numbers.old.items ases.entry) }
{
    let mut left = ases;
    'numbers: while let Some(number) = left.next() {
        append_number(start, numbers, number)?;
    }
    Ok(())
}

fn append_first(
    start: usize,
    numbers: &mut Vec<u32>,
    ases: NumberCursor<'_>,
) -> Result<(), NoMemory>
    ensures { OnOk result (numbers.new.items ≡ fold (merged_behind start) numbers.old.items (take 1 ases.entry)) }
{
    let mut left = ases;
    match left.next() {
        None => Ok(()),
        Some(first) => append_number(start, numbers, first),
    }
}

/// Puts the ASes that a segment stands for at the end of a path.
fn append_segment(
    start: usize,
    numbers: &mut Vec<u32>,
    segment: &SegmentRef<'_>,
) -> Result<(), NoMemory>
    ensures { OnOk result (numbers.new.items ≡ fold (merged_behind start) numbers.old.items (ases_of segment.now)) }
{
    if is_set(segment.kind()) {
        append_first(start, numbers, segment.ases())
    } else {
        append_numbers(start, numbers, segment.ases())
    }
}

fn has_confederation(segments: PathCursor<'_>) -> bool
    ensures { result ≡ list_any (λ segment. is_confed segment.kind) segments.entry }
{
    let mut left = segments;
    'segments: while let Some(segment) = left.next() {
        if segment.kind().is_confed() {
            return true;
        }
    }
    false
}

/// What stands first of the two, where an AS_SET whose members differ stands before these segments.
fn oddity_from_set(segments: PathCursor<'_>) -> Oddity
    ensures { result ≡ oddity_from_set segments.entry }
{
    if has_confederation(segments) {
        Oddity::Confederation
    } else {
        Oddity::MixedSet
    }
}

/// Puts the ASes before the first AS_SET whose members differ at the end of a path, where no segment is a confederation's, and
/// answers what stands among the segments that is no plain part of a path. The path begins behind the first `start` numbers. It goes over
/// the segments once. NoMemory where memory ran out: the numbers may then be anything.
pub fn append_segments(
    start: usize,
    numbers: &mut Vec<u32>,
    segments: PathCursor<'_>,
) -> Result<Option<Oddity>, NoMemory>
    ensures behind { OnOk result (GoesBehind numbers.old.items numbers.new.items) }
    ensures path { OnOk result (MergesOnto start numbers.old.items segments.entry numbers.new.items) }
    ensures oddity { IfOk result (λ oddity. oddity ≡ oddity_in segments.entry) }
{
    let mut left = segments;
    'segments: while let Some(segment) = left.next() {
        if segment.kind().is_confed() {
            return Ok(Some(Oddity::Confederation));
        }
        if has_mixed_set(&segment) {
            return Ok(Some(oddity_from_set(left)));
        }
        append_segment(start, numbers, &segment)?;
    }
    Ok(None)
}
