//! The line at the prefix of the octets, read into the draft.
//!
//! The octets of a long line, of 2^16 or more, are let go before its numbers are copied. Hot functions with two callers have hints to
//! inline; without these reading takes 2.4 % more instructions.

ghost use Rattle.std.specs.Prelude.{◌≡◌, IfOk, IfErr};
ghost use Rattle.result_text.specs.Order.{with_line, next_at, step, Steps};
ghost use Rattle.result_text.specs.declared.line.Line.TheVariants as line;
ghost use Rattle.result_text.specs.Reading.{ReadsAs, by_word, outer_readers, sets_line_at, ratio_at, aside_at};
ghost use Rattle.result_text.specs.Reading.{kept_at, line_of_kept, lost_at, lost_from, walk_at};
ghost use Rattle.result_text.specs.Reading.{edge_line_at, given_at, why_at, probe_at, end_at, version_at};
ghost use Rattle.relationships.specs.Flat.{walk_with};
ghost use Rattle.result_text.specs.Text.{version_of};
ghost use Rattle.result_text.specs.declared.error.LineError.TheVariants.{NoMemory as no_memory};

use crate::draft::Draft;
use crate::error::LineError;
use crate::line::Version;
use crate::line_reading::{
    read_aside, read_edge, read_end, read_kept, read_lost, read_pair, read_sets, read_walk,
};
use relationships::{Given, Link, Probe, WalkRef};
use std::alloc::Global;
use text_fields::{after, u32_before};
use tor_arena::{List, NoMemory};

/// The lists of one line, used again for the next one, so that most lines take no memory.
#[derive(Drop)]
pub struct Scratch {
    path: List<u32>,
    ases: List<u32>,
    links: List<Link>,
}

impl Scratch {
    /// Lists with nothing in them. It takes no memory.
    pub fn new(alloc: Global) -> Scratch {
        Scratch {
            path: List::new(alloc),
            ases: List::new(alloc),
            links: List::new(alloc),
        }
    }
}

// Each function reads what stands behind the first word of a line, adds the line to the draft, and answers what stands behind it.
fn next_version<'a>(
    alloc: Global,
    draft: &mut Draft,
    version: Version,
    bytes: &'a [u8],
) -> Result<&'a [u8], LineError>
    ensures { ReadsAs (λ rest. (draft.new, rest.now)) result (with_line draft.old (version_at version bytes.now)) }
{
    match draft.add_version(alloc, version) {
        Ok(()) => Ok(bytes),
        Err(error) => Err(error),
    }
}

#[tactic(auto, unfolding(crate::specs::Reading::sets_line_at))]
fn next_sets<'a>(draft: &mut Draft, bytes: &'a [u8]) -> Result<&'a [u8], LineError>
    ensures { ReadsAs (λ rest. (draft.new, rest.now)) result (with_line draft.old (sets_line_at bytes.now)) }
{
    let Some((sets, rest)) = read_sets(bytes) else {
        return Err(LineError::Bad);
    };
    match draft.add_sets(sets) {
        Ok(()) => Ok(rest),
        Err(error) => Err(error),
    }
}

#[tactic(auto, unfolding(crate::specs::Reading::ratio_at))]
fn next_ratio<'a>(draft: &mut Draft, bytes: &'a [u8]) -> Result<&'a [u8], LineError>
    ensures { ReadsAs (λ rest. (draft.new, rest.now)) result (with_line draft.old (ratio_at bytes.now)) }
{
    let Some((ratio, rest)) = u32_before(b'\n', bytes) else {
        return Err(LineError::Bad);
    };
    match draft.add_ratio(ratio) {
        Ok(()) => Ok(rest),
        Err(error) => Err(error),
    }
}

fn next_aside<'a>(draft: &mut Draft, bytes: &'a [u8]) -> Result<&'a [u8], LineError>
    ensures { ReadsAs (λ rest. (draft.new, rest.now)) result (with_line draft.old (aside_at bytes.now)) }
{
    let Some((cause, count, rest)) = read_aside(bytes) else {
        return Err(LineError::Bad);
    };
    match draft.add_aside(cause, count) {
        Ok(()) => Ok(rest),
        Err(error) => Err(error),
    }
}

#[tactic(auto, unfolding(crate::specs::Reading::given_at))]
fn next_given<'a>(draft: &mut Draft, bytes: &'a [u8]) -> Result<&'a [u8], LineError>
    ensures { ReadsAs (λ rest. (draft.new, rest.now)) result (with_line draft.old (given_at bytes.now)) }
{
    let Some((over, under, rest)) = read_pair(bytes) else {
        return Err(LineError::Bad);
    };
    match draft.add_given(Given { over, under }) {
        Ok(()) => Ok(rest),
        Err(error) => Err(error),
    }
}

#[inline(always)]
fn next_kept<'a>(
    draft: &mut Draft,
    scratch: &mut Scratch,
    bytes: &'a [u8],
) -> Result<&'a [u8], LineError>
    ensures { ReadsAs (λ rest. (draft.new, rest.now)) result (with_line draft.old (kept_at bytes.now)) }
{
    match read_kept(&mut scratch.path, bytes) {
        Ok((times, rest)) => match draft.add_kept(times, scratch.path.as_slice()) {
            Ok(()) => Ok(rest),
            Err(error) => Err(error),
        },
        Err(error) => Err(error),
    }
}

#[inline(always)]
fn next_lost<'a>(
    draft: &mut Draft,
    scratch: &mut Scratch,
    bytes: &'a [u8],
) -> Result<&'a [u8], LineError>
    ensures { ReadsAs (λ rest. (draft.new, rest.now)) result (with_line draft.old (lost_at (version_of draft.old.givens) bytes.now)) }
{
    let Scratch { path, ases, links } = scratch;
    match read_lost(draft.version(), path, ases, links, bytes) {
        Ok((times, rest)) => {
            let walk = WalkRef::new(ases.as_slice(), links.as_slice());
            match draft.add_lost(times, path.as_slice(), &walk) {
                Ok(()) => Ok(rest),
                Err(error) => Err(error),
            }
        }
        Err(error) => Err(error),
    }
}

#[inline(always)]
fn next_edge<'a>(draft: &mut Draft, bytes: &'a [u8]) -> Result<&'a [u8], LineError>
    ensures { ReadsAs (λ rest. (draft.new, rest.now)) result (with_line draft.old (edge_line_at bytes.now)) }
{
    let Some((edge, rest)) = read_edge(bytes) else {
        return Err(LineError::Bad);
    };
    match draft.add_edge(edge) {
        Ok(()) => Ok(rest),
        Err(error) => Err(error),
    }
}

#[tactic(auto, unfolding(crate::specs::Reading::why_at))]
fn next_why<'a>(
    draft: &mut Draft,
    scratch: &mut Scratch,
    bytes: &'a [u8],
) -> Result<&'a [u8], LineError>
    ensures { ReadsAs (λ rest. (draft.new, rest.now)) result (with_line draft.old (why_at (version_of draft.old.givens) bytes.now)) }
{
    let Scratch { ases, links, .. } = scratch;
    match read_walk(draft.version(), ases, links, bytes) {
        Ok(rest) => {
            let walk = WalkRef::new(ases.as_slice(), links.as_slice());
            match draft.add_why(&walk) {
                Ok(()) => Ok(rest),
                Err(error) => Err(error),
            }
        }
        Err(error) => Err(error),
    }
}

#[tactic(auto, unfolding(crate::specs::Reading::probe_at))]
fn next_probe<'a>(draft: &mut Draft, bytes: &'a [u8]) -> Result<&'a [u8], LineError>
    ensures { ReadsAs (λ rest. (draft.new, rest.now)) result (with_line draft.old (probe_at bytes.now)) }
{
    let Some((over, under, rest)) = read_pair(bytes) else {
        return Err(LineError::Bad);
    };
    match draft.add_probe(Probe { over, under }) {
        Ok(()) => Ok(rest),
        Err(error) => Err(error),
    }
}

fn next_end<'a>(draft: &mut Draft, bytes: &'a [u8]) -> Result<&'a [u8], LineError>
    ensures { ReadsAs (λ rest. (draft.new, rest.now)) result (with_line draft.old (end_at bytes.now)) }
{
    let Some((totals, rest)) = read_end(bytes) else {
        return Err(LineError::Bad);
    };
    match draft.add_end(totals) {
        Ok(()) => Ok(rest),
        Err(error) => Err(error),
    }
}

/// Reads the line at the prefix into the draft, by its first word, and answers what stands behind it.
#[inline(always)]
#[tactic(auto, unfolding(crate::specs::Order::next_at, crate::specs::Reading::line_at))]
pub fn next_line<'a>(
    alloc: Global,
    draft: &mut Draft,
    scratch: &mut Scratch,
    bytes: &'a [u8],
) -> Result<&'a [u8], LineError>
    ensures { ReadsAs (λ rest. (draft.new, rest.now)) result (next_at draft.old bytes.now) }
{
    if let Some(rest) = after(b"kept|", bytes) {
        next_kept(draft, scratch, rest)
    } else if let Some(rest) = after(b"edge|", bytes) {
        next_edge(draft, rest)
    } else if let Some(rest) = after(b"why|", bytes) {
        next_why(draft, scratch, rest)
    } else if let Some(rest) = after(b"open|", bytes) {
        next_probe(draft, rest)
    } else if let Some(rest) = after(b"lost|", bytes) {
        next_lost(draft, scratch, rest)
    } else {
        next_outer(alloc, draft, bytes)
    }
}

/// The same, where it is a line before the paths, or the last.
fn next_outer<'a>(alloc: Global, draft: &mut Draft, bytes: &'a [u8]) -> Result<&'a [u8], LineError>
    ensures { ReadsAs (λ rest. (draft.new, rest.now)) result (with_line draft.old (by_word outer_readers bytes.now)) }
{
    if let Some(rest) = after(b"aside|", bytes) {
        next_aside(draft, rest)
    } else if let Some(rest) = after(b"tor|1\n", bytes) {
        next_version(alloc, draft, Version::One, rest)
    } else if let Some(rest) = after(b"tor|2\n", bytes) {
        next_version(alloc, draft, Version::Two, rest)
    } else if let Some(rest) = after(b"sets|", bytes) {
        next_sets(draft, rest)
    } else if let Some(rest) = after(b"ratio|", bytes) {
        next_ratio(draft, rest)
    } else if let Some(rest) = after(b"given|", bytes) {
        next_given(draft, rest)
    } else if let Some(rest) = after(b"end|", bytes) {
        next_end(draft, rest)
    } else {
        Err(LineError::Bad)
    }
}

/// The same octets once more.
fn copy_of(alloc: Global, octets: &[u8]) -> Result<List<u8>, LineError>
    ensures copy { IfOk result (λ copy. copy ≡ octets.now) }
    ensures memory { IfErr result (λ error. error ≡ no_memory) }
{
    let mut copy = List::new(alloc);
    match copy.extend_from_slice(octets) {
        Ok(()) => Ok(copy),
        Err(NoMemory) => {
            drop(copy);
            Err(LineError::NoMemory)
        }
    }
}

/// Puts octets in place of others, which are let go.
fn put_in_place(octets: &mut List<u8>, others: List<u8>)
    ensures { octets.new ≡ others }
{
    *octets = others;
}

// Each of these reads what stands behind the first word of a line with lists, and answers a copy of what stands behind it.
fn kept_copied(
    alloc: Global,
    path: &mut List<u32>,
    bytes: &[u8],
) -> Result<(u64, List<u8>), LineError>
    ensures { ReadsAs (λ x. (line_of_kept (x.0, path.new), x.1)) result (kept_at bytes.now) }
{
    match read_kept(path, bytes) {
        Ok((times, rest)) => match copy_of(alloc, rest) {
            Ok(copy) => Ok((times, copy)),
            Err(error) => Err(error),
        },
        Err(error) => Err(error),
    }
}

fn lost_copied(
    alloc: Global,
    version: Version,
    scratch: &mut Scratch,
    bytes: &[u8],
) -> Result<(u64, List<u8>), LineError>
    ensures { ReadsAs (λ x. (lost_from (x.0, (scratch.new.path, walk_with scratch.new.ases scratch.new.links)), x.1)) result
        (lost_at version bytes.now) }
{
    let Scratch { path, ases, links } = scratch;
    match read_lost(version, path, ases, links, bytes) {
        Ok((times, rest)) => match copy_of(alloc, rest) {
            Ok(copy) => Ok((times, copy)),
            Err(error) => Err(error),
        },
        Err(error) => Err(error),
    }
}

fn walk_copied(
    alloc: Global,
    version: Version,
    scratch: &mut Scratch,
    bytes: &[u8],
) -> Result<List<u8>, LineError>
    ensures { ReadsAs (λ copy. (walk_with scratch.new.ases scratch.new.links, copy)) result (walk_at version bytes.now) }
{
    let Scratch { ases, links, .. } = scratch;
    match read_walk(version, ases, links, bytes) {
        Ok(rest) => copy_of(alloc, rest),
        Err(error) => Err(error),
    }
}

/// Reads the line at the prefix into the draft, and leaves a copy of what stands behind it.
fn next_copied(
    alloc: Global,
    draft: &mut Draft,
    scratch: &mut Scratch,
    octets: &mut List<u8>,
) -> Result<(), LineError>
    ensures { ReadsAs (λ _. (draft.new, octets.new)) result (next_at draft.old octets.old) }
{
    match next_line(alloc, draft, scratch, octets.as_slice()) {
        Ok(rest) => match copy_of(alloc, rest) {
            Ok(copy) => {
                put_in_place(octets, copy);
                Ok(())
            }
            Err(error) => Err(error),
        },
        Err(error) => Err(error),
    }
}

// Each of these adds a line with lists that are read to the draft, when its octets are let go for those that stand behind it.
fn add_long_kept(
    draft: &mut Draft,
    scratch: &Scratch,
    octets: &mut List<u8>,
    times: u64,
    behind: List<u8>,
) -> Result<(), LineError>
    ensures added { Steps result draft.new (step draft.old (line_of_kept (times, scratch.now.path))) }
    ensures behind { octets.new ≡ behind }
{
    put_in_place(octets, behind);
    draft.add_kept(times, scratch.path.as_slice())
}

fn add_long_lost(
    draft: &mut Draft,
    scratch: &Scratch,
    octets: &mut List<u8>,
    times: u64,
    behind: List<u8>,
) -> Result<(), LineError>
    ensures added { Steps result draft.new (step draft.old
        (lost_from (times, (scratch.now.path, walk_with scratch.now.ases scratch.now.links)))) }
    ensures behind { octets.new ≡ behind }
{
    put_in_place(octets, behind);
    let walk = WalkRef::new(scratch.ases.as_slice(), scratch.links.as_slice());
    draft.add_lost(times, scratch.path.as_slice(), &walk)
}

fn add_long_why(
    draft: &mut Draft,
    scratch: &Scratch,
    octets: &mut List<u8>,
    behind: List<u8>,
) -> Result<(), LineError>
    ensures added { Steps result draft.new (step draft.old (line.Why (walk_with scratch.now.ases scratch.now.links))) }
    ensures behind { octets.new ≡ behind }
{
    put_in_place(octets, behind);
    draft.add_why(&WalkRef::new(scratch.ases.as_slice(), scratch.links.as_slice()))
}

/// The same, with the octets let go before the numbers of a line with lists are copied into the draft. So a long line takes the memory of
/// its octets and its numbers, and then that of its numbers twice, but never all three.
#[tactic(auto, unfolding(crate::specs::Order::next_at, crate::specs::Reading::line_at, crate::specs::Reading::why_at))]
pub fn next_long(
    alloc: Global,
    draft: &mut Draft,
    scratch: &mut Scratch,
    octets: &mut List<u8>,
) -> Result<(), LineError>
    ensures { ReadsAs (λ _. (draft.new, octets.new)) result (next_at draft.old octets.old) }
{
    let bytes = octets.as_slice();
    if let Some(rest) = after(b"kept|", bytes) {
        match kept_copied(alloc, &mut scratch.path, rest) {
            Ok((times, behind)) => add_long_kept(draft, scratch, octets, times, behind),
            Err(error) => Err(error),
        }
    } else if let Some(rest) = after(b"why|", bytes) {
        match walk_copied(alloc, draft.version(), scratch, rest) {
            Ok(behind) => add_long_why(draft, scratch, octets, behind),
            Err(error) => Err(error),
        }
    } else if let Some(rest) = after(b"lost|", bytes) {
        match lost_copied(alloc, draft.version(), scratch, rest) {
            Ok((times, behind)) => add_long_lost(draft, scratch, octets, times, behind),
            Err(error) => Err(error),
        }
    } else {
        next_copied(alloc, draft, scratch, octets)
    }
}
