//! What lines say behind their first word, read from the prefix of the octets, with the line feed. Lists go into lists that are there.

ghost use Rattle.std.specs.Prelude.{◌≡◌, option_map};
ghost use Rattle.relationships.specs.Flat.{walk_with};
ghost use Rattle.result_text.specs.Reading.{ReadsAs, sets_at, cause_at, label_at, mark_at, walk_at, aside_at, aside_from, kept_at};
ghost use Rattle.result_text.specs.Reading.{line_of_kept, lost_at, lost_from, edge_line_at, end_at};
ghost use Rattle.text_fields.specs.Reading.{before, both, u32_at};
ghost use Rattle.result_text.specs.declared.line.Line.TheVariants as line;

use crate::error::LineError;
use crate::file::{EdgeLine, Totals};
use crate::line::Version;
use crate::reading::{links_before, numbers_before};
use path_clean::{Cause, Sets};
use relationships::{Label, Link, Mark};
use text_fields::{after, u32_before, u64_before};
use tor_arena::List;

/// How sets were treated, and the line feed.
#[tactic(auto, unfolding(crate::specs::Reading::sets_at))]
pub fn read_sets(bytes: &[u8]) -> Option<(Sets, &[u8])>
    ensures { option_map (λ x. (x.0, x.1.now)) result ≡ sets_at bytes.now }
{
    if let Some(rest) = after(b"cut\n", bytes) {
        Some((Sets::Cut, rest))
    } else if let Some(rest) = after(b"skip\n", bytes) {
        Some((Sets::Skip, rest))
    } else {
        None
    }
}

// A cause, and the bar behind it.
#[tactic(auto, unfolding(crate::specs::Reading::cause_at))]
fn cause_of(bytes: &[u8]) -> Option<(Cause, &[u8])>
    ensures { option_map (λ x. (x.0, x.1.now)) result ≡ cause_at bytes.now }
{
    if let Some(rest) = after(b"nopath|", bytes) {
        Some((Cause::NoPath, rest))
    } else if let Some(rest) = after(b"badsegments|", bytes) {
        Some((Cause::BadSegments, rest))
    } else if let Some(rest) = after(b"confed|", bytes) {
        Some((Cause::Confed, rest))
    } else if let Some(rest) = after(b"sets|", bytes) {
        Some((Cause::Sets, rest))
    } else if let Some(rest) = after(b"reserved|", bytes) {
        Some((Cause::Reserved, rest))
    } else if let Some(rest) = after(b"loop|", bytes) {
        Some((Cause::Loop, rest))
    } else if let Some(rest) = after(b"short|", bytes) {
        Some((Cause::Short, rest))
    } else {
        None
    }
}

// A label, and the bar behind it.
#[tactic(auto, unfolding(crate::specs::Reading::label_at))]
fn label_of(bytes: &[u8]) -> Option<(Label, &[u8])>
    ensures { option_map (λ x. (x.0, x.1.now)) result ≡ label_at bytes.now }
{
    if let Some(rest) = after(b"low|", bytes) {
        Some((Label::Low, rest))
    } else if let Some(rest) = after(b"high|", bytes) {
        Some((Label::High, rest))
    } else if let Some(rest) = after(b"peer|", bytes) {
        Some((Label::Peer, rest))
    } else {
        None
    }
}

// A mark, and the bar behind it.
#[tactic(auto, unfolding(crate::specs::Reading::mark_at))]
fn mark_of(bytes: &[u8]) -> Option<(Mark, &[u8])>
    ensures { option_map (λ x. (x.0, x.1.now)) result ≡ mark_at bytes.now }
{
    if let Some(rest) = after(b"forced|", bytes) {
        Some((Mark::Forced, rest))
    } else if let Some(rest) = after(b"open|", bytes) {
        Some((Mark::Open, rest))
    } else {
        None
    }
}

/// A walk as the two last fields of a line.
#[tactic(auto, unfolding(crate::specs::Reading::walk_at))]
pub fn read_walk<'a>(
    version: Version,
    ases: &mut List<u32>,
    links: &mut List<Link>,
    bytes: &'a [u8],
) -> Result<&'a [u8], LineError>
    ensures { ReadsAs (λ rest. (walk_with ases.new links.new, rest.now)) result (walk_at version bytes.now) }
{
    match numbers_before(b'|', ases, bytes) {
        Ok(rest) => links_before(version, b'\n', links, rest),
        Err(error) => Err(error),
    }
}

/// The line of a cause.
#[tactic(auto, unfolding(crate::specs::Reading::aside_at))]
pub fn read_aside(bytes: &[u8]) -> Option<(Cause, u64, &[u8])>
    ensures { option_map (λ x. (aside_from (x.0, x.1), x.2.now)) result ≡ aside_at bytes.now }
{
    let Some((cause, rest)) = cause_of(bytes) else {
        return None;
    };
    let Some((count, rest)) = u64_before(b'\n', rest) else {
        return None;
    };
    Some((cause, count, rest))
}

/// The line of a kept path, and its times.
#[inline(always)]
#[tactic(auto, unfolding(crate::specs::Reading::kept_at))]
pub fn read_kept<'a>(path: &mut List<u32>, bytes: &'a [u8]) -> Result<(u64, &'a [u8]), LineError>
    ensures { ReadsAs (λ x. (line_of_kept (x.0, path.new), x.1.now)) result (kept_at bytes.now) }
{
    let Some((times, rest)) = u64_before(b'|', bytes) else {
        return Err(LineError::Bad);
    };
    match numbers_before(b'\n', path, rest) {
        Ok(rest) => Ok((times, rest)),
        Err(error) => Err(error),
    }
}

/// The line of a lost path, and its times.
#[inline(always)]
#[tactic(auto, unfolding(crate::specs::Reading::lost_at))]
pub fn read_lost<'a>(
    version: Version,
    path: &mut List<u32>,
    ases: &mut List<u32>,
    links: &mut List<Link>,
    bytes: &'a [u8],
) -> Result<(u64, &'a [u8]), LineError>
    ensures { ReadsAs (λ x. (lost_from (x.0, (path.new, walk_with ases.new links.new)), x.1.now)) result (lost_at version bytes.now) }
{
    let Some((times, rest)) = u64_before(b'|', bytes) else {
        return Err(LineError::Bad);
    };
    match numbers_before(b'|', path, rest) {
        Ok(rest) => match read_walk(version, ases, links, rest) {
            Ok(rest) => Ok((times, rest)),
            Err(error) => Err(error),
        },
        Err(error) => Err(error),
    }
}

/// The line of an edge.
#[tactic(auto, unfolding(crate::specs::Reading::edge_line_at))]
pub fn read_edge(bytes: &[u8]) -> Option<(EdgeLine, &[u8])>
    ensures { option_map (λ x. (line.Edge x.0, x.1.now)) result ≡ edge_line_at bytes.now }
{
    let Some((low, rest)) = u32_before(b'|', bytes) else {
        return None;
    };
    let Some((high, rest)) = u32_before(b'|', rest) else {
        return None;
    };
    let Some((label, rest)) = label_of(rest) else {
        return None;
    };
    let Some((mark, rest)) = mark_of(rest) else {
        return None;
    };
    let Some((support, rest)) = u64_before(b'\n', rest) else {
        return None;
    };
    let edge = EdgeLine {
        low,
        high,
        label,
        mark,
        support,
    };
    Some((edge, rest))
}

/// Two AS numbers that end their line.
pub fn read_pair(bytes: &[u8]) -> Option<(u32, u32, &[u8])>
    ensures { option_map (λ x. ((x.0, x.1), x.2.now)) result ≡ both (before 124 u32_at) (before 10 u32_at) bytes.now }
{
    let Some((first, rest)) = u32_before(b'|', bytes) else {
        return None;
    };
    let Some((second, rest)) = u32_before(b'\n', rest) else {
        return None;
    };
    Some((first, second, rest))
}

/// The last line.
#[tactic(auto, unfolding(crate::specs::Reading::end_at))]
pub fn read_end(bytes: &[u8]) -> Option<(Totals, &[u8])>
    ensures { option_map (λ x. (line.End x.0, x.1.now)) result ≡ end_at bytes.now }
{
    let Some((kept, rest)) = u64_before(b'|', bytes) else {
        return None;
    };
    let Some((lost, rest)) = u64_before(b'|', rest) else {
        return None;
    };
    let Some((edges, rest)) = u64_before(b'|', rest) else {
        return None;
    };
    let Some((forced, rest)) = u64_before(b'|', rest) else {
        return None;
    };
    let Some((peers, rest)) = u64_before(b'\n', rest) else {
        return None;
    };
    let totals = Totals {
        kept,
        lost,
        edges,
        forced,
        peers,
    };
    Some((totals, rest))
}
