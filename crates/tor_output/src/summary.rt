//! The summary of a result.
//!
//! The count of paths stops at 2^64 - 1, so no condition on the totals is needed.
ghost use Rattle.std.specs.Prelude.{◌≡◌, IfOk, OnOk, map, string_bytes};
ghost use Rattle.serde_json.specs.View.{members_view, view};
ghost use Rattle.tor_output.specs.Summary.{all_asides, summary_object, summary_of};
ghost use Rattle.tor_output.specs.Counts.{with_members};

use path_clean::{Asides, Cause};
use result_text::Totals;
use serde_json::{Map, Value};
use std::alloc::{AllocError, Global};

// How many routes were set aside, up to 2^64 - 1.
fn all_asides(asides: &Asides) -> u64
    ensures { result ≡ all_asides asides.now }
{
    asides
        .get(Cause::NoPath)
        .saturating_add(asides.get(Cause::BadSegments))
        .saturating_add(asides.get(Cause::Confed))
        .saturating_add(asides.get(Cause::Sets))
        .saturating_add(asides.get(Cause::Reserved))
        .saturating_add(asides.get(Cause::Loop))
        .saturating_add(asides.get(Cause::Short))
}

// Puts numbers into an object, each under its name.
fn put_counts(
    alloc: Global,
    members: &mut Map<String, Value>,
    counts: &[(&str, u64)],
) -> Result<(), AllocError>
    ensures { OnOk result (members_view members.new.entries
        ≡ with_members (map (λ c. (c.0.now, c.1)) counts.now) (members_view members.old.entries)) }
{
    match counts {
        [] => Ok(()),
        [count, rest @ ..] => match serde_json::put(members, alloc, count.0, Value::from(count.1)) {
            Ok(()) => put_counts(alloc, members, rest),
            Err(error) => Err(error),
        },
    }
}

// The object that is written.
fn summary_object(alloc: Global, asides: &Asides, totals: &Totals) -> Result<Value, AllocError>
    ensures { IfOk result (λ value. view value ≡ summary_object asides.now totals.now) }
{
    let counts = [
        ("asides", all_asides(asides)),
        ("edges", totals.edges),
        ("forced", totals.forced),
        ("kept", totals.kept),
        ("lost", totals.lost),
        ("paths", totals.kept.saturating_add(totals.lost)),
        ("peers", totals.peers),
    ];
    let mut members = Map::new(alloc);
    match put_counts(alloc, &mut members, &counts) {
        Ok(()) => Ok(Value::Object(members)),
        Err(error) => {
            drop(members);
            Err(error)
        }
    }
}

/// The summary of a result with these counts of routes set aside and these totals, without a line feed.
pub(crate) fn summary_text(
    alloc: Global,
    asides: &Asides,
    totals: &Totals,
) -> Result<String, AllocError>
    ensures { IfOk result (λ text. string_bytes text ≡ summary_of asides.now totals.now) }
{
    let value = summary_object(alloc, asides, totals)?;
    let text = value.to_string(alloc);
    drop(value);
    text
}
