//! What open lines serve for.

ghost use Rattle.std.specs.Prelude.{◌≡◌, ◌<◌, ◌≤◌, ◌↔◌, ℕ, ◌++◌, ◌∷◌, [], List as Items, length, replicate};
ghost use Rattle.std.specs.Prelude.{All, Any, IsTrue, MatchOption, OnOk, IfOk};
ghost use Rattle.tor_arena.specs.Limits.{most_places};
ghost use Rattle.result_rules.specs.File.{its_claims, its_probes};
ghost use Rattle.line_rules.specs.Searching.{IsRoundClosed};
ghost use Rattle.line_rules.specs.Flipping.{flipped, flipped_orders, FlipsTo, served_lines};
ghost use Rattle.line_rules.specs.EdgeLines.{edges_of, AreApart};
ghost use Rattle.line_rules.specs.Serving.{is_wanted, IsWantedAt, Gains, Covers, IsLaidOut, GainsAt, first_failing};
ghost use Rattle.line_rules.specs.Breaches.{First};

use crate::marks::flipping::Flips;
use crate::marks::searching::{no_rounds, reach};
use relationships::Label;
use result_text::{EdgeLine, Mark, Probe, ResultFile};
use std::alloc::Global;
use tor_arena::{Arena, EdgeId, Index, List, NoMemory};
use tor_numbers::EdgeTable;

/// Whether an edge flips to an order.
fn flips_to(line: &EdgeLine, over: u32, under: u32) -> bool
    ensures { IsTrue result ↔ (flipped line.now ≡ (over, under)) }
{
    match line.label {
        Label::High => line.low == over && line.high == under,
        _ => line.high == over && line.low == under,
    }
}

/// The edge that flips to the order of an open line. None if a label has the order, or it is that
/// of no edge.
pub(crate) fn start_of(lines: &[EdgeLine], table: &EdgeTable, probe: &Probe) -> Option<EdgeId>
    requires table { table.now ≡ edges_of lines.now }
    requires few { length lines.now ≤ most_places }
    requires apart { AreApart lines.now }
    ensures { MatchOption result ((k : ℕ) → FlipsTo (flipped_orders lines.now) k probe.now.over probe.now.under → ⊥)
        (λ k. FlipsTo (flipped_orders lines.now) k probe.now.over probe.now.under) }
{
    let Some(place) = table.place(probe.over, probe.under) else {
        return None;
    };
    if !flips_to(&lines[place], probe.over, probe.under) {
        return None;
    }
    EdgeId::from_place(place)
}

/// Whether an edge is open, and no peering.
fn is_open(line: &EdgeLine) -> bool
    ensures { result ≡ is_wanted line.now.mark line.now.label }
{
    match (line.mark, line.label) {
        (Mark::Open, Label::Low) => true,
        (Mark::Open, Label::High) => true,
        _ => false,
    }
}

/// Whether one of these edges is open, and no peering.
fn has_open(lines: &[EdgeLine], found: &[EdgeId]) -> bool
    requires { All (λ k. k < length lines.now) found.now }
    ensures { IsTrue result ↔ Any (IsWantedAt lines.now) found.now }
{
    found.iter().any(|edge| is_open(&lines[edge.place()]))
}

/// Adds the closure of an open line to the cover of the earlier ones. Answers whether the line has
/// the other order of an open edge that none of these has.
fn cover_one(
    file: &ResultFile,
    table: &EdgeTable,
    flips: &Flips,
    probe: &Probe,
    rounds: &mut Arena<EdgeId, usize>,
    found: &mut List<EdgeId>,
) -> Result<bool, NoMemory>
    requires laid { IsLaidOut file.now table.now flips.now.implied flips.now.conflicting }
    requires many { length rounds.old.items ≡ length file.now.edges }
    requires closed { IsRoundClosed flips.now.implied rounds.old.items 1 }
    ensures many { OnOk result (length rounds.new.items ≡ length file.now.edges) }
    ensures closed { OnOk result (IsRoundClosed flips.now.implied rounds.new.items 1) }
    ensures covered { OnOk result ((earlier : Items (ℕ × ℕ)) → Covers file.now earlier rounds.old.items →
        Covers file.now (earlier ++ (probe.now.over, probe.now.under) ∷ []) rounds.new.items) }
    ensures gains { IfOk result (λ gains. (earlier : Items (ℕ × ℕ)) → Covers file.now earlier rounds.old.items →
        IsTrue gains ↔ Gains (served_lines file.now) (its_claims file.now) earlier (probe.now.over, probe.now.under)) }
{
    let lines = file.edges.as_slice();
    let Some(start) = start_of(lines, table, probe) else {
        return Ok(false);
    };
    reach(&flips.implied, start, 1, rounds, found)?;
    Ok(has_open(lines, found.as_slice()))
}

/// Keeps the first place at which something doesn't hold.
fn first_failing(first: Option<usize>, place: usize, holds: bool) -> Option<usize>
    ensures { result ≡ first_failing first place holds }
{
    match (first, holds) {
        (Some(earlier), _) => Some(earlier),
        (None, true) => None,
        (None, false) => Some(place),
    }
}

/// For each edge the number of the round that came to it, which is 1 where the closure of an open
/// line has its flipped order. And the first open line that gains nothing.
#[derive(Drop)]
pub struct Cover {
    pub rounds: Arena<EdgeId, usize>,
    pub idle: Option<usize>,
}

/// What the open lines cover, and the first of them that gains nothing, by its place, from 0. NoMemory where memory ran out.
pub fn cover_all(
    alloc: Global,
    file: &ResultFile,
    table: &EdgeTable,
    flips: &Flips,
) -> Result<Cover, NoMemory>
    requires laid { IsLaidOut file.now table.now flips.now.implied flips.now.conflicting }
    ensures many { IfOk result (λ cover. length cover.rounds.items ≡ length file.now.edges) }
    ensures covered { IfOk result (λ cover. Covers file.now (its_probes file.now) cover.rounds.items) }
    ensures idle { IfOk result (λ cover. First (GainsAt file.now) (length file.now.probes) cover.idle) }
{
    let mut rounds = no_rounds(alloc, file.edges.len())?;
    let mut found = List::new(alloc);
    let covered = cover_each(file, table, flips, &mut rounds, &mut found);
    drop(found);
    match covered {
        Ok(idle) => Ok(Cover { rounds, idle }),
        Err(NoMemory) => {
            drop(rounds);
            Err(NoMemory)
        }
    }
}

/// Adds the closure of each open line to the cover, and answers the first of them that gains nothing. `found` is memory for the search.
fn cover_each(
    file: &ResultFile,
    table: &EdgeTable,
    flips: &Flips,
    rounds: &mut Arena<EdgeId, usize>,
    found: &mut List<EdgeId>,
) -> Result<Option<usize>, NoMemory>
    requires laid { IsLaidOut file.now table.now flips.now.implied flips.now.conflicting }
    requires none { rounds.old.items ≡ replicate (length file.now.edges) 0 }
    ensures many { OnOk result (length rounds.new.items ≡ length file.now.edges) }
    ensures covered { OnOk result (Covers file.now (its_probes file.now) rounds.new.items) }
    ensures idle { IfOk result (First (GainsAt file.now) (length file.now.probes)) }
{
    let mut idle = None;
    for (k, probe) in file.probes.as_slice().iter().enumerate() {
        let gains = cover_one(file, table, flips, probe, rounds, found)?;
        idle = first_failing(idle, k, gains);
    }
    Ok(idle)
}
