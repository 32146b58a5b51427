//! Edges that flip together, and those that can't flip with them.

ghost use Rattle.std.specs.Prelude.{◌≡◌, ◌<◌, ◌≤◌, ◌↔◌, ◌+◌, ◌^◌, ℕ, length, All, Any, Contains, IsTrue, OnOk, IfOk};
ghost use Rattle.tor_arena.specs.Limits.{most_places};
ghost use Rattle.line_rules.specs.Neighbours.{HasNext, EachHasRow, IsMutual};
ghost use Rattle.line_rules.specs.Searching.{RoundCameTo, IsRoundClosed};
ghost use Rattle.line_rules.specs.Batches.{AgreesAlone, CanFlipTogether, HasForgotten, AreRows, HasRuledOut, HasRounds, IsBegun, IsBatch};

use crate::marks::flipping::Flips;
use crate::marks::neighbours::Neighbours;
use crate::marks::searching::{no_rounds, reach};
use std::alloc::Global;
use tor_arena::{Arena, EdgeId, List, NoMemory};

/// Whether the round came to one of these edges.
fn has_visited(row: &[EdgeId], rounds: &Arena<EdgeId, usize>, round: usize) -> bool
    requires { All (λ k. k < length rounds.now.items) row.now }
    ensures { IsTrue result ↔ Any (RoundCameTo rounds.now.items round) row.now }
{
    row.iter().any(|edge| *rounds.get(*edge) == round)
}

/// Whether an edge conflicts with one to which the round came.
fn conflicts_visited(
    conflicting: &Neighbours,
    rounds: &Arena<EdgeId, usize>,
    round: usize,
    edge: EdgeId,
) -> bool
    requires inside { EachHasRow conflicting.now }
    requires many { length rounds.now.items ≡ length conflicting.now }
    requires edge { edge < length conflicting.now }
    ensures { IsTrue result ↔ ((j : ℕ) × HasNext conflicting.now edge j × RoundCameTo rounds.now.items round j) }
{
    has_visited(conflicting.of(edge), rounds, round)
}

/// Whether one of these edges conflicts with one to which the round came.
fn has_clash(
    conflicting: &Neighbours,
    rounds: &Arena<EdgeId, usize>,
    round: usize,
    found: &[EdgeId],
) -> bool
    requires inside { EachHasRow conflicting.now }
    requires many { length rounds.now.items ≡ length conflicting.now }
    requires found { All (λ k. k < length conflicting.now) found.now }
    ensures { IsTrue result ↔ Any (λ i. (j : ℕ) × HasNext conflicting.now i j × RoundCameTo rounds.now.items round j) found.now }
{
    found.iter().any(|edge| conflicts_visited(conflicting, rounds, round, *edge))
}

/// Rules out these edges, and all that implies one of them. `behind` is memory for the search.
fn rule_out(
    implying: &Neighbours,
    row: &[EdgeId],
    round: usize,
    ruled: &mut Arena<EdgeId, usize>,
    behind: &mut List<EdgeId>,
) -> Result<(), NoMemory>
    requires row { All (λ k. k < length implying.now) row.now }
    requires many { length ruled.old.items ≡ length implying.now }
    requires inside { EachHasRow implying.now }
    requires closed { IsRoundClosed implying.now ruled.old.items round }
    requires latest { All (λ m. m ≤ round) ruled.old.items }
    ensures { OnOk result (HasRuledOut implying.now round (Contains row.now) ruled.old.items ruled.new.items) }
{
    for edge in row {
        reach(implying, *edge, round, ruled, behind)?;
    }
    Ok(())
}

/// Rules out all that conflicts with one of these edges, and all that implies such an edge.
fn rule_out_around(
    flips: &Flips,
    implying: &Neighbours,
    found: &[EdgeId],
    round: usize,
    ruled: &mut Arena<EdgeId, usize>,
    behind: &mut List<EdgeId>,
) -> Result<(), NoMemory>
    requires rows { AreRows flips.now.implied flips.now.conflicting implying.now }
    requires found { All (λ k. k < length flips.now.implied) found.now }
    requires many { length ruled.old.items ≡ length flips.now.implied }
    requires closed { IsRoundClosed implying.now ruled.old.items round }
    requires latest { All (λ m. m ≤ round) ruled.old.items }
    ensures { OnOk result (HasRuledOut implying.now round (λ k. (i : ℕ) × Contains found.now i × HasNext flips.now.conflicting i k)
        ruled.old.items ruled.new.items) }
{
    for edge in found {
        let row = flips.conflicting.of(*edge);
        rule_out(implying, row, round, ruled, behind)?;
    }
    Ok(())
}

/// How many edges stand in the rows of these edges.
fn size_of(flips: &Flips, found: &[EdgeId]) -> usize
    requires same { length flips.now.conflicting ≡ length flips.now.implied }
    requires found { All (λ k. k < length flips.now.implied) found.now }
{
    let mut size: usize = 0;
    for edge in found {
        size = size.saturating_add(flips.implied.of(*edge).len());
        size = size.saturating_add(flips.conflicting.of(*edge).len());
    }
    size
}

/// Takes these edges out of every round.
fn forget(found: &[EdgeId], rounds: &mut Arena<EdgeId, usize>)
    requires { All (λ k. k < length rounds.old.items) found.now }
    ensures { HasForgotten found.now rounds.old.items rounds.new.items }
{
    for edge in found {
        rounds.put(*edge, 0);
    }
}

/// Edges that flip together: those to which the round came. And those that it ruled out, each of which can't flip with one of these.
#[derive(Drop)]
pub(crate) struct Batch {
    pub round: usize,
    pub rounds: Arena<EdgeId, usize>,
    pub ruled: Arena<EdgeId, usize>,
    /// How many edges stood in the rows of all that was looked along in vain.
    pub wasted: usize,
    // memory for the searches
    found: List<EdgeId>,
    behind: List<EdgeId>,
}

impl Batch {
    /// No edges, of so many.
    pub fn new(alloc: Global, count: usize) -> Result<Batch, NoMemory>
        requires { count ≤ most_places }
        ensures begun { IfOk result (IsBegun count) }
        ensures round { IfOk result (λ batch. batch.round ≡ 1) }
    {
        let rounds = no_rounds(alloc, count)?;
        match no_rounds(alloc, count) {
            Ok(ruled) => Ok(Batch {
                round: 1,
                rounds,
                ruled,
                wasted: 0,
                found: List::new(alloc),
                behind: List::new(alloc),
            }),
            Err(NoMemory) => {
                drop(rounds);
                Err(NoMemory)
            }
        }
    }

    /// Begins anew, with no edges.
    pub fn begin(&mut self)
        requires { self.old.round + 1 < 2 ^ 64 }
        ensures begun { (count : ℕ) → HasRounds count self.old → IsBegun count self.new }
        ensures round { self.new.round ≡ self.old.round + 1 }
    {
        self.round += 1;
    }

    /// Whether an edge is ruled out.
    pub fn rules_out(&self, edge: EdgeId) -> bool
        requires { edge < length self.now.ruled.items }
        ensures { IsTrue result ↔ RoundCameTo self.now.ruled.items self.now.round edge }
    {
        *self.ruled.get(edge) == self.round
    }

    /// Adds what flips with an edge, unless an edge of this conflicts with another one or with one of the batch. Rules out nothing.
    pub fn try_join(&mut self, flips: &Flips, start: EdgeId) -> Result<bool, NoMemory>
        requires start { start < length flips.now.implied }
        requires many { length self.old.rounds.items ≡ length flips.now.implied }
        requires same { length flips.now.conflicting ≡ length flips.now.implied }
        requires inside { EachHasRow flips.now.implied }
        requires conflicts { EachHasRow flips.now.conflicting }
        requires both_ways { IsMutual flips.now.conflicting }
        requires round { 1 ≤ self.old.round }
        requires batch { CanFlipTogether flips.now.implied flips.now.conflicting self.old.rounds.items self.old.round }
        ensures round { OnOk result (self.new.round ≡ self.old.round) }
        ensures ruled { OnOk result (self.new.ruled.items ≡ self.old.ruled.items) }
        ensures many { OnOk result (length self.new.rounds.items ≡ length flips.now.implied) }
        ensures batch { OnOk result (CanFlipTogether flips.now.implied flips.now.conflicting self.new.rounds.items self.new.round) }
        ensures agrees { IfOk result (λ joined. IsTrue joined → AgreesAlone flips.now.implied flips.now.conflicting start) }
    {
        reach(
            &flips.implied,
            start,
            self.round,
            &mut self.rounds,
            &mut self.found,
        )?;
        if !has_clash(
            &flips.conflicting,
            &self.rounds,
            self.round,
            self.found.as_slice(),
        ) {
            return Ok(true);
        }
        self.wasted = self
            .wasted
            .saturating_add(size_of(flips, self.found.as_slice()));
        forget(self.found.as_slice(), &mut self.rounds);
        Ok(false)
    }

    /// Adds what flips with an edge that is not ruled out. Answers whether no edge of this conflicts with another. If one does, the batch
    /// has to begin anew.
    pub fn join(
        &mut self,
        flips: &Flips,
        implying: &Neighbours,
        start: EdgeId,
    ) -> Result<bool, NoMemory>
        requires rows { AreRows flips.now.implied flips.now.conflicting implying.now }
        requires start { start < length flips.now.implied }
        requires batch { IsBatch flips.now.implied flips.now.conflicting implying.now self.old }
        requires free { RoundCameTo self.old.ruled.items self.old.round start → ⊥ }
        ensures round { OnOk result (self.new.round ≡ self.old.round) }
        ensures rounds { OnOk result (HasRounds (length flips.now.implied) self.new) }
        ensures batch { IfOk result (λ agrees. IsTrue agrees → IsBatch flips.now.implied flips.now.conflicting implying.now self.new) }
        ensures agrees { IfOk result (λ agrees. IsTrue agrees ↔ AgreesAlone flips.now.implied flips.now.conflicting start) }
    {
        reach(
            &flips.implied,
            start,
            self.round,
            &mut self.rounds,
            &mut self.found,
        )?;
        if has_clash(
            &flips.conflicting,
            &self.rounds,
            self.round,
            self.found.as_slice(),
        ) {
            return Ok(false);
        }
        rule_out_around(
            flips,
            implying,
            self.found.as_slice(),
            self.round,
            &mut self.ruled,
            &mut self.behind,
        )?;
        Ok(true)
    }
}
