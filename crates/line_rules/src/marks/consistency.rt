//! Whether the closures of open lines are consistent.
//!
//! Lines are tried first, each with a search. What is ruled out is marked only where more than 16 times the edges of the file were
//! visited in vain. Marking always took 3 to 8 times as long.

ghost use Rattle.std.specs.Prelude.{◌≡◌, ◌<◌, ◌≤◌, ◌↔◌, ◌+◌, ◌^◌, ℕ, length, All, Contains, IsTrue, OnOk, IfOk};
ghost use Rattle.result_rules.specs.File.{HasFewLines};
ghost use Rattle.line_rules.specs.Batches.{AreRows, CanFlipTogether, HasRounds, IsBegun, IsBatch};
ghost use Rattle.line_rules.specs.Serving.{IsLaidOut, GainsAt, ServesAt};
ghost use Rattle.line_rules.specs.Breaches.{First};
ghost use Rattle.line_rules.specs.Testing.{IsBehind, end_before, IsFailing, Tests, Tries, IsWaiting};
ghost use Rattle.line_rules.specs.Testing.{IsBatchTested, AreTried, IsUnderWay, AreAllTested};

use crate::marks::batch::Batch;
use crate::marks::flipping::Flips;
use crate::marks::neighbours::Neighbours;
use crate::marks::serving::start_of;
use result_text::ResultFile;
use std::alloc::Global;
use tor_arena::{List, NoMemory};
use tor_numbers::EdgeTable;

/// Whether a line stands at the failing one, if there is one, or behind it.
fn is_behind(failing: Option<usize>, place: usize) -> bool
    ensures { IsTrue result ↔ IsBehind failing place }
{
    match failing {
        Some(first) => first <= place,
        None => false,
    }
}

/// Where the lines before this one end, of so many; if there is none, where all end.
fn end_before(first: Option<usize>, count: usize) -> usize
    ensures { result ≡ end_before first count }
{
    match first {
        Some(place) => place,
        None => count,
    }
}

/// Adds a line that is not tested to those that wait.
fn let_wait(done: bool, place: usize, waiting: &mut List<usize>) -> Result<(), NoMemory>
    ensures { OnOk result (IsWaiting done place waiting.old waiting.new) }
{
    if !done {
        waiting.push(place)?;
    }
    Ok(())
}

/// The numbers below `end`.
fn places_before(alloc: Global, end: usize) -> Result<List<usize>, NoMemory>
    ensures many { IfOk result (λ places. length places ≡ end) }
    ensures inside { IfOk result (All (λ k. k < end)) }
    ensures all { IfOk result (λ places. (k : ℕ) → k < end → Contains places k) }
{
    let mut places = List::new(alloc);
    for place in 0..end {
        places.push(place)?;
    }
    Ok(places)
}

/// How many edges may be looked along in vain for each edge of the file, until no further line is tried.
const MOST_WASTED: usize = 16;

/// Open lines that are tested in batches, and the first of them so far that doesn't serve.
#[derive(Drop)]
struct Testing {
    batch: Batch,
    failing: Option<usize>,
}

impl Testing {
    /// Tests a line, unless it stands behind one that doesn't serve. False if it has to wait for another batch, since it can't flip with
    /// the lines of this one.
    fn test(
        &mut self,
        file: &ResultFile,
        table: &EdgeTable,
        flips: &Flips,
        implying: &Neighbours,
        place: usize,
    ) -> Result<bool, NoMemory>
        requires laid { IsLaidOut file.now table.now flips.now.implied flips.now.conflicting }
        requires rows { AreRows flips.now.implied flips.now.conflicting implying.now }
        requires there { place < length file.now.probes }
        requires batch { IsBatch flips.now.implied flips.now.conflicting implying.now self.old.batch }
        requires room { self.old.batch.round + 1 < 2 ^ 64 }
        ensures { IfOk result
            (Tests file.now flips.now.implied flips.now.conflicting implying.now place self.old self.new) }
    {
        if is_behind(self.failing, place) {
            return Ok(true);
        }
        let probe = &file.probes.as_slice()[place];
        let Some(start) = start_of(file.edges.as_slice(), table, probe) else {
            self.failing = Some(place);
            return Ok(true);
        };
        if self.batch.rules_out(start) {
            return Ok(false);
        }
        if !self.batch.join(flips, implying, start)? {
            self.failing = Some(place);
            self.batch.begin();
        }
        Ok(true)
    }

    /// Tests those of the lines that need not wait, in one batch, and answers the others.
    fn test_batch(
        &mut self,
        alloc: Global,
        file: &ResultFile,
        table: &EdgeTable,
        flips: &Flips,
        implying: &Neighbours,
        places: &[usize],
    ) -> Result<List<usize>, NoMemory>
        requires laid { IsLaidOut file.now table.now flips.now.implied flips.now.conflicting }
        requires rows { AreRows flips.now.implied flips.now.conflicting implying.now }
        requires inside { All (λ k. k < length file.now.probes) places.now }
        requires rounds { HasRounds (length flips.now.implied) self.old.batch }
        requires failing { IsFailing file.now self.old.failing }
        requires room { self.old.batch.round + 2 + length places.now < 2 ^ 64 }
        ensures { IfOk result (IsBatchTested file.now flips.now.implied flips.now.conflicting implying.now places.now self.old self.new) }
    {
        self.batch.begin();
        let mut waiting = List::new(alloc);
        for at in 0..places.len() {
            let place = places[at];
            let done = self.test(file, table, flips, implying, place)?;
            let_wait(done, place, &mut waiting)?;
        }
        Ok(waiting)
    }

    /// Tries whether a line can flip with those of the batch, unless it stands behind one that doesn't serve. False if it waits.
    fn try_line(
        &mut self,
        file: &ResultFile,
        table: &EdgeTable,
        flips: &Flips,
        place: usize,
    ) -> Result<bool, NoMemory>
        requires laid { IsLaidOut file.now table.now flips.now.implied flips.now.conflicting }
        requires there { place < length file.now.probes }
        requires rounds { HasRounds (length flips.now.implied) self.old.batch }
        requires round { 1 ≤ self.old.batch.round }
        requires batch { CanFlipTogether flips.now.implied flips.now.conflicting self.old.batch.rounds.items self.old.batch.round }
        ensures { IfOk result (Tries file.now flips.now.implied flips.now.conflicting place self.old self.new) }
    {
        if is_behind(self.failing, place) {
            return Ok(true);
        }
        if self.batch.wasted / MOST_WASTED > file.edges.len() {
            return Ok(false);
        }
        let probe = &file.probes.as_slice()[place];
        let Some(start) = start_of(file.edges.as_slice(), table, probe) else {
            return Ok(false);
        };
        let joined = self.batch.try_join(flips, start)?;
        Ok(joined)
    }

    /// Tries the lines in one batch, and answers those that wait.
    fn try_batch(
        &mut self,
        alloc: Global,
        file: &ResultFile,
        table: &EdgeTable,
        flips: &Flips,
        places: &[usize],
    ) -> Result<List<usize>, NoMemory>
        requires laid { IsLaidOut file.now table.now flips.now.implied flips.now.conflicting }
        requires inside { All (λ k. k < length file.now.probes) places.now }
        requires rounds { HasRounds (length flips.now.implied) self.old.batch }
        requires room { self.old.batch.round + 1 < 2 ^ 64 }
        ensures { IfOk result (AreTried file.now flips.now.implied places.now self.old self.new) }
    {
        self.batch.begin();
        let mut waiting = List::new(alloc);
        for at in 0..places.len() {
            let place = places[at];
            let done = self.try_line(file, table, flips, place)?;
            let_wait(done, place, &mut waiting)?;
        }
        Ok(waiting)
    }

    /// Tries the lines before `end` in batches, as long as fewer and fewer wait and not too much was looked along in vain. Answers those
    /// that wait then.
    fn try_all(
        &mut self,
        alloc: Global,
        file: &ResultFile,
        table: &EdgeTable,
        flips: &Flips,
        end: usize,
    ) -> Result<List<usize>, NoMemory>
        requires lines { HasFewLines file.now }
        requires laid { IsLaidOut file.now table.now flips.now.implied flips.now.conflicting }
        requires end { end ≤ length file.now.probes }
        requires batch { IsBegun (length flips.now.implied) self.old.batch }
        requires round { self.old.batch.round ≡ 1 }
        requires failing { IsFailing file.now self.old.failing }
        ensures { IfOk result (IsUnderWay file.now flips.now.implied end 2 self.old.failing self.new) }
    {
        let mut waiting = places_before(alloc, end)?;
        while !waiting.is_empty() {
            let left = self.try_batch(alloc, file, table, flips, waiting.as_slice())?;
            if left.len() >= waiting.len() {
                return Ok(left);
            }
            waiting = left;
        }
        Ok(waiting)
    }

    /// Tests the lines before `end`, in batches: within a batch what follows from all of them is visited once. What can't flip with the
    /// batch is ruled out only where lines are left that trying leaves.
    fn test_all(
        &mut self,
        alloc: Global,
        file: &ResultFile,
        table: &EdgeTable,
        flips: &Flips,
        end: usize,
    ) -> Result<(), NoMemory>
        requires lines { HasFewLines file.now }
        requires laid { IsLaidOut file.now table.now flips.now.implied flips.now.conflicting }
        requires end { end ≤ length file.now.probes }
        requires batch { IsBegun (length flips.now.implied) self.old.batch }
        requires round { self.old.batch.round ≡ 1 }
        requires failing { IsFailing file.now self.old.failing }
        ensures { OnOk result (AreAllTested file.now end self.old.failing self.new.failing) }
    {
        let mut waiting = self.try_all(alloc, file, table, flips, end)?;
        if waiting.is_empty() {
            return Ok(());
        }
        let implying = flips.implied.turned(alloc)?;
        while !waiting.is_empty() {
            let left = self.test_batch(alloc, file, table, flips, &implying, waiting.as_slice());
            drop(waiting);
            waiting = match left {
                Ok(left) => left,
                Err(NoMemory) => {
                    drop(implying);
                    return Err(NoMemory);
                }
            };
        }
        drop(waiting);
        drop(implying);
        Ok(())
    }

    /// Tests the lines before the failing one, or all, and answers the first that doesn't serve.
    fn find(
        &mut self,
        alloc: Global,
        file: &ResultFile,
        table: &EdgeTable,
        flips: &Flips,
    ) -> Result<Option<usize>, NoMemory>
        requires lines { HasFewLines file.now }
        requires laid { IsLaidOut file.now table.now flips.now.implied flips.now.conflicting }
        requires idle { First (GainsAt file.now) (length file.now.probes) self.old.failing }
        requires batch { IsBegun (length flips.now.implied) self.old.batch }
        requires round { self.old.batch.round ≡ 1 }
        ensures { IfOk result (First (ServesAt file.now) (length file.now.probes)) }
    {
        let end = end_before(self.failing, file.probes.len());
        self.test_all(alloc, file, table, flips, end)?;
        Ok(self.failing)
    }
}

/// The place, from 0, of the first open line that doesn't serve, where `idle` is that of the first one that gains nothing; none where each
/// one serves. NoMemory where memory ran out.
pub fn find_useless(
    alloc: Global,
    file: &ResultFile,
    table: &EdgeTable,
    flips: &Flips,
    idle: Option<usize>,
) -> Result<Option<usize>, NoMemory>
    requires lines { HasFewLines file.now }
    requires laid { IsLaidOut file.now table.now flips.now.implied flips.now.conflicting }
    requires idle { First (GainsAt file.now) (length file.now.probes) idle }
    ensures { IfOk result (First (ServesAt file.now) (length file.now.probes)) }
{
    let batch = Batch::new(alloc, file.edges.len())?;
    let mut testing = Testing {
        batch,
        failing: idle,
    };
    let found = testing.find(alloc, file, table, flips);
    drop(testing);
    found
}
