//! All generations above an AS.
//!
//! A generation is added by a step from the one before, and lists have the topmost first, so that a step puts one in front.
ghost use Rattle.std.specs.Prelude.{◌≡◌, ◌-◌, ◌+◌, ◌*◌, ◌<◌, ◌≤◌, ℕ, List, [], ◌∷◌, ◌++◌, map, length, filter_map, OnOk, IfOk};
ghost use Rattle.drawing.specs.declared.group.Neighbour.{Neighbour};
ghost use Rattle.drawing.specs.Generations.{box_count, standing_at, standings_at, standing_of, perches_at, perch_at, tie_of};
ghost use Rattle.drawing.specs.Neighbours.{near_numbers};
ghost use Rattle.drawing.specs.Shifted.{HasNumbers};
ghost use Rattle.drawing.specs.Tower.{IsTowerRaised, IsStacked, IsTower};
ghost use Rattle.result_text.specs.declared.file.EdgeLine.{EdgeLine};
ghost use Rattle.std.specs.List.{enumerate_from};

use crate::drawing::{BoxEntry, Groups, put_entries};
use crate::generation::{generation_above, upward};
use crate::group::Neighbour;
use crate::page::{Cell, flat_cell};
use crate::standings::{Standing, Standings};
use relationships::Mark;
use result_text::EdgeLine;
use std::alloc::Global;
use std::mem;
use tor_arena::{Keys, NoMemory};
use tor_numbers::NumberSet;

/// A box of a further generation.
#[derive(Clone, Copy)]
pub(crate) struct Perch {
    pub entry: BoxEntry,
    pub cell: Cell,
}

/// An edge between ASes that are drawn in two generations, one above the other.
#[derive(Clone, Copy)]
pub(crate) struct Tie {
    pub lower: Cell,
    pub upper: Cell,
    pub mark: Mark,
}

/// What stands above an AS so far.
#[derive(Drop)]
pub(crate) struct Tower {
    /// The numbers of all ASes that stand anywhere.
    nearer: NumberSet,
    /// Those of the topmost generation that are drawn.
    topmost: Standings,
    /// How many generations there are above the providers.
    pub rank: u64,
    /// How many boxes the widest of those has.
    pub widest: u64,
    /// How many ASes each of them has, the lowest first.
    pub sizes: Vec<u64>,
    /// The boxes above those of the providers.
    pub perches: Vec<Perch>,
    /// The lines to them.
    pub ties: Vec<Tie>,
}

// How many boxes a generation has.
fn box_count(most: usize, generation: &[Neighbour]) -> usize
    requires few { most ≤ 2000 }
    ensures is { result ≡ box_count most generation.now }
    ensures few { result ≤ 2001 }
{
    if generation.len() <= most {
        generation.len()
    } else {
        most + 1
    }
}

// Where an AS of a generation of so many boxes stands, this high above the providers.
fn standing_at(boxes: usize, rank: u64, place: usize, neighbour: &Neighbour) -> Standing
    ensures { result ≡ standing_at boxes rank (place, neighbour.now) }
{
    Standing {
        number: neighbour.number,
        cell: flat_cell(boxes as u64, rank, place as u64),
    }
}

// Adds the ASes of a generation that are drawn, this high above the providers.
fn add_standings(
    drawn: &mut Standings,
    generation: &[Neighbour],
    most: usize,
    rank: u64,
) -> Result<(), NoMemory>
    requires few { most ≤ 2000 }
    ensures { OnOk result ((n : ℕ) → standing_of n drawn.new ≡ standing_of n (drawn.old ++ standings_at most rank generation.now)) }
{
    let boxes = box_count(most, generation);
    for place in 0..generation.len().min(most) {
        drawn.add(standing_at(boxes, rank, place, &generation[place]))?;
    }
    Ok(())
}

// The ASes of a generation that are drawn, this high above the providers.
fn standings_of(
    alloc: Global,
    keys: Keys,
    generation: &[Neighbour],
    most: usize,
    rank: u64,
) -> Result<Standings, NoMemory>
    requires few { most ≤ 2000 }
    ensures { IfOk result (λ drawn. (n : ℕ) → standing_of n drawn ≡ standing_of n (standings_at most rank generation.now)) }
{
    let mut drawn = Standings::new(alloc, keys);
    match add_standings(&mut drawn, generation, most, rank) {
        Ok(()) => Ok(drawn),
        Err(NoMemory) => {
            drop(drawn);
            Err(NoMemory)
        }
    }
}

// The line of an edge whose provider is drawn above its customer.
fn tie_of(lower: &Standings, upper: &Standings, edge: &EdgeLine) -> Option<Tie>
    ensures { result ≡ tie_of lower.now upper.now edge.now }
{
    match upward(edge) {
        None => None,
        Some(ends) => match lower.find(ends.customer) {
            None => None,
            Some(customer) => match upper.find(ends.provider) {
                None => None,
                Some(provider) => Some(Tie {
                    lower: customer.cell,
                    upper: provider.cell,
                    mark: edge.mark,
                }),
            },
        },
    }
}

// Puts the line of an edge at the end, if its provider is drawn above its customer.
fn put_tie(
    ties: &mut Vec<Tie>,
    lower: &Standings,
    upper: &Standings,
    edge: &EdgeLine,
) -> Result<(), NoMemory>
    ensures { OnOk result (ties.new.items ≡ ties.old.items ++ filter_map (tie_of lower.now upper.now) (edge.now ∷ [])) }
{
    match tie_of(lower, upper, edge) {
        None => Ok(()),
        Some(tie) => {
            ties.push(tie)?;
            Ok(())
        }
    }
}

// Puts the lines of all edges at the end whose provider is drawn above their customer.
fn put_ties(
    ties: &mut Vec<Tie>,
    lower: &Standings,
    upper: &Standings,
    edges: &[EdgeLine],
) -> Result<(), NoMemory>
    ensures { OnOk result (ties.new.items ≡ ties.old.items ++ filter_map (tie_of lower.now upper.now) edges.now) }
{
    for edge in edges {
        put_tie(ties, lower, upper, edge)?;
    }
    Ok(())
}

// A box with this entry in a generation of so many, this high above the providers.
fn perch_at(boxes: usize, rank: u64, place: usize, entry: &BoxEntry) -> Perch
    ensures { result ≡ perch_at boxes rank (place, entry.now) }
{
    Perch {
        entry: *entry,
        cell: flat_cell(boxes as u64, rank, place as u64),
    }
}

// Puts boxes with these entries at the end, this high above the providers.
fn put_boxes(perches: &mut Vec<Perch>, entries: &[BoxEntry], rank: u64) -> Result<(), NoMemory>
    ensures { OnOk result (perches.new.items ≡
        perches.old.items ++ map (perch_at (length entries.now) rank) (enumerate_from 0 entries.now)) }
{
    for place in 0..entries.len() {
        perches.push(perch_at(entries.len(), rank, place, &entries[place]))?;
    }
    Ok(())
}

// Puts the boxes of a generation at the end, this high above the providers.
fn put_perches(
    alloc: Global,
    perches: &mut Vec<Perch>,
    generation: &[Neighbour],
    most: usize,
    rank: u64,
) -> Result<(), NoMemory>
    requires few { most ≤ 2000 }
    ensures { OnOk result (perches.new.items ≡ perches.old.items ++ perches_at most rank generation.now) }
{
    let mut entries = Vec::new(alloc);
    match put_entries(&mut entries, generation, most) {
        Ok(()) => {
            let done = put_boxes(perches, &entries, rank);
            drop(entries);
            done
        }
        Err(NoMemory) => {
            drop(entries);
            Err(NoMemory)
        }
    }
}

// Adds the numbers of neighbours.
fn add_numbers(nearer: &mut NumberSet, neighbours: &[Neighbour]) -> Result<(), NoMemory>
    ensures { OnOk result ((near : List ℕ) → HasNumbers nearer.old near →
        HasNumbers nearer.new (near ++ map (λ n. n.number) neighbours.now)) }
{
    for neighbour in neighbours {
        nearer.insert(u64::from(neighbour.number) + 2)?;
    }
    Ok(())
}

// Adds the numbers of an AS and of its neighbours to a set with none.
fn add_near(nearer: &mut NumberSet, asked: u32, groups: &Groups) -> Result<(), NoMemory>
    requires none { nearer.old ≡ [] }
    ensures { OnOk result (HasNumbers nearer.new
        (near_numbers asked groups.now.providers.items groups.now.peers.items groups.now.customers.items)) }
{
    nearer.insert(u64::from(asked) + 2)?;
    add_numbers(nearer, &groups.providers)?;
    add_numbers(nearer, &groups.peers)?;
    add_numbers(nearer, &groups.customers)
}

// The numbers of an AS and of its neighbours.
fn near_numbers(
    alloc: Global,
    keys: Keys,
    asked: u32,
    groups: &Groups,
) -> Result<NumberSet, NoMemory>
    ensures { IfOk result (λ nearer. HasNumbers nearer
        (near_numbers asked groups.now.providers.items groups.now.peers.items groups.now.customers.items)) }
{
    let mut nearer = NumberSet::new(alloc, keys);
    match add_near(&mut nearer, asked, groups) {
        Ok(()) => Ok(nearer),
        Err(NoMemory) => {
            drop(nearer);
            Err(NoMemory)
        }
    }
}

impl Tower {
    // Puts a generation on top, whose drawn ones are these, but for the drawn ones themselves.
    fn put(
        &mut self,
        alloc: Global,
        edges: &[EdgeLine],
        most: usize,
        generation: &[Neighbour],
        drawn: &Standings,
    ) -> Result<(), NoMemory>
        requires few { most ≤ 2000 }
        requires low { self.old.rank ≤ 8 }
        requires wide { self.old.widest ≤ 2001 }
        ensures put { OnOk result (IsTowerRaised edges.now most generation.now drawn.now self.old self.new) }
        ensures low { OnOk result ((self.new.rank ≤ self.old.rank + 1) × (self.new.widest ≤ 2001)) }
    {
        put_ties(&mut self.ties, &self.topmost, drawn, edges)?;
        put_perches(alloc, &mut self.perches, generation, most, self.rank + 1)?;
        self.sizes.push(generation.len() as u64)?;
        self.widest = self.widest.max(box_count(most, generation) as u64);
        self.rank += 1;
        Ok(())
    }

    // Puts a generation on top.
    fn stack(
        &mut self,
        alloc: Global,
        keys: Keys,
        edges: &[EdgeLine],
        most: usize,
        generation: &[Neighbour],
    ) -> Result<(), NoMemory>
        requires few { most ≤ 2000 }
        requires low { self.old.rank ≤ 8 }
        requires wide { self.old.widest ≤ 2001 }
        ensures stacked { OnOk result (IsStacked edges.now most generation.now self.old self.new) }
        ensures low { OnOk result ((self.new.rank ≤ self.old.rank + 1) × (self.new.widest ≤ 2001)) }
    {
        let drawn = standings_of(alloc, keys, generation, most, self.rank + 1)?;
        match self.put(alloc, edges, most, generation, &drawn) {
            Ok(()) => {
                drop(mem::replace(&mut self.topmost, drawn));
                Ok(())
            }
            Err(NoMemory) => {
                drop(drawn);
                Err(NoMemory)
            }
        }
    }

    // Puts the next generation on top.
    fn raise(
        &mut self,
        alloc: Global,
        keys: Keys,
        edges: &[EdgeLine],
        most: usize,
    ) -> Result<(), NoMemory>
        requires few { most ≤ 2000 }
        requires low { self.old.rank ≤ 8 }
        requires wide { self.old.widest ≤ 2001 }
        ensures raised { OnOk result ((first : List Neighbour) (near : List ℕ) (gs : List (List Neighbour)) →
            IsTower edges.now most first near gs self.old → (g : List Neighbour) × IsTower edges.now most first near (g ∷ gs) self.new) }
        ensures low { OnOk result ((self.new.rank ≤ self.old.rank + 1) × (self.new.widest ≤ 2001)) }
    {
        let generation = generation_above(alloc, edges, &self.topmost, &mut self.nearer)?;
        let done = self.stack(alloc, keys, edges, most, &generation);
        drop(generation);
        done
    }
}

// The tower in which nothing stands above the providers.
fn begun(
    alloc: Global,
    keys: Keys,
    asked: u32,
    groups: &Groups,
    most: usize,
) -> Result<Tower, NoMemory>
    requires few { most ≤ 2000 }
    ensures begun { IfOk result (λ t. (edges : List EdgeLine) → IsTower edges most groups.now.providers.items
        (near_numbers asked groups.now.providers.items groups.now.peers.items groups.now.customers.items) [] t) }
    ensures low { IfOk result (λ t. (t.rank ≡ 0) × (t.widest ≡ 0)) }
{
    let nearer = near_numbers(alloc, keys, asked, groups)?;
    match standings_of(alloc, keys, &groups.providers, most, 0) {
        Ok(topmost) => Ok(Tower {
            nearer,
            topmost,
            rank: 0,
            widest: 0,
            sizes: Vec::new(alloc),
            perches: Vec::new(alloc),
            ties: Vec::new(alloc),
        }),
        Err(NoMemory) => {
            drop(nearer);
            Err(NoMemory)
        }
    }
}

/// What stands above an AS up to this depth. The only error is that memory ran out.
pub(crate) fn tower_of(
    alloc: Global,
    keys: Keys,
    edges: &[EdgeLine],
    asked: u32,
    groups: &Groups,
    most: usize,
    depth: usize,
) -> Result<Tower, NoMemory>
    requires few { most ≤ 2000 }
    requires deep { depth ≤ 8 }
    ensures all { IfOk result (λ t. (gs : List (List Neighbour)) × (length gs ≡ depth - 1)
        × IsTower edges.now most groups.now.providers.items
        (near_numbers asked groups.now.providers.items groups.now.peers.items groups.now.customers.items) gs t) }
    ensures low { IfOk result (λ t. (t.rank ≤ 8) × (t.widest ≤ 2001)) }
{
    let mut tower = begun(alloc, keys, asked, groups, most)?;
    for _ in 0..depth.saturating_sub(1) {
        match tower.raise(alloc, keys, edges, most) {
            Ok(()) => {}
            Err(NoMemory) => {
                drop(tower);
                return Err(NoMemory);
            }
        }
    }
    Ok(tower)
}
