//! Ranks of ASes by the sizes of their customer cones.
ghost use Rattle.std.specs.Prelude.{◌≡◌, ◌<◌, ◌≤◌, [], All, length, replicate, set, slice_get, Some, true, IfOk, OnOk};
ghost use Rattle.std.specs.List.{AllPairs};
ghost use Rattle.std.specs.List.Sorted.{IsPermutation};
ghost use Rattle.tor_arena.specs.Limits.{most_places};
ghost use Rattle.reach_counts.specs.ReachCounts.{AreReachedCounts};
ghost use Rattle.as_rel.specs.Serial.{NamesPairsOnce};
ghost use Rattle.as_ranks.specs.Named.{AreNamed, IsNetOf};
ghost use Rattle.as_ranks.specs.Ranks.{AreRanks};
ghost use Rattle.as_ranks.specs.Tallies.{AreTallied, HasSmallCounts, with_line_counted};
ghost use Rattle.as_ranks.specs.Placing.{AreMeasured, ArePlaced, RanksNoLater, IsPlaceAt, HasShortCone, rank_key};

use crate::filling::fill_up;
use crate::net::{AsNet, net_of, node_of};
use crate::rank::{Rank, with_line_counted};
use as_rel::{Rel, RelLine};
use reach_counts::reached_counts;
use std::alloc::Global;
use tor_arena::{Index, List, NoMemory};

/// The ranks of all ASes that are named: by falling size of their cones, and those of equal size by rising number. NoMemory comes where
/// memory ran out, and where there are more than 2^28 ASes or lines.
pub fn ranks_of(alloc: Global, rel: &Rel) -> Result<List<Rank>, NoMemory>
    ensures { IfOk result (AreRanks rel.now) }
{
    let net = net_of(alloc, rel)?;
    let mut ranks = match ranks_in(alloc, rel.lines(), &net) {
        Ok(ranks) => ranks,
        Err(NoMemory) => {
            drop(net);
            return Err(NoMemory);
        }
    };
    drop(net);
    sort_ranks(&mut ranks);
    place_all(&mut ranks);
    Ok(List::from_vec(ranks))
}

/// The ranks in the order of the ASes, without their places.
fn ranks_in(alloc: Global, lines: &[RelLine], net: &AsNet) -> Result<Vec<Rank>, NoMemory>
    requires net { IsNetOf lines.now net.now.ases.items net.now.graph }
    requires names { NamesPairsOnce lines.now }
    ensures counted { IfOk result (λ ranks. AreMeasured lines.now ranks.items) }
    ensures few { IfOk result (λ ranks. length ranks.items ≤ most_places) }
    ensures short { IfOk result (λ ranks. All HasShortCone ranks.items) }
{
    let cones = cone_sizes(alloc, net)?;
    let mut ranks = Vec::new(alloc);
    let done = add_ranks(net.ases.as_slice(), cones.as_slice(), lines, &mut ranks);
    drop(cones);
    match done {
        Ok(()) => Ok(ranks),
        Err(NoMemory) => {
            drop(ranks);
            Err(NoMemory)
        }
    }
}

/// How many members the cone of each AS has.
fn cone_sizes(alloc: Global, net: &AsNet) -> Result<List<u32>, NoMemory>
    ensures { IfOk result (λ cones. AreReachedCounts (replicate net.now.graph.nodes true) net.now.graph cones) }
{
    let mut marks = Vec::new(alloc);
    match fill_up(&mut marks, true, net.graph.node_count()) {
        Ok(()) => {
            let cones = reached_counts(alloc, &net.graph, &marks);
            drop(marks);
            cones
        }
        Err(NoMemory) => {
            drop(marks);
            Err(NoMemory)
        }
    }
}

/// Adds the ranks of ASes with these cones to an empty vector, without their places.
fn add_ranks(
    ases: &[u32],
    cones: &[u32],
    lines: &[RelLine],
    ranks: &mut Vec<Rank>,
) -> Result<(), NoMemory>
    requires named { AreNamed lines.now ases.now }
    requires names { NamesPairsOnce lines.now }
    requires few { length ases.now ≤ most_places }
    requires few_lines { length lines.now ≤ most_places }
    requires many { length cones.now ≡ length ases.now }
    requires none { ranks.old.items ≡ [] }
    ensures { OnOk result (AreTallied lines.now ases.now cones.now ranks.new.items) }
{
    add_untallied(ases, cones, ranks)?;
    for line in lines {
        let first = node_of(ases, line.first).place();
        let second = node_of(ases, line.second).place();
        count_line(ranks, first, line);
        count_line(ranks, second, line);
    }
    Ok(())
}

/// Adds them before any line is counted.
fn add_untallied(ases: &[u32], cones: &[u32], ranks: &mut Vec<Rank>) -> Result<(), NoMemory>
    requires many { length cones.now ≡ length ases.now }
    requires none { ranks.old.items ≡ [] }
    ensures { OnOk result (AreTallied [] ases.now cones.now ranks.new.items) }
{
    for place in 0..ases.len() {
        let rank = Rank {
            place: 0,
            number: ases[place],
            cone: cones[place],
            providers: 0,
            peers: 0,
            customers: 0,
        };
        ranks.push(rank)?;
    }
    Ok(())
}

/// Counts the neighbour that a line names for the AS of a place.
fn count_line(ranks: &mut Vec<Rank>, place: usize, line: &RelLine)
    requires place { place < length ranks.old.items }
    requires small { (r : Rank) → slice_get ranks.old.items place ≡ Some r → HasSmallCounts r }
    ensures { (r : Rank) → slice_get ranks.old.items place ≡ Some r →
        ranks.new.items ≡ set ranks.old.items place (with_line_counted r line.now) }
{
    let rank = ranks[place];
    ranks[place] = with_line_counted(rank, line);
}

/// What ranks are sorted by: the greatest cone first, and then the numbers.
fn sort_key(rank: &Rank) -> (u32, u32)
    ensures { result ≡ rank_key rank.now }
{
    (u32::MAX - rank.cone, rank.number)
}

/// Sorts ranks by falling cone, and those of equal cone by rising number. It takes no memory.
fn sort_ranks(ranks: &mut Vec<Rank>)
    requires short { All HasShortCone ranks.old.items }
    ensures same { IsPermutation ranks.old.items ranks.new.items }
    ensures sorted { AllPairs RanksNoLater ranks.new.items }
{
    ranks.sort_unstable_by_key(|rank| sort_key(rank));
}

/// Gives each rank its place, where no cone is greater than that before it.
fn place_all(ranks: &mut Vec<Rank>)
    requires few { length ranks.old.items ≤ most_places }
    requires sorted { AllPairs RanksNoLater ranks.old.items }
    ensures { ArePlaced ranks.old.items ranks.new.items }
{
    for place in 0..ranks.len() {
        let number = place_at(ranks, place);
        ranks[place].place = number;
    }
}

/// The place of the rank that stands here: that of the rank before it, if their cones are equal.
fn place_at(ranks: &[Rank], place: usize) -> u32
    requires few { length ranks.now ≤ most_places }
    requires place { place < length ranks.now }
    ensures { IsPlaceAt ranks.now place result }
{
    let here = ranks[place];
    if place > 0 && ranks[place - 1].cone == here.cone {
        ranks[place - 1].place
    } else {
        place as u32 + 1
    }
}
