//! For each class a word with a bit for each of 64 sources.
ghost use Rattle.std.specs.Prelude.{◌≡◌, ◌⊎◌, ◌↔◌, ◌+◌, ◌<◌, ◌≤◌, ℕ, Some, slice_get, replicate, length};
ghost use Rattle.std.specs.Int.{bit_at};
ghost use Rattle.std.specs.List.{count_by};
ghost use Rattle.tor_arena.specs.Limits.{most_places};
ghost use Rattle.reach_counts.specs.Masks.{HasBit, IsHeadIn, AreOwn, AreBitsPassed, IsRising};
ghost use Rattle.reach_counts.specs.Masks.{AreBitsBefore, AreReachBits, from_base, is_counted};
ghost use Rattle.reach_counts.specs.Condensing.{IsOfClass};
ghost use Rattle.reach_counts.specs.Ranges.{upto};

use tor_arena::{ArcId, Index, NodeId};
use tor_digraph::RowDigraph;
use tor_solve::Components;

/// How many sources go at once.
pub(crate) const LANES: usize = 64;

/// The bit of a class that is one of the 64 from the base on, and none of another one.
fn own_bit(place: usize, base: usize) -> u64
    ensures { (j : ℕ) → j < 64 → (bit_at result j ≡ 1) ↔ (place ≡ base + j) }
{
    if place < base {
        return 0;
    }
    let lane = place - base;
    if lane >= LANES {
        return 0;
    }
    1 << lane
}

/// Gives each of the 64 classes from the base on its own bit, and no other to any.
fn begin(masks: &mut [u64], base: usize)
    ensures many { length masks.new ≡ length masks.old }
    ensures own { AreOwn base masks.new }
{
    for place in 0..masks.len() {
        masks[place] = own_bit(place, base);
    }
}

/// Adds the bits to those of each head of a row.
fn pass_on(row: &[(ArcId, NodeId)], bits: u64, masks: &mut [u64])
    requires { (i : ℕ) (e : ℕ × ℕ) → slice_get row.now i ≡ Some e → e.1 < length masks.old }
    ensures many { length masks.new ≡ length masks.old }
    ensures bits { (k j : ℕ) → HasBit masks.new k j ↔ (HasBit masks.old k j ⊎ ((bit_at bits j ≡ 1) × IsHeadIn (length row.now) row.now k)) }
{
    for entry in row {
        let (_, head) = *entry;
        masks[head.place()] |= bits;
    }
}

/// Adds the bits of a class to those of each class to which an arc leads from it.
fn pass_from(rows: &RowDigraph<'_, NodeId, ArcId>, node: NodeId, masks: &mut [u64])
    requires node { node < rows.now.nodes }
    requires many { length masks.old ≡ rows.now.nodes }
    ensures many { length masks.new ≡ rows.now.nodes }
    ensures passed { AreBitsPassed rows.now.arcs node masks.old masks.new }
{
    let bits = masks[node.place()];
    if bits == 0 {
        return;
    }
    prove!(rows.node_count() <= NodeId::LIMIT);
    pass_on(rows.row(node), bits, masks);
}

/// Passes on the bits of each class from this one on, in rising order. Each arc has to lead on to a greater number.
pub(crate) fn pass_all(rows: &RowDigraph<'_, NodeId, ArcId>, from: usize, masks: &mut [u64])
    requires many { length masks.old ≡ rows.now.nodes }
    requires rising { IsRising rows.now.arcs }
    ensures many { length masks.new ≡ rows.now.nodes }
    ensures bits { (source : ℕ → ℕ) → AreBitsBefore rows.now source from masks.old → AreReachBits rows.now source masks.new }
{
    for place in from..rows.node_count() {
        pass_from(rows, NodeId::from_place(place).unwrap(), masks);
    }
}

/// Has the bits say which of the 64 classes from the base on reach which class. Each arc has to lead on to a greater number.
pub(crate) fn spread_bits(rows: &RowDigraph<'_, NodeId, ArcId>, base: usize, masks: &mut [u64])
    requires many { length masks.old ≡ rows.now.nodes }
    requires rising { IsRising rows.now.arcs }
    ensures many { length masks.new ≡ rows.now.nodes }
    ensures bits { AreReachBits rows.now (from_base base) masks.new }
{
    begin(masks, base);
    pass_all(rows, base, masks);
}

/// Adds each bit of a word to the number of its lane.
fn add_bits(mask: u64, columns: &mut [u32])
    requires many { length columns.old ≡ 64 }
    requires room { (j n : ℕ) → slice_get columns.old j ≡ Some n → n ≤ most_places }
    ensures many { length columns.new ≡ 64 }
    ensures added { (j n : ℕ) → slice_get columns.new j ≡ Some n →
        (m : ℕ) × (slice_get columns.old j ≡ Some m) × (n ≡ m + bit_at mask j) }
{
    if mask == 0 {
        return;
    }
    for lane in 0..LANES {
        columns[lane] += ((mask >> lane) & 1) as u32;
    }
}

/// For each lane the number of marked nodes whose class has that bit, from numbers that are 0.
pub(crate) fn count_bits(
    parts: &Components<NodeId>,
    marks: &[bool],
    masks: &[u64],
    columns: &mut [u32],
)
    requires zero { columns.old ≡ replicate 64 0 }
    requires marks { length marks.now ≡ length parts.now.of }
    requires few { length marks.now ≤ most_places }
    requires inside { (x k : ℕ) → IsOfClass parts.now.of x k → k < length masks.now }
    ensures many { length columns.new ≡ 64 }
    ensures counted { (j n : ℕ) → slice_get columns.new j ≡ Some n →
        n ≡ count_by (is_counted marks.now parts.now.of masks.now j) (upto (length marks.now)) }
{
    for place in 0..marks.len() {
        if marks[place] {
            let class = parts.class_of(NodeId::from_place(place).unwrap());
            add_bits(masks[class], columns);
        }
    }
}
