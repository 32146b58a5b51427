//! Which edges the kept paths would let be peerings, and which two of them not both.
ghost use Rattle.std.specs.Prelude.{◌≡◌, ◌<◌, ◌⊎◌, ◌↔◌, [], ℕ, false, All, Contains, length, min, max, slice_index_or, replicate};
ghost use Rattle.std.specs.Prelude.{IsTrue, IsFalse, OnOk, IfOk};
ghost use Rattle.relationships.specs.Graph.{edges};
ghost use Rattle.peering.specs.Peerings.{holds, HasStep, AreBeside, AreBesideOn, IsPairAdded, AllHeldOpen, AllBesideListed};

use crate::partners::Partners;
use as_graph::{AsGraph, Step};
use std::alloc::Global;
use tor_arena::{EdgeId, Index, NoMemory, PathId};

/// Opens the edges of the steps that are not excluded, and answers whether there is one.
fn open_along(opened: &mut Vec<bool>, steps: &[Step], excluded: &[bool]) -> bool
    requires long { length opened.old.items ≡ length excluded.now }
    requires inside { All (λ step. step.edge < length excluded.now) steps.now }
    ensures long { length opened.new.items ≡ length excluded.now }
    ensures opened { (k : ℕ) → IsTrue (slice_index_or opened.new.items k false) ↔
        (IsTrue (slice_index_or opened.old.items k false) ⊎ (IsFalse (slice_index_or excluded.now k false) × HasStep steps.now k)) }
    ensures none { IsFalse result → (k : ℕ) → HasStep steps.now k → IsTrue (slice_index_or excluded.now k false) }
{
    let mut is_some = false;
    for step in steps {
        let place = step.edge().place();
        if !excluded[place] {
            opened[place] = true;
            is_some = true;
        }
    }
    is_some
}

/// Makes the lesser of two edges a partner of the greater, unless one of the two is excluded.
fn add_pair(
    partners: &mut Partners,
    a: EdgeId,
    b: EdgeId,
    excluded: &[bool],
) -> Result<(), NoMemory>
    requires first { a < length partners.old }
    requires second { b < length partners.old }
    requires long { length excluded.now ≡ length partners.old }
    ensures length { length partners.new ≡ length partners.old }
    ensures added { OnOk result (IsPairAdded (slice_index_or excluded.now a false) (slice_index_or excluded.now b false)
        a b partners.old partners.new) }
{
    if excluded[a.place()] || excluded[b.place()] {
        return Ok(());
    }
    if a.place() < b.place() {
        partners.add(b, a)
    } else {
        partners.add(a, b)
    }
}

/// Makes of each two steps that stand one behind the other the edges partners, unless one is excluded.
fn add_pairs(partners: &mut Partners, steps: &[Step], excluded: &[bool]) -> Result<(), NoMemory>
    requires long { length excluded.now ≡ length partners.old }
    requires inside { All (λ step. step.edge < length partners.old) steps.now }
    ensures length { length partners.new ≡ length partners.old }
    ensures stay { OnOk result ((k p : ℕ) → Contains (slice_index_or partners.old k []) p → Contains (slice_index_or partners.new k []) p) }
    ensures inside { OnOk result ((k p : ℕ) → Contains (slice_index_or partners.new k []) p →
        Contains (slice_index_or partners.old k []) p ⊎ (AreBeside steps.now k p ⊎ AreBeside steps.now p k)) }
    ensures all { OnOk result ((a b : ℕ) → AreBeside steps.now a b → IsFalse (slice_index_or excluded.now a false) →
        IsFalse (slice_index_or excluded.now b false) → Contains (slice_index_or partners.new (max a b) []) (min a b)) }
{
    for at in 1..steps.len() {
        add_pair(partners, steps[at - 1].edge(), steps[at].edge(), excluded)?;
    }
    Ok(())
}

/// For each edge whether a kept path holds it and it is not excluded; and the partners of each, of which there are none before: with
/// each two that stand one behind the other on a kept path the lesser is one of the greater, unless one of the two is excluded. The
/// only error is that memory ran out.
pub(crate) fn openings(
    alloc: Global,
    graph: &AsGraph,
    kept: &[PathId],
    excluded: &[bool],
    partners: &mut Partners,
) -> Result<Vec<bool>, NoMemory>
    requires there { All (λ path. path < length graph.now) kept.now }
    requires excluded { length excluded.now ≡ length (edges graph.now) }
    requires none { partners.old ≡ replicate (length (edges graph.now)) [] }
    ensures long { IfOk result (λ opened. length opened.items ≡ length (edges graph.now)) }
    ensures length { length partners.new ≡ length (edges graph.now) }
    ensures opened { IfOk result (λ opened. (k : ℕ) → IsTrue (slice_index_or opened.items k false) →
        IsFalse (slice_index_or excluded.now k false) × ((q : ℕ) × Contains kept.now q × IsTrue (holds graph.now q k))) }
    ensures all_opened { IfOk result (λ opened. AllHeldOpen graph.now kept.now excluded.now opened.items) }
    ensures beside { OnOk result ((k p : ℕ) → Contains (slice_index_or partners.new k []) p → AreBesideOn graph.now kept.now k p) }
    ensures all_beside { OnOk result (AllBesideListed graph.now kept.now excluded.now partners.new) }
{
    let mut opened = Vec::new(alloc);
    opened.resize(excluded.len(), false)?;
    for path in kept {
        let steps = graph.steps(*path);
        if open_along(&mut opened, steps, excluded) {
            add_pairs(partners, steps, excluded)?;
        }
    }
    Ok(opened)
}
