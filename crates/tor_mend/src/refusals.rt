//! Triples that were refused alone.
//!
//! A walk of more than 48 links is taken over only until a search is paid for. Else a dump of 78 KB makes a text of 232 MB. Without such
//! walks each path with that triple costs a search; one count for all walks could be led astray.
ghost use Rattle.std.specs.Prelude.{◌≡◌, ◌⊎◌, ◌+◌, ◌<◌, ◌↔◌, [], All, length, map, slice_get, Some, IsTrue, IfOk, IfSome};
ghost use Rattle.std.specs.Prelude.{OnOk};
ghost use Rattle.relationships.specs.declared.fate.Fate.{Fate as Becoming};
ghost use Rattle.relationships.specs.declared.walk.Walk.{Walk as Evidence};
ghost use Rattle.relationships.specs.Graph.{edges};
ghost use Rattle.tor_arena.specs.Limits.{max_numbers};
ghost use Rattle.tor_mend.specs.Refusals.{node_at, AreSatisfiedOn, relink, relinked, NamesOnly, IsMetWith, HasRefusedTriple};
ghost use Rattle.tor_mend.specs.Refusals.{IsSameTriple, IsPut, UsesAt, IsOfPath, NoneGrows, Remembers};

use crate::known::LONGEST;
use as_graph::{AsGraph, Step};
use relationships::{End, Fate, Fates, Link, Walk};
use std::alloc::Global;
use tor_arena::{Index, Keys, List, NoMemory, NodeId, PathId};
use tor_clauses::{Lit, number_of};
use tor_numbers::PlaceTable;

/// A walk of no more links is used again however often: one along two ways that are remembered has no more.
const SHORT: usize = 2 * LONGEST;

/// A triple that was refused alone: a path was lost, and no link of its walk leads into this path but to the triple.
#[derive(Clone, Copy)]
pub struct Refusal {
    /// The node of the triple's first literal.
    pub first: NodeId,
    /// The node of its second.
    pub second: NodeId,
    /// The path that was lost.
    pub path: PathId,
    /// How many links its walk has.
    pub links: usize,
    /// How many links other paths took over from the walk since a shorter one was last looked for.
    pub written: usize,
    /// How many they take over at least until a shorter one is looked for again.
    pub wait: usize,
}

/// Triples that were refused alone. A later path with one of them is lost by the same walk.
#[derive(Drop)]
pub struct Refusals {
    /// The numbers of their pairs of nodes, in the order of the refusals: where a pair may be found.
    pairs: PlaceTable,
    /// The refusals.
    pub items: Vec<Refusal>,
}

/// The refusal that a path meets.
#[derive(Clone, Copy)]
pub struct Met {
    /// The place of the refusal, from 0.
    pub refusal: usize,
    /// The place on the path, from 1, of the middle AS of the triple.
    pub at: u32,
    /// How many links the walk of the refusal has.
    pub links: usize,
}

impl Refusal {
    /// Whether a shorter walk is to be looked for in a graph of so many arcs: the walk is long, and what was taken over from it since the
    /// last time pays for a look along all arcs, and comes to twice what was taken over before. It takes no memory.
    fn is_due(&self, arcs: usize) -> bool {
        self.links > SHORT && self.written >= self.wait.max(arcs)
    }

    /// The same, once one path more has taken over its walk. It takes no memory.
    fn used(&self) -> Refusal
        ensures { IsSameTriple self.now result }
    {
        Refusal {
            written: self.written.saturating_add(self.links),
            ..*self
        }
    }

    /// The same, once a shorter walk is looked for. It takes no memory.
    fn looked_for(&self) -> Refusal
        ensures { IsSameTriple self.now result }
    {
        Refusal {
            written: 0,
            wait: self.written.saturating_mul(2),
            ..*self
        }
    }
}

impl Refusals {
    /// No refusals, in a table with these keys. It takes no memory.
    pub fn none(alloc: Global, keys: Keys) -> Refusals
        ensures { result.items.items ≡ [] }
    {
        Refusals {
            pairs: PlaceTable::new(alloc, keys),
            items: Vec::new(alloc),
        }
    }

    /// The refusal of a triple of these nodes, the middle AS of which stands at this place of a path, if one is found. It takes no memory.
    fn met_with(&self, first: NodeId, second: NodeId, at: u32) -> Option<Met>
        ensures { IfSome result (IsMetWith self.now.items.items first second at) }
    {
        let refusal = self.pairs.place(number_of((first, second)))?;
        if refusal >= self.items.len() {
            return None;
        }
        let found = &self.items[refusal];
        if found.first == first && found.second == second {
            let links = found.links;
            Some(Met { refusal, at, links })
        } else {
            None
        }
    }

    /// The refusal of a triple of these steps, if these providers do not satisfy it and one is found. It takes no memory.
    fn met_unless_satisfied(
        &self,
        ends: &[End],
        first: &Step,
        second: &Step,
        at: u32,
    ) -> Option<Met>
        requires first { first.now.edge < length ends.now }
        requires second { second.now.edge < length ends.now }
        requires few { length ends.now < max_numbers }
        ensures { IfSome result (IsMetWith self.now.items.items (node_at first.now) (node_at second.now) at) }
    {
        if !Lit::of_step(first).holds(ends) || Lit::of_step(second).holds(ends) {
            return None;
        }
        let (first, second) = (Lit::of_step(first).node(), Lit::of_step(second).node());
        self.met_with(first, second, at)
    }

    /// The refusal that a path meets, if it has the triple of one that these providers do not satisfy: the first with a short walk, or
    /// else that with the shortest. It takes no memory.
    pub fn find(&self, graph: &AsGraph, ends: &[End], path: PathId) -> Option<Met>
        requires there { path < length graph.now }
        requires ends { length ends.now ≡ length (edges graph.now) }
        ensures { IfSome result (HasRefusedTriple graph.now path self.now.items.items) }
    {
        graph.facts();
        let steps = graph.steps(path);
        if self.items.is_empty() || are_satisfied(ends, steps) {
            return None;
        }
        let mut met = None;
        for next in 1..steps.len() {
            let (first, second) = (&steps[next - 1], &steps[next]);
            let here = self.met_unless_satisfied(ends, first, second, next as u32 + 1);
            met = shorter(met, here);
            if is_short(met) {
                return met;
            }
        }
        met
    }

    /// The path whose walk is taken over by one that meets the refusal at a place. None where a shorter walk is to be looked for, which
    /// is then noted, in a graph of so many arcs. It takes no memory.
    pub fn use_again(&mut self, place: usize, arcs: usize) -> Option<PathId>
        requires there { place < length self.old.items.items }
        ensures uses { UsesAt place self.old.items.items self.new.items.items }
        ensures lost { IfSome result (IsOfPath self.old.items.items place) }
    {
        let refusal = self.items[place];
        if refusal.is_due(arcs) {
            self.items[place] = refusal.looked_for();
            return None;
        }
        self.items[place] = refusal.used();
        Some(refusal.path)
    }

    /// Adds a refusal, or puts it in the place of the one of its triple, if there is one with a longer walk.
    #[tactic(auto, using(crate::proofs::Shortening::none_changes))]
    fn put(&mut self, refusal: Refusal) -> Result<(), NoMemory>
        ensures put { OnOk result ((self.new.items.items ≡ self.old.items.items) ⊎
            IsPut refusal self.old.items.items self.new.items.items) }
        ensures shorter { OnOk result (NoneGrows self.old.items.items self.new.items.items) }
    {
        let pair = (refusal.first, refusal.second);
        let place = self.pairs.add(number_of(pair))?;
        let count = self.items.len();
        if place == count {
            self.items.push(refusal)?;
        } else if place < count && refusal.links < self.items[place].links {
            self.items[place] = refusal;
        }
        Ok(())
    }

    /// Remembers that a path was lost, if no link of its walk leads into the path but to one triple. The only error is that memory ran out.
    #[tactic(auto, using(crate::proofs::Shortening::none_changes))]
    pub fn remember(&mut self, graph: &AsGraph, path: PathId, fate: &Fate) -> Result<(), NoMemory>
        requires { path < length graph.now }
        ensures remembers { OnOk result (Remembers graph.now path fate.now self.old.items.items self.new.items.items) }
        ensures shorter { OnOk result (NoneGrows self.old.items.items self.new.items.items) }
    {
        graph.facts();
        let Fate::Lost(walk) = fate else {
            return Ok(());
        };
        let own = path.place() as u32 + 1;
        let Some(at) = only_place(walk.links.as_slice(), own) else {
            return Ok(());
        };
        let at = at as usize;
        let steps = graph.steps(path);
        if at < 2 || at > steps.len() {
            return Ok(());
        }
        let first = Lit::of_step(&steps[at - 2]).node();
        let second = Lit::of_step(&steps[at - 1]).node();
        self.put(Refusal {
            first,
            second,
            path,
            links: walk.links.len(),
            written: 0,
            wait: 0,
        })
    }
}

/// The one of two refusals that has the shorter walk, if there are two. It takes no memory.
fn shorter(before: Option<Met>, here: Option<Met>) -> Option<Met>
    ensures { (result ≡ before) ⊎ (result ≡ here) }
{
    match (before, here) {
        (None, _) => here,
        (Some(_), None) => before,
        (Some(one), Some(other)) => {
            if one.links <= other.links {
                before
            } else {
                here
            }
        }
    }
}

/// Whether the walk of this refusal is short. It takes no memory.
fn is_short(met: Option<Met>) -> bool {
    match met {
        None => false,
        Some(met) => met.links <= SHORT,
    }
}

/// Whether these providers satisfy all triples of a path with these steps. It takes no memory.
fn are_satisfied(ends: &[End], steps: &[Step]) -> bool
    requires { All (λ step. step.edge < length ends.now) steps.now }
    ensures { IsTrue result ↔ AreSatisfiedOn ends.now steps.now }
{
    let mut satisfied = true;
    let mut before = false;
    for step in steps {
        // without a branch, as no processor guesses where a path begins to go down
        let holds = Lit::of_step(step).holds(ends);
        satisfied = satisfied & (!before | holds);
        before = holds;
    }
    satisfied
}

/// The links with this one in place of each into the path of this number.
fn with_link(alloc: Global, links: &[Link], own: u32, link: Link) -> Result<List<Link>, NoMemory>
    ensures { IfOk result (λ new. new ≡ map (relink own link) links.now) }
{
    let mut new = Vec::new(alloc);
    match add_links(&mut new, links, own, link) {
        Ok(()) => Ok(List::from_vec(new)),
        Err(NoMemory) => {
            drop(new);
            Err(NoMemory)
        }
    }
}

/// Adds the links with this one in place of each into the path of this number.
fn add_links(new: &mut Vec<Link>, links: &[Link], own: u32, link: Link) -> Result<(), NoMemory>
    requires { new.old.items ≡ [] }
    ensures { OnOk result (new.new.items ≡ map (relink own link) links.now) }
{
    new.reserve(links.len())?;
    for old in links {
        new.push(if old.path == own { link } else { *old })?;
    }
    Ok(())
}

/// The walk of a path that was lost, with this link in place of each into that path. The only error is that memory ran out.
pub fn walk_again(alloc: Global, fates: &Fates, lost: PathId, link: Link) -> Result<Walk, NoMemory>
    requires { (w : Evidence) × (slice_get fates.now lost ≡ Some (Becoming.Lost w)) }
    ensures { IfOk result (λ walk.
        (w : Evidence) → slice_get fates.now lost ≡ Some (Becoming.Lost w) → walk ≡ relinked (lost + 1) link w) }
{
    match fates.walk(lost) {
        None => unreachable!(),
        Some(walk) => {
            let own = lost.place() as u32 + 1;
            let links = with_link(alloc, walk.links(), own, link)?;
            let mut ases = List::new(alloc);
            match ases.extend_from_slice(walk.ases()) {
                Ok(()) => Ok(Walk { ases, links }),
                Err(NoMemory) => {
                    drop(ases);
                    drop(links);
                    Err(NoMemory)
                }
            }
        }
    }
}

/// The place that all links into the path of this number name, if there is one such link, and no two differ. It takes no memory.
fn only_place(links: &[Link], own: u32) -> Option<u32>
    ensures { IfSome result (λ at. NamesOnly own at links.now) }
{
    let mut named = None;
    for link in links {
        if link.path == own {
            match named {
                Some(at) if at != link.at => return None,
                _ => named = Some(link.at),
            }
        }
    }
    named
}
