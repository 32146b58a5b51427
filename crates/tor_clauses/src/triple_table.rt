//! Distinct triples, found by their literals, and their arcs.
ghost use Rattle.std.specs.Prelude.{◌≡◌, ℕ, ◌+◌, ◌*◌, ◌<◌, ◌≤◌, ◌↔◌, ◌++◌, List, [], All, length, take, slice_get, Some, IsTrue, IfSome};
ghost use Rattle.std.specs.Prelude.{IfOk, OnOk, OnErr};
ghost use Rattle.tor_arena.specs.Limits.{max_numbers, most_places};
ghost use Rattle.tor_digraph.specs.Walks.{first_part};
ghost use Rattle.as_graph.specs.Limits.{most_triples};
ghost use Rattle.tor_clauses.specs.declared.triple.Triple.{Triple};
ghost use Rattle.tor_clauses.specs.Literals.{most_edges, node_of, Holds};
ghost use Rattle.tor_clauses.specs.Triples.{arc_of, arcs_of, is_among};
ghost use Rattle.tor_clauses.specs.Tables.{HasNodes, IsSatisfied, AreKnownOn, IsNewAt, key_of_arc, number_of_pair};
ghost use Rattle.tor_clauses.specs.Tables.{standing, implying, with_triple, with_arc, HasArc, IsNoted};

use crate::lit::{Lit, negation_node};
use crate::triple::{Triple, TriplePlace};
use as_graph::Step;
use relationships::End;
use std::alloc::Global;
use std::marker::Model;
use tor_arena::{ArcId, Arena, Index, Keys, NoMemory, NodeId, TripleId};
use tor_digraph::{Digraph, GraphMark, GraphRefused};
use tor_numbers::NumberSet;

/// Triples in the order in which they were added, to be found by their literals, and the digraph of their arcs, in which these literals
/// stand.
#[derive(Drop)]
pub(crate) struct TripleTable {
    places: Arena<TripleId, TriplePlace>,
    // for each triple the number of the pair of nodes that it shares with its reverse, until these are given up
    known: Option<NumberSet>,
    // for each triple two arcs, the first of which leads from its first literal to its second
    digraph: Digraph<NodeId, ArcId>,
}

impl Model for TripleTable {
    ghost use Rattle.tor_clauses.specs.Tables.{Implications, triples_at, AreListed};

    ghost Value = { Implications };

    ghost view = { λ table. record { triples = triples_at table.places.items table.digraph.arcs; net = table.digraph } };

    ghost invariant = { λ table. AreListed table.known table.places.items table.digraph.arcs };
}

impl TripleTable {
    /// No triples, in a table with these keys, over a digraph without arcs. It takes no memory.
    pub fn new(alloc: Global, keys: Keys, digraph: Digraph<NodeId, ArcId>) -> TripleTable
        requires { digraph.arcs ≡ [] }
        ensures triples { result.triples ≡ [] }
        ensures net { result.net ≡ digraph }
    {
        TripleTable {
            places: Arena::new(alloc),
            known: Some(NumberSet::new(alloc, keys)),
            digraph,
        }
    }

    /// How many triples there are. It takes no memory.
    pub fn len(&self) -> usize
        ensures len { result ≡ length self.now.triples }
        ensures few { length self.now.triples ≤ most_triples }
        ensures nodes { All HasNodes self.now.triples }
    {
        self.places.len()
    }

    /// The digraph of the arcs. It takes no memory.
    pub fn digraph(&self) -> &Digraph<NodeId, ArcId>
        ensures { result.now ≡ self.now.net }
    {
        &self.digraph
    }

    /// Where the triple at a place stands, which has to be there. It takes no memory.
    pub fn place_of(&self, place: usize) -> TriplePlace
        requires { place < length self.now.triples }
        ensures { (t : Triple) → slice_get self.now.triples place ≡ Some t → result ≡ standing t }
    {
        prove!(place < self.len());
        let id = TripleId::from_place(place).unwrap();
        *self.places.get(id)
    }

    /// The literals of the triple at a place, which has to be there. It takes no memory.
    fn literals(&self, place: usize) -> (Lit, Lit)
        requires { place < length self.now.triples }
        ensures { (t : Triple) → slice_get self.now.triples place ≡ Some t → (result.0 ≡ t.first) × (result.1 ≡ t.second) }
    {
        prove!(place < self.len());
        let arc = ArcId::from_place(place * 2).unwrap();
        let (tail, head) = self.digraph.ends(arc);
        (Lit::of_node(tail), Lit::of_node(head))
    }

    /// The triple at a place, which has to be there. It takes no memory.
    pub fn get(&self, place: usize) -> Triple
        requires { place < length self.now.triples }
        ensures { slice_get self.now.triples place ≡ Some result }
    {
        let stands = self.place_of(place);
        let (first, second) = self.literals(place);
        Triple {
            path: stands.path,
            at: stands.at,
            first,
            second,
        }
    }

    /// Whether the providers of the edges satisfy each triple: its second literal holds if its first does, and so for the
    /// negations of the second and the first. It takes no memory.
    pub fn are_satisfied(&self, ends: &[End]) -> bool
        requires { All (λ t. (t.first.edge < length ends.now) × (t.second.edge < length ends.now)) self.now.triples }
        ensures { IsTrue result ↔ All (IsSatisfied ends.now) self.now.triples }
    {
        let mut place = 0;
        while place < self.len() {
            let (first, second) = self.literals(place);
            if !is_satisfied(first, second, ends) {
                return false;
            }
            place += 1;
        }
        true
    }

    /// Whether a triple is there whose literals have these nodes, or its reverse. It takes no memory.
    fn holds(&self, first: NodeId, second: NodeId) -> bool
        ensures { (t : Triple) → HasNodes t → arc_of t ≡ (first, second) → (IsTrue result ↔ IsTrue (is_among self.now.triples t)) }
    {
        match &self.known {
            Some(known) => known.holds(key(first, second)),
            None => has_arc(&self.digraph, first, second),
        }
    }

    /// Gives up the numbers by which triples are found: from now on a triple is looked for along the arcs that leave its first literal. It
    /// takes no memory.
    pub fn give_up_numbers(&mut self)
        ensures { self.new ≡ self.old }
    {
        self.known = None;
    }

    /// The first place from this one on at which a step and the one before it make a triple that is new, or how many steps there
    /// are. It takes no memory.
    pub fn first_new(&self, steps: &[Step], from: usize) -> usize
        requires from { 0 < from }
        requires inside { from ≤ length steps.now }
        requires few { All (λ step. step.edge < max_numbers) steps.now }
        ensures from { from ≤ result }
        ensures inside { result ≤ length steps.now }
        ensures known { AreKnownOn self.now.triples steps.now from result }
        ensures new { result < length steps.now → IsNewAt self.now.triples steps.now result }
    {
        // a short way from one look-up to the next, so that the processor begins some before one has ended
        let mut first = Lit::of_step(&steps[from - 1]).node();
        for next in from..steps.len() {
            let second = Lit::of_step(&steps[next]).node();
            if !self.holds(first, second) {
                return next;
            }
            first = second;
        }
        steps.len()
    }

    /// Adds a triple and its arcs, unless it or its reverse is there. For want of memory nothing changes.
    pub fn add(&mut self, triple: Triple) -> Result<(), NoMemory>
        requires nodes { HasNodes triple }
        requires first { triple.first.edge * 2 + 1 < self.old.net.nodes }
        requires second { triple.second.edge * 2 + 1 < self.old.net.nodes }
        requires room { length self.old.triples < most_triples }
        ensures ok { OnOk result (self.new ≡ implying self.old (with_triple self.old.triples triple)) }
        ensures err { OnErr result (self.new ≡ self.old) }
    {
        let count = self.len();
        self.places.reserve(1)?;
        let first = triple.first.node();
        let second = triple.second.node();
        if !insert(&mut self.known, &self.digraph, first, second)? {
            return Ok(());
        }
        match add_arcs(&mut self.digraph, triple) {
            Ok(()) => {
                self.places.push_reserved(TriplePlace {
                    path: triple.path,
                    at: triple.at,
                });
                Ok(())
            }
            Err(NoMemory) => {
                cut_numbers(&mut self.known, count);
                Err(NoMemory)
            }
        }
    }

    /// Keeps the first `count` triples, of which there have to be as many, and their arcs. It takes no memory.
    pub fn cut_to(&mut self, count: usize)
        requires { count ≤ length self.old.triples }
        ensures triples { self.new.triples ≡ take count self.old.triples }
        ensures net { self.new.net ≡ first_part self.old.net self.old.net.nodes (count * 2) }
    {
        prove!(count <= self.len());
        let nodes = self.digraph.node_count();
        let arcs = count * 2;
        prove!(arcs <= self.digraph.arc_count());
        self.digraph.undo_to(GraphMark { nodes, arcs });
        self.places.cut_to(count);
        cut_numbers(&mut self.known, count);
    }
}

/// The number of a pair of nodes, from 2 on, by which a table of numbers finds it. It takes no memory.
pub fn number_of(pair: (NodeId, NodeId)) -> u64
    ensures { result ≡ number_of_pair pair }
{
    pair.0.place() as u64 * 4294967296 + pair.1.place() as u64 + 2
}

/// The number by which a table of numbers finds a triple whose literals have these nodes, or its reverse: the lesser of their two numbers.
/// It takes no memory.
fn key(first: NodeId, second: NodeId) -> u64
    ensures { result ≡ number_of_pair (key_of_arc (first, second)) }
{
    let number = number_of((first, second));
    let of_reverse = number_of((negation_node(second), negation_node(first)));
    number.min(of_reverse)
}

/// Whether an arc leads from one node to another, by a look along those that leave the first. It takes no memory.
fn has_arc(digraph: &Digraph<NodeId, ArcId>, tail: NodeId, head: NodeId) -> bool
    ensures { IsTrue result ↔ HasArc digraph.now.arcs (tail, head) }
{
    if tail.place() >= digraph.node_count() {
        return false;
    }
    let mut next = digraph.first_arc(tail);
    while let Some(arc) = next {
        let (_, to) = digraph.ends(arc);
        if to == head {
            return true;
        }
        next = digraph.next_arc(arc);
    }
    false
}

/// Adds the number of a triple whose literals have these nodes, or its reverse, if numbers were not given up, and answers whether neither
/// is there.
fn insert(
    known: &mut Option<NumberSet>,
    digraph: &Digraph<NodeId, ArcId>,
    first: NodeId,
    second: NodeId,
) -> Result<bool, NoMemory>
    ensures ok { IfOk result (IsNoted digraph.now.arcs (first, second) known.old known.new) }
    ensures err { OnErr result (known.new ≡ known.old) }
{
    match known {
        Some(known) => known.insert(key(first, second)),
        None => Ok(!has_arc(digraph, first, second)),
    }
}

/// Keeps the first `count` numbers, of which there have to be as many, if they were not given up. It takes no memory.
fn cut_numbers(known: &mut Option<NumberSet>, count: usize)
    requires { IfSome known.old (λ numbers. count ≤ length numbers) }
    ensures { (all : List ℕ) → IfSome known.old (λ numbers. numbers ≡ all) → IfSome known.new (λ numbers. numbers ≡ take count all) }
{
    if let Some(known) = known {
        known.cut_to(count);
    }
}

/// Adds the two arcs of a triple, both or, for want of memory, none.
fn add_arcs(digraph: &mut Digraph<NodeId, ArcId>, triple: Triple) -> Result<(), NoMemory>
    requires nodes { HasNodes triple }
    requires first { triple.first.edge * 2 + 1 < digraph.old.nodes }
    requires second { triple.second.edge * 2 + 1 < digraph.old.nodes }
    requires few { length digraph.old.arcs + 2 ≤ most_places }
    ensures ok { OnOk result (digraph.new ≡ record digraph.old { arcs = digraph.old.arcs ++ arcs_of triple }) }
    ensures err { OnErr result (digraph.new ≡ digraph.old) }
{
    let mark = digraph.mark();
    add_arc(digraph, triple.first, triple.second)?;
    match add_arc(digraph, triple.second.not(), triple.first.not()) {
        Ok(()) => Ok(()),
        Err(NoMemory) => {
            digraph.undo_to(mark);
            Err(NoMemory)
        }
    }
}

/// Adds the arc from one literal to another. For want of memory nothing changes.
fn add_arc(digraph: &mut Digraph<NodeId, ArcId>, tail: Lit, head: Lit) -> Result<(), NoMemory>
    requires nodes { (tail.edge < most_edges) × (head.edge < most_edges) }
    requires tail { node_of tail < digraph.old.nodes }
    requires head { node_of head < digraph.old.nodes }
    requires few { length digraph.old.arcs < most_places }
    ensures ok { OnOk result (digraph.new ≡ with_arc digraph.old tail head) }
    ensures err { OnErr result (digraph.new ≡ digraph.old) }
{
    match digraph.add_arc(tail.node(), head.node()) {
        Ok(_) => Ok(()),
        Err(GraphRefused::Full) => unreachable!(),
        Err(GraphRefused::NoMemory) => Err(NoMemory),
    }
}

/// Whether the clause of a triple with these literals is satisfied: the second one holds if the first does.
fn is_satisfied(first: Lit, second: Lit, ends: &[End]) -> bool
    requires first { first.edge < length ends.now }
    requires second { second.edge < length ends.now }
    ensures { IsTrue result ↔ (Holds ends.now first → Holds ends.now second) }
{
    !first.holds(ends) || second.holds(ends)
}
