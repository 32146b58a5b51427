//! Clauses: triples as a digraph of implications.
ghost use Rattle.std.specs.Prelude.{◌≡◌, ℕ, ◌+◌, ◌*◌, ◌<◌, ◌≤◌, ◌↔◌, ◌∷◌, ◌++◌, [], List, length, flat_map, take, slice_get, Some, IsTrue};
ghost use Rattle.std.specs.Prelude.{IfNone, IfSome, IfOk, OnOk, OnErr};
ghost use Rattle.relationships.specs.Graph.{edges};
ghost use Rattle.as_graph.specs.Limits.{most_triples};
ghost use Rattle.tor_clauses.specs.Triples.{arcs_of, AreAmong, triples_on};
ghost use Rattle.tor_clauses.specs.Tables.{HasNodes, with_triple, with_triples_on, having, IsRoomy, IsFirst, IsFirstNew};
ghost use Rattle.tor_clauses.specs.Flipping.{HasPartners, IsPartner};
ghost use Rattle.tor_clauses.specs.Formulas.{FitsGraph, IsMark, mark_of, first_of, arcs_before, triple_place, IsModel, IsArcOfTriple};
ghost use Rattle.tor_clauses.specs.Formulas.{IsLinkOfTriple, IsLinkOfArc, MeetsDemands};

use crate::lit::Lit;
use crate::triple::Triple;
use crate::triple_table::TripleTable;
use as_graph::{AsGraph, Orientation};
use relationships::Link;
use std::alloc::Global;
use std::marker::Model;
use tor_arena::{ArcId, Index, Keys, NoMemory, NodeId, PathId};
use tor_digraph::{Digraph, GraphRefused};

/// How many paths and triples there are, for a later `undo_to`.
#[derive(Clone, Copy)]
pub struct ClauseMark {
    /// How many paths there are.
    pub paths: usize,
    /// How many triples there are.
    pub triples: usize,
}

/// The paths that were added, in order, their distinct triples, a triple and its reverse counted as one, and the digraph of the
/// implications: two nodes for each edge of a graph, one for each order of its ends, and two arcs for each triple.
#[derive(Drop)]
pub struct Clauses {
    paths: Vec<PathId>,
    table: TripleTable,
}

impl Model for Clauses {
    ghost use Rattle.std.specs.Prelude.{◌≡◌, flat_map};
    ghost use Rattle.tor_clauses.specs.Triples.{arcs_of};
    ghost use Rattle.tor_clauses.specs.Formulas.{Formula};

    ghost Value = { Formula };

    ghost view = { λ c. record { paths = c.paths.items; triples = c.table.triples; net = c.table.net } };

    ghost invariant = { λ c. c.table.net.arcs ≡ flat_map arcs_of c.table.triples };
}

impl Clauses {
    /// No paths and no triples, for this graph; the table of triples is made with the keys. The only error is that memory ran out.
    pub fn new(alloc: Global, keys: Keys, graph: &AsGraph) -> Result<Clauses, NoMemory>
        ensures paths { IfOk result (λ clauses. clauses.paths ≡ []) }
        ensures triples { IfOk result (λ clauses. clauses.triples ≡ []) }
        ensures fits { IfOk result (FitsGraph graph.now) }
    {
        let mut digraph = Digraph::new(alloc);
        match digraph.add_nodes(graph.edge_count() * 2) {
            Ok(()) => {}
            Err(GraphRefused::Full) => unreachable!(),
            Err(GraphRefused::NoMemory) => return Err(NoMemory),
        }
        Ok(Clauses {
            paths: Vec::new(alloc),
            table: TripleTable::new(alloc, keys, digraph),
        })
    }

    /// What is true of all clauses: the arcs are those of the triples, two for each, in order, and each has a partner from the
    /// negation of its head to the negation of its tail. It takes no memory.
    pub fn facts(&self)
        ensures arcs { self.now.net.arcs ≡ flat_map arcs_of self.now.triples }
        ensures partners { HasPartners self.now.net.arcs }
    {
        let _ = &self.table;
    }

    /// Which of a path's triples is the first that is new, from 0: neither it nor its reverse is there. None if all are there. It
    /// takes no memory.
    pub fn first_new(&self, graph: &AsGraph, path: PathId) -> Option<usize>
        requires there { path < length graph.now }
        ensures none { IfNone result (AreAmong self.now.triples (triples_on graph.now path)) }
        ensures some { IfSome result (IsFirstNew graph.now path self.now.triples) }
    {
        graph.facts();
        let steps = graph.steps(path);
        if steps.len() < 2 {
            return None;
        }
        let place = self.table.first_new(steps, 1);
        if place < steps.len() {
            Some(place - 1)
        } else {
            None
        }
    }

    /// Adds a path of the graph that the clauses fit, of which it is known which of its triples, from 0, is the first that is new, or
    /// that none is, as `first_new` answers; those before it are not looked for again. The path goes last in the list of paths, and
    /// its triples that are new go last in the list of triples. The clauses still fit the graph. For want of memory nothing changes.
    #[inline(always)]
    pub fn add_path(
        &mut self,
        graph: &AsGraph,
        path: PathId,
        first_new: Option<usize>,
    ) -> Result<(), NoMemory>
        requires fits { FitsGraph graph.now self.old }
        requires there { path < length graph.now }
        requires none { IfNone first_new (AreAmong self.old.triples (triples_on graph.now path)) }
        requires some { IfSome first_new (λ place. AreAmong self.old.triples (take place (triples_on graph.now path))) }
        ensures paths { OnOk result (self.new.paths ≡ self.old.paths ++ path ∷ []) }
        ensures known { OnOk result (IfNone first_new (self.new ≡ record self.old { paths = self.old.paths ++ path ∷ [] })) }
        ensures fits { FitsGraph graph.now self.new }
        ensures mark { IsMark self.new (mark_of self.old) }
        ensures prefix { first_of self.new (mark_of self.old) ≡ self.old }
        ensures err { OnErr result (self.new ≡ self.old) }
    {
        match first_new {
            None => self.add_known(graph, path),
            Some(place) => self.add_behind(graph, path, place),
        }
    }

    /// Adds a path whose triples are all there.
    fn add_known(&mut self, graph: &AsGraph, path: PathId) -> Result<(), NoMemory>
        requires fits { FitsGraph graph.now self.old }
        requires there { path < length graph.now }
        requires known { AreAmong self.old.triples (triples_on graph.now path) }
        ensures ok { OnOk result (self.new ≡ record self.old { paths = self.old.paths ++ path ∷ [] }) }
        ensures paths { OnOk result (self.new.paths ≡ self.old.paths ++ path ∷ []) }
        ensures fits { OnOk result (FitsGraph graph.now self.new) }
        ensures err { OnErr result (self.new ≡ self.old) }
    {
        self.paths.push(path)?;
        Ok(())
    }

    /// Adds a path of which the first triples, so many, are there.
    fn add_behind(&mut self, graph: &AsGraph, path: PathId, known: usize) -> Result<(), NoMemory>
        requires fits { FitsGraph graph.now self.old }
        requires there { path < length graph.now }
        requires known { AreAmong self.old.triples (take known (triples_on graph.now path)) }
        ensures paths { OnOk result (self.new.paths ≡ self.old.paths ++ path ∷ []) }
        ensures fits { OnOk result (FitsGraph graph.now self.new) }
        ensures err { OnErr result (self.new ≡ self.old) }
    {
        graph.facts();
        let mark = self.mark();
        self.paths.push(path)?;
        match self.add_triples(graph, path, known) {
            Ok(()) => Ok(()),
            Err(NoMemory) => {
                self.cut_to(mark);
                Err(NoMemory)
            }
        }
    }

    /// Adds the triples of a path that are new, of which the first, so many, are none; or, for want of memory, some of them.
    fn add_triples(&mut self, graph: &AsGraph, path: PathId, known: usize) -> Result<(), NoMemory>
        requires nodes { self.old.net.nodes ≡ length (edges graph.now) * 2 }
        requires there { path < length graph.now }
        requires few { IsRoomy graph.now path self.old.triples }
        requires known { AreAmong self.old.triples (take known (triples_on graph.now path)) }
        ensures ok { OnOk result (self.new ≡ with_triples_on graph.now path self.old) }
        ensures err { OnErr result (IsFirst self.old self.new) }
    {
        self.facts();
        graph.facts();
        let steps = graph.steps(path);
        let mut next = known.saturating_add(1);
        while next < steps.len() {
            self.add_triple(Triple {
                path,
                at: next as u32 + 1,
                first: Lit::of_step(&steps[next - 1]),
                second: Lit::of_step(&steps[next]),
            })?;
            next = self.table.first_new(steps, next + 1);
        }
        Ok(())
    }

    /// Adds a triple and its arcs, unless it or its reverse is there. For want of memory nothing changes.
    fn add_triple(&mut self, triple: Triple) -> Result<(), NoMemory>
        requires nodes { HasNodes triple }
        requires first { triple.first.edge * 2 + 1 < self.old.net.nodes }
        requires second { triple.second.edge * 2 + 1 < self.old.net.nodes }
        requires few { length self.old.triples < most_triples }
        ensures ok { OnOk result (self.new ≡ having self.old (with_triple self.old.triples triple)) }
        ensures err { OnErr result (self.new ≡ self.old) }
    {
        self.table.add(triple)?;
        Ok(())
    }

    /// Takes away all but the first paths and triples, by these counts.
    fn cut_to(&mut self, mark: ClauseMark)
        requires paths { mark.paths ≤ length self.old.paths }
        requires triples { mark.triples ≤ length self.old.triples }
        ensures { self.new ≡ first_of self.old mark }
    {
        self.table.cut_to(mark.triples);
        self.paths.truncate(mark.paths);
    }

    /// How many paths and triples there are, for a later `undo_to`. It takes no memory.
    pub fn mark(&self) -> ClauseMark
        ensures { result ≡ mark_of self.now }
    {
        ClauseMark {
            paths: self.paths.len(),
            triples: self.table.len(),
        }
    }

    /// Takes away all but the first paths and triples, by these counts, with the arcs of the triples. There have to be so many
    /// paths, and the triples have to be all that are named by one of these paths. It takes no memory.
    pub fn undo_to(&mut self, mark: ClauseMark)
        requires { IsMark self.old mark }
        ensures first { self.new ≡ first_of self.old mark }
        ensures fits { (graph : List (List ℕ)) → FitsGraph graph self.old → FitsGraph graph self.new }
    {
        self.cut_to(mark);
    }

    /// Gives up the memory by which `first_new` and `add_path` find a triple at once: from now on they look for it along the arcs that
    /// leave its first literal. It takes no memory.
    pub fn give_up_numbers(&mut self)
        ensures { self.new ≡ self.old }
    {
        self.table.give_up_numbers();
    }

    /// Whether an orientation, with one end for each edge of the graph that the clauses fit, serves their paths: exactly if no arc
    /// leads from a literal that holds to one that does not. It takes no memory.
    pub fn holds(&self, graph: &AsGraph, orientation: &Orientation) -> bool
        requires fits { FitsGraph graph.now self.now }
        requires ends { length orientation.now ≡ length (edges graph.now) }
        ensures serves { IsTrue result ↔ MeetsDemands graph.now self.now orientation.now }
        ensures model { IsTrue result ↔ IsModel self.now orientation.now }
    {
        graph.facts();
        self.table.are_satisfied(orientation.as_slice())
    }

    /// The paths that were added, in order. It takes no memory.
    pub fn paths(&self) -> &[PathId]
        ensures { result.now ≡ self.now.paths }
    {
        self.paths.as_slice()
    }

    /// The digraph of the implications. It takes no memory.
    pub fn digraph(&self) -> &Digraph<NodeId, ArcId>
        ensures { result.now ≡ self.now.net }
    {
        self.table.digraph()
    }

    /// How many arcs stand before those of the triple at a place, or, behind the last triple, how many there are. It takes no memory.
    pub fn arcs_before(&self, triple: usize) -> usize
        requires { triple ≤ length self.now.triples }
        ensures count { result ≡ arcs_before self.now triple }
        ensures there { result ≤ length self.now.net.arcs }
        ensures all { triple ≡ length self.now.triples → result ≡ length self.now.net.arcs }
    {
        prove!(triple <= self.table.len());
        triple * 2
    }

    /// The arc of the triple at a place, which has to be there, from its first literal to its second. Its partner is the triple's other
    /// arc, and the last. It takes no memory.
    pub fn arc_of(&self, triple: usize) -> ArcId
        requires { triple < length self.now.triples }
        ensures place { result ≡ arcs_before self.now triple }
        ensures there { result < length self.now.net.arcs }
    {
        prove!(triple < self.table.len());
        ArcId::from_place(triple * 2).unwrap()
    }

    /// The partner of an arc, which has to be there: the arc between the negations of its ends. It takes no memory.
    pub fn partner(&self, arc: ArcId) -> ArcId
        requires { arc < length self.now.net.arcs }
        ensures there { result < length self.now.net.arcs }
        ensures partner { IsPartner self.now.net.arcs arc result }
    {
        let place = arc.place();
        let other = if place % 2 == 0 { place + 1 } else { place - 1 };
        prove!(other < self.table.digraph().arc_count());
        ArcId::from_place(other).unwrap()
    }

    /// The triple of an arc, which has to be there: the arc is the one from its first literal to its second, or the partner of
    /// that. It takes no memory.
    pub fn triple_of(&self, arc: ArcId) -> Triple
        requires { arc < length self.now.net.arcs }
        ensures triple { slice_get self.now.triples (triple_place self.now arc) ≡ Some result }
        ensures arc { IsArcOfTriple self.now.net.arcs arc result }
    {
        self.table.get(arc.place() / 2)
    }

    /// Where the triple of an arc, which has to be there, stands: the number of its path, from 1, and the place of its middle AS.
    /// The arc goes from the literal "x over y" to the literal "y over z", where x, y, z stand there in this order or from right
    /// to left. It takes no memory.
    pub fn link_of(&self, arc: ArcId) -> Link
        requires { arc < length self.now.net.arcs }
        ensures link { IsLinkOfTriple self.now arc result }
        ensures fits { IsLinkOfArc self.now arc result }
    {
        let place = self.table.place_of(arc.place() / 2);
        Link {
            path: place.path.place() as u32 + 1,
            at: place.at,
        }
    }
}
