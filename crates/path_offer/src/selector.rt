//! The paths that are kept so far.
//!
//! Whether a path's triples are satisfied is asked without a branch (`are_satisfied`), since no processor guesses where a path begins to
//! go down.
ghost use Rattle.std.specs.Prelude.{◌≡◌, ◌*◌, ◌<◌, [], All, length, take, IfSome, IfNone, IfOk, OnOk, OnErr};
ghost use Rattle.relationships.specs.Graph.{edges};
ghost use Rattle.relationships.specs.Evidence.{Refutes};
ghost use Rattle.relationships.specs.Selection.{IsServable};
ghost use Rattle.as_graph.specs.Paths.{paths_at};
ghost use Rattle.tor_clauses.specs.Triples.{AreAmong, triples_on};
ghost use Rattle.tor_clauses.specs.Formulas.{FitsGraph, IsServed, numbered};
ghost use Rattle.tor_mend.specs.Refusals.{AreRefused};
ghost use Rattle.path_offer.specs.Offers.{IsOffered, IsTried};
ghost use Rattle.path_offer.specs.Choices.{with_offered, ServesKept, CanServeKept};

use crate::repairing::repair;
use as_graph::{AsGraph, Orientation};
use relationships::{Fate, Fates, Link, Walk, refuting_law};
use std::alloc::Global;
use std::marker::Model;
use tor_arena::{Index, Keys, List, NoMemory, PathId};
use tor_clauses::{Clauses, Fitted, model_law};
use tor_mend::{Known, Refusals, State, at_rest, flip_back, start, walk_again};

/// The paths that are kept so far, in the order in which they were offered, their clauses, and an orientation that serves them. It is
/// seen as these clauses, whose paths are the kept ones, and this orientation.
#[derive(Drop)]
pub struct Selector {
    clauses: Clauses,
    state: State,
}

impl Model for Selector {
    ghost use Rattle.path_offer.specs.Choices.{Choice};
    ghost use Rattle.path_offer.specs.Inside.{IsKeeping};

    ghost Value = { Choice };

    ghost view = { λ selector. record { formula = selector.clauses; ends = selector.state.ends } };

    ghost invariant = { λ selector. IsKeeping selector.clauses selector.state };
}

impl Selector {
    /// A selector of this graph that keeps no path; its table is made with the keys. The only error is that memory ran out.
    pub fn new(alloc: Global, keys: Keys, graph: &AsGraph) -> Result<Selector, NoMemory>
        ensures nothing { IfOk result (λ selector. selector.formula.paths ≡ []) }
        ensures fits { IfOk result (λ selector. FitsGraph graph.now selector.formula) }
    {
        let clauses = Clauses::new(alloc, keys, graph)?;
        match start(alloc, graph.edge_count()) {
            Ok(state) => Ok(Selector { clauses, state }),
            Err(NoMemory) => {
                drop(clauses);
                Err(NoMemory)
            }
        }
    }

    /// A selector of this graph that keeps these paths, in this order, by an orientation that serves them, with one end for each edge:
    /// none of them is offered. The paths have to be there; its table is made with the keys. The only error is that memory ran out.
    pub fn resumed(
        alloc: Global,
        keys: Keys,
        graph: &AsGraph,
        kept: &[PathId],
        ends: Orientation,
    ) -> Result<Selector, NoMemory>
        requires there { All (λ path. path < length graph.now) kept.now }
        requires many { length ends ≡ length (edges graph.now) }
        requires served { IsServed graph.now kept.now ends }
        ensures fits { IfOk result (λ selector. FitsGraph graph.now selector.formula) }
        ensures kept { IfOk result (λ selector. selector.formula.paths ≡ kept.now) }
        ensures ends { IfOk result (λ selector. selector.ends ≡ ends) }
    {
        graph.facts();
        model_law();
        match clauses_of(alloc, keys, graph, kept) {
            Ok(clauses) => match at_rest(alloc, ends) {
                Ok(state) => Ok(Selector { clauses, state }),
                Err(NoMemory) => {
                    drop(clauses);
                    Err(NoMemory)
                }
            },
            Err(NoMemory) => {
                drop(ends);
                Err(NoMemory)
            }
        }
    }

    /// Offers a path of the graph, which has to be there; the selector's clauses have to fit the graph, as those of `new` do and
    /// still do after each offer. It is lost exactly where no orientation serves the kept paths together with it, with a walk over
    /// these, numbered by their places from 1, that refutes; else it is kept and goes last. When it is lost, and when memory runs
    /// out, which is the only error, nothing changes, so it may be offered again. Where the orientation serves the path already, it
    /// stays. Where an edge gets another provider, its literal that holds now is reached along the arcs of the clauses from a literal of
    /// some edge of the path.
    pub fn offer(&mut self, alloc: Global, graph: &AsGraph, path: PathId) -> Result<Fate, NoMemory>
        requires fits { FitsGraph graph.now self.old.formula }
        requires there { path < length graph.now }
        ensures offered { IfOk result (IsOffered graph.now path self.old self.new) }
        ensures err { OnErr result (self.new ≡ self.old) }
    {
        match self.first_new(graph, path) {
            None => {
                self.keep(graph, path)?;
                Ok(Fate::Kept)
            }
            Some(known) => self.offer_new(alloc, graph, path, known),
        }
    }

    /// How many of a path's triples, the first, are there, so that the next is new. None if all are there. It takes no memory.
    #[inline(always)]
    pub fn first_new(&self, graph: &AsGraph, path: PathId) -> Option<usize>
        requires { path < length graph.now }
        ensures none { IfNone result (AreAmong self.now.formula.triples (triples_on graph.now path)) }
        ensures some { IfSome result (λ known. AreAmong self.now.formula.triples (take known (triples_on graph.now path))) }
    {
        self.clauses.first_new(graph, path)
    }

    /// The walk with which a path is lost that has a triple which was refused alone before, if it is found to have one. None too
    /// where the walk is long and a shorter one is to be looked for, as by an offer. The fates are those of the paths that were offered so
    /// far. The only error is that memory ran out.
    pub fn lost_again(
        &self,
        alloc: Global,
        graph: &AsGraph,
        path: PathId,
        fates: &Fates,
        refusals: &mut Refusals,
    ) -> Result<Option<Walk>, NoMemory>
        requires fits { FitsGraph graph.now self.now.formula }
        requires there { path < length graph.now }
        requires refused { AreRefused graph.now self.now.formula.paths fates.now refusals.old.items.items }
        ensures refused { AreRefused graph.now self.now.formula.paths fates.now refusals.new.items.items }
        ensures walk { IfOk result (λ walk. IfSome walk (Refutes (numbered graph.now (with_offered self.now path)))) }
    {
        graph.facts();
        let ends = self.orientation().as_slice();
        let Some(met) = refusals.find(graph, ends, path) else {
            return Ok(None);
        };
        let arcs = self.clauses.digraph().arc_count();
        let Some(lost) = refusals.use_again(met.refusal, arcs) else {
            return Ok(None);
        };
        let link = Link {
            path: path.place() as u32 + 1,
            at: met.at,
        };
        let walk = walk_again(alloc, fates, lost, link)?;
        Ok(Some(walk))
    }

    /// Keeps a path whose triples are all there: the orientation serves it already, and stays. The only error is that memory ran out, and
    /// then nothing changes.
    #[inline(always)]
    pub fn keep(&mut self, graph: &AsGraph, path: PathId) -> Result<(), NoMemory>
        requires fits { FitsGraph graph.now self.old.formula }
        requires there { path < length graph.now }
        requires known { AreAmong self.old.formula.triples (triples_on graph.now path) }
        ensures fits { FitsGraph graph.now self.new.formula }
        ensures kept { OnOk result (self.new.formula.paths ≡ with_offered self.old path) }
        ensures served { OnOk result (IsServable (paths_at graph.now (with_offered self.old path))) }
        ensures ends { self.new.ends ≡ self.old.ends }
        ensures err { OnErr result (self.new ≡ self.old) }
    {
        graph.facts();
        model_law();
        self.clauses.add_path(graph, path, None)?;
        Ok(())
    }

    /// Offers a path of whose triples the first are there, so many: as `offer`, but these are not looked for again.
    #[inline(always)]
    pub fn offer_new(
        &mut self,
        alloc: Global,
        graph: &AsGraph,
        path: PathId,
        known: usize,
    ) -> Result<Fate, NoMemory>
        requires fits { FitsGraph graph.now self.old.formula }
        requires there { path < length graph.now }
        requires known { AreAmong self.old.formula.triples (take known (triples_on graph.now path)) }
        ensures offered { IfOk result (IsOffered graph.now path self.old self.new) }
        ensures err { OnErr result (self.new ≡ self.old) }
    {
        graph.facts();
        model_law();
        refuting_law();
        self.clauses.facts();
        let mark = self.clauses.mark();
        self.clauses.add_path(graph, path, Some(known))?;
        let fitted = Fitted::new(graph, &self.clauses);
        match repair(alloc, &fitted, mark.triples, &mut self.state) {
            Ok(None) => {
                self.state.flips.clear();
                Ok(Fate::Kept)
            }
            Ok(Some(walk)) => {
                flip_back(&mut self.state.ends, &mut self.state.flips);
                self.clauses.undo_to(mark);
                Ok(Fate::Lost(walk))
            }
            Err(NoMemory) => {
                flip_back(&mut self.state.ends, &mut self.state.flips);
                self.clauses.undo_to(mark);
                Err(NoMemory)
            }
        }
    }

    /// What would become of a path of the graph, which has to be there: it is offered, and taken back whether it fits or not. It would be
    /// lost exactly where no orientation serves the kept paths together with it, and the walk refutes as by `offer`. Nothing changes, also
    /// where memory ran out, which is the only error. The selector's clauses have to fit the graph.
    pub fn try_offer(
        &mut self,
        alloc: Global,
        graph: &AsGraph,
        path: PathId,
    ) -> Result<Fate, NoMemory>
        requires fits { FitsGraph graph.now self.old.formula }
        requires there { path < length graph.now }
        ensures tried { IfOk result (IsTried graph.now path self.old) }
        ensures same { self.new ≡ self.old }
    {
        graph.facts();
        model_law();
        refuting_law();
        self.clauses.facts();
        let mark = self.clauses.mark();
        let first_new = self.clauses.first_new(graph, path);
        self.clauses.add_path(graph, path, first_new)?;
        let fitted = Fitted::new(graph, &self.clauses);
        let repaired = repair(alloc, &fitted, mark.triples, &mut self.state);
        flip_back(&mut self.state.ends, &mut self.state.flips);
        self.clauses.undo_to(mark);
        match repaired {
            Ok(None) => Ok(Fate::Kept),
            Ok(Some(walk)) => Ok(Fate::Lost(walk)),
            Err(NoMemory) => Err(NoMemory),
        }
    }

    /// Gives up the memory that only offers use. Further paths may be offered still, but their triples are looked for along arcs. It takes
    /// no memory.
    pub fn rest(&mut self, alloc: Global)
        ensures { self.new ≡ self.old }
    {
        self.clauses.give_up_numbers();
        self.state.known = Known::nothing(alloc);
    }

    /// An orientation that serves the kept paths, with one end for each edge. It takes no memory.
    pub fn orientation(&self) -> &Orientation
        ensures ends { result.now ≡ self.now.ends }
        ensures many { length self.now.ends * 2 ≡ self.now.formula.net.nodes }
        ensures served { ServesKept self.now }
    {
        model_law();
        &self.state.ends
    }

    /// The paths that are kept, in the order in which they were offered. Some orientation serves them. It takes no memory.
    pub fn kept(&self) -> &[PathId]
        ensures paths { result.now ≡ self.now.formula.paths }
        ensures served { CanServeKept self.now }
    {
        model_law();
        self.clauses.paths()
    }

    /// The clauses of the kept paths with the graph that they fit. It takes no memory.
    pub fn fitted<'a>(&'a self, graph: &'a AsGraph) -> Fitted<'a>
        requires { FitsGraph graph.now self.now.formula }
        ensures { result ≡ record { graph = graph.now; formula = self.now.formula } }
    {
        Fitted::new(graph, &self.clauses)
    }

    /// The clauses of the kept paths: their triples and no others. It takes no memory.
    pub fn clauses(&self) -> &Clauses
        ensures { result.now ≡ self.now.formula }
    {
        &self.clauses
    }
}

/// The clauses of paths of a graph, in this order.
fn clauses_of(
    alloc: Global,
    keys: Keys,
    graph: &AsGraph,
    paths: &[PathId],
) -> Result<Clauses, NoMemory>
    requires { All (λ path. path < length graph.now) paths.now }
    ensures fits { IfOk result (FitsGraph graph.now) }
    ensures paths { IfOk result (λ clauses. clauses.paths ≡ paths.now) }
{
    let mut clauses = Clauses::new(alloc, keys, graph)?;
    match add_all(graph, paths, &mut clauses) {
        Ok(()) => Ok(clauses),
        Err(NoMemory) => {
            drop(clauses);
            Err(NoMemory)
        }
    }
}

/// Adds paths to clauses that have none.
fn add_all(graph: &AsGraph, paths: &[PathId], clauses: &mut Clauses) -> Result<(), NoMemory>
    requires fits { FitsGraph graph.now clauses.old }
    requires nothing { clauses.old.paths ≡ [] }
    requires there { All (λ path. path < length graph.now) paths.now }
    ensures fits { FitsGraph graph.now clauses.new }
    ensures paths { OnOk result (clauses.new.paths ≡ paths.now) }
{
    for path in paths {
        let first_new = clauses.first_new(graph, *path);
        clauses.add_path(graph, *path, first_new)?;
    }
    Ok(())
}
