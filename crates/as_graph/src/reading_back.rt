//! The paths of a graph, read back from their steps.
//!
//! Numbers go straight into the list of which the rows are made (`Rows::from_parts`), 17 instructions each and not 31.
ghost use Rattle.std.specs.Prelude.{◌≡◌, ◌+◌, ◌*◌, ◌<◌, ◌≤◌, ◌++◌, [], All, length, take, OnOk, IfOk};
ghost use Rattle.relationships.specs.Graph.{edges};
ghost use Rattle.as_graph.specs.Inside.{reached_by, path_along, ArePathsBetween};

use crate::graph::AsGraph;
use crate::step::Step;
use crate::step_rows::push_bound;
use std::alloc::Global;
use tor_arena::{Index, NoMemory, PathId, Rows, reserve};

/// Puts the ASes along some steps, at least one, behind others, where the AS is known that a step of each place reaches: the one from
/// which the first step goes, and for each step the one that it reaches.
fn put_ases(reached: &[u32], steps: &[Step], ases: &mut Vec<u32>) -> Result<(), NoMemory>
    requires some { 0 < length steps.now }
    requires inside { All (λ step. step.edge * 2 + 1 < length reached.now) steps.now }
    ensures { OnOk result (ases.new.items ≡ ases.old.items ++ path_along reached.now steps.now) }
{
    reserve(ases, steps.len() + 1)?;
    ases.push_reserved(reached[steps[0].back().place()]);
    for at in 0..steps.len() {
        ases.push_reserved(reached[steps[at].place()]);
    }
    Ok(())
}

impl AsGraph {
    /// The first paths of the graph, so many, read back from their steps: whoever has a graph needn't keep the paths of which it was built.
    /// The only error is that memory ran out.
    pub fn first_paths(&self, alloc: Global, count: usize) -> Result<Rows<PathId, u32>, NoMemory>
        requires { count ≤ length self.now }
        ensures { IfOk result (λ rows. rows ≡ take count self.now) }
    {
        self.facts();
        let mut ases = Vec::new(alloc);
        let mut bounds = Vec::new(alloc);
        // one further than there are, which `put_ases` makes sure of
        reserve(&mut ases, self.numbers_on(count).saturating_add(1))?;
        reserve(&mut bounds, count.saturating_add(1))?;
        self.read_back(alloc, count, &mut ases, &mut bounds)?;
        Ok(Rows::from_parts(ases, bounds))
    }

    /// How many ASes the first paths have in sum, for which memory is taken at once.
    fn numbers_on(&self, count: usize) -> usize
        requires { count ≤ length self.now }
    {
        self.facts();
        let mut sum = count;
        for place in 0..count {
            let path = PathId::from_place(place).unwrap();
            sum = sum.wrapping_add(self.steps(path).len());
        }
        sum
    }

    /// Puts the ASes of the first paths, so many, one behind the other, and the bounds between them, where there are no others.
    fn read_back(
        &self,
        alloc: Global,
        count: usize,
        ases: &mut Vec<u32>,
        bounds: &mut Vec<u32>,
    ) -> Result<(), NoMemory>
        requires there { count ≤ length self.now }
        requires none { ases.old.items ≡ [] }
        requires first { bounds.old.items ≡ [] }
        ensures { OnOk result (ArePathsBetween self.now count ases.new.items bounds.new.items) }
    {
        let reached = self.edges.reached(alloc)?;
        let put = self.put_paths_along(reached.as_slice(), count, ases, bounds);
        drop(reached);
        put
    }

    /// Puts the ASes of the first paths, so many, one behind the other, where there are no others, and where the AS is known that a step of
    /// each place reaches.
    fn put_paths_along(
        &self,
        reached: &[u32],
        count: usize,
        ases: &mut Vec<u32>,
        bounds: &mut Vec<u32>,
    ) -> Result<(), NoMemory>
        requires reached { reached.now ≡ reached_by (edges self.now) }
        requires there { count ≤ length self.now }
        requires none { ases.old.items ≡ [] }
        requires first { bounds.old.items ≡ [] }
        ensures { OnOk result (ArePathsBetween self.now count ases.new.items bounds.new.items) }
    {
        self.facts();
        push_bound(bounds, 0)?;
        for place in 0..count {
            let path = PathId::from_place(place).unwrap();
            put_ases(reached, self.steps(path), ases)?;
            push_bound(bounds, ases.len())?;
        }
        Ok(())
    }
}
