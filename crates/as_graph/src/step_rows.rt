//! The steps of the paths of a graph.
//!
//! The memory of all steps is taken at once, and each goes straight into its row. A copy of a whole row costs some 12 instructions a step
//! more.
ghost use Rattle.std.specs.Prelude.{◌≡◌, ◌-◌, ◌<◌, ◌≤◌, ◌++◌, ◌∷◌, [], length, take, drop, slice_get, Some, OnOk, OnErr};

use crate::step::Step;
use std::marker::Model;
use tor_arena::{Index, NoMemory, PathId, reserve};

/// The steps of each path, in rows that lie one behind the other. Whoever makes them puts each step in its place at once.
#[derive(Drop)]
pub(crate) struct StepRows {
    // the steps of all rows
    pub(crate) steps: Vec<Step>,
    // where the first row begins, and for each row where it ends
    pub(crate) bounds: Vec<u32>,
}

impl Model for StepRows {
    ghost use Rattle.std.specs.Prelude.{◌<◌, List, length};
    ghost use Rattle.tor_arena.specs.RowLists.{rows_between, ArePartedBy};
    ghost use Rattle.as_graph.specs.EdgeSteps.{EdgeStep};

    ghost Value = { List (List EdgeStep) };

    ghost view = { λ rows. rows_between rows.steps.items rows.bounds.items };

    ghost invariant = { λ rows. (0 < length rows.bounds.items) × ArePartedBy rows.bounds.items (length rows.steps.items) };
}

impl StepRows {
    /// How many rows there are. It takes no memory.
    pub fn len(&self) -> usize
        ensures { result ≡ length self.now }
    {
        self.bounds.len() - 1
    }

    /// The row of a path, which has to be there. It takes no memory.
    pub fn row(&self, path: PathId) -> &[Step]
        requires { path < length self.now }
        ensures { slice_get self.now path ≡ Some result.now }
    {
        let place = path.place();
        let start = self.bounds[place] as usize;
        let end = self.bounds[place + 1] as usize;
        part(self.steps.as_slice(), start, end)
    }

    /// Adds a row of two steps. For want of memory nothing changes.
    pub fn push_two(&mut self, first: Step, second: Step) -> Result<(), NoMemory>
        ensures { OnOk result (self.new ≡ self.old ++ (first ∷ second ∷ []) ∷ []) }
    {
        reserve(&mut self.steps, 2)?;
        push_bound(&mut self.bounds, self.steps.len() + 2)?;
        self.steps.push_reserved(first);
        self.steps.push_reserved(second);
        Ok(())
    }
}

/// The steps from `start` up to `end`.
fn part(steps: &[Step], start: usize, end: usize) -> &[Step]
    requires first { start ≤ end }
    requires last { end ≤ length steps.now }
    ensures { result.now ≡ take (end - start) (drop start steps.now) }
{
    &steps[start..end]
}

/// Adds a bound, where it can be written in 32 bits. For want of memory nothing changes.
pub(crate) fn push_bound(bounds: &mut Vec<u32>, end: usize) -> Result<(), NoMemory>
    ensures ok { OnOk result (bounds.new.items ≡ bounds.old.items ++ end ∷ []) }
    ensures err { OnErr result (bounds.new.items ≡ bounds.old.items) }
{
    let Ok(short) = u32::try_from(end) else {
        return Err(NoMemory);
    };
    reserve(bounds, 1)?;
    bounds.push_reserved(short);
    Ok(())
}
