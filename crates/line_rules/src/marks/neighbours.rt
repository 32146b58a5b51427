//! Which edges stand next to each other on kept paths and on returns of givens.
//!
//! Rows are made up to the last one that has an edge. Many a file has no two steps that rule each other out.
ghost use Rattle.std.specs.Prelude.{◌≡◌, ◌⊎◌, ◌-◌, ◌<◌, ◌≤◌, ◌++◌, ◌∷◌, [], All, Some, length, replicate, slice_get, OnOk, OnErr, IfOk};
ghost use Rattle.tor_arena.specs.Limits.{most_places};
ghost use Rattle.line_rules.specs.Neighbours.{filled_up, with_next, EachHasRow, HasBack, IsTurned};

use std::alloc::Global;
use std::marker::Model;
use tor_arena::{Arena, EdgeId, Index, NoMemory};

/// A row of edges. It grows as it needs: there are as many rows as edges, so that none of them can be given the addresses of a large one.
#[derive(Drop)]
struct Row {
    edges: Vec<EdgeId>,
}

impl Model for Row {
    ghost use Rattle.std.specs.Prelude.{List, ℕ};

    ghost Value = { List ℕ };

    ghost view = { λ row. row.edges.items };
}

impl Row {
    /// No edge. It takes no memory.
    fn new(alloc: Global) -> Row
        ensures { result ≡ [] }
    {
        Row {
            edges: Vec::new(alloc),
        }
    }

    /// Puts an edge behind the others.
    fn push(&mut self, edge: EdgeId) -> Result<(), NoMemory>
        ensures ok { OnOk result (self.new ≡ self.old ++ edge ∷ []) }
        ensures err { OnErr result (self.new ≡ self.old) }
    {
        self.edges.push(edge)?;
        Ok(())
    }

    /// The edges in order. It takes no memory.
    fn as_slice(&self) -> &[EdgeId]
        ensures { result.now ≡ self.now }
    {
        self.edges.as_slice()
    }
}

/// For each edge a row of other edges. Rows behind the last one in which an edge was put take no memory.
#[derive(Drop)]
pub struct Neighbours {
    alloc: Global,
    // the first rows; those behind them are empty
    rows: Arena<EdgeId, Row>,
    // how many rows there are in all
    count: usize,
}

impl Model for Neighbours {
    ghost use Rattle.std.specs.Prelude.{◌≤◌, List, ℕ, length};
    ghost use Rattle.line_rules.specs.Neighbours.{filled_up};

    ghost Value = { List (List ℕ) };

    ghost view = { λ neighbours. filled_up neighbours.rows.items neighbours.count };

    ghost invariant = { λ neighbours. length neighbours.rows.items ≤ neighbours.count };
}

/// Puts empty rows behind the others, until there are at least so many.
fn fill_up(alloc: Global, rows: &mut Arena<EdgeId, Row>, count: usize) -> Result<(), NoMemory>
    ensures filled { OnOk result (rows.new.items ≡ filled_up rows.old.items count) }
    ensures few { (length rows.new.items ≤ length rows.old.items) ⊎ (length rows.new.items ≤ count) }
{
    while rows.len() < count {
        match rows.push(Row::new(alloc)) {
            Ok(_) => {}
            Err(_) => return Err(NoMemory),
        }
    }
    Ok(())
}

impl Neighbours {
    /// Empty rows, one for each of so many edges. It takes no memory.
    pub(crate) fn new(alloc: Global, count: usize) -> Neighbours
        ensures { result ≡ replicate count [] }
    {
        Neighbours {
            alloc,
            rows: Arena::new(alloc),
            count,
        }
    }

    /// Puts an edge behind the others in a row.
    pub(crate) fn add(&mut self, from: EdgeId, to: EdgeId) -> Result<(), NoMemory>
        requires { from < length self.old }
        ensures { OnOk result (self.new ≡ with_next self.old from to) }
    {
        fill_up(self.alloc, &mut self.rows, from.place() + 1)?;
        self.rows.get_mut(from).push(to)
    }

    /// The row of an edge. It takes no memory.
    pub(crate) fn of(&self, edge: EdgeId) -> &[EdgeId]
        requires { edge < length self.now }
        ensures { slice_get self.now edge ≡ Some result.now }
    {
        if edge.place() >= self.rows.len() {
            return &[];
        }
        self.rows.get(edge).as_slice()
    }

    /// Puts an edge behind the others in each of these rows.
    fn add_to_each(&mut self, row: &[EdgeId], to: EdgeId) -> Result<(), NoMemory>
        requires { All (λ k. k < length self.old) row.now }
        ensures { OnOk result (HasBack to row.now self.old self.new) }
    {
        for from in row {
            self.add(*from, to)?;
        }
        Ok(())
    }

    /// The rows the other way round: for each edge those in whose rows it stands.
    pub(crate) fn turned(&self, alloc: Global) -> Result<Neighbours, NoMemory>
        requires few { length self.now ≤ most_places }
        requires inside { EachHasRow self.now }
        ensures { IfOk result (IsTurned self.now) }
    {
        let mut turned = Neighbours::new(alloc, self.len());
        match self.turn_into(&mut turned) {
            Ok(()) => Ok(turned),
            Err(NoMemory) => {
                drop(turned);
                Err(NoMemory)
            }
        }
    }

    /// Puts the rows the other way round into as many empty ones.
    fn turn_into(&self, turned: &mut Neighbours) -> Result<(), NoMemory>
        requires few { length self.now ≤ most_places }
        requires inside { EachHasRow self.now }
        requires empty { turned.old ≡ replicate (length self.now) [] }
        ensures { OnOk result (IsTurned self.now turned.new) }
    {
        for place in 0..self.len() {
            let edge = EdgeId::from_place(place).unwrap();
            turned.add_to_each(self.of(edge), edge)?;
        }
        Ok(())
    }

    /// How many rows there are. It takes no memory.
    pub(crate) fn len(&self) -> usize
        ensures { result ≡ length self.now }
    {
        self.count
    }
}
