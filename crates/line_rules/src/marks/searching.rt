//! A search along rows of edges, in rounds.

ghost use Rattle.std.specs.Prelude.{◌≡◌, ◌∷◌, [], ◌<◌, ◌≤◌, All, length, replicate, OnOk, IfOk};
ghost use Rattle.tor_arena.specs.Limits.{most_places};
ghost use Rattle.line_rules.specs.Neighbours.{EachHasRow};
ghost use Rattle.line_rules.specs.Searching.{RoundComesTo, IsRoundClosed, HasSearchedFrom};

use crate::marks::neighbours::Neighbours;
use std::alloc::Global;
use tor_arena::{Arena, EdgeId, List, NoMemory};

/// For each of so many edges that no round came to it.
pub(crate) fn no_rounds(alloc: Global, count: usize) -> Result<Arena<EdgeId, usize>, NoMemory>
    requires { count ≤ most_places }
    ensures { IfOk result (λ rounds. rounds.items ≡ replicate count 0) }
{
    let mut rounds = Arena::new(alloc);
    match rounds.push_copies(0, count) {
        Ok(()) => Ok(rounds),
        Err(NoMemory) => {
            drop(rounds);
            Err(NoMemory)
        }
    }
}

/// Comes to an edge, and notes it if it is new to the round.
fn visit(
    edge: EdgeId,
    round: usize,
    rounds: &mut Arena<EdgeId, usize>,
    found: &mut List<EdgeId>,
) -> Result<(), NoMemory>
    requires { edge < length rounds.old.items }
    ensures { OnOk result (RoundComesTo round (edge ∷ []) rounds.old.items rounds.new.items found.old found.new) }
{
    if *rounds.get(edge) == round {
        return Ok(());
    }
    rounds.put(edge, round);
    found.push(edge)
}

/// Comes to each edge of a row, and notes each one once that is new to the round.
pub(crate) fn visit_each(
    row: &[EdgeId],
    round: usize,
    rounds: &mut Arena<EdgeId, usize>,
    found: &mut List<EdgeId>,
) -> Result<(), NoMemory>
    requires { All (λ k. k < length rounds.old.items) row.now }
    ensures { OnOk result (RoundComesTo round row.now rounds.old.items rounds.new.items found.old found.new) }
{
    for edge in row {
        visit(*edge, round, rounds, found)?;
    }
    Ok(())
}

/// Comes to all that is reached from `start`, and leaves in `found` what is new to the round.
pub(crate) fn reach(
    rows: &Neighbours,
    start: EdgeId,
    round: usize,
    rounds: &mut Arena<EdgeId, usize>,
    found: &mut List<EdgeId>,
) -> Result<(), NoMemory>
    requires start { start < length rows.now }
    requires many { length rounds.old.items ≡ length rows.now }
    requires inside { EachHasRow rows.now }
    requires closed { IsRoundClosed rows.now rounds.old.items round }
    ensures { OnOk result (HasSearchedFrom rows.now start round rounds.old.items rounds.new.items found.new) }
{
    found.clear();
    visit(start, round, rounds, found)?;
    let mut next = 0;
    while next < found.len() {
        let edge = found.as_slice()[next];
        visit_each(rows.of(edge), round, rounds, found)?;
        next += 1;
    }
    Ok(())
}
