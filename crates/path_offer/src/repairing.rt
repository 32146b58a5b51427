//! How an orientation is repaired.
ghost use Rattle.std.specs.Prelude.{◌≡◌, ◌<◌, ◌≤◌, length, IfOk, IfSome, IfNone};
ghost use Rattle.relationships.specs.Evidence.{Refutes};
ghost use Rattle.tor_clauses.specs.Formulas.{numbered_of, arcs_before};
ghost use Rattle.tor_mend.specs.Mends.{IsState, IsUnmet, flipped_back};
ghost use Rattle.tor_mend.specs.Ways.{IsConflict, AreKnown};
ghost use Rattle.path_offer.specs.Repairs.{IsArcMended, Repairs, AreMet};

use relationships::Walk;
use std::alloc::Global;
use tor_arena::{ArcId, NoMemory};
use tor_clauses::{Fitted, negation_node};
use tor_mend::{Conflict, State, holds, mend, nearer_side, walk_by};

/// Makes an arc met that is not, with all that were met before; or answers why that cannot be.
fn meet(
    alloc: Global,
    fitted: &Fitted<'_>,
    first: usize,
    arc: ArcId,
    state: &mut State,
) -> Result<Option<Conflict>, NoMemory>
    requires there { arc < length fitted.now.formula.net.arcs }
    requires unmet { IsUnmet fitted.now.formula.net.arcs state.old.ends arc }
    requires state { IsState fitted.now.formula.net.nodes state.old }
    requires known { AreKnown fitted.now.formula.net.arcs first state.old.known }
    ensures state { IsState fitted.now.formula.net.nodes state.new }
    ensures known { AreKnown fitted.now.formula.net.arcs first state.new.known }
    ensures back { flipped_back state.new.ends state.new.flips ≡ flipped_back state.old.ends state.old.flips }
    ensures settled { IfOk result (λ d. IfNone d (IsArcMended fitted.now.formula.net.arcs state.old.ends state.new.ends arc)) }
    ensures conflict { IfOk result (λ d. IfSome d (IsConflict fitted.now.formula.net.arcs arc)) }
{
    let (tail, head) = fitted.digraph().ends(arc);
    let there = match mend(alloc, fitted, first, head, state)? {
        None => return Ok(None),
        Some(way) => way,
    };
    let rest = match mend(alloc, fitted, first, negation_node(tail), state)? {
        None => return Ok(None),
        Some(way) => way,
    };
    Ok(Some(Conflict { there, rest }))
}

/// Makes an arc met that is not, with all that were met before; or answers a walk that refutes, where that cannot be.
fn meet_or_refute(
    alloc: Global,
    fitted: &Fitted<'_>,
    first: usize,
    arc: ArcId,
    state: &mut State,
) -> Result<Option<Walk>, NoMemory>
    requires there { arc < length fitted.now.formula.net.arcs }
    requires unmet { IsUnmet fitted.now.formula.net.arcs state.old.ends arc }
    requires state { IsState fitted.now.formula.net.nodes state.old }
    requires known { AreKnown fitted.now.formula.net.arcs first state.old.known }
    ensures state { IsState fitted.now.formula.net.nodes state.new }
    ensures known { AreKnown fitted.now.formula.net.arcs first state.new.known }
    ensures back { flipped_back state.new.ends state.new.flips ≡ flipped_back state.old.ends state.old.flips }
    ensures settled { IfOk result (λ w. IfNone w (IsArcMended fitted.now.formula.net.arcs state.old.ends state.new.ends arc)) }
    ensures walk { IfOk result (λ walk. IfSome walk (Refutes (numbered_of fitted.now.graph fitted.now.formula))) }
{
    fitted.facts();
    let side = nearer_side(
        fitted,
        arc,
        state.ends.as_slice(),
        &state.known,
        &mut state.trail,
    )?;
    match meet(alloc, fitted, first, side, state)? {
        None => Ok(None),
        Some(conflict) => {
            let walk = walk_by(alloc, fitted, side, &conflict);
            drop(conflict);
            match walk {
                Ok(walk) => Ok(Some(walk)),
                Err(NoMemory) => Err(NoMemory),
            }
        }
    }
}

/// Makes one arc met, if it is not, with all that were met before; or answers a walk that refutes, where that cannot be.
fn settle(
    alloc: Global,
    fitted: &Fitted<'_>,
    first: usize,
    arc: ArcId,
    state: &mut State,
) -> Result<Option<Walk>, NoMemory>
    requires there { arc < length fitted.now.formula.net.arcs }
    requires state { IsState fitted.now.formula.net.nodes state.old }
    requires known { AreKnown fitted.now.formula.net.arcs first state.old.known }
    ensures state { IsState fitted.now.formula.net.nodes state.new }
    ensures known { AreKnown fitted.now.formula.net.arcs first state.new.known }
    ensures back { flipped_back state.new.ends state.new.flips ≡ flipped_back state.old.ends state.old.flips }
    ensures settled { IfOk result (λ w. IfNone w (IsArcMended fitted.now.formula.net.arcs state.old.ends state.new.ends arc)) }
    ensures walk { IfOk result (λ walk. IfSome walk (Refutes (numbered_of fitted.now.graph fitted.now.formula))) }
{
    let (tail, head) = fitted.digraph().ends(arc);
    if !holds(state.ends.as_slice(), tail) || holds(state.ends.as_slice(), head) {
        return Ok(None);
    }
    meet_or_refute(alloc, fitted, first, arc, state)
}

/// Repairs the orientation so that all triples of the clauses are satisfied, of which the first are, so many; or answers a walk that
/// refutes, where that cannot be.
pub(crate) fn repair(
    alloc: Global,
    fitted: &Fitted<'_>,
    settled: usize,
    state: &mut State,
) -> Result<Option<Walk>, NoMemory>
    requires there { settled ≤ length fitted.now.formula.triples }
    requires state { IsState fitted.now.formula.net.nodes state.old }
    requires met { AreMet fitted.now.formula.net.arcs (arcs_before fitted.now.formula settled) state.old.ends }
    requires known { AreKnown fitted.now.formula.net.arcs (arcs_before fitted.now.formula settled) state.old.known }
    ensures state { IsState fitted.now.formula.net.nodes state.new }
    ensures known { AreKnown fitted.now.formula.net.arcs (arcs_before fitted.now.formula settled) state.new.known }
    ensures back { flipped_back state.new.ends state.new.flips ≡ flipped_back state.old.ends state.old.flips }
    ensures repaired { IfOk result
        (λ walk. IfNone walk (Repairs fitted.now.formula.net.arcs (arcs_before fitted.now.formula settled) state.old state.new)) }
    ensures walk { IfOk result (λ walk. IfSome walk (Refutes (numbered_of fitted.now.graph fitted.now.formula))) }
{
    fitted.facts();
    prove!(fitted.digraph().node_count() == state.ends.as_slice().len() * 2);
    let first = fitted.arcs_before(settled);
    for triple in settled..fitted.triple_count() {
        // its partner is met where this arc is
        let arc = fitted.arc_of(triple);
        if let Some(walk) = settle(alloc, fitted, first, arc, state)? {
            return Ok(Some(walk));
        }
    }
    Ok(None)
}
