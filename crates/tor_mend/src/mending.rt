//! How a literal is made to hold.
//!
//! Both arcs of a triple are followed by turns, and the nearer end is mended. If one is always taken, a chain of n orders that is asked
//! to turn n times takes n times n. Up to 64 arcs the arc goes before its partner.
ghost use Rattle.std.specs.Prelude.{◌≡◌, ℕ, ◌*◌, ◌<◌, [], List, length, IfOk, IfSome, IfNone};
ghost use Rattle.tor_arena.specs.Limits.{max_numbers};
ghost use Rattle.tor_digraph.specs.Trails.{IsTrail};
ghost use Rattle.tor_clauses.specs.Literals.{lit_of, opposite_node, Holds};
ghost use Rattle.tor_clauses.specs.Rounds.{IsLed};
ghost use Rattle.tor_mend.specs.Searches.{IsStop};
ghost use Rattle.tor_mend.specs.Mends.{IsState, IsMended, IsSide, flipped_back};
ghost use Rattle.tor_mend.specs.Ways.{AreKnown};

use crate::flipping::{Flip, flip_all};
use crate::known::Known;
use crate::refuting::way_by;
use crate::searching::{Stop, ends_within, visit_all};
use as_graph::Orientation;
use relationships::End;
use std::alloc::Global;
use tor_arena::{ArcId, List, NoMemory, NodeId};
use tor_clauses::{Fitted, way_round};
use tor_digraph::{Trail, Way};

/// An orientation that is repaired, and what a repair needs.
#[derive(Drop)]
pub struct State {
    /// The orientation.
    pub ends: Orientation,
    /// What a search has visited.
    pub trail: Trail,
    /// The edges whose provider was changed, to be taken back.
    pub flips: List<Flip>,
    /// What is known of literals that cannot hold.
    pub known: Known,
}

/// Along how many arcs two searches are followed in their first turn: most end within so many, and then there is no second one, in which
/// these are looked along again.
const FIRST_TURN: usize = 64;

/// In how many turns they are followed at most. The last of them goes along more arcs than there can be.
const TURNS: usize = 40;

/// The orientation in which the lower end of each of so many edges is the provider, and what its repairs need. The only error is that
/// memory ran out.
pub fn start(alloc: Global, count: usize) -> Result<State, NoMemory>
    requires { count < max_numbers }
    ensures state { IfOk result (IsState (count * 2)) }
    ensures flips { IfOk result (λ state. state.flips ≡ []) }
    ensures known { IfOk result (λ state. (arcs : List (ℕ × ℕ)) (first : ℕ) → AreKnown arcs first state.known) }
{
    let ends = all_low(alloc, count)?;
    at_rest(alloc, ends)
}

/// The orientation in which the lower end of each of so many edges is the provider.
fn all_low(alloc: Global, count: usize) -> Result<Orientation, NoMemory>
    requires { count < max_numbers }
    ensures { IfOk result (λ ends. length ends ≡ count) }
{
    let mut ends = Vec::new(alloc);
    match ends.resize(count, End::Low) {
        Ok(()) => {
            let low = Orientation::from_slice(alloc, ends.as_slice());
            drop(ends);
            low
        }
        Err(_) => {
            drop(ends);
            Err(NoMemory)
        }
    }
}

/// An orientation, and what its repairs need: no search has visited anything, nothing is to be taken back, and nothing is known. The only
/// error is that memory ran out.
pub fn at_rest(alloc: Global, ends: Orientation) -> Result<State, NoMemory>
    requires { length ends < max_numbers }
    ensures state { IfOk result (IsState (length ends * 2)) }
    ensures ends { IfOk result (λ state. state.ends ≡ ends) }
    ensures flips { IfOk result (λ state. state.flips ≡ []) }
    ensures known { IfOk result (λ state. (arcs : List (ℕ × ℕ)) (first : ℕ) → AreKnown arcs first state.known) }
{
    let count = ends.as_slice().len();
    match Trail::new(alloc, count * 2) {
        Ok(trail) => Ok(State {
            ends,
            trail,
            flips: List::new(alloc),
            known: Known::nothing(alloc),
        }),
        Err(NoMemory) => {
            drop(ends);
            Err(NoMemory)
        }
    }
}

/// The way from the start of a search to its negation, where the search has stopped.
fn way_from(
    alloc: Global,
    fitted: &Fitted<'_>,
    start: NodeId,
    stop: Stop,
    trail: &Trail,
    known: &Known,
) -> Result<Way<NodeId, ArcId>, NoMemory>
    requires trail { IsTrail fitted.now.formula.net.arcs start trail.now }
    requires stop { IsStop fitted.now.formula.net.arcs known.now.places.items trail.now.nodes.items stop }
    requires known { (early : ℕ) × AreKnown fitted.now.formula.net.arcs early known.now }
    ensures { IfOk result (λ way. IsLed fitted.now.formula.net.arcs way start (opposite_node start)) }
{
    match stop {
        Stop::Clash(arc) => way_round(alloc, fitted, start, trail, arc),
        Stop::Known(place) => way_by(alloc, fitted, start, trail, place, known),
    }
}

/// Makes a literal hold that does not hold, and all to which it leads. Where that cannot be nothing is changed, and a way from it to
/// its negation is answered. Ways that are remembered go along the first arcs alone, so many. The only error is that memory ran out; then
/// some of the literals may hold, to be taken back.
pub fn mend(
    alloc: Global,
    fitted: &Fitted<'_>,
    first: usize,
    start: NodeId,
    state: &mut State,
) -> Result<Option<Way<NodeId, ArcId>>, NoMemory>
    requires state { IsState fitted.now.formula.net.nodes state.old }
    requires known { AreKnown fitted.now.formula.net.arcs first state.old.known }
    requires there { start < fitted.now.formula.net.nodes }
    requires unheld { Holds state.old.ends (lit_of start) → ⊥ }
    ensures state { IsState fitted.now.formula.net.nodes state.new }
    ensures known { AreKnown fitted.now.formula.net.arcs first state.new.known }
    ensures back { flipped_back state.new.ends state.new.flips ≡ flipped_back state.old.ends state.old.flips }
    ensures mended { IfOk result (λ w. IfNone w (IsMended fitted.now.formula.net.arcs state.old.ends state.new.ends start)) }
    ensures same { IfOk result (λ way. IfSome way (λ _. state.new.ends ≡ state.old.ends)) }
    ensures way { IfOk result (λ w. IfSome w (λ found. IsLed fitted.now.formula.net.arcs found start (opposite_node start))) }
{
    fitted.facts();
    let digraph = fitted.digraph();
    let ends = state.ends.as_slice();
    let stop = visit_all(digraph, ends, &state.known, start, &mut state.trail)?;
    match stop {
        Some(stop) => {
            let way = way_from(alloc, fitted, start, stop, &state.trail, &state.known)?;
            match state.known.remember(alloc, fitted, first, start, &way) {
                Ok(()) => Ok(Some(way)),
                Err(NoMemory) => {
                    drop(way);
                    Err(NoMemory)
                }
            }
        }
        None => {
            flip_all(&mut state.ends, &state.trail.nodes, &mut state.flips)?;
            Ok(None)
        }
    }
}

/// The arc or its partner, of which one is met where the other is: the one from whose head a search ends sooner. Both searches go on
/// by turns, each turn along twice as many arcs, and the arc itself has the first. The trail is forgotten. The only error is that memory
/// ran out.
pub fn nearer_side(
    fitted: &Fitted<'_>,
    arc: ArcId,
    ends: &[End],
    known: &Known,
    trail: &mut Trail,
) -> Result<ArcId, NoMemory>
    requires there { arc < length fitted.now.formula.net.arcs }
    requires ends { length ends.now * 2 ≡ fitted.now.formula.net.nodes }
    requires count { trail.old.nodes.count ≡ fitted.now.formula.net.nodes }
    ensures count { trail.new.nodes.count ≡ fitted.now.formula.net.nodes }
    ensures side { IfOk result (IsSide fitted.now.formula.net.arcs arc) }
    ensures there { IfOk result (λ side. side < length fitted.now.formula.net.arcs) }
{
    fitted.facts();
    let digraph = fitted.digraph();
    let partner = fitted.partner(arc);
    let (_, head) = digraph.ends(arc);
    let (_, other) = digraph.ends(partner);
    let mut arcs = FIRST_TURN;
    for _ in 0..TURNS {
        if ends_within(digraph, ends, known, head, arcs, trail)? {
            return Ok(arc);
        }
        if ends_within(digraph, ends, known, other, arcs, trail)? {
            return Ok(partner);
        }
        arcs = arcs.saturating_mul(2);
    }
    Ok(arc)
}
