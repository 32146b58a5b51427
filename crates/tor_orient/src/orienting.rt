//! The preferred orientation.
ghost use Rattle.std.specs.Prelude.{◌≡◌, ◌<◌, ◌↔◌, ◌+◌, ◌*◌, All, Contains, length, map, IfOk};
ghost use Rattle.relationships.specs.declared.label.End.{End};
ghost use Rattle.relationships.specs.Graph.{Edge, edges, orientation};
ghost use Rattle.relationships.specs.Selection.{IsServable};
ghost use Rattle.relationships.specs.Preference.{IsPreferred};
ghost use Rattle.tor_arena.specs.Distinct.{AllDistinct};
ghost use Rattle.tor_arena.specs.Limits.{max_numbers};
ghost use Rattle.gao_prefs.specs.Preferences.{edges_preferred};
ghost use Rattle.tor_clauses.specs.Literals.{most_edges};
ghost use Rattle.tor_clauses.specs.Formulas.{demands_of, MeetsDemands};
ghost use Rattle.tor_orient.specs.Wishes.{wish, AreWishes};
ghost use Rattle.tor_orient.specs.Steps.{IsEndOf, AreEndsOf};

use crate::settling::settled_by;
use as_graph::Orientation;
use gao_prefs::Pref;
use relationships::End;
use std::alloc::Global;
use tor_arena::{ArcId, EdgeId, Index, NoMemory, NodeId, reserve};
use tor_clauses::{Fitted, Lit, model_law};
use tor_digraph::{NodeSet, RowDigraph};

/// The end that is settled of an edge, and the lower where none is. It takes no memory.
fn settled_end(settled: &NodeSet, edge: EdgeId) -> End
    requires few { edge < most_edges }
    requires there { edge * 2 + 1 < settled.now.count }
    ensures { IsEndOf settled.now.items edge result }
{
    let high = Lit::new(edge, End::High);
    if settled.has(high.node()) {
        End::High
    } else {
        End::Low
    }
}

/// The orientation of the ends that are settled, so many.
fn settled_ends(alloc: Global, settled: &NodeSet, count: usize) -> Result<Orientation, NoMemory>
    requires few { count < max_numbers }
    requires nodes { settled.now.count ≡ count * 2 }
    ensures { IfOk result (λ ends. (length ends ≡ count) × AreEndsOf settled.now.items ends) }
{
    let mut ends = Vec::with_capacity(alloc, count)?;
    for place in 0..count {
        let edge = EdgeId::from_place(place).unwrap();
        reserve(&mut ends, 1)?;
        ends.push_reserved(settled_end(settled, edge));
    }
    Orientation::from_slice(alloc, ends.as_slice())
}

/// The preferred orientation: edges are settled in the order of the preferences. Each gets the end that its preference wants, if some
/// orientation that serves the paths of the clauses agrees with that and with all edges settled before, and else its other end. Some
/// orientation has to serve these paths, and each edge stands exactly once in the preferences,
/// which name no other. The orientation has one end for each edge, and serves the paths of the clauses. The only error is that memory
/// ran out.
///
/// Of an edge that is not settled, the literal that is wanted is tried by a search that does not go on past what is settled. It can be
/// added, with all that follows from it, exactly if the search does not come to its opposite.
pub fn orient(alloc: Global, fitted: &Fitted<'_>, prefs: &[Pref]) -> Result<Orientation, NoMemory>
    requires servable { IsServable (demands_of fitted.now.graph fitted.now.formula) }
    requires inside { All (λ pref. pref.edge < length (edges fitted.now.graph)) prefs.now }
    requires apart { AllDistinct (map (λ pref. pref.edge) prefs.now) }
    requires each { (e : Edge) → Contains (edges fitted.now.graph) e ↔ Contains (edges_preferred (edges fitted.now.graph) prefs.now) e }
    ensures many { IfOk result (λ ends. length ends ≡ length (edges fitted.now.graph)) }
    ensures serves { IfOk result (MeetsDemands fitted.now.graph fitted.now.formula) }
    ensures preferred { IfOk result
        (λ ends. IsPreferred (demands_of fitted.now.graph fitted.now.formula) (wish (edges fitted.now.graph) prefs.now)
        (edges_preferred (edges fitted.now.graph) prefs.now) (orientation (edges fitted.now.graph) ends)) }
    ensures wishes { IfOk result (λ ends. (wanted : Edge → End) → AreWishes (edges fitted.now.graph) prefs.now wanted →
        IsPreferred (demands_of fitted.now.graph fitted.now.formula) wanted (edges_preferred (edges fitted.now.graph) prefs.now)
        (orientation (edges fitted.now.graph) ends)) }
{
    let rows = fitted.digraph().in_rows(alloc)?;
    orient_in(alloc, fitted, &rows, prefs)
}

/// The same where the arcs of the clauses stand in these rows.
pub fn orient_in(
    alloc: Global,
    fitted: &Fitted<'_>,
    rows: &RowDigraph<'_, NodeId, ArcId>,
    prefs: &[Pref],
) -> Result<Orientation, NoMemory>
    requires rows { rows.now ≡ fitted.now.formula.net }
    requires servable { IsServable (demands_of fitted.now.graph fitted.now.formula) }
    requires inside { All (λ pref. pref.edge < length (edges fitted.now.graph)) prefs.now }
    requires apart { AllDistinct (map (λ pref. pref.edge) prefs.now) }
    requires each { (e : Edge) → Contains (edges fitted.now.graph) e ↔ Contains (edges_preferred (edges fitted.now.graph) prefs.now) e }
    ensures many { IfOk result (λ ends. length ends ≡ length (edges fitted.now.graph)) }
    ensures serves { IfOk result (MeetsDemands fitted.now.graph fitted.now.formula) }
    ensures preferred { IfOk result
        (λ ends. IsPreferred (demands_of fitted.now.graph fitted.now.formula) (wish (edges fitted.now.graph) prefs.now)
        (edges_preferred (edges fitted.now.graph) prefs.now) (orientation (edges fitted.now.graph) ends)) }
    ensures wishes { IfOk result (λ ends. (wanted : Edge → End) → AreWishes (edges fitted.now.graph) prefs.now wanted →
        IsPreferred (demands_of fitted.now.graph fitted.now.formula) wanted (edges_preferred (edges fitted.now.graph) prefs.now)
        (orientation (edges fitted.now.graph) ends)) }
{
    fitted.facts();
    model_law();
    let settled = settled_by(alloc, fitted, rows, prefs)?;
    settled_ends(alloc, &settled, fitted.edge_count())
}
