//! The next generation of providers.
ghost use Rattle.std.specs.Prelude.{◌≡◌, ℕ, ◌+◌, ◌<◌, ◌^◌, List, [], ◌∷◌, ◌++◌, map, All, OnOk, IfOk};
ghost use Rattle.std.specs.List.{AllPairs};
ghost use Rattle.drawing.specs.Generations.{upward, provider_above, providers_above, IsGeneration};
ghost use Rattle.drawing.specs.Neighbours.{IsNoLater};
ghost use Rattle.drawing.specs.Order.{IsShort};
ghost use Rattle.drawing.specs.Shifted.{HasNumbers};

use crate::group::Neighbour;
use crate::neighbours::sort_neighbours;
use crate::standings::Standings;
use relationships::Label;
use result_text::EdgeLine;
use std::alloc::Global;
use tor_arena::NoMemory;
use tor_numbers::NumberSet;

/// The ends of an edge that is not between peers.
#[derive(Clone, Copy)]
pub(crate) struct Ends {
    pub customer: u32,
    pub provider: u32,
}

/// The customer and the provider at the ends of an edge, which peers have not.
pub(crate) fn upward(edge: &EdgeLine) -> Option<Ends>
    ensures { result ≡ upward edge.now }
{
    match edge.label {
        Label::Low => Some(Ends {
            customer: edge.high,
            provider: edge.low,
        }),
        Label::High => Some(Ends {
            customer: edge.low,
            provider: edge.high,
        }),
        Label::Peer => None,
    }
}

// The provider at one end of the edge, if the AS at the other is among these.
fn provider_above(drawn: &Standings, edge: &EdgeLine) -> Option<Neighbour>
    ensures { result ≡ provider_above drawn.now edge.now }
{
    match upward(edge) {
        None => None,
        Some(ends) => match drawn.find(ends.customer) {
            None => None,
            Some(_) => Some(Neighbour {
                number: ends.provider,
                mark: edge.mark,
                support: edge.support,
            }),
        },
    }
}

// Adds the provider at one end of the edge, if the AS at the other is among these.
fn add_provider(
    found: &mut Vec<Neighbour>,
    drawn: &Standings,
    edge: &EdgeLine,
) -> Result<(), NoMemory>
    ensures added { OnOk result (found.new.items ≡ found.old.items ++ providers_above drawn.now (edge.now ∷ [])) }
    ensures short { OnOk result (edge.now.support < 2 ^ 64) }
{
    let support = edge.support;
    match provider_above(drawn, edge) {
        None => Ok(()),
        Some(provider) => {
            found.push(provider)?;
            Ok(())
        }
    }
}

// The providers of these, one for each edge.
fn providers_above(
    alloc: Global,
    edges: &[EdgeLine],
    drawn: &Standings,
) -> Result<Vec<Neighbour>, NoMemory>
    ensures all { IfOk result (λ ns. ns.items ≡ providers_above drawn.now edges.now) }
    ensures short { IfOk result (λ ns. All IsShort ns.items) }
{
    let mut found = Vec::new(alloc);
    for edge in edges {
        match add_provider(&mut found, drawn, edge) {
            Ok(()) => {}
            Err(NoMemory) => {
                drop(found);
                return Err(NoMemory);
            }
        }
    }
    Ok(found)
}

// Chooses those that stand nowhere nearer, each once, and adds their numbers to those that do.
fn choose(
    chosen: &mut Vec<Neighbour>,
    nearer: &mut NumberSet,
    found: &[Neighbour],
) -> Result<(), NoMemory>
    requires none { chosen.old.items ≡ [] }
    requires sorted { AllPairs IsNoLater found.now }
    ensures { OnOk result ((near : List ℕ) → HasNumbers nearer.old near →
        IsGeneration near found.now chosen.new.items × HasNumbers nearer.new (near ++ map (λ n. n.number) chosen.new.items)) }
{
    for neighbour in found {
        if nearer.insert(u64::from(neighbour.number) + 2)? {
            chosen.push(*neighbour)?;
        }
    }
    Ok(())
}

/// The generation above these, of the ASes that stand nowhere nearer; then these do. The only error is that memory ran out.
pub(crate) fn generation_above(
    alloc: Global,
    edges: &[EdgeLine],
    drawn: &Standings,
    nearer: &mut NumberSet,
) -> Result<Vec<Neighbour>, NoMemory>
    ensures { IfOk result (λ ns. (near : List ℕ) → HasNumbers nearer.old near →
        IsGeneration near (providers_above drawn.now edges.now) ns.items × HasNumbers nearer.new (near ++ map (λ n. n.number) ns.items)) }
{
    let mut found = providers_above(alloc, edges, drawn)?;
    sort_neighbours(&mut found);
    let mut chosen = Vec::new(alloc);
    let done = choose(&mut chosen, nearer, &found);
    drop(found);
    match done {
        Ok(()) => Ok(chosen),
        Err(NoMemory) => {
            drop(chosen);
            Err(NoMemory)
        }
    }
}
