//! Networks and their providers.
ghost use Rattle.std.specs.Prelude.{◌≡◌, ◌<◌, ◌≤◌, ◌+◌, IfOk, length};
ghost use Rattle.tor_sample.specs.Networks.{level_above, drawn_from, providers_of, networks, provider_of, climb};
ghost use Rattle.tor_sample.specs.Levels.{LeadUp, IsAbove};

use crate::draws::Draws;
use arrayvec::ArrayVec;
use std::alloc::Global;
use std::marker::Model;
use tor_arena::{List, NoMemory};

/// How many networks there are.
pub(crate) const NETWORKS: u16 = 2000;

/// How many of them, the first, have no provider.
const TOPS: u16 = 10;

/// Networks from which providers are drawn.
#[derive(Clone, Copy)]
pub(crate) struct Level {
    least: u16,
    size: u16,
}

/// The two providers of a network, which may be the same.
#[derive(Clone, Copy)]
pub(crate) struct Providers {
    first: u16,
    second: u16,
}

/// The networks of a climb, at most one of each level.
pub(crate) type Climb = ArrayVec<u16, 4>;

/// The providers of all networks that have some.
#[derive(Drop)]
pub(crate) struct Networks {
    providers: List<Providers>,
}

impl Model for Networks {
    ghost use Rattle.std.specs.Prelude.{List as Sequence};
    ghost use Rattle.tor_sample.specs.declared.networks.Providers.{Providers as TheProviders};
    ghost use Rattle.tor_sample.specs.Levels.{LeadUp};

    ghost Value = { Sequence TheProviders };

    ghost view = { λ networks. networks.providers };

    ghost invariant = { λ networks. LeadUp networks.providers };
}

// The level above a network's own.
fn level_above(network: u16) -> Level
    ensures { result ≡ level_above network }
{
    if network < 50 {
        Level { least: 0, size: 10 }
    } else if network < 200 {
        Level {
            least: 10,
            size: 40,
        }
    } else {
        Level {
            least: 50,
            size: 150,
        }
    }
}

// A network of the level.
fn drawn_from(draws: &mut Draws, level: Level) -> u16
    requires some { 0 < level.size }
    requires few { level.least + level.size ≤ 200 }
    ensures drawn { drawn_from level draws.old.state ≡ (result, draws.new.state) }
    ensures from { level.least ≤ result }
    ensures to { result < level.least + level.size }
{
    level.least + draws.below(level.size)
}

// The providers of a network, both of the level above.
fn providers_of(draws: &mut Draws, network: u16) -> Providers
    ensures drawn { providers_of network draws.old.state ≡ (result, draws.new.state) }
    ensures first { IsAbove network result.first }
    ensures second { IsAbove network result.second }
{
    let level = level_above(network);
    Providers {
        first: drawn_from(draws, level),
        second: drawn_from(draws, level),
    }
}

impl Networks {
    /// Draws the providers of one network after the other.
    pub fn drawn(alloc: Global, draws: &mut Draws) -> Result<Networks, NoMemory>
        ensures drawn { IfOk result (λ made. networks 1990 draws.old.state ≡ (made, draws.new.state)) }
        ensures len { IfOk result (λ made. length made ≡ 1990) }
    {
        let mut providers = List::new(alloc);
        for network in TOPS..NETWORKS {
            providers.push(providers_of(draws, network))?;
        }
        Ok(Networks { providers })
    }

    /// The provider with which a climb goes on from a network.
    fn provider_of(&self, draws: &mut Draws, network: u16) -> u16
        requires low { 10 ≤ network }
        requires high { network < 10 + length self.now }
        ensures drawn { provider_of self.now network draws.old.state ≡ (result, draws.new.state) }
        ensures above { IsAbove network result }
    {
        let of = self.providers.as_slice()[usize::from(network - TOPS)];
        if draws.below(2) == 0 {
            of.first
        } else {
            of.second
        }
    }

    /// A climb from a network to one of the first ten.
    pub fn climb(&self, draws: &mut Draws, network: u16) -> Climb
        requires all { length self.now ≡ 1990 }
        requires there { network < 2000 }
        ensures drawn { climb self.now network draws.old.state ≡ (result.items, draws.new.state) }
        ensures some { 0 < length result.items }
    {
        let mut climb = Climb::new();
        let mut at = network;
        while at >= TOPS {
            climb.push(at);
            at = self.provider_of(draws, at);
        }
        climb.push(at);
        climb
    }
}
