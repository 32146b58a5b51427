//! The typed indices.
ghost use Rattle.std.specs.Prelude.{◌<◌, ℕ};
ghost use Rattle.std.proofs.Math.Dec.{lit≤};
ghost use Rattle.tor_arena.specs.Limits.{most_places, most_walks};

use crate::index::{Index, short_place};
use crate::limits::{MOST_PLACES, MOST_WALKS};
use std::marker::Model;

/// A place among the autonomous systems.
#[derive(Clone, Copy, PartialEq, Eq)]
pub struct AsId {
    short: u32,
}

impl Model for AsId {
    ghost Value = { ℕ };

    ghost view = { λ id. id.short };

    ghost invariant = { λ id. id.short < most_places };

    ghost inverse = { λ place. record { short = place } };
}

impl Index for AsId {
    const LIMIT: usize = MOST_PLACES;

    ghost LIMIT = { most_places };

    ghost place_of = { λ id. id };

    fn from_place(place: usize) -> Option<AsId> {
        let short = short_place(place)?;
        Some(AsId { short })
    }

    fn place(self) -> usize {
        self.short as usize
    }

    ghost is_one = { λ i j same. same };

    ghost is_short = { lit≤ tt };
}

/// A place among the edges, which are pairs of neighbours.
#[derive(Clone, Copy, PartialEq, Eq)]
pub struct EdgeId {
    short: u32,
}

impl Model for EdgeId {
    ghost Value = { ℕ };

    ghost view = { λ id. id.short };

    ghost invariant = { λ id. id.short < most_places };

    ghost inverse = { λ place. record { short = place } };
}

impl Index for EdgeId {
    const LIMIT: usize = MOST_PLACES;

    ghost LIMIT = { most_places };

    ghost place_of = { λ id. id };

    fn from_place(place: usize) -> Option<EdgeId> {
        let short = short_place(place)?;
        Some(EdgeId { short })
    }

    fn place(self) -> usize {
        self.short as usize
    }

    ghost is_one = { λ i j same. same };

    ghost is_short = { lit≤ tt };
}

/// A place among the distinct paths.
#[derive(Clone, Copy, PartialEq, Eq)]
pub struct PathId {
    short: u32,
}

impl Model for PathId {
    ghost Value = { ℕ };

    ghost view = { λ id. id.short };

    ghost invariant = { λ id. id.short < most_places };

    ghost inverse = { λ place. record { short = place } };
}

impl Index for PathId {
    const LIMIT: usize = MOST_PLACES;

    ghost LIMIT = { most_places };

    ghost place_of = { λ id. id };

    fn from_place(place: usize) -> Option<PathId> {
        let short = short_place(place)?;
        Some(PathId { short })
    }

    fn place(self) -> usize {
        self.short as usize
    }

    ghost is_one = { λ i j same. same };

    ghost is_short = { lit≤ tt };
}

/// A place among the triples, which are three consecutive systems of a path.
#[derive(Clone, Copy, PartialEq, Eq)]
pub struct TripleId {
    short: u32,
}

impl Model for TripleId {
    ghost Value = { ℕ };

    ghost view = { λ id. id.short };

    ghost invariant = { λ id. id.short < most_places };

    ghost inverse = { λ place. record { short = place } };
}

impl Index for TripleId {
    const LIMIT: usize = MOST_PLACES;

    ghost LIMIT = { most_places };

    ghost place_of = { λ id. id };

    fn from_place(place: usize) -> Option<TripleId> {
        let short = short_place(place)?;
        Some(TripleId { short })
    }

    fn place(self) -> usize {
        self.short as usize
    }

    ghost is_one = { λ i j same. same };

    ghost is_short = { lit≤ tt };
}

/// A place among the nodes of a digraph.
#[derive(Clone, Copy, PartialEq, Eq)]
pub struct NodeId {
    short: u32,
}

impl Model for NodeId {
    ghost Value = { ℕ };

    ghost view = { λ id. id.short };

    ghost invariant = { λ id. id.short < most_places };

    ghost inverse = { λ place. record { short = place } };
}

impl Index for NodeId {
    const LIMIT: usize = MOST_PLACES;

    ghost LIMIT = { most_places };

    ghost place_of = { λ id. id };

    fn from_place(place: usize) -> Option<NodeId> {
        let short = short_place(place)?;
        Some(NodeId { short })
    }

    fn place(self) -> usize {
        self.short as usize
    }

    ghost is_one = { λ i j same. same };

    ghost is_short = { lit≤ tt };
}

/// A place among the arcs of a digraph.
#[derive(Clone, Copy, PartialEq, Eq)]
pub struct ArcId {
    short: u32,
}

impl Model for ArcId {
    ghost Value = { ℕ };

    ghost view = { λ id. id.short };

    ghost invariant = { λ id. id.short < most_places };

    ghost inverse = { λ place. record { short = place } };
}

impl Index for ArcId {
    const LIMIT: usize = MOST_PLACES;

    ghost LIMIT = { most_places };

    ghost place_of = { λ id. id };

    fn from_place(place: usize) -> Option<ArcId> {
        let short = short_place(place)?;
        Some(ArcId { short })
    }

    fn place(self) -> usize {
        self.short as usize
    }

    ghost is_one = { λ i j same. same };

    ghost is_short = { lit≤ tt };
}

/// A place among walks.
#[derive(Clone, Copy, PartialEq, Eq)]
pub struct WalkId {
    short: u32,
}

impl Model for WalkId {
    ghost Value = { ℕ };

    ghost view = { λ id. id.short };

    ghost invariant = { λ id. id.short < most_walks };

    ghost inverse = { λ place. record { short = place } };
}

impl Index for WalkId {
    const LIMIT: usize = MOST_WALKS;

    ghost LIMIT = { most_walks };

    ghost place_of = { λ id. id };

    fn from_place(place: usize) -> Option<WalkId> {
        if place < MOST_WALKS {
            Some(WalkId {
                short: place as u32,
            })
        } else {
            None
        }
    }

    fn place(self) -> usize {
        self.short as usize
    }

    ghost is_one = { λ i j same. same };

    ghost is_short = { lit≤ tt };
}
