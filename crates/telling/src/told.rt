//! What is asked of a result, and what is told.

use relationships::{Probe, Walk};
use result_text::EdgeLine;
use tor_arena::{List, PathId, WalkId};

/// What is asked of a result.
#[derive(Clone, Copy, PartialEq, Eq)]
pub enum Question {
    /// Why the edge of these two AS numbers, in either order, is what it is.
    Edge { one: u32, other: u32 },
    /// Why the path of this number, from 1, is kept or lost.
    Path { number: u32 },
}

/// What is told of an edge or of a path of a result.
#[derive(Drop)]
pub enum Told {
    /// The edge is forced: by these why lines and no others, in the order in which they are told.
    Forced {
        line: EdgeLine,
        whys: List<WalkId>,
    },
    /// The edge is open and no peering: from the order of this open line, the first whose closure has the order against the label, the
    /// walk leads to that. No order stands on it twice.
    Open {
        line: EdgeLine,
        probe: Probe,
        walk: Walk,
    },
    /// The edge is a peering.
    Peering {
        line: EdgeLine,
    },
    /// The path is lost, by the walk of its line.
    Lost {
        path: PathId,
    },
    /// The path is kept: so its steps go under the labels of their edges.
    Kept {
        path: PathId,
        goings: List<Going>,
    },
}

/// How a step of a path goes under the label of its edge.
#[derive(Clone, Copy, PartialEq, Eq)]
pub enum Going {
    /// From a customer to its provider.
    Up,
    /// From a provider to its customer.
    Down,
    /// Between two peers.
    Flat,
}
