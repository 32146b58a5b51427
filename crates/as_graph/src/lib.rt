//! The graph of the autonomous systems that are neighbours on some path: its edges in order, degrees, the steps of each path, and how
//! many paths hold each edge.
#![tactic(auto)]

mod building;
mod counting;
mod graph;
mod graph_edges;
mod per_edge;
mod reading_back;
mod step;
mod step_rows;

pub use building::{build, build_with};
pub use graph::{AsGraph, Edge, EndDegrees};
pub use per_edge::{Labels, Orientation, PerEdge};
pub use step::Step;
