//! A result as plain data.
use crate::path_lines::PathLines;
use path_clean::{Asides, Sets};
use relationships::{Fate, Given, Label, Mark, Probe, Walks};
use tor_arena::List;

/// A distinct path, as definitions speak of it.
#[derive(Drop)]
pub struct PathLine {
    /// How often it stood in the dumps.
    pub times: u64,
    /// Its AS numbers, in order.
    pub path: List<u32>,
    /// Whether it is kept, and what refutes it if not.
    pub fate: Fate,
}

/// An edge, which is a pair of neighbours.
#[derive(Clone, Copy)]
pub struct EdgeLine {
    /// The lower of its two AS numbers.
    pub low: u32,
    /// The higher one.
    pub high: u32,
    /// Which of the two is the provider, or that they are peers.
    pub label: Label,
    /// Whether the label could be another one.
    pub mark: Mark,
    /// How many kept paths hold it.
    pub support: u64,
}

/// What the last line counts.
#[derive(Clone, Copy, PartialEq, Eq)]
pub struct Totals {
    /// Kept paths.
    pub kept: u64,
    /// Lost paths.
    pub lost: u64,
    /// Edges.
    pub edges: u64,
    /// Edges with the mark forced.
    pub forced: u64,
    /// Edges with the label peer.
    pub peers: u64,
}

/// What a result says. Nothing is asked of it but the ranges of its numbers: what makes a result right is for others to say.
#[derive(Drop)]
pub struct ResultFile {
    /// What became of an AS_SET whose members differ.
    pub sets: Sets,
    /// The greatest ratio of degrees between peers.
    pub ratio: u32,
    /// How many routes were set aside, by cause.
    pub asides: Asides,
    /// The relationships that were known beforehand, in order. A text of version 1 has none; one of version 2 has a list, which may be
    /// empty.
    pub givens: Option<List<Given>>,
    /// The distinct paths, in order of first appearance.
    pub paths: PathLines,
    /// The edges of the paths, in order of first appearance.
    pub edges: List<EdgeLine>,
    /// Walks that show why edges are forced.
    pub whys: Walks,
    /// Orders that show that edges are open, each written as an open line.
    pub probes: List<Probe>,
    /// What the last line counts.
    pub totals: Totals,
}
