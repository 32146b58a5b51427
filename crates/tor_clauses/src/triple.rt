//! Triples.
use crate::lit::Lit;
use tor_arena::PathId;

/// Three consecutive ASes x, y, z of a path: the first literal, "x over y", implies the second, "y over z", and the negation of
/// the second implies the negation of the first.
#[derive(Clone, Copy)]
pub struct Triple {
    /// The path on which they stand.
    pub path: PathId,
    /// The place on the path, from 1, of the middle one.
    pub at: u32,
    /// That x is over y.
    pub first: Lit,
    /// That y is over z.
    pub second: Lit,
}

/// Where a triple stands: what is kept of it beside its arcs.
#[derive(Clone, Copy)]
pub(crate) struct TriplePlace {
    /// The path on which its three ASes stand.
    pub path: PathId,
    /// The place on the path, from 1, of the middle one.
    pub at: u32,
}
