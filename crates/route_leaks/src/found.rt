//! What is found of paths of dumps behind a result.
ghost use Rattle.std.specs.Prelude.{◌≡◌, ◌<◌, ◌≤◌, All, length, sum_by};
ghost use Rattle.tor_arena.specs.Limits.{max_paths, max_numbers};

use crate::meeting::Sighting;
use as_rel::Rel;
use relationships::Fates;
use tor_arena::{List, PathId, Rows};

/// What is found of the distinct paths of dumps behind a result.
#[derive(Drop)]
pub struct Leaks {
    /// How many of them the result keeps.
    pub known: usize,
    /// The paths of the result, and behind them those of the dumps that are new.
    pub rows: Rows<PathId, u32>,
    /// The paths of the dumps that the result does not keep, in order of first appearance.
    pub met: List<Sighting>,
    /// What would become of each of these behind all kept paths: a leak is lost.
    pub fates: Fates,
    /// What the labels of the result's edges say.
    pub rel: Rel,
    /// The number by which a link of a walk names the path itself.
    pub own: u32,
    ghost each: { length fates ≡ length met },
    ghost there: { All (λ path. path.place < length rows) met },
    ghost few: { length met ≤ max_paths },
    ghost short: { sum_by length rows ≤ max_numbers },
}
