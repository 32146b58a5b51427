//! The line of an edge, and the orders of its label.

ghost use Rattle.std.specs.Prelude.{Contains, MatchOption};
ghost use Rattle.relationships.specs.Graph.{edge_of};
ghost use Rattle.result_rules.specs.File.{its_edges};
ghost use Rattle.telling.specs.Told.{IsLineOf};

use result_text::{EdgeLine, ResultFile};

/// The line of the edge of two AS numbers, in either order, if there is one. It takes no memory.
pub fn line_of(file: &ResultFile, one: u32, other: u32) -> Option<EdgeLine>
    ensures { MatchOption result (Contains (its_edges file.now) (edge_of one other) → ⊥) (IsLineOf file.now one other) }
{
    let low = one.min(other);
    let high = one.max(other);
    for line in file.edges.as_slice() {
        if line.low == low && line.high == high {
            return Some(*line);
        }
    }
    None
}
