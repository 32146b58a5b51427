//! Steps of paths.
ghost use Rattle.std.specs.Prelude.{◌≡◌, ◌*◌, ◌<◌};
ghost use Rattle.tor_arena.specs.Limits.{max_numbers};
ghost use Rattle.relationships.specs.Relationship.{opposite};
ghost use Rattle.as_graph.specs.EdgeSteps.{place_of_step};

use relationships::End;
use std::marker::Model;
use tor_arena::{EdgeId, Index};

/// A step of a path, from one AS to the next: the edge of the two, and the end of the edge from which the step goes. It takes four
/// octets, as a graph has one for each two neighbours of each path.
#[derive(Clone, Copy)]
pub struct Step {
    // twice the place of the edge, and one more where the step goes from the higher number
    place: u32,
}

impl Model for Step {
    ghost use Rattle.std.specs.Prelude.{◌*◌, ◌<◌};
    ghost use Rattle.tor_arena.specs.Limits.{max_numbers};
    ghost use Rattle.as_graph.specs.EdgeSteps.{EdgeStep, place_of_step, step_of_place};
    ghost use Rattle.std.proofs.Common.{ap};
    ghost use Rattle.as_graph.specs.StepPlaces.{place_of_step_of_place};

    ghost Value = { EdgeStep };

    ghost view = { λ step. step_of_place step.place };

    ghost invariant = { λ step. step.place < max_numbers * 2 };

    ghost inverse = { λ step. record { place = place_of_step step } };

    ghost inverse_ok = { λ step small. ap (λ place. record { place = place }) (place_of_step_of_place step.place) };
}

impl Step {
    /// The step along an edge from this end. The edge's place has to be below 2^26, as of each edge of a graph. It takes no memory.
    pub fn new(edge: EdgeId, left: End) -> Step
        requires { edge < max_numbers }
        ensures edge { result.edge ≡ edge }
        ensures left { result.left ≡ left }
    {
        Step {
            place: edge.place() as u32 * 2 + u32::from(left == End::High),
        }
    }

    /// The edge of the two ASes. It takes no memory.
    pub fn edge(self) -> EdgeId
        ensures { result ≡ self.edge }
    {
        EdgeId::from_place(self.place as usize / 2).unwrap()
    }

    /// The end of the edge from which the step goes. It takes no memory.
    pub fn left(self) -> End
        ensures { result ≡ self.left }
    {
        if self.place % 2 == 0 {
            End::Low
        } else {
            End::High
        }
    }

    /// The step along the same edge the other way. It takes no memory.
    pub(crate) fn back(self) -> Step
        ensures edge { result.edge ≡ self.edge }
        ensures left { result.left ≡ opposite self.left }
    {
        let left = match self.left() {
            End::Low => End::High,
            End::High => End::Low,
        };
        Step::new(self.edge(), left)
    }

    /// The place of the step among the two along each edge: twice the place of the edge, and one more from the higher number. It takes
    /// no memory.
    pub fn place(self) -> usize
        ensures place { result ≡ place_of_step self }
        ensures below { result < max_numbers * 2 }
    {
        self.place as usize
    }
}
