//! Steps of paths, as places of edges.
ghost use Rattle.std.specs.Prelude.{◌≡◌, ◌<◌};
ghost use Rattle.tor_arena.specs.Limits.{most_places};
ghost use Rattle.relationships.specs.Steps.{end_left};
ghost use Rattle.line_rules.specs.PathSteps.{turned, place_in, left_in};

use relationships::End;

/// A step of a path, from one AS to the next: the place of its edge, and the end of the edge from which it goes, in one number: twice the
/// place, and one more where it goes from the lower number.
#[derive(Clone, Copy)]
pub struct Step {
    pub code: u32,
}

impl Step {
    /// The step from an end of the edge in a place, from 0, below 2^28. It takes no memory.
    pub fn new(place: usize, left: End) -> Step
        requires { place < most_places }
        ensures place { place_in result ≡ place }
        ensures left { left_in result ≡ left }
    {
        let side = match left {
            End::Low => 1,
            End::High => 0,
        };
        Step {
            code: place as u32 * 2 + side,
        }
    }

    /// The place of the edge, from 0. It takes no memory.
    pub fn place(self) -> usize
        ensures { result ≡ place_in self }
    {
        (self.code / 2) as usize
    }

    /// The end of the edge from which the step goes. It takes no memory.
    pub fn left(self) -> End
        ensures { result ≡ left_in self }
    {
        if self.code % 2 == 1 {
            End::Low
        } else {
            End::High
        }
    }

    /// The step the other way round, as one number. It takes no memory.
    pub fn turned_code(self) -> u32
        ensures { result ≡ turned self }
    {
        self.code / 2 * 2 + (1 - self.code % 2)
    }
}

/// The end of their edge from which the step from the first AS to the second goes. It takes no memory.
pub fn end_left(from: u32, to: u32) -> End
    ensures { result ≡ end_left from to }
{
    if from < to { End::Low } else { End::High }
}
