//! An arc or none, in four octets.
ghost use Rattle.std.specs.Prelude.{◌≡◌, ◌<◌, None, Some, IfSome, option_map};

use std::marker::Model;
use tor_arena::Index;

/// What stands for no arc: no index has this place.
const NO_ARC: u32 = 0xFFFF_FFFF;

/// An arc, by its place, or none. It takes four octets, where an `Option` of an index takes eight.
#[derive(Clone, Copy)]
pub(crate) struct ShortArc {
    place: u32,
}

impl Model for ShortArc {
    ghost use Rattle.std.specs.Prelude.{ℕ, Option};
    ghost use Rattle.tor_digraph.specs.Links.{arc_at, place_held};

    ghost Value = { Option ℕ };

    ghost view = { λ short. arc_at short.place };

    ghost inverse = { λ arc. record { place = place_held arc } };
}

impl ShortArc {
    /// No arc.
    pub(crate) fn none() -> ShortArc
        ensures { result ≡ None }
    {
        ShortArc { place: NO_ARC }
    }

    /// An arc, by its place.
    pub(crate) fn of<A: Index>(arc: A) -> ShortArc
        ensures { result ≡ Some (A.place_of arc) }
    {
        ShortArc {
            place: arc.place() as u32,
        }
    }

    /// The arc, if it isn't none.
    pub(crate) fn arc<A: Index>(self) -> Option<A>
        requires { IfSome self (λ place. place < A.LIMIT) }
        ensures { option_map A.place_of result ≡ self }
    {
        A::from_place(self.place as usize)
    }
}
