//! Walks and their links.
use tor_arena::List;

/// Where three consecutive systems of a walk stand on a path.
#[derive(Clone, Copy, Debug, PartialEq, Eq)]
pub struct Link {
    /// The number of the path, from 1.
    pub path: u32,
    /// The place on the path, from 1, of the middle one of the three.
    pub at: u32,
}

/// A walk over autonomous systems, with a link for each three consecutive ones of it.
#[derive(Drop)]
pub struct Walk {
    /// The AS numbers, in order.
    pub ases: List<u32>,
    /// The links, in the order of the threes that they are for.
    pub links: List<Link>,
}
