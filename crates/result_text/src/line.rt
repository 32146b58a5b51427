//! The kinds of lines, and the versions of a text.
//!
//! The order of lines is a machine over kinds of lines, so that a further section is an addition.
ghost use Rattle.std.specs.Prelude.{◌≡◌};
ghost use Rattle.result_text.specs.Text.{version_of};

use crate::file::{EdgeLine, PathLine, Totals};
use path_clean::{Cause, Sets};
use relationships::{Given, Probe, Walk};
use tor_arena::List;

/// The version of a text.
#[derive(Clone, Copy)]
pub enum Version {
    /// It has no givens.
    One,
    /// It may have given lines, and links that name them.
    Two,
}

/// One line of a text, by its kind, as definitions speak of it.
#[derive(Drop)]
pub enum Line {
    Version(Version),
    Sets(Sets),
    Ratio(u32),
    Aside(Cause, u64),
    Given(Given),
    Path(PathLine),
    Edge(EdgeLine),
    Why(Walk),
    Probe(Probe),
    End(Totals),
}

/// The version of the text of a result with these givens: 1 where there are none, not even an empty list.
pub(crate) fn version_of(givens: &Option<List<Given>>) -> Version
    ensures { result ≡ version_of givens.now }
{
    match givens {
        None => Version::One,
        Some(_) => Version::Two,
    }
}
