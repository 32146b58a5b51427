//! Lines of a result, and the steps of its paths, by their places.

ghost use Rattle.std.specs.Prelude.{◌≡◌, ◌<◌, Some, length, slice_get};
ghost use Rattle.result_rules.specs.File.{its_givens};

use crate::edges::step::Step;
use relationships::{Given, WalkRef, Walks};
use result_text::{PathLineRef, PathLines, ResultFile};
use tor_arena::{Index, PathId, Rows, WalkId};

/// The path line in a place, from 0, which has to be there. It takes no memory.
#[inline(always)]
pub fn path_line_at(lines: &PathLines, place: usize) -> PathLineRef<'_>
    requires { place < length lines.now }
    ensures { slice_get lines.now place ≡ Some result }
{
    let count = lines.len();
    prove!(place < count);
    match PathId::from_place(place) {
        Some(id) => lines.get(id),
        None => unreachable!(),
    }
}

/// The steps of the path in a place, from 0, which has to be there. It takes no memory.
#[inline(always)]
pub fn steps_at(steps: &Rows<PathId, Step>, place: usize) -> &[Step]
    requires { place < length steps.now }
    ensures { slice_get steps.now place ≡ Some result.now }
{
    let count = steps.len();
    prove!(place < count);
    match PathId::from_place(place) {
        Some(id) => steps.row(id),
        None => unreachable!(),
    }
}

/// The walk in a place, from 0, which has to be there. It takes no memory.
pub fn walk_at(walks: &Walks, place: usize) -> WalkRef<'_>
    requires { place < length walks.now }
    ensures { slice_get walks.now place ≡ Some result }
{
    let count = walks.len();
    prove!(place < count);
    match WalkId::from_place(place) {
        Some(id) => walks.get(id),
        None => unreachable!(),
    }
}

/// The givens of a file, which are none where its text is of version 1. It takes no memory.
pub fn givens_of(file: &ResultFile) -> &[Given]
    ensures { result.now ≡ its_givens file.now }
{
    match &file.givens {
        Some(givens) => givens.as_slice(),
        None => &[],
    }
}
