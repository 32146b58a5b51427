//! What is told of a path.

ghost use Rattle.std.specs.Prelude.{IfOk};
ghost use Rattle.result_rules.specs.Rules.{Accepts};
ghost use Rattle.telling.specs.Told.{AnswersPath};

use crate::goings::goings_of;
use crate::told::Told;
use result_text::ResultFile;
use std::alloc::Global;
use tor_arena::{Index, Keys, NoMemory, PathId};

/// What is told of the path of a number, from 1: that it is lost, by the walk of its line, or how its steps go; none if there is no such
/// path. NoMemory where memory ran out.
pub fn tell_path(
    alloc: Global,
    keys: Keys,
    file: &ResultFile,
    number: u32,
) -> Result<Option<Told>, NoMemory>
    requires accepted { Accepts file.now }
    ensures { IfOk result (AnswersPath file.now number) }
{
    let count = file.paths.len();
    if number == 0 || number as usize > count {
        return Ok(None);
    }
    let place = number as usize - 1;
    let Some(path) = PathId::from_place(place) else {
        unreachable!();
    };
    let line = file.paths.get(path);
    if !line.is_kept() {
        return Ok(Some(Told::Lost { path }));
    }
    let goings = goings_of(alloc, keys, file, line.path())?;
    Ok(Some(Told::Kept { path, goings }))
}
