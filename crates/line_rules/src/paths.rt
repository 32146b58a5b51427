//! The rules on paths.
ghost use Rattle.std.specs.Prelude.{◌↔◌, ◌+◌, ◌<◌, ◌≤◌, length, IsTrue, IfOk};
ghost use Rattle.path_clean.specs.Paths.{is_cleaned};
ghost use Rattle.tor_arena.specs.Limits.{max_paths, max_numbers};
ghost use Rattle.result_rules.specs.declared.rule.Rule.{Rule};
ghost use Rattle.line_rules.specs.Breaches.{FindsBreach};

use crate::lending::path_line_at;
use path_clean::is_clean_path;
use path_table::first_repeated;
use result_text::{PathLineRef, ResultFile};
use std::alloc::Global;
use tor_arena::{Keys, MAX_NUMBERS, MAX_PATHS, NoMemory};

/// The place of the first path line whose path is not clean or was never seen, or with which there are too many paths or numbers; none
/// where rule 2 is met. NoMemory where memory ran out.
pub fn find_unclean(alloc: Global, file: &ResultFile) -> Result<Option<usize>, NoMemory>
    ensures { IfOk result (FindsBreach file.now Rule.PathsCleaned) }
{
    let mut numbers = 0;
    for place in 0..file.paths.len() {
        let line = path_line_at(&file.paths, place);
        if !is_sound(alloc, &line, place, numbers)? {
            return Ok(Some(place));
        }
        numbers += line.path().len();
    }
    Ok(None)
}

/// Whether a path line is sound, where the paths before it have so many numbers. The limits are tested first.
fn is_sound(
    alloc: Global,
    line: &PathLineRef<'_>,
    place: usize,
    numbers: usize,
) -> Result<bool, NoMemory>
    requires { numbers ≤ max_numbers }
    ensures { IfOk result (λ sound. IsTrue sound ↔ (IsTrue (is_cleaned line.now.path) × (1 ≤ line.now.times) × (place < max_paths) ×
        (numbers + length line.now.path ≤ max_numbers))) }
{
    let path = line.path();
    if place >= MAX_PATHS as usize || path.len() > MAX_NUMBERS - numbers || line.times() == 0 {
        return Ok(false);
    }
    is_clean_path(alloc, path)
}

/// The place of the first path line whose path stands in an earlier line; none where rule 3 is met. The keys are those of a hash table,
/// and no answer depends on them. NoMemory where memory ran out.
pub fn find_repeated(
    alloc: Global,
    keys: Keys,
    file: &ResultFile,
) -> Result<Option<usize>, NoMemory>
    ensures { IfOk result (FindsBreach file.now Rule.PathsDistinct) }
{
    first_repeated(alloc, keys, file.paths.paths())
}
