//! What is taken in of dumps.
ghost use Rattle.std.specs.Prelude.{◌≡◌, ◌<◌, ℕ, List, Some, Ok, OnOk, OnErr, IfErr, IsTrue, length};
ghost use Rattle.path_clean.specs.Clean.{judged};
ghost use Rattle.path_clean.specs.Paths.{is_cleaned};
ghost use Rattle.path_table.specs.Table.{place_of};
ghost use Rattle.dump_read.specs.Taking.{take_cleaned, take_path as path_taken};
ghost use Rattle.dump_read.specs.Refusals.{IsLimit};

use crate::error::LimitKind;
use crate::file_counts::FileCounts;
use path_clean::{Asides, judge};
use path_table::{AddRefused, HashedPath, PathTable};
use std::alloc::Global;
use tor_arena::{List, NoMemory, PathId};

/// What is taken in of dumps: the distinct paths with their times, how many routes are set aside for each cause, and what each file that
/// was read to its end holds, by count.
#[derive(Drop)]
pub struct Taken {
    /// The distinct paths with their times.
    pub table: PathTable,
    /// How many routes are set aside for each cause.
    pub counts: Asides,
    /// What each file holds, in the order of the files.
    pub files: List<FileCounts>,
}

/// Why a route was not taken in.
#[derive(Clone, Copy)]
pub(crate) enum Untaken {
    Limit(LimitKind),
    NoMemory,
}

impl From<NoMemory> for Untaken {
    ghost use Rattle.std.specs.Prelude.{◌≡◌};
    ghost use Rattle.dump_read.specs.declared.taking.Untaken.{Untaken};

    ghost from_gives = { λ _ e. e ≡ Untaken.NoMemory };

    fn from(_: NoMemory) -> Untaken {
        Untaken::NoMemory
    }
}

impl From<AddRefused> for Untaken {
    ghost use Rattle.std.specs.Prelude.{◌≡◌};
    ghost use Rattle.dump_read.specs.Refusals.{of_add};

    ghost from_gives = { λ refused e. e ≡ of_add refused };

    fn from(refused: AddRefused) -> Untaken {
        match refused {
            AddRefused::TooManyPaths => Untaken::Limit(LimitKind::Paths),
            AddRefused::TooManyNumbers => Untaken::Limit(LimitKind::Numbers),
            AddRefused::NoMemory => Untaken::NoMemory,
        }
    }
}

/// Counts a clean path, and adds it if it is new. One that isn't taken changes nothing.
fn take_path(taken: &mut Taken, path: &HashedPath<'_>) -> Result<(), Untaken>
    requires { IsTrue (is_cleaned path.now) }
    ensures taken { OnOk result (path_taken taken.old path.now ≡ Ok taken.new) }
    ensures limit { IfErr result (IsLimit (path_taken taken.old path.now)) }
    ensures unchanged { OnErr result (taken.new ≡ taken.old) }
{
    taken.table.add_hashed(path)?;
    Ok(())
}

/// Judges a merged path, and counts it, or the cause for which its route is set aside. One that isn't taken changes nothing.
pub(crate) fn take_merged(
    alloc: Global,
    taken: &mut Taken,
    path: &HashedPath<'_>,
) -> Result<(), Untaken>
    ensures taken { OnOk result (take_cleaned taken.old (judged path.now) ≡ Ok taken.new) }
    ensures limit { IfErr result (IsLimit (take_cleaned taken.old (judged path.now))) }
    ensures unchanged { OnErr result (taken.new ≡ taken.old) }
{
    match judge(alloc, path.numbers())? {
        None => take_path(taken, path),
        Some(cause) => {
            taken.counts.add(cause);
            Ok(())
        }
    }
}

/// Counts the path that stands at this place in the table.
pub(crate) fn take_again(taken: &mut Taken, id: PathId)
    requires there { id < length taken.old.table.rows }
    ensures { (path : List ℕ) → place_of taken.old.table.rows path ≡ Some id → path_taken taken.old path ≡ Ok taken.new }
{
    taken.table.count(id);
}
