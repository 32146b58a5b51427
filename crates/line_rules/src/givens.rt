//! Rule 1 on given lines.
ghost use Rattle.std.specs.Prelude.{◌≡◌, [], length, IfOk};
ghost use Rattle.result_rules.specs.File.{its_givens};
ghost use Rattle.line_rules.specs.GivenHeads.{IsNewGivenAt};
ghost use Rattle.line_rules.specs.Breaches.{First};

use crate::lending::givens_of;
use result_text::ResultFile;
use std::alloc::Global;
use tor_arena::{Keys, NoMemory};
use tor_numbers::EdgeTable;

/// The place of the first given line that names one AS twice, or the two ASes of an earlier one; none where there is no such line. The
/// keys are those of a hash table, and no answer depends on them. NoMemory where memory ran out.
pub fn find_unsound_given(
    alloc: Global,
    keys: Keys,
    file: &ResultFile,
) -> Result<Option<usize>, NoMemory>
    ensures { IfOk result (First (IsNewGivenAt file.now) (length (its_givens file.now))) }
{
    let mut table = EdgeTable::new(alloc, keys);
    let found = first_unsound(file, &mut table);
    drop(table);
    found
}

/// The same, by the edges of the givens before, where there are none yet.
fn first_unsound(file: &ResultFile, table: &mut EdgeTable) -> Result<Option<usize>, NoMemory>
    requires { table.old ≡ [] }
    ensures { IfOk result (First (IsNewGivenAt file.now) (length (its_givens file.now))) }
{
    for (place, given) in givens_of(file).iter().enumerate() {
        if given.over == given.under {
            return Ok(Some(place));
        }
        if !table.add(given.over, given.under)?.is_new {
            return Ok(Some(place));
        }
    }
    Ok(None)
}
