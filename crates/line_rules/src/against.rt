//! Agreement with dumps, rule 11.
ghost use Rattle.std.specs.Prelude.{◌≡◌, ◌+◌, ◌<◌, ◌≤◌, ◌↔◌, IsTrue, length, slice_get, MatchOption};
ghost use Rattle.result_rules.specs.File.{its_givens, most_lines};
ghost use Rattle.result_rules.specs.Against.{in_order, its_rows, JudgesAgainst};
ghost use Rattle.line_rules.specs.Differing.{Differs};

use crate::lending::path_line_at;
use crate::line_numbers::path_line;
use path_clean::{Asides, Cause};
use path_table::PathTable;
use result_rules::Verdict;
use result_text::ResultFile;
use tor_arena::{Index, PathId};

/// The number of the rule that a result agrees with the dumps.
const AGREES: u8 = 11;

/// The line of the first count.
const FIRST_COUNT: u64 = 4;

/// Whether the result's counts, and its paths in order with their times, are those of the table and the counts. No names the first
/// line that differs: one of lines 4 to 10, or a path line, or where a path is absent the line behind the last path line. The file
/// may have at most 2^40 given lines and path lines. It takes no memory.
pub fn check_against(file: &ResultFile, table: &PathTable, asides: &Asides) -> Verdict
    requires lines { length (its_givens file.now) + length file.now.paths ≤ most_lines }
    ensures verdict { JudgesAgainst file.now table.now.rows asides.now result }
{
    if let Some(place) = differing_count(&file.asides, asides) {
        return Verdict::No {
            line: FIRST_COUNT + place as u64,
            rule: AGREES,
        };
    }
    match differing_path(file, table) {
        Some(place) => Verdict::No {
            line: path_line(file, place),
            rule: AGREES,
        },
        None => Verdict::Yes,
    }
}

/// The place of the first count that differs, in the order of the lines.
fn differing_count(said: &Asides, seen: &Asides) -> Option<usize>
    ensures { MatchOption result (said.now ≡ seen.now) (λ k. (k < 7) × Differs (in_order said.now) (in_order seen.now) k) }
{
    if said.get(Cause::NoPath) != seen.get(Cause::NoPath) {
        Some(0)
    } else if said.get(Cause::BadSegments) != seen.get(Cause::BadSegments) {
        Some(1)
    } else if said.get(Cause::Confed) != seen.get(Cause::Confed) {
        Some(2)
    } else if said.get(Cause::Sets) != seen.get(Cause::Sets) {
        Some(3)
    } else if said.get(Cause::Reserved) != seen.get(Cause::Reserved) {
        Some(4)
    } else if said.get(Cause::Loop) != seen.get(Cause::Loop) {
        Some(5)
    } else if said.get(Cause::Short) != seen.get(Cause::Short) {
        Some(6)
    } else {
        None
    }
}

/// The place of the first path line that differs from the table's row, or of the first row that has no line.
fn differing_path(file: &ResultFile, table: &PathTable) -> Option<usize>
    ensures { MatchOption result (its_rows file.now ≡ table.now.rows)
        (λ k. (k ≤ length file.now.paths) × Differs (its_rows file.now) table.now.rows k) }
{
    for place in 0..file.paths.len() {
        let line = path_line_at(&file.paths, place);
        if !is_row(table, place, line.path(), line.times()) {
            return Some(place);
        }
    }
    let count = file.paths.len();
    if count < table.len() {
        Some(count)
    } else {
        None
    }
}

/// Whether the table has this path in this place, with these times.
fn is_row(table: &PathTable, place: usize, path: &[u32], times: u64) -> bool
    ensures { IsTrue result ↔ (slice_get table.now.rows place ≡ Some (record { path = path.now; times = times })) }
{
    if place >= table.len() {
        return false;
    }
    match PathId::from_place(place) {
        None => false,
        Some(id) => table.rows().row(id) == path && table.times(id) == times,
    }
}
