//! The verdict beside dumps that may stand in any order.
ghost use Rattle.std.specs.Prelude.{◌≡◌, ◌+◌, ◌≤◌, ◌↔◌, IsTrue, Contains, length, MatchOption};
ghost use Rattle.path_order.specs.Laws.{HaveSameRows};
ghost use Rattle.result_rules.specs.File.{its_givens, most_lines};
ghost use Rattle.result_rules.specs.Against.{its_rows};
ghost use Rattle.result_rules.specs.Rules.{IsMet};
ghost use Rattle.result_rules.specs.declared.rule.Rule.TheVariants.{PathsDistinct};
ghost use Rattle.any_order.specs.AnyOrder.{JudgesInAnyOrder};
ghost use Rattle.any_order.specs.Searching.{LacksFirst};

use line_rules::{check_against, path_line, path_line_at};
use path_clean::Asides;
use path_table::PathTable;
use result_rules::Verdict;
use result_text::ResultFile;

/// The line of the last count.
const LAST_COUNT: u64 = 10;

/// Whether the result's counts, and its paths with their times in whatever order, are those of the table and the counts. No names the first
/// line that differs: one of lines 4 to 10, or a path line whose path the table doesn't have, or with other times, or where the table has
/// more paths the line behind the last path line. No path of the result stands twice, and it may have at most 2^40 given lines and path
/// lines. It takes no memory.
pub fn check_against_any_order(file: &ResultFile, table: &PathTable, asides: &Asides) -> Verdict
    requires lines { length (its_givens file.now) + length file.now.paths ≤ most_lines }
    requires once { IsMet file.now PathsDistinct }
    ensures verdict { JudgesInAnyOrder file.now table.now.rows asides.now result }
{
    match check_against(file, table, asides) {
        Verdict::Yes => Verdict::Yes,
        Verdict::No { line, rule } => {
            if line <= LAST_COUNT {
                return Verdict::No { line, rule };
            }
            match lacking_line(file, table) {
                Some(place) => Verdict::No {
                    line: path_line(file, place),
                    rule,
                },
                None => Verdict::Yes,
            }
        }
    }
}

/// The place of the first path line whose path the table doesn't have with its times, or behind the lines where the table has more paths.
fn lacking_line(file: &ResultFile, table: &PathTable) -> Option<usize>
    requires once { IsMet file.now PathsDistinct }
    ensures { MatchOption result (HaveSameRows (its_rows file.now) table.now.rows)
        (λ k. (k ≤ length file.now.paths) × LacksFirst file.now table.now.rows k) }
{
    table.facts();
    for place in 0..file.paths.len() {
        let line = path_line_at(&file.paths, place);
        if !has_row(table, line.path(), line.times()) {
            return Some(place);
        }
    }
    let count = file.paths.len();
    if count < table.len() {
        Some(count)
    } else {
        None
    }
}

/// Whether the table has this path with these times.
fn has_row(table: &PathTable, path: &[u32], times: u64) -> bool
    ensures { IsTrue result ↔ Contains table.now.rows (record { path = path.now; times = times }) }
{
    table.facts();
    match table.find(path) {
        Some(id) => table.times(id) == times,
        None => false,
    }
}
