//! The rules in their order.
ghost use Rattle.std.specs.Prelude.{◌≡◌, Some, IfOk};
ghost use Rattle.relationships.specs.Graph.{edges};
ghost use Rattle.result_rules.specs.File.{its_paths, HasFewLines};
ghost use Rattle.line_rules.specs.PathSteps.{HaveCodedSteps};
ghost use Rattle.result_rules.specs.Rules.{rule_number};
ghost use Rattle.rel_checker.specs.Steps.{MetUpTo, IsDecidedUpTo};
ghost use Rattle.result_rules.specs.Valid.{Valid};
ghost use Rattle.result_rules.specs.Judging.{Judges};

use crate::mark_rules::find_unmarked;
use crate::walk_rules::find_unrefuted;
use line_rules::{
    Labels, Step, edge_line, find_miscounted, find_repeated, find_unclean, find_unlisted,
    find_unshown, find_unsound_given, find_valley, given_line, last_line, list_edges, mark_line,
    path_line, why_line,
};
use result_rules::{Rule, Verdict, right_totals};
use result_text::ResultFile;
use std::alloc::Global;
use tor_arena::{Keys, MAX_RATIO, NoMemory, PathId, Rows};
use tor_numbers::EdgeTable;

/// The line of the ratio.
const RATIO_LINE: u64 = 3;

/// Whether the file meets the rules on a result alone: the ratio and distinct givens, clean and distinct paths, walks that refute each
/// lost path, the edges, labels that serve the kept paths and the givens, supports, why lines, marks and totals. Yes exactly if all are
/// met, and the file is then valid. No names the least rule that is broken, 1 to 10, and its first line, from 1. The file may have at
/// most 2^40 lines besides its first ten and its last. The keys are those of its hash tables, and the verdict doesn't depend on them.
/// NoMemory where memory ran out.
pub fn check_file(alloc: Global, keys: Keys, file: &ResultFile) -> Result<Verdict, NoMemory>
    requires lines { HasFewLines file.now }
    ensures verdict { IfOk result (Judges file.now) }
    ensures valid { result ≡ Ok Verdict.Yes → Valid file.now }
{
    if let Some(verdict) = check_head(alloc, keys, file)? {
        return Ok(verdict);
    }
    if let Some(verdict) = check_paths(alloc, keys, file)? {
        return Ok(verdict);
    }
    let (table, steps) = list_edges(alloc, keys, file)?;
    let verdict = check_lines(alloc, keys, file, &table, &steps);
    drop(steps);
    drop(table);
    verdict
}

/// The rules on the lines behind the paths, by the edges of the paths and the steps along them.
fn check_lines(
    alloc: Global,
    keys: Keys,
    file: &ResultFile,
    table: &EdgeTable,
    steps: &Rows<PathId, Step>,
) -> Result<Verdict, NoMemory>
    requires lines { HasFewLines file.now }
    requires met { MetUpTo file.now 4 }
    requires table { table.now ≡ edges (its_paths file.now) }
    requires steps { HaveCodedSteps table.now (its_paths file.now) steps.now }
    ensures { IfOk result (Judges file.now) }
{
    let labels = Labels::new(alloc, file.edges.as_slice())?;
    let verdict = check_labelled(alloc, keys, file, table, &labels, steps);
    drop(labels);
    verdict
}

/// The same, by the labels of the edge lines.
fn check_labelled(
    alloc: Global,
    keys: Keys,
    file: &ResultFile,
    table: &EdgeTable,
    labels: &Labels<'_>,
    steps: &Rows<PathId, Step>,
) -> Result<Verdict, NoMemory>
    requires lines { HasFewLines file.now }
    requires met { MetUpTo file.now 4 }
    requires table { table.now ≡ edges (its_paths file.now) }
    requires labels { labels.now ≡ file.now.edges }
    requires steps { HaveCodedSteps table.now (its_paths file.now) steps.now }
    ensures { IfOk result (Judges file.now) }
{
    if let Some(verdict) = check_edges(alloc, file, table, labels, steps)? {
        return Ok(verdict);
    }
    if let Some(verdict) = check_evidence(alloc, keys, file, table, labels, steps)? {
        return Ok(verdict);
    }
    Ok(check_totals(file))
}

/// The rule on the head.
fn check_head(alloc: Global, keys: Keys, file: &ResultFile) -> Result<Option<Verdict>, NoMemory>
    requires lines { HasFewLines file.now }
    ensures { IfOk result (IsDecidedUpTo file.now 1) }
{
    if file.ratio > MAX_RATIO {
        return Ok(Some(no(RATIO_LINE, Rule::HeadSound)));
    }
    match find_unsound_given(alloc, keys, file)? {
        Some(place) => Ok(Some(no(given_line(file, place), Rule::HeadSound))),
        None => Ok(None),
    }
}

/// The rules on the paths.
fn check_paths(alloc: Global, keys: Keys, file: &ResultFile) -> Result<Option<Verdict>, NoMemory>
    requires lines { HasFewLines file.now }
    requires met { MetUpTo file.now 1 }
    ensures { IfOk result (IsDecidedUpTo file.now 4) }
{
    if let Some(place) = find_unclean(alloc, file)? {
        return Ok(Some(no(path_line(file, place), Rule::PathsCleaned)));
    }
    if let Some(place) = find_repeated(alloc, keys, file)? {
        return Ok(Some(no(path_line(file, place), Rule::PathsDistinct)));
    }
    match find_unrefuted(file) {
        Some(place) => Ok(Some(no(path_line(file, place), Rule::LostRefuted))),
        None => Ok(None),
    }
}

/// The rules on the edges.
fn check_edges(
    alloc: Global,
    file: &ResultFile,
    table: &EdgeTable,
    labels: &Labels<'_>,
    steps: &Rows<PathId, Step>,
) -> Result<Option<Verdict>, NoMemory>
    requires lines { HasFewLines file.now }
    requires met { MetUpTo file.now 4 }
    requires table { table.now ≡ edges (its_paths file.now) }
    requires labels { labels.now ≡ file.now.edges }
    requires steps { HaveCodedSteps table.now (its_paths file.now) steps.now }
    ensures { IfOk result (IsDecidedUpTo file.now 7) }
{
    if let Some(place) = find_unlisted(file, table) {
        return Ok(Some(no(edge_line(file, place), Rule::EdgesListed)));
    }
    if let Some(place) = find_valley(file, table, labels, steps) {
        return Ok(Some(no(path_line(file, place), Rule::LabelsServe)));
    }
    match find_miscounted(alloc, file, steps)? {
        Some(place) => Ok(Some(no(edge_line(file, place), Rule::SupportCounted))),
        None => Ok(None),
    }
}

/// The rules on why lines, marks and open lines.
fn check_evidence(
    alloc: Global,
    keys: Keys,
    file: &ResultFile,
    table: &EdgeTable,
    labels: &Labels<'_>,
    steps: &Rows<PathId, Step>,
) -> Result<Option<Verdict>, NoMemory>
    requires lines { HasFewLines file.now }
    requires met { MetUpTo file.now 7 }
    requires table { table.now ≡ edges (its_paths file.now) }
    requires labels { labels.now ≡ file.now.edges }
    requires steps { HaveCodedSteps table.now (its_paths file.now) steps.now }
    ensures { IfOk result (IsDecidedUpTo file.now 9) }
{
    if let Some(place) = find_unshown(alloc, keys, file)? {
        return Ok(Some(no(why_line(file, place), Rule::OrdersShown)));
    }
    match find_unmarked(alloc, keys, file, table, labels, steps)? {
        Some(place) => Ok(Some(no(mark_line(file, place), Rule::MarksBorneOut))),
        None => Ok(None),
    }
}

/// The rule on the last line.
fn check_totals(file: &ResultFile) -> Verdict
    requires lines { HasFewLines file.now }
    requires met { MetUpTo file.now 9 }
    ensures { Judges file.now result }
{
    if file.totals == right_totals(file) {
        Verdict::Yes
    } else {
        no(last_line(file), Rule::TotalsRight)
    }
}

/// The verdict that a line breaks a rule.
fn no(line: u64, rule: Rule) -> Verdict
    ensures { result ≡ Verdict.No line (rule_number rule) }
{
    let rule = rule.number();
    Verdict::No { line, rule }
}
