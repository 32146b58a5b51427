//! Rule 9: each mark is borne out, and each open line serves for an edge.

ghost use Rattle.std.specs.Prelude.{◌≡◌, length, IfOk};
ghost use Rattle.result_rules.specs.File.{its_edges, its_paths, its_probes, HasFewLines};
ghost use Rattle.result_rules.specs.declared.rule.Rule.{Rule};
ghost use Rattle.result_rules.specs.Rules.{IsMet};
ghost use Rattle.line_rules.specs.Breaches.{First, FindsBreach};
ghost use Rattle.line_rules.specs.PathSteps.{HaveCodedSteps};
ghost use Rattle.line_rules.specs.Serving.{Covers, IsLaidOut, GainsAt};

use line_rules::{Cover, Flips, Labels, Step, cover_all, find_unborne, find_useless};
use result_text::ResultFile;
use std::alloc::Global;
use tor_arena::{Keys, NoMemory, PathId, Rows};
use tor_numbers::EdgeTable;

/// The place of the first line that breaks the rule on marks: edge lines, and then open lines.
pub(crate) fn find_unmarked(
    alloc: Global,
    keys: Keys,
    file: &ResultFile,
    table: &EdgeTable,
    labels: &Labels<'_>,
    steps: &Rows<PathId, Step>,
) -> Result<Option<usize>, NoMemory>
    requires lines { HasFewLines file.now }
    requires table { table.now ≡ its_edges file.now }
    requires labels { labels.now ≡ file.now.edges }
    requires steps { HaveCodedSteps (its_edges file.now) (its_paths file.now) steps.now }
    requires cleaned { IsMet file.now Rule.PathsCleaned }
    requires listed { IsMet file.now Rule.EdgesListed }
    requires served { IsMet file.now Rule.LabelsServe }
    ensures { IfOk result (FindsBreach file.now Rule.MarksBorneOut) }
{
    let flips = Flips::of_file(alloc, keys, file, table, labels, steps)?;
    let found = find_by_flips(alloc, file, table, &flips);
    drop(flips);
    found
}

/// The same, by what flips with what.
fn find_by_flips(
    alloc: Global,
    file: &ResultFile,
    table: &EdgeTable,
    flips: &Flips,
) -> Result<Option<usize>, NoMemory>
    requires lines { HasFewLines file.now }
    requires laid { IsLaidOut file.now table.now flips.now.implied flips.now.conflicting }
    ensures { IfOk result (FindsBreach file.now Rule.MarksBorneOut) }
{
    let cover = cover_all(alloc, file, table, flips)?;
    let found = find_by_cover(alloc, file, table, flips, &cover);
    drop(cover);
    found
}

/// The same, by what the open lines cover.
fn find_by_cover(
    alloc: Global,
    file: &ResultFile,
    table: &EdgeTable,
    flips: &Flips,
    cover: &Cover,
) -> Result<Option<usize>, NoMemory>
    requires lines { HasFewLines file.now }
    requires laid { IsLaidOut file.now table.now flips.now.implied flips.now.conflicting }
    requires many { length cover.now.rounds.items ≡ length file.now.edges }
    requires covered { Covers file.now (its_probes file.now) cover.now.rounds.items }
    requires idle { First (GainsAt file.now) (length file.now.probes) cover.now.idle }
    ensures { IfOk result (FindsBreach file.now Rule.MarksBorneOut) }
{
    if let Some(place) = find_unborne(alloc, file, table, cover)? {
        return Ok(Some(place));
    }
    let useless = find_useless(alloc, file, table, flips, cover.idle)?;
    // the open lines stand behind the edge lines
    match useless {
        Some(place) => Ok(Some(file.edges.len() + place)),
        None => Ok(None),
    }
}
