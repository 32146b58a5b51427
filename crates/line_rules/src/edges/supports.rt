//! How many kept paths hold each edge.
ghost use Rattle.std.specs.Prelude.{◌≡◌, ◌+◌, ◌<◌, ◌≤◌, ℕ, [], ◌∷◌, All, List, length, count_by, nat_eq, slice_index, IsTrue, IfOk};
ghost use Rattle.tor_arena.specs.Limits.{max_paths, max_numbers};
ghost use Rattle.relationships.specs.Evidence.{paths_of};
ghost use Rattle.relationships.specs.Graph.{support};
ghost use Rattle.result_text.specs.declared.file.EdgeLine.{EdgeLine};
ghost use Rattle.tor_arena.specs.Distinct.{is_distinct};
ghost use Rattle.result_rules.specs.File.{its_edges, its_kept, its_paths};
ghost use Rattle.line_rules.specs.EdgeLines.{edges_of, AreApart};
ghost use Rattle.line_rules.specs.PathSteps.{place_in, AreCodedSteps, HaveCodedSteps};
ghost use Rattle.result_rules.specs.declared.rule.Rule.{Rule};
ghost use Rattle.result_rules.specs.Rules.{IsMet};
ghost use Rattle.line_rules.specs.Tables.{HaveRisen, AreCounts, kept_in};

use crate::edges::step::Step;
use crate::lending::{path_line_at, steps_at};
use result_text::{PathLineRef, ResultFile};
use std::alloc::Global;
use tor_arena::{NoMemory, PathId, Rows};

/// How many kept paths hold each edge of the edge lines.
pub(crate) fn count_kept(
    alloc: Global,
    file: &ResultFile,
    steps: &Rows<PathId, Step>,
) -> Result<Vec<u64>, NoMemory>
    requires clean { IsMet file.now Rule.PathsCleaned }
    requires listed { IsMet file.now Rule.EdgesListed }
    requires steps { HaveCodedSteps (its_edges file.now) (its_paths file.now) steps.now }
    ensures { IfOk result (λ counts. AreCounts (its_edges file.now) (support (paths_of (its_kept file.now))) counts.items) }
{
    let mut counts = vec![in alloc; 0; file.edges.len()]?;
    for place in 0..file.paths.len() {
        let line = path_line_at(&file.paths, place);
        count_line(&line, steps_at(steps, place), &mut counts);
    }
    Ok(counts)
}

/// Counts a path once at each of its edges, if it is kept.
fn count_line(line: &PathLineRef<'_>, steps: &[Step], counts: &mut Vec<u64>)
    requires inside { All (λ s. place_in s < length counts.old.items) steps.now }
    requires distinct { IsTrue (is_distinct line.now.path) }
    requires short { length steps.now ≤ max_numbers }
    requires few { (k : ℕ) → slice_index counts.old.items k ≤ max_paths }
    ensures { (lines : List EdgeLine) → AreApart lines → length counts.old.items ≡ length lines →
        AreCodedSteps (edges_of lines) line.now.path steps.now →
        HaveRisen (edges_of lines) (support (kept_in (line.now ∷ []))) counts.old.items counts.new.items }
{
    if line.is_kept() {
        count_steps(steps, counts);
    }
}

/// Counts each step at its edge.
fn count_steps(steps: &[Step], counts: &mut Vec<u64>)
    requires inside { All (λ s. place_in s < length counts.old.items) steps.now }
    requires short { length steps.now ≤ max_numbers }
    requires few { (k : ℕ) → slice_index counts.old.items k ≤ max_paths }
    ensures same { length counts.new.items ≡ length counts.old.items }
    ensures counted { (k : ℕ) → slice_index counts.new.items k ≡
        slice_index counts.old.items k + count_by (λ s. nat_eq (place_in s) k) steps.now }
{
    for step in steps {
        counts[step.place()] += 1;
    }
}
