//! Rule 4: each lost path has a walk that refutes it.
ghost use Rattle.std.specs.Prelude.{◌≡◌, ◌≤◌, ◌↔◌, IsTrue, Some, length, take};
ghost use Rattle.relationships.specs.declared.walk.Walk.{Walk};
ghost use Rattle.relationships.specs.GivenEvidence.{RefutesWith};
ghost use Rattle.relationships.specs.declared.fate.Fate.TheVariants.{Lost};
ghost use Rattle.line_rules.specs.Naming.{nameable};
ghost use Rattle.result_rules.specs.File.{its_givens};
ghost use Rattle.result_rules.specs.declared.rule.Rule.TheVariants.{LostRefuted};
ghost use Rattle.line_rules.specs.Breaches.{FindsBreach};

use crate::closed_walks::comes_back;
use line_rules::{is_walk, path_line_at};
use relationships::WalkRef;
use result_text::{PathLineRef, ResultFile};

/// Whether the walk refutes by the givens over the paths of the kept lines before a place and of the line in it.
fn refutes(file: &ResultFile, place: usize, line: &PathLineRef<'_>, walk: &WalkRef<'_>) -> bool
    requires { place ≤ length file.now.paths }
    ensures { IsTrue result ↔ RefutesWith (its_givens file.now) (nameable (take place file.now.paths) (Some line.now)) walk.now }
{
    comes_back(walk.ases()) && is_walk(file, place, Some(line), walk)
}

/// Whether the line in a place is kept, or its walk refutes by the givens over the paths of the kept lines before it and its own.
fn is_lost_rightly(file: &ResultFile, place: usize, line: &PathLineRef<'_>) -> bool
    requires { place ≤ length file.now.paths }
    ensures { IsTrue result ↔ ((walk : Walk) → line.now.fate ≡ Lost walk →
        RefutesWith (its_givens file.now) (nameable (take place file.now.paths) (Some line.now)) walk) }
{
    match line.walk() {
        None => true,
        Some(walk) => refutes(file, place, line, walk),
    }
}

/// The place of the first lost line whose walk doesn't refute. It takes no memory.
pub(crate) fn find_unrefuted(file: &ResultFile) -> Option<usize>
    ensures { FindsBreach file.now LostRefuted result }
{
    for place in 0..file.paths.len() {
        let line = path_line_at(&file.paths, place);
        if !is_lost_rightly(file, place, &line) {
            return Some(place);
        }
    }
    None
}
