//! The numbers of lines, from 1, of what stands in a place, from 0.

ghost use Rattle.std.specs.Prelude.{◌≡◌, ◌+◌, ◌-◌, ◌*◌, ◌<◌, ◌≤◌, length};
ghost use Rattle.result_rules.specs.File as said;
ghost use Rattle.result_text.specs.Numbering as numbering;
ghost use Rattle.result_rules.specs.File.{its_givens, most_lines, HasFewLines};
ghost use Rattle.result_rules.specs.declared.rule.Rule.TheVariants.{MarksBorneOut};
ghost use Rattle.result_rules.specs.Rules.{line_for};

use crate::lending::givens_of;
use result_text::ResultFile;

/// Ten lines stand before the givens of every file.
pub fn given_line(_file: &ResultFile, place: usize) -> u64
    requires { place ≤ 2 * most_lines }
    ensures { result ≡ said.given_line_number _file.now place }
{
    11 + place as u64
}

/// Behind the givens stand the paths.
pub fn path_line(file: &ResultFile, place: usize) -> u64
    requires { length (its_givens file.now) + place ≤ 2 * most_lines }
    ensures { result ≡ said.path_line_number file.now place }
{
    given_line(file, givens_of(file).len()) + place as u64
}

/// Behind the paths stand the edges.
pub fn edge_line(file: &ResultFile, place: usize) -> u64
    requires { length (its_givens file.now) + length file.now.paths + place ≤ 2 * most_lines }
    ensures { result ≡ said.edge_line_number file.now place }
{
    path_line(file, file.paths.len()) + place as u64
}

/// Behind the edges stand the why lines.
pub fn why_line(file: &ResultFile, place: usize) -> u64
    requires { length (its_givens file.now) + length file.now.paths + length file.now.edges + place ≤ 2 * most_lines }
    ensures { result ≡ said.why_line_number file.now place }
{
    edge_line(file, file.edges.len()) + place as u64
}

/// Behind the why lines stand the open lines.
fn open_line(file: &ResultFile, place: usize) -> u64
    requires { length (its_givens file.now) + length file.now.paths + length file.now.edges + length file.now.whys + place ≤
        2 * most_lines }
    ensures { result ≡ said.open_line file.now place }
{
    why_line(file, file.whys.len()) + place as u64
}

/// The lines with marks are the edge lines and the open lines.
pub fn mark_line(file: &ResultFile, place: usize) -> u64
    requires lines { HasFewLines file.now }
    requires place { place < length file.now.edges + length file.now.probes }
    ensures { result ≡ line_for file.now MarksBorneOut place }
{
    let edges = file.edges.len();
    if place < edges {
        edge_line(file, place)
    } else {
        open_line(file, place - edges)
    }
}

/// The last line stands behind the open lines.
pub fn last_line(file: &ResultFile) -> u64
    requires { HasFewLines file.now }
    ensures { result ≡ numbering.last_line file.now }
{
    open_line(file, file.probes.len())
}
