//! Which marks are borne out.

ghost use Rattle.std.specs.Prelude.{◌≡◌, ◌≤◌, length, IfOk};
ghost use Rattle.tor_arena.specs.Limits.{most_places};
ghost use Rattle.relationships.specs.Graph.{edges};
ghost use Rattle.result_rules.specs.File.{its_edges, its_paths, its_probes, shown_orders};
ghost use Rattle.line_rules.specs.Breaches.{First};
ghost use Rattle.line_rules.specs.EdgeLines.{edges_of, AreApart};
ghost use Rattle.line_rules.specs.Serving.{Covers, IsShownBy, MarkedAt, is_borne};

use crate::marks::serving::Cover;
use crate::marks::showing::list_shown;
use relationships::Label;
use result_text::{EdgeLine, Mark, ResultFile};
use std::alloc::Global;
use tor_arena::{Arena, EdgeId, Index, NoMemory};
use tor_numbers::EdgeTable;

/// Whether the mark of an edge is borne out, by whether an order of it is shown, and whether an
/// open line's closure has its other order.
fn is_borne_out(line: &EdgeLine, shown: bool, covered: bool) -> bool
    ensures { result ≡ is_borne line.now.mark line.now.label shown covered }
{
    match (line.mark, line.label) {
        (Mark::Forced, _) => shown,
        (Mark::Open, Label::Peer) => true,
        (Mark::Open, _) => covered,
    }
}

/// The place of the first edge line whose mark is not borne out, by what the why lines show and what the open lines cover; none where
/// each one is. NoMemory where memory ran out.
pub fn find_unborne(
    alloc: Global,
    file: &ResultFile,
    table: &EdgeTable,
    cover: &Cover,
) -> Result<Option<usize>, NoMemory>
    requires table { table.now ≡ edges_of file.now.edges }
    requires few { length file.now.edges ≤ most_places }
    requires apart { AreApart file.now.edges }
    requires whole { its_edges file.now ≡ edges (its_paths file.now) }
    requires many { length cover.now.rounds.items ≡ length file.now.edges }
    requires covered { Covers file.now (its_probes file.now) cover.now.rounds.items }
    ensures { IfOk result (First (MarkedAt file.now) (length file.now.edges)) }
{
    let shown = list_shown(alloc, file, table)?;
    let found = first_unborne(file, &shown, &cover.rounds);
    drop(shown);
    Ok(found)
}

/// The same, by the edges that are shown.
fn first_unborne(
    file: &ResultFile,
    shown: &Arena<EdgeId, bool>,
    rounds: &Arena<EdgeId, usize>,
) -> Option<usize>
    requires few { length file.now.edges ≤ most_places }
    requires whole { its_edges file.now ≡ edges (its_paths file.now) }
    requires many { length shown.now.items ≡ length file.now.edges }
    requires rounds { length rounds.now.items ≡ length file.now.edges }
    requires shown { IsShownBy file.now.edges (shown_orders file.now.whys) shown.now.items }
    requires covered { Covers file.now (its_probes file.now) rounds.now.items }
    ensures { First (MarkedAt file.now) (length file.now.edges) result }
{
    for (k, line) in file.edges.as_slice().iter().enumerate() {
        let Some(edge) = EdgeId::from_place(k) else {
            unreachable!();
        };
        let covered = *rounds.get(edge) == 1;
        if !is_borne_out(line, *shown.get(edge), covered) {
            return Some(k);
        }
    }
    None
}
