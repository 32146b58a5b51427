//! Which edges have an order that a why line shows.

ghost use Rattle.std.specs.Prelude.{◌≡◌, ◌<◌, ◌≤◌, ℕ, ◌++◌, ◌∷◌, [], List as Items, length, IfOk};
ghost use Rattle.tor_arena.specs.Limits.{most_places};
ghost use Rattle.result_rules.specs.File.{last_two, shown_orders};
ghost use Rattle.line_rules.specs.EdgeLines.{edges_of, AreApart};
ghost use Rattle.line_rules.specs.Serving.{IsShownBy};

use crate::lending::walk_at;
use relationships::WalkRef;
use result_text::{EdgeLine, ResultFile};
use std::alloc::Global;
use tor_arena::{Arena, EdgeId, Index, NoMemory};
use tor_numbers::EdgeTable;

/// Notes that an order of two ASes is shown.
fn show(
    lines: &[EdgeLine],
    table: &EdgeTable,
    over: u32,
    under: u32,
    shown: &mut Arena<EdgeId, bool>,
)
    requires table { table.now ≡ edges_of lines.now }
    requires few { length lines.now ≤ most_places }
    requires apart { AreApart lines.now }
    requires many { length shown.old.items ≡ length lines.now }
    ensures many { length shown.new.items ≡ length lines.now }
    ensures shown { (orders : Items (ℕ × ℕ)) → IsShownBy lines.now orders shown.old.items →
        IsShownBy lines.now (orders ++ (over, under) ∷ []) shown.new.items }
{
    let Some(place) = table.place(over, under) else {
        return;
    };
    let Some(edge) = EdgeId::from_place(place) else {
        unreachable!();
    };
    shown.put(edge, true);
}

/// Notes that the order of the last two ASes of a walk is shown, where it has two.
fn show_last(
    lines: &[EdgeLine],
    table: &EdgeTable,
    walk: &WalkRef<'_>,
    shown: &mut Arena<EdgeId, bool>,
)
    requires table { table.now ≡ edges_of lines.now }
    requires few { length lines.now ≤ most_places }
    requires apart { AreApart lines.now }
    requires many { length shown.old.items ≡ length lines.now }
    ensures many { length shown.new.items ≡ length lines.now }
    ensures shown { (orders : Items (ℕ × ℕ)) → IsShownBy lines.now orders shown.old.items →
        IsShownBy lines.now (orders ++ last_two walk.now.ases) shown.new.items }
{
    let ases = walk.ases();
    let count = ases.len();
    if count >= 2 {
        show(lines, table, ases[count - 2], ases[count - 1], shown);
    }
}

/// The edges that have an order that a why line shows.
pub(crate) fn list_shown(
    alloc: Global,
    file: &ResultFile,
    table: &EdgeTable,
) -> Result<Arena<EdgeId, bool>, NoMemory>
    requires table { table.now ≡ edges_of file.now.edges }
    requires few { length file.now.edges ≤ most_places }
    requires apart { AreApart file.now.edges }
    ensures many { IfOk result (λ shown. length shown.items ≡ length file.now.edges) }
    ensures shown { IfOk result (λ shown. IsShownBy file.now.edges (shown_orders file.now.whys) shown.items) }
{
    let mut shown = Arena::new(alloc);
    shown.push_copies(false, file.edges.len())?;
    for place in 0..file.whys.len() {
        let walk = walk_at(&file.whys, place);
        show_last(file.edges.as_slice(), table, &walk, &mut shown);
    }
    Ok(shown)
}
