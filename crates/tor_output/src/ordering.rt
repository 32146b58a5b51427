//! The distinct paths of a run, in its order.
ghost use Rattle.std.specs.Prelude.{◌≡◌, ◌≤◌, IfOk, length};
ghost use Rattle.path_order.specs.Orders.{ordered, ordered_behind};

use path_order::DistinctPaths;
use path_table::PathTable;
use std::alloc::Global;
use tor_arena::NoMemory;
use tor_words::Settings;

/// The distinct paths of a table, in the order of the settings.
pub(crate) fn paths_in_order(
    alloc: Global,
    settings: &Settings,
    table: PathTable,
) -> Result<DistinctPaths, NoMemory>
    ensures { IfOk result (λ paths. paths ≡ ordered settings.now.order table.rows) }
{
    DistinctPaths::of_table(alloc, settings.order, 0, table)
}

/// The same where the first of them, so many, stay as they stand.
pub(crate) fn paths_behind(
    alloc: Global,
    settings: &Settings,
    first: usize,
    table: PathTable,
) -> Result<DistinctPaths, NoMemory>
    requires { first ≤ length table.rows }
    ensures { IfOk result (λ paths. paths ≡ ordered_behind settings.now.order first table.rows) }
{
    DistinctPaths::of_table(alloc, settings.order, first, table)
}
