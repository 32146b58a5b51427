//! Distinct paths with their times, in an order, as a table has them, without what finds them.
ghost use Rattle.std.specs.Prelude.{◌≡◌, ◌≤◌, All, length, IfOk};
ghost use Rattle.tor_arena.specs.Distinct.{AllDistinct};
ghost use Rattle.path_table.specs.Rows.{row_paths, times_of};
ghost use Rattle.path_table.specs.Inside.{counted_by};
ghost use Rattle.path_order.specs.Orders.{ordered_behind};
ghost use Rattle.path_order.specs.TableRows.{AreTableRows};

use crate::choice::Order;
use crate::ordering::table_in_order;
use path_table::PathTable;
use std::alloc::Global;
use std::marker::Model;
use tor_arena::{List, NoMemory, PathId, Rows};

/// Distinct paths with their times, in an order. What finds a path in its table is gone.
#[derive(Drop)]
pub struct DistinctPaths {
    paths: Rows<PathId, u32>,
    counts: List<u64>,
}

impl Model for DistinctPaths {
    ghost use Rattle.std.specs.Prelude.{◌≡◌, List, length};
    ghost use Rattle.path_table.specs.Rows.{Counted};
    ghost use Rattle.path_table.specs.Inside.{counted_by};
    ghost use Rattle.path_order.specs.TableRows.{AreTableRows};

    ghost Value = { List Counted };

    ghost view = { λ held. counted_by held.paths held.counts };

    ghost invariant = { λ held. (length held.counts ≡ length held.paths) × AreTableRows (counted_by held.paths held.counts) };
}

impl DistinctPaths {
    /// The distinct paths of a table in an order: the first ones as they stand, so many of them, and behind them the others in this order.
    /// What finds paths is let go first. The only error is that memory ran out.
    pub fn of_table(
        alloc: Global,
        order: Order,
        kept: usize,
        table: PathTable,
    ) -> Result<DistinctPaths, NoMemory>
        requires { kept ≤ length table.rows }
        ensures { IfOk result (λ paths. paths ≡ ordered_behind order kept table.rows) }
    {
        table.facts();
        match table_in_order(alloc, order, kept, table) {
            Ok((paths, counts)) => Ok(DistinctPaths { paths, counts }),
            Err(NoMemory) => Err(NoMemory),
        }
    }

    /// What holds of the rows, as of a table's. It does nothing when it runs.
    pub fn facts(&self)
        ensures rows { AreTableRows self.now }
        ensures several { All (λ path. 2 ≤ length path) (row_paths self.now) }
        ensures apart { All AllDistinct (row_paths self.now) }
    {
        let _paths = &self.paths;
    }

    /// The paths in order. It takes no memory.
    pub fn rows(&self) -> &Rows<PathId, u32>
        ensures { result.now ≡ row_paths self.now }
    {
        &self.paths
    }

    /// How often each path was seen, in order. It takes no memory.
    pub fn times(&self) -> &[u64]
        ensures { result.now ≡ times_of self.now }
    {
        self.counts.as_slice()
    }

    /// The paths in order, and the times of each. It takes no memory.
    pub fn into_rows(self) -> (Rows<PathId, u32>, List<u64>)
        ensures paths { result.0 ≡ row_paths self }
        ensures times { result.1 ≡ times_of self }
    {
        (self.paths, self.counts)
    }
}
