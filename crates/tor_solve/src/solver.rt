//! An orientation that serves, or a walk that refutes.
//!
//! A walk begins at the first edge whose literals share a class, and no shorter one is looked for.
ghost use Rattle.std.specs.Prelude.{◌≡◌, length, IfOk};
ghost use Rattle.relationships.specs.Graph.{edges};
ghost use Rattle.relationships.specs.Evidence.{Refutes};
ghost use Rattle.tor_clauses.specs.Formulas.{numbered_of, MeetsDemands};
ghost use Rattle.tor_solve.specs.Solutions.{IfModel, IfWalk, IsExact};

use crate::later::{clash, later_ends};
use crate::solution::Solution;
use crate::strong::components;
use crate::walking::walk_round;
use std::alloc::Global;
use tor_arena::NoMemory;
use tor_clauses::{Fitted, model_law};

/// Whether some orientation serves the paths of the clauses: such an orientation, or a walk that refutes. The
/// only error is that memory ran out.
///
/// Where an order of two neighbours and its opposite lead to each other, the walk goes round from the one to the other and back.
/// Otherwise the order of the later strong component holds (Aspvall, Plass and Tarjan 1979).
pub fn solve(alloc: Global, fitted: &Fitted<'_>) -> Result<Solution, NoMemory>
    ensures many { IfOk result (λ solution. IfModel solution (λ ends. length ends ≡ length (edges fitted.now.graph))) }
    ensures model { IfOk result (λ solution. IfModel solution (λ ends. MeetsDemands fitted.now.graph fitted.now.formula ends)) }
    ensures walk { IfOk result (λ solution. IfWalk solution (Refutes (numbered_of fitted.now.graph fitted.now.formula))) }
    ensures exact { IfOk result (IsExact fitted.now.graph fitted.now.formula) }
{
    fitted.facts();
    model_law();
    let count = fitted.digraph().node_count() / 2;
    let parts = components(alloc, fitted.digraph())?;
    match clash(&parts, count) {
        Some(edge) => {
            let walk = walk_round(alloc, fitted, edge)?;
            Ok(Solution::Walk(walk))
        }
        None => {
            let ends = later_ends(alloc, &parts, count)?;
            Ok(Solution::Model(ends))
        }
    }
}
