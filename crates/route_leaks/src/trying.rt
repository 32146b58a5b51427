//! What would become of paths behind all that are kept.
ghost use Rattle.std.specs.Prelude.{◌≡◌, ◌<◌, [], All, length, OnOk};
ghost use Rattle.tor_clauses.specs.Formulas.{FitsGraph};
ghost use Rattle.route_leaks.specs.Inside.{AreTriedFates};

use crate::meeting::Sighting;
use crate::naming::{Naming, add_named};
use as_graph::AsGraph;
use path_select::Selector;
use relationships::Fates;
use std::alloc::Global;
use tor_arena::{Index, List, NoMemory};

/// Adds what would become of each of these paths of a graph if it were offered behind those that the selector keeps: each is offered and
/// taken back, so none depends on another. Links are named so. The only error is that memory ran out.
pub(crate) fn try_all(
    alloc: Global,
    graph: &AsGraph,
    selector: &mut Selector,
    met: &[Sighting],
    naming: &Naming,
    fates: &mut Fates,
) -> Result<(), NoMemory>
    requires fits { FitsGraph graph.now selector.old.formula }
    requires there { All (λ path. path.place < length graph.now) met.now }
    requires none { fates.old ≡ [] }
    ensures { OnOk result (AreTriedFates graph.now selector.old.formula.paths naming.now met.now fates.new) }
{
    let mut links = List::new(alloc);
    for path in met {
        let fate = selector.try_offer(alloc, graph, path.place)?;
        let number = path.place.place() as u32 + 1;
        add_named(naming, number, &fate, &mut links, fates)?;
    }
    Ok(())
}
