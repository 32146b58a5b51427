//! The rule on why lines.
ghost use Rattle.std.specs.Prelude.{◌≡◌, [], IfOk};
ghost use Rattle.result_rules.specs.declared.rule.Rule.TheVariants.{OrdersShown};
ghost use Rattle.line_rules.specs.Breaches.{FindsBreach};

use crate::lending::walk_at;
use crate::walks::pairs::Pairs;
use crate::walks::shown::shown_by;
use result_text::ResultFile;
use std::alloc::Global;
use tor_arena::{Keys, NoMemory};

/// The place of the first why line that shows no order, or one of two ASes of which an earlier line shows an order; none where rule 8 is
/// met. The keys are those of a hash table, and no answer depends on them. NoMemory where memory ran out.
pub fn find_unshown(alloc: Global, keys: Keys, file: &ResultFile) -> Result<Option<usize>, NoMemory>
    ensures { IfOk result (FindsBreach file.now OrdersShown) }
{
    let mut shown = Pairs::new(alloc, keys);
    let found = first_unshown(file, &mut shown);
    drop(shown);
    found
}

/// The same, by the orders that the lines before show, where there are none yet.
fn first_unshown(file: &ResultFile, shown: &mut Pairs) -> Result<Option<usize>, NoMemory>
    requires { shown.old ≡ [] }
    ensures { IfOk result (FindsBreach file.now OrdersShown) }
{
    for place in 0..file.whys.len() {
        let walk = walk_at(&file.whys, place);
        let Some((over, under)) = shown_by(file, shown, &walk) else {
            return Ok(Some(place));
        };
        shown.push(over, under)?;
    }
    Ok(None)
}
