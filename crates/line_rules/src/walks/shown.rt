//! What a walk shows.
ghost use Rattle.std.specs.Prelude.{◌≡◌, ◌↔◌, ℕ, [], ◌∷◌, None, IsTrue, IfSome, IfNone, MatchOption, Contains, ◌⊎◌};
ghost use Rattle.relationships.specs.GivenEvidence.{ShowsWith};
ghost use Rattle.result_rules.specs.File.{last_two, its_givens, its_kept};
ghost use Rattle.line_rules.specs.Showing.{Starts};

use crate::walks::links::is_walk;
use crate::walks::pairs::Pairs;
use relationships::WalkRef;
use result_text::ResultFile;

/// The order that a walk shows: its last two ASes. It takes no memory.
pub(crate) fn last_two(ases: &[u32]) -> Option<(u32, u32)>
    ensures { MatchOption result (last_two ases.now ≡ []) (λ order. last_two ases.now ≡ order ∷ []) }
{
    match ases {
        [.., over, under] => Some((*over, *under)),
        _ => None,
    }
}

/// Whether they begin with "under over", or with an order that is shown.
fn starts(ases: &[u32], shown: &Pairs, over: u32, under: u32) -> bool
    ensures { IsTrue result ↔ Starts ases.now shown.now over under }
{
    let [first, second, ..] = ases else {
        return false;
    };
    if *first == under && *second == over {
        return true;
    }
    shown.has(*first, *second)
}

/// Whether the order or its opposite is shown.
fn is_known(shown: &Pairs, over: u32, under: u32) -> bool
    ensures { IsTrue result ↔ Contains shown.now (over, under) ⊎ Contains shown.now (under, over) }
{
    shown.has(over, under) || shown.has(under, over)
}

/// The order that the walk shows by the givens over the kept paths, if it shows one that is new.
pub(crate) fn shown_by(file: &ResultFile, shown: &Pairs, walk: &WalkRef<'_>) -> Option<(u32, u32)>
    ensures some { IfSome result (λ order. ShowsWith (its_givens file.now) (its_kept file.now) shown.now walk.now order.0 order.1) }
    ensures none { IfNone result ((a b : ℕ) → ShowsWith (its_givens file.now) (its_kept file.now) shown.now walk.now a b → ⊥) }
{
    let ases = walk.ases();
    let Some((over, under)) = last_two(ases) else {
        return None;
    };
    if !starts(ases, shown, over, under) {
        return None;
    }
    if is_known(shown, over, under) {
        return None;
    }
    if !is_walk(file, file.paths.len(), None, walk) {
        return None;
    }
    Some((over, under))
}
