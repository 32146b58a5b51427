//! Which why lines prove an order, the order of a label, and which why lines prove that an edge is forced.

ghost use Rattle.std.specs.Prelude.{◌≡◌, ◌<◌, ◌∷◌, [], length, Contains, IfOk, IfSome, IfNone, MatchOption};
ghost use Rattle.relationships.specs.declared.label.Label.TheVariants as label;
ghost use Rattle.relationships.specs.declared.mark.Mark.TheVariants as mark;
ghost use Rattle.relationships.specs.Evidence.{BeginsWith};
ghost use Rattle.result_rules.specs.declared.rule.Rule.TheVariants.{OrdersShown};
ghost use Rattle.result_rules.specs.File.{last_two, shown_orders};
ghost use Rattle.result_rules.specs.Rules.{Accepts, IsMet};
ghost use Rattle.telling.specs.Proving.{HasOrder, ProveTogether};
ghost use Rattle.telling.specs.Told.{IsProved};

use relationships::{Label, WalkRef};
use result_text::{EdgeLine, ResultFile};
use std::alloc::Global;
use tor_arena::{Index, List, NoMemory, WalkId};

/// The index of a why line that is there.
fn why_id(file: &ResultFile, place: usize) -> WalkId
    requires { place < length file.now.whys }
    ensures { result ≡ place }
{
    let count = file.whys.len();
    prove!(place < count);
    match WalkId::from_place(place) {
        Some(id) => id,
        None => unreachable!(),
    }
}

/// The first two ASes of a walk, if its last two are these.
fn begin_of(walk: &WalkRef<'_>, over: u32, under: u32) -> Option<(u32, u32)>
    ensures some { IfSome result (λ first. BeginsWith walk.now.ases first.0 first.1 × (last_two walk.now.ases ≡ (over, under) ∷ [])) }
    ensures none { IfNone result (last_two walk.now.ases ≡ (over, under) ∷ [] → ⊥) }
{
    let ases = walk.ases();
    let [.., a, b] = ases else {
        return None;
    };
    if *a != over || *b != under {
        return None;
    }
    let [first, second, ..] = ases else {
        return None;
    };
    Some((*first, *second))
}

/// The why lines that prove an order that one of them shows, in the order of the file: the one that shows it; if that begins with an
/// order that an earlier line shows, that line; and so on. NoMemory where memory ran out.
pub fn whys_for(
    alloc: Global,
    file: &ResultFile,
    over: u32,
    under: u32,
) -> Result<List<WalkId>, NoMemory>
    requires met { IsMet file.now OrdersShown }
    requires shown { Contains (shown_orders file.now.whys) (over, under) }
    ensures { IfOk result (λ whys. ProveTogether file.now whys over under) }
{
    let mut whys = Vec::new(alloc);
    let mut order = (over, under);
    let mut place = file.whys.len();
    while place > 0 {
        place -= 1;
        let id = why_id(file, place);
        let walk = file.whys.get(id);
        if let Some(first) = begin_of(&walk, order.0, order.1) {
            whys.push(id)?;
            if first.0 == order.1 && first.1 == order.0 {
                whys.reverse();
                return Ok(List::from_vec(whys));
            }
            order = first;
        }
    }
    unreachable!()
}

/// The order of the label of a line, the provider first, unless the two are peers. It takes no memory.
pub(crate) fn order_of(line: &EdgeLine) -> Option<(u32, u32)>
    ensures { MatchOption result (line.now.label ≡ label.Peer) (λ order. HasOrder line.now order.0 order.1) }
{
    match line.label {
        Label::Low => Some((line.low, line.high)),
        Label::High => Some((line.high, line.low)),
        Label::Peer => None,
    }
}

/// The why lines that prove the order of the label of a forced edge, in the order in which they are told: no others prove it. NoMemory
/// where memory ran out.
pub fn proof_of(alloc: Global, file: &ResultFile, line: &EdgeLine) -> Result<List<WalkId>, NoMemory>
    requires accepted { Accepts file.now }
    requires there { Contains file.now.edges line.now }
    requires forced { line.now.mark ≡ mark.Forced }
    ensures { IfOk result (IsProved file.now line.now) }
{
    let Some((over, under)) = order_of(line) else {
        unreachable!();
    };
    whys_for(alloc, file, over, under)
}
