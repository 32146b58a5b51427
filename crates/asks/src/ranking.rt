//! Open edges in the order in which it is worth to ask for them.
ghost use Rattle.std.specs.Prelude.{◌≡◌, IsPermutation, IsSorted};
ghost use Rattle.asks.specs.Asks.{ask_cmp, at_least, in_both};

use crate::ask::Ask;
use std::cmp::Ordering;
use tor_arena::Index;

/// How many edges are forced at least, whichever of the two ASes is the provider.
fn at_least(ask: &Ask) -> u32
    ensures { result ≡ at_least ask.now }
{
    ask.if_low.min(ask.if_high)
}

/// How many are forced in both cases together.
fn in_both(ask: &Ask) -> u64
    ensures { result ≡ in_both ask.now }
{
    u64::from(ask.if_low) + u64::from(ask.if_high)
}

/// Which of two open edges comes first: the one that settles more at least, of two of these the one with the greater sum, and of two of
/// these the earlier edge.
fn compared(a: &Ask, b: &Ask) -> Ordering
    ensures { result ≡ ask_cmp a.now b.now }
{
    match at_least(b).cmp(&at_least(a)) {
        Ordering::Equal => {}
        order => return order,
    }
    match in_both(b).cmp(&in_both(a)) {
        Ordering::Equal => {}
        order => return order,
    }
    a.edge.place().cmp(&b.edge.place())
}

/// Puts open edges in their order. It takes no memory.
pub(crate) fn sort_asks(asks: &mut Vec<Ask>)
    ensures same { IsPermutation asks.old.items asks.new.items }
    ensures sorted { IsSorted ask_cmp asks.new.items }
{
    asks.sort_unstable_by(|a, b| compared(a, b));
}
