//! The open edges, and how many of them stand before each edge.
ghost use Rattle.std.specs.Prelude.{◌≡◌, ◌<◌, length, IfOk};
ghost use Rattle.tor_arena.specs.Limits.{max_numbers};
ghost use Rattle.ties.specs.Tied.{open_from};
ghost use Rattle.asks.specs.Narrowing.{AreOpensBefore, one_if_open};

use relationships::Mark;
use std::alloc::Global;
use tor_arena::{EdgeId, Index, List, NoMemory};

/// The places of the open edges, in order. The only error is that memory ran out.
pub(crate) fn open_places(alloc: Global, marks: &[Mark]) -> Result<List<EdgeId>, NoMemory>
    requires { length marks.now < max_numbers }
    ensures { IfOk result (λ places. places ≡ open_from 0 marks.now) }
{
    let mut places = List::new(alloc);
    for place in 0..marks.len() {
        match marks[place] {
            Mark::Forced => {}
            Mark::Open => places.push(EdgeId::from_place(place).unwrap())?,
        }
    }
    Ok(places)
}

/// How many open edges an edge of this mark is.
fn one_if_open(mark: Mark) -> u32
    ensures { result ≡ one_if_open mark }
{
    match mark {
        Mark::Forced => 0,
        Mark::Open => 1,
    }
}

/// For each edge how many open ones stand before it. The only error is that memory ran out.
pub(crate) fn opens_before(alloc: Global, marks: &[Mark]) -> Result<List<u32>, NoMemory>
    requires { length marks.now < max_numbers }
    ensures { IfOk result (λ before. AreOpensBefore marks.now before) }
{
    let mut before = List::new(alloc);
    let mut count = 0;
    for place in 0..marks.len() {
        before.push(count)?;
        count += one_if_open(marks[place]);
    }
    Ok(before)
}
