//! Tests of an arena and of rows that have two places.
ghost use Rattle.std.specs.Prelude.{◌≡◌, ◌<◌, [], ℕ};
ghost use Rattle.std.proofs.Math.Dec.{lit≤};

use std::alloc::Global;
use std::marker::Model;
use std::test::Fail;
use tor_arena::{Arena, Index, PushRefused, RowRefused, Rows};

/// One of two places.
#[derive(Clone, Copy, PartialEq, Eq)]
struct Seat {
    number: u8,
}

impl Model for Seat {
    ghost Value = { ℕ };

    ghost view = { λ seat. seat.number };

    ghost invariant = { λ seat. seat.number < 2 };

    ghost inverse = { λ place. record { number = place } };
}

impl Index for Seat {
    const LIMIT: usize = 2;

    ghost LIMIT = { 2 };

    ghost place_of = { λ seat. seat };

    fn from_place(place: usize) -> Option<Seat> {
        if place < 2 {
            Some(Seat {
                number: place as u8,
            })
        } else {
            None
        }
    }

    fn place(self) -> usize {
        self.number as usize
    }

    ghost is_one = { λ i j same. same };

    ghost is_short = { lit≤ tt };
}

/// The item that a refused push gives back, where the arena is full.
fn refused_as_full(refused: PushRefused<u32>) -> Option<u32> {
    match refused {
        PushRefused::Full(item) => Some(item),
        PushRefused::NoMemory(_) => None,
    }
}

/// The places of two items that are pushed, the item that a full arena gives back, the mark, how many items are left when it was cut, and
/// the one that is left.
fn fill_small(arena: &mut Arena<Seat, u32>) -> Option<[usize; 6]>
    requires { arena.old.items ≡ [] }
{
    arena.reserve(2).ok()?;
    let first = arena.push(7).ok()?;
    let second = arena.push(8).ok()?;
    let refused = arena.push(9).err().and_then(refused_as_full);
    let mark = arena.mark();
    arena.cut_to(1);
    let back = refused.unwrap_or(0) as usize;
    let left = *arena.get(first) as usize;
    Some([first.place(), second.place(), back, mark, arena.len(), left])
}

fn small_arena_told(alloc: Global) -> Option<[usize; 6]> {
    let mut arena = Arena::new(alloc);
    let told = fill_small(&mut arena);
    drop(arena);
    told
}

#[test]
fn an_arena_of_two_places_takes_two_items(rt: HostRuntime) -> Result<(), Fail> {
    assert_eq!(rt; small_arena_told(rt.alloc()), Some([0, 1, 9, 2, 1, 7]));
    Ok(())
}

/// Whether the row at a place has these items.
fn is_row(rows: &Rows<Seat, u32>, place: usize, items: &[u32]) -> bool {
    match Seat::from_place(place) {
        Some(seat) if place < rows.len() => rows.row(seat) == items,
        _ => false,
    }
}

/// Whether the rows 1, 2 and an empty one stand at their places, and no third one is taken.
fn fill(rows: &mut Rows<Seat, u32>) -> [bool; 3] {
    let both = rows.push_row(&[1, 2]).is_ok() && rows.push_row(&[]).is_ok();
    let is_full = matches!(rows.push_row(&[3]), Err(RowRefused::Full));
    [
        both && is_full,
        is_row(rows, 0, &[1, 2]),
        is_row(rows, 1, &[]),
    ]
}

fn rows_told(alloc: Global) -> [bool; 3] {
    let mut rows = Rows::new(alloc);
    let told = fill(&mut rows);
    drop(rows);
    told
}

#[test]
fn two_rows_stand_where_two_have_a_place(rt: HostRuntime) -> Result<(), Fail> {
    assert_eq!(rt; rows_told(rt.alloc()), [true; 3]);
    Ok(())
}
