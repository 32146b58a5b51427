//! A test of the reading of dumps: what is taken up to a fault or a limit, which no program shows. What is read of whole dumps stands in
//! the rows of `tor_rows`, a record of many entries among them (`list-of-a-record-of-5000-routes`).
use dump_read::{DumpError, Fault, LimitKind, Place, Taken, Wanted, read_dump};
use mrt_frame::At;
use path_clean::{Asides, Cause, Sets};
use path_table::PathTable;
use std::alloc::Global;
use tor_arena::{Index, Keys, List, PathId};
use tor_io::MemShelf;

// A TABLE_DUMP record of the path 10 20, and eleven octets.
const ONE_EDGE_AND_MORE: &[u8] = &[
    0, 0, 0, 0, 0, 12, 0, 1, 0, 0, 0, 31, 0, 0, 0, 0, 10, 0, 0, 0, 8, 1, 0, 0, 0, 0, 192, 0, 2, 1,
    0, 10, 0, 9, 64, 2, 6, 2, 2, 0, 10, 0, 20, 0, 0, 0, 0, 0, 0, 0, 0, 0, 0, 0,
];

// A TABLE_DUMP record of the path 10 20, and one of the path 20 30.
const TWO_EDGES: &[u8] = &[
    0, 0, 0, 0, 0, 12, 0, 1, 0, 0, 0, 31, 0, 0, 0, 0, 10, 0, 0, 0, 8, 1, 0, 0, 0, 0, 192, 0, 2, 1,
    0, 10, 0, 9, 64, 2, 6, 2, 2, 0, 10, 0, 20, 0, 0, 0, 0, 0, 12, 0, 1, 0, 0, 0, 31, 0, 0, 0, 0,
    10, 0, 0, 0, 8, 1, 0, 0, 0, 0, 192, 0, 2, 1, 0, 10, 0, 9, 64, 2, 6, 2, 2, 0, 20, 0, 30,
];

/// A dump, the most paths, and what the reading answers once the path 10 20 is taken.
static CASES: [(&'static [u8], u32, DumpError); 2] = [
    (
        ONE_EDGE_AND_MORE,
        8,
        DumpError::Malformed(
            Place {
                dump: 1,
                at: At {
                    number: 2,
                    offset: 43,
                },
            },
            Fault::HeadCut,
        ),
    ),
    (TWO_EDGES, 1, DumpError::Limit(LimitKind::Paths)),
];

/// Whether the path 10 20 is the only one, of one route, and no route is set aside.
fn is_one_edge(taken: &Taken) -> bool {
    match PathId::from_place(0) {
        Some(id) if taken.table.len() == 1 => {
            taken.table.rows().row(id) == [10, 20].as_slice()
                && taken.table.times(id) == 1
                && taken.counts.get(Cause::NoPath) == 0
                && taken.counts.get(Cause::BadSegments) == 0
        }
        _ => false,
    }
}

/// What the reading of these octets answers; nothing where there is no memory for them.
fn read_octets(alloc: Global, octets: &[u8], taken: &mut Taken) -> Option<Result<(), DumpError>> {
    let mut shelf = MemShelf::new(alloc);
    let put = shelf.put("d", octets);
    let wanted = Wanted::all(Sets::Cut);
    let read = read_dump(alloc, &mut shelf, "d", 1, &wanted, taken);
    drop(shelf);
    match put {
        Ok(()) => Some(read),
        Err(_) => None,
    }
}

/// Whether the reading of these octets answers this, and has taken the path 10 20 then.
fn is_read_up_to(alloc: Global, keys: Keys, octets: &[u8], most: u32, error: DumpError) -> bool {
    let mut taken = Taken {
        table: PathTable::new(alloc, keys, most.clamp(1, 8)),
        counts: Asides::new(),
        files: List::new(alloc),
    };
    let is_right = read_octets(alloc, octets, &mut taken) == Some(Err(error))
        && is_one_edge(&taken);
    drop(taken);
    is_right
}

/// Whether each case is so.
fn are_read_up_to(alloc: Global, keys: Keys) -> bool {
    for (octets, most, error) in &CASES {
        if !is_read_up_to(alloc, keys, octets, *most, *error) {
            return false;
        }
    }
    true
}

#[test]
fn what_stands_before_a_fault_or_a_limit_is_taken(rt: HostRuntime) {
    assert!(rt; are_read_up_to(rt.alloc(), Keys::new(&rt)));
}
