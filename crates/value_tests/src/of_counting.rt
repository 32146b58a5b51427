//! A test of which routes of dumps count, by the family of their record and the AS of their peer. The dump is put together by hand after
//! RFC 6396 and RFC 8050.
use dump_read::{DumpError, Families, Fault, LimitKind, Place, Taken, Wanted, read_dump};
use mrt_frame::At;
use mrt_header::Family;
use path_attrs::RibFault;
use path_clean::{Asides, Sets};
use path_table::PathTable;
use std::alloc::Global;
use tor_arena::{Index, Keys, List, NoMemory, PathId};
use tor_io::MemShelf;

// A peer table of AS 200000 with an IPv6 address and AS 20; an IPv4 RIB of the paths 200000 30 and 20 30 of both; an IPv6 RIB with path
// identifiers of 20 40 of the second; a peer table of AS 20 alone; an IPv4 RIB with path identifiers of 20 50 of it; a TABLE_DUMP record of
// IPv4 of 20 60 of AS 20, and one of IPv6 of 7 70 of AS 23456; an IPv6 RIB that is cut.
const DUMP: &[u8] = &[
    0, 0, 0, 0, 0, 13, 0, 1, 0, 0, 0, 44, 0, 0, 0, 0, 0, 0, 0, 2, 3, 0, 0, 0, 0, 32, 1, 0, 0, 0, 0,
    0, 0, 0, 0, 0, 0, 0, 0, 0, 0, 0, 3, 13, 64, 0, 0, 0, 0, 0, 192, 0, 2, 1, 0, 20, 0, 0, 0, 0, 0,
    13, 0, 2, 0, 0, 0, 50, 0, 0, 0, 0, 8, 10, 0, 2, 0, 0, 0, 0, 0, 0, 0, 13, 64, 2, 10, 2, 2, 0, 3,
    13, 64, 0, 0, 0, 30, 0, 1, 0, 0, 0, 0, 0, 13, 64, 2, 10, 2, 2, 0, 0, 0, 20, 0, 0, 0, 30, 0, 0,
    0, 0, 0, 13, 0, 10, 0, 0, 0, 33, 0, 0, 0, 0, 8, 32, 0, 1, 0, 1, 0, 0, 0, 0, 0, 0, 0, 7, 0, 13,
    64, 2, 10, 2, 2, 0, 0, 0, 20, 0, 0, 0, 40, 0, 0, 0, 0, 0, 13, 0, 1, 0, 0, 0, 19, 0, 0, 0, 0, 0,
    0, 0, 1, 0, 0, 0, 0, 0, 192, 0, 2, 1, 0, 20, 0, 0, 0, 0, 0, 13, 0, 8, 0, 0, 0, 33, 0, 0, 0, 0,
    8, 10, 0, 1, 0, 0, 0, 0, 0, 0, 0, 0, 0, 7, 0, 13, 64, 2, 10, 2, 2, 0, 0, 0, 20, 0, 0, 0, 50, 0,
    0, 0, 0, 0, 12, 0, 1, 0, 0, 0, 31, 0, 0, 0, 0, 10, 0, 0, 0, 8, 1, 0, 0, 0, 0, 192, 0, 0, 0, 0,
    20, 0, 9, 64, 2, 6, 2, 2, 0, 20, 0, 60, 0, 0, 0, 0, 0, 12, 0, 2, 0, 0, 0, 55, 0, 0, 0, 0, 10,
    0, 0, 0, 0, 0, 0, 0, 0, 0, 0, 0, 0, 0, 0, 0, 8, 1, 0, 0, 0, 0, 192, 0, 0, 0, 0, 0, 0, 0, 0, 0,
    0, 0, 0, 0, 0, 0, 91, 160, 0, 9, 64, 2, 6, 2, 2, 0, 7, 0, 70, 0, 0, 0, 0, 0, 13, 0, 4, 0, 0, 0,
    8, 0, 0, 0, 0, 8, 32, 0, 1,
];

/// How many octets stand before the RIB that is cut.
const WHOLE: usize = 349;

/// So many octets of the dump, read with room for so many paths; what is wanted of them; the paths that are taken, each once, and how the
/// reading ends, if it isn't at the end.
struct Case {
    octets: usize,
    most: u32,
    families: Families,
    from: Option<&'static [u32]>,
    paths: &'static [[u32; 2]],
    error: Option<DumpError>,
}

/// The fault of the RIB that is cut, whose number is 8.
const CUT: DumpError = DumpError::Malformed(
    Place {
        dump: 1,
        at: At {
            number: 8,
            offset: 349,
        },
    },
    Fault::Rib(RibFault::Cut),
);

static CASES: [Case; 12] = [
    Case {
        octets: WHOLE,
        most: 8,
        families: Families::Both,
        from: None,
        paths: &[
            [200000, 30],
            [20, 30],
            [20, 40],
            [20, 50],
            [20, 60],
            [7, 70],
        ],
        error: None,
    },
    Case {
        octets: WHOLE,
        most: 8,
        families: Families::Only(Family::Ipv4),
        from: None,
        paths: &[[200000, 30], [20, 30], [20, 50], [20, 60]],
        error: None,
    },
    Case {
        octets: WHOLE,
        most: 8,
        families: Families::Only(Family::Ipv6),
        from: None,
        paths: &[[20, 40], [7, 70]],
        error: None,
    },
    Case {
        octets: WHOLE,
        most: 8,
        families: Families::Both,
        from: Some(&[20, 20]),
        paths: &[[20, 30], [20, 40], [20, 50], [20, 60]],
        error: None,
    },
    Case {
        octets: WHOLE,
        most: 8,
        families: Families::Both,
        from: Some(&[23456, 200000]),
        paths: &[[200000, 30], [7, 70]],
        error: None,
    },
    Case {
        octets: WHOLE,
        most: 8,
        families: Families::Only(Family::Ipv4),
        from: Some(&[200000]),
        paths: &[[200000, 30]],
        error: None,
    },
    Case {
        octets: WHOLE,
        most: 8,
        families: Families::Only(Family::Ipv6),
        from: Some(&[20]),
        paths: &[[20, 40]],
        error: None,
    },
    Case {
        octets: WHOLE,
        most: 8,
        families: Families::Both,
        from: Some(&[0, 7, 30]),
        paths: &[],
        error: None,
    },
    Case {
        octets: WHOLE,
        most: 4,
        families: Families::Both,
        from: None,
        paths: &[[200000, 30], [20, 30], [20, 40], [20, 50]],
        error: Some(DumpError::Limit(LimitKind::Paths)),
    },
    Case {
        octets: WHOLE,
        most: 4,
        families: Families::Only(Family::Ipv4),
        from: None,
        paths: &[[200000, 30], [20, 30], [20, 50], [20, 60]],
        error: None,
    },
    Case {
        octets: DUMP.len(),
        most: 8,
        families: Families::Only(Family::Ipv4),
        from: None,
        paths: &[[200000, 30], [20, 30], [20, 50], [20, 60]],
        error: Some(CUT),
    },
    Case {
        octets: DUMP.len(),
        most: 8,
        families: Families::Both,
        from: Some(&[23456]),
        paths: &[[7, 70]],
        error: Some(CUT),
    },
];

/// The list of the ASes, if there is one.
fn list_of(alloc: Global, ases: Option<&[u32]>) -> Result<Option<List<u32>>, NoMemory> {
    let Some(ases) = ases else {
        return Ok(None);
    };
    let mut list = List::new(alloc);
    match list.extend_from_slice(ases) {
        Ok(()) => Ok(Some(list)),
        Err(NoMemory) => {
            drop(list);
            Err(NoMemory)
        }
    }
}

/// Whether exactly these paths are taken, each once.
fn are_taken(taken: &Taken, paths: &[[u32; 2]]) -> bool {
    if taken.table.len() != paths.len() {
        return false;
    }
    for place in 0..paths.len() {
        match PathId::from_place(place) {
            Some(id) if id.place() < taken.table.len() => {
                if taken.table.rows().row(id) != paths[place].as_slice()
                    || taken.table.times(id) != 1
                {
                    return false;
                }
            }
            _ => return false,
        }
    }
    true
}

/// Whether the file that was read to its end has so many routes.
fn has_routes(taken: &Taken, many: usize) -> bool {
    match taken.files.as_slice().first() {
        Some(file) => file.routes == many as u64,
        None => false,
    }
}

/// How the reading ends.
fn read_case(alloc: Global, case: &Case, wanted: &Wanted, taken: &mut Taken) -> Option<DumpError> {
    let mut shelf = MemShelf::new(alloc);
    let put = shelf.put("d", DUMP.get(..case.octets).unwrap_or(DUMP));
    let read = read_dump(alloc, &mut shelf, "d", 1, wanted, taken);
    drop(shelf);
    match (put, read) {
        (Ok(()), Ok(())) => None,
        (Ok(()), Err(error)) => Some(error),
        _ => Some(DumpError::NoMemory),
    }
}

/// Whether a case is so.
fn is_so(alloc: Global, keys: Keys, case: &Case) -> bool {
    let Ok(from) = list_of(alloc, case.from) else {
        return false;
    };
    let wanted = Wanted {
        sets: Sets::Cut,
        families: case.families,
        from,
    };
    let mut taken = Taken {
        table: PathTable::new(alloc, keys, case.most.clamp(1, 8)),
        counts: Asides::new(),
        files: List::new(alloc),
    };
    let error = read_case(alloc, case, &wanted, &mut taken);
    let is_right = error == case.error
        && are_taken(&taken, case.paths)
        && (error.is_some() || has_routes(&taken, case.paths.len()));
    drop(wanted);
    drop(taken);
    is_right
}

/// The number of the first case that isn't so, from 1; 0 where all are.
fn first_wrong(alloc: Global, keys: Keys) -> usize {
    for place in 0..CASES.len() {
        if !is_so(alloc, keys, &CASES[place]) {
            return place + 1;
        }
    }
    0
}

#[test]
fn routes_count_by_family_and_peer(rt: HostRuntime) {
    assert!(rt; first_wrong(rt.alloc(), Keys::new(&rt)) == 0);
}
