//! A test of what is known where some ASes buy transit from nobody: that it is worked out where there is memory, which no clause says. The
//! values are those of `top_givens/proofs/Vectors.antt`, worked by hand.
use relationships::Given;
use std::alloc::Global;
use top_givens::bind_top;
use tor_arena::{Keys, List, PathId, Rows};

/// Three paths on which 10 stands.
static THREE: [&[u32]; 3] = [&[10, 20], &[30, 10, 40], &[20, 30]];

/// A path with another AS between 10 and 30.
static BETWEEN: [&[u32]; 1] = [&[10, 20, 30]];

/// A path of Monday without 10, and one of Tuesday with it.
static TWO_DAYS: [&[u32]; 2] = [&[30, 40], &[10, 20]];

/// A path of Monday with an edge that stays open.
static OPEN_BEFORE: [&[u32]; 2] = [&[20, 10], &[30, 10, 20]];

/// What is asked: the ASes of the top, a given that comes first, if there is one, the pairs of peerings, the paths, and how many of them
/// are earlier ones.
#[derive(Clone, Copy)]
struct Asked {
    top: &'static [u32],
    before: Option<Given>,
    others: &'static [(u32, u32)],
    paths: &'static [&'static [u32]],
    first: usize,
}

/// The paths as rows, if there is memory for them.
fn rows_of(alloc: Global, paths: &[&[u32]]) -> Option<Rows<PathId, u32>> {
    let mut rows = Rows::new(alloc);
    for path in paths {
        if rows.push_row(*path).is_err() {
            return None;
        }
    }
    Some(rows)
}

/// Whether these are the givens, the provider first.
fn are_givens(givens: &List<Given>, known: &[(u32, u32)]) -> bool {
    if givens.len() != known.len() {
        return false;
    }
    for place in 0..known.len() {
        let given = givens.as_slice()[place];
        if given.over != known[place].0 || given.under != known[place].1 {
            return false;
        }
    }
    true
}

/// Whether what is known of these rows comes to this.
fn binds(
    alloc: Global,
    keys: Keys,
    asked: &Asked,
    rows: &Rows<PathId, u32>,
    known: &[(u32, u32)],
) -> bool {
    let mut givens = List::new(alloc);
    if let Some(given) = asked.before {
        if givens.push(given).is_err() {
            return false;
        }
    }
    if asked.first > rows.len() {
        return false;
    }
    let bound = bind_top(
        alloc,
        keys,
        asked.top,
        asked.others,
        rows,
        asked.first,
        &mut givens,
    );
    bound.is_ok() && are_givens(&givens, known)
}

/// Whether what is asked comes to this.
fn comes_to(alloc: Global, keys: Keys, asked: Asked, known: &[(u32, u32)]) -> bool {
    match rows_of(alloc, asked.paths) {
        Some(rows) => binds(alloc, keys, &asked, &rows, known),
        None => false,
    }
}

/// What is asked of these paths, where nothing else is known and none of them is earlier.
fn alone(top: &'static [u32], paths: &'static [&'static [u32]]) -> Asked {
    Asked {
        top,
        before: None,
        others: &[],
        paths,
        first: 0,
    }
}

/// The rows without a file: on three paths, twice named, side by side, on no path, and with another AS between two.
fn alone_come_to(alloc: Global, keys: Keys) -> bool {
    comes_to(
        alloc,
        keys,
        alone(&[10], &THREE),
        &[(10, 20), (10, 30), (10, 40)],
    ) && comes_to(
        alloc,
        keys,
        alone(&[10, 99, 10], &THREE),
        &[(10, 20), (10, 30), (10, 40)],
    ) && comes_to(
        alloc,
        keys,
        alone(&[30, 10], &THREE),
        &[(10, 20), (10, 40), (30, 20)],
    ) && comes_to(alloc, keys, alone(&[99], &THREE), &[])
        && comes_to(
            alloc,
            keys,
            alone(&[10, 30], &BETWEEN),
            &[(10, 20), (30, 20)],
        )
}

/// The rows with a file: it says the same, it says the reverse, and it says that the two are peers.
fn behind_a_file_come_to(alloc: Global, keys: Keys) -> bool {
    let agrees = Asked {
        before: Some(Given {
            over: 10,
            under: 20,
        }),
        ..alone(&[10], &THREE)
    };
    let reverse = Asked {
        before: Some(Given {
            over: 20,
            under: 10,
        }),
        ..alone(&[10], &THREE)
    };
    let peers = Asked {
        others: &[(30, 10)],
        ..alone(&[10], &THREE)
    };
    comes_to(alloc, keys, agrees, &[(10, 20), (10, 30), (10, 40)])
        && comes_to(alloc, keys, reverse, &[(20, 10), (10, 30), (10, 40)])
        && comes_to(alloc, keys, peers, &[(10, 20), (10, 40)])
}

/// The rows on top of earlier paths: an edge that only the new ones have, and one that was open before.
fn on_top_come_to(alloc: Global, keys: Keys) -> bool {
    let new = Asked {
        first: 1,
        ..alone(&[10], &TWO_DAYS)
    };
    let open = Asked {
        first: 1,
        ..alone(&[10], &OPEN_BEFORE)
    };
    comes_to(alloc, keys, new, &[(10, 20)]) && comes_to(alloc, keys, open, &[(10, 30)])
}

#[test]
fn what_is_known_of_the_top_is_worked_out(rt: HostRuntime) {
    let alloc = rt.alloc();
    let keys = Keys::new(&rt);
    assert!(rt; alone_come_to(alloc, keys));
    assert!(rt; behind_a_file_come_to(alloc, keys) && on_top_come_to(alloc, keys));
}
