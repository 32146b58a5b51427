//! A test of what the programs read in steps, as a whole: segments, paths, cleaned paths, entries and results. By their clauses these calls
//! answer nothing but what stands in `proofs/ReadingVectors.antt`, or want of memory.
use mrt_header::{EntryForm, Family, RibForm};
use path_attrs::attributes;
use path_clean::{Sets, clean};
use path_segments::{Width, path_of, segments};
use result_text::{parse, print};
use rib_bodies::{Peers, read_rib};
use std::alloc::Global;

// One entry of peer 0 for 10.0.1.0/24 with ORIGIN and the AS_PATH 10 20.
static RIB: [u8; 35] = [
    0, 0, 0, 0, 24, 10, 0, 1, 0, 1, 0, 0, 0, 0, 0, 0, 0, 17, 64, 1, 1, 0, 64, 2, 10, 2, 2, 0, 0, 0,
    10, 0, 0, 0, 20,
];

/// Whether the entry is listed under a table of one peer.
fn is_listed(alloc: Global) -> bool {
    let form = RibForm {
        family: Family::Ipv4,
        entries: EntryForm::Plain,
    };
    read_rib(alloc, form, Some(&Peers { count: 1 }), &RIB).is_ok()
}

/// Whether the segments, the path and the cleaned path of the entry are.
fn is_path_listed(alloc: Global) -> bool {
    let Ok(attrs) = attributes(&RIB[18..]) else {
        return false;
    };
    segments(alloc, &RIB[25..], Width::Four).is_ok()
        && path_of(alloc, &attrs, Width::Four).is_ok()
        && clean(alloc, Sets::Cut, &attrs, Width::Four).is_ok()
}

/// The result of three paths.
static THREE_PATHS: &str =
    "tor|1\nsets|cut\nratio|60\naside|nopath|0\naside|badsegments|0\naside|confed|0\naside|sets|0\naside|reserved|0\n\
        aside|loop|0\naside|short|0\nkept|1|30 40 20 10 50 60\nkept|1|10 20 30 40\n\
        lost|1|50 60 10 20|10 20 30 40 20 10 50 60 10 20|2:2 2:3 1:2 1:3 1:4 1:5 3:2 3:3\nedge|30|40|high|open|2\n\
        edge|20|40|peer|open|1\nedge|10|20|high|forced|2\nedge|10|50|low|forced|1\nedge|50|60|low|forced|1\n\
        edge|20|30|high|open|1\nedge|10|60|low|open|0\nwhy|10 20 30 40 20 10|2:2 2:3 1:2 1:3\nwhy|20 10 50|1:4\n\
        why|10 50 60|1:5\nopen|20|30\nopen|60|10\nend|2|1|7|3|1\n";

/// Whether a text is read, and printed again.
fn is_read(alloc: Global, text: &[u8]) -> bool {
    match parse(alloc, text) {
        Ok(file) => {
            let is_printed = print(alloc, &file).is_ok();
            drop(file);
            is_printed
        }
        Err(_) => false,
    }
}

#[test]
fn what_is_read_in_steps_is_read_whole(rt: HostRuntime) {
    let alloc = rt.alloc();
    assert!(rt;
        is_listed(alloc) && is_path_listed(alloc) && is_read(alloc, THREE_PATHS.as_bytes())
    );
}
