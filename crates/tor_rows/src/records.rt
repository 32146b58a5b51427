//! The octets of records, as `docs/FORMATS.md` has them.
use crate::octets::Octets;
use crate::refused::{Refused, number_of};
use std::alloc::Global;

/// How many octets an AS number has.
#[derive(Clone, Copy)]
enum Width {
    Two,
    Four,
}

const AS_SET: u8 = 1;

const AS_SEQUENCE: u8 = 2;

// A table of one peer, 192.0.2.2, with an AS number of four octets, 10.
static PEERS: [u8; 33] = [
    0, 0, 0, 0, 0, 13, 0, 1, 0, 0, 0, 21, 192, 0, 2, 1, 0, 0, 0, 1, 2, 10, 0, 0, 1, 192, 0, 2, 2,
    0, 0, 0, 10,
];

// The header of a RIB record up to Length, and its body up to the prefix.
static RIB: [u8; 8] = [0, 0, 0, 0, 0, 13, 0, 2];

static RIB_PREFIX: [u8; 8] = [0, 0, 0, 0, 24, 10, 0, 1];

const RIB_OCTETS: usize = 10;

// The peer index and the originated time of an entry; and ORIGIN.
static ENTRY: [u8; 6] = [0, 0, 0, 0, 0, 0];

static ORIGIN: [u8; 4] = [64, 1, 1, 0];

// The header of a TABLE_DUMP record up to Length, and its body up to the peer's AS.
static TABLE_DUMP: [u8; 8] = [0, 0, 0, 0, 0, 12, 0, 1];

static TABLE_DUMP_BODY: [u8; 20] = [
    0, 0, 0, 0, 10, 0, 0, 0, 8, 1, 0, 0, 0, 0, 192, 0, 2, 1, 0, 10,
];

const TABLE_DUMP_OCTETS: usize = 22;

// The flags and the code of AS_PATH and of AS4_PATH.
static AS_PATH: [u8; 2] = [64, 2];

static AS4_PATH: [u8; 2] = [192, 17];

fn put_as(octets: &mut Octets, width: Width, number: &str) {
    match (number_of(number), width) {
        (Ok(number), Width::Two) => octets.put_two(number as usize),
        (Ok(number), Width::Four) => octets.put_four(number as usize),
        (Err(refused), _) => octets.refuse(refused),
    }
}

// A segment of these numbers, if there are any.
fn put_segment(octets: &mut Octets, width: Width, kind: u8, numbers: &str) {
    let mut count = 0u8;
    for _ in numbers.split_whitespace() {
        count = count.saturating_add(1);
    }
    if count > 0 {
        octets.put(&[kind, count]);
    }
    for number in numbers.split_whitespace() {
        put_as(octets, width, number);
    }
}

// The segments of a path: sequences, and sets in braces.
fn put_path(octets: &mut Octets, width: Width, path: &str) {
    for part in path.split('{') {
        let (set, sequence) = part.split_once('}').unwrap_or(("", part));
        put_segment(octets, width, AS_SET, set);
        put_segment(octets, width, AS_SEQUENCE, sequence);
    }
}

// An attribute of this path, whose length has one octet.
fn put_path_attribute(
    alloc: Global,
    octets: &mut Octets,
    flags_and_code: &[u8],
    width: Width,
    path: &str,
) {
    let mut value = Octets::new(alloc);
    put_path(&mut value, width, path);
    match u8::try_from(value.all().len()) {
        Ok(length) => {
            octets.put(flags_and_code);
            octets.put(&[length]);
        }
        Err(_) => octets.refuse(Refused::NotUnderstood),
    }
    octets.put_all_of(&value);
}

/// Puts the table of one peer.
pub fn put_peers(file: &mut Octets) {
    file.put(&PEERS);
}

fn put_entry(alloc: Global, entries: &mut Octets, path: &str) {
    let mut attributes = Octets::new(alloc);
    attributes.put(&ORIGIN);
    put_path_attribute(alloc, &mut attributes, &AS_PATH, Width::Four, path);
    entries.put(&ENTRY);
    entries.put_two(attributes.all().len());
    entries.put_all_of(&attributes);
}

fn put_rib(file: &mut Octets, count: usize, entries: &Octets) {
    file.put(&RIB);
    file.put_four(entries.all().len().saturating_add(RIB_OCTETS));
    file.put(&RIB_PREFIX);
    file.put_two(count);
    file.put_all_of(entries);
}

/// Puts a RIB record with an entry for each of the paths, which commas separate.
pub fn put_routes(alloc: Global, file: &mut Octets, paths: &str) {
    let mut entries = Octets::new(alloc);
    let mut count = 0usize;
    for path in paths.split(',') {
        put_entry(alloc, &mut entries, path);
        count = count.saturating_add(1);
    }
    put_rib(file, count, &entries);
}

fn put_numbered_entry(alloc: Global, entries: &mut Octets, number: u64) {
    match format!(in alloc; "10 {number}") {
        Ok(path) => put_entry(alloc, entries, path.as_str()),
        Err(_) => entries.refuse(Refused::NoMemory),
    }
}

fn put_numbered_routes(alloc: Global, file: &mut Octets, count: u64) {
    let mut entries = Octets::new(alloc);
    for place in 0..count {
        put_numbered_entry(alloc, &mut entries, place.saturating_add(100_001));
    }
    put_rib(file, count as usize, &entries);
}

/// Puts a RIB record with so many entries, whose paths are 10 100001, 10 100002 and so on.
pub fn put_many_routes(alloc: Global, file: &mut Octets, count: &str) {
    match number_of(count) {
        Ok(count) => put_numbered_routes(alloc, file, count),
        Err(refused) => file.refuse(refused),
    }
}

fn put_table_dump(file: &mut Octets, attributes: &Octets) {
    file.put(&TABLE_DUMP);
    file.put_four(attributes.all().len().saturating_add(TABLE_DUMP_OCTETS));
    file.put(&TABLE_DUMP_BODY);
    file.put_two(attributes.all().len());
    file.put_all_of(attributes);
}

fn put_v1_paths(alloc: Global, attributes: &mut Octets, text: &str) {
    let (path, path4) = text.split_once("as4").unwrap_or((text, ""));
    put_path_attribute(alloc, attributes, &AS_PATH, Width::Two, path);
    if path.len() < text.len() {
        put_path_attribute(alloc, attributes, &AS4_PATH, Width::Four, path4);
    }
}

/// Puts a TABLE_DUMP record: `route` and its AS_PATH, maybe with `as4` and an AS4_PATH behind it, or `attributes` and their octets.
pub fn put_v1(alloc: Global, file: &mut Octets, text: &str) {
    let (kind, text) = text.split_once(' ').unwrap_or((text, ""));
    let mut attributes = Octets::new(alloc);
    match kind {
        "route" => put_v1_paths(alloc, &mut attributes, text),
        "attributes" => attributes.put_listed(text),
        _ => attributes.refuse(Refused::NotUnderstood),
    }
    put_table_dump(file, &attributes);
}
