//! Lines of texts.
use crate::octets::Octets;
use crate::refused::number_of;
use std::alloc::Global;

// Where the line of this number, from 1, begins.
fn start_of_line(text: &[u8], number: u64) -> usize {
    let mut line = 1u64;
    for (place, octet) in text.iter().enumerate() {
        if line == number {
            return place;
        }
        if *octet == b'\n' {
            line = line.saturating_add(1);
        }
    }
    text.len()
}

/// What becomes of a line.
#[derive(Clone, Copy)]
pub enum Edit {
    /// Another line stands in its place.
    Instead,
    /// Another line stands before it.
    Insert,
    /// It is taken out.
    Remove,
}

// The text with an edit of the line that begins and ends there: another line in its place or before it, or none.
fn put_edited(edited: &mut Octets, text: &[u8], edit: Edit, start: usize, next: usize, line: &str) {
    edited.put(text.get(..start).unwrap_or(&[]));
    match edit {
        Edit::Instead | Edit::Insert => edited.put_line(line),
        Edit::Remove => {}
    }
    match edit {
        Edit::Insert => edited.put(text.get(start..).unwrap_or(&[])),
        Edit::Instead | Edit::Remove => edited.put(text.get(next..).unwrap_or(&[])),
    }
}

/// The text with an edit of one line: the words are its number and, but to remove it, the other line.
pub fn edited(alloc: Global, text: &Octets, edit: Edit, words: &str) -> Octets {
    let (number, line) = words.split_once(' ').unwrap_or((words, ""));
    let mut edited = Octets::new(alloc);
    match number_of(number) {
        Ok(number) => {
            let start = start_of_line(text.all(), number);
            let next = start_of_line(text.all(), number.saturating_add(1));
            put_edited(&mut edited, text.all(), edit, start, next, line);
        }
        Err(refused) => edited.refuse(refused),
    }
    edited
}

fn is_evidence(line: &[u8]) -> bool {
    line.starts_with(b"why|") || line.starts_with(b"open|")
}

// A line, and of that of a lost path or a leak the part before its third bar.
fn without_walk(line: &[u8]) -> &[u8] {
    if !line.starts_with(b"lost|") && !line.starts_with(b"leak|") {
        return line;
    }
    let mut bars = 0u8;
    for (place, octet) in line.iter().enumerate() {
        if *octet == b'|' {
            bars = bars.saturating_add(1);
        }
        if bars == 3 {
            return &line[..place];
        }
    }
    line
}

/// A text without the why and open lines, and without the walks of lost paths and leaks.
pub fn without_evidence(alloc: Global, text: &[u8]) -> Octets {
    let mut lines = Octets::new(alloc);
    for line in text.split(|octet| *octet == b'\n') {
        if !is_evidence(line) {
            lines.put(without_walk(line));
            lines.put(b"\n");
        }
    }
    lines
}
