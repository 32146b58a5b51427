//! What is expected of a run.
use crate::octets::Octets;
use crate::refused::{Refused, number_of};
use crate::runs::Told;
use crate::texts::without_evidence;
use std::alloc::Global;

/// What the lines behind a run say of it.
#[derive(Drop)]
pub struct Wanted {
    status: Option<u64>,
    out: Octets,
    err: Octets,
    is_without_evidence: bool,
    calls: Option<u64>,
    last_failing_read: u64,
}

// Sets a number to the one that the text is.
fn set(number: &mut Option<u64>, text: &str) -> Result<(), Refused> {
    *number = Some(number_of(text)?);
    Ok(())
}

// Puts a line.
fn put_line(octets: &mut Octets, line: &str) -> Result<(), Refused> {
    octets.put_line(line);
    octets.outcome()
}

// Whether two texts are the same but for their evidence.
fn are_alike(alloc: Global, one: &[u8], other: &[u8]) -> bool {
    let one = without_evidence(alloc, one);
    let other = without_evidence(alloc, other);
    one.outcome().is_ok() && other.outcome().is_ok() && one.all() == other.all()
}

impl Wanted {
    /// Nothing is said yet.
    pub fn new(alloc: Global) -> Wanted {
        Wanted {
            status: None,
            out: Octets::new(alloc),
            err: Octets::new(alloc),
            is_without_evidence: false,
            calls: None,
            last_failing_read: 0,
        }
    }

    /// Takes a line of that kind, if it is one.
    pub fn take(&mut self, kind: &str, text: &str) -> Option<Result<(), Refused>> {
        let taken = match kind {
            "status" => set(&mut self.status, text),
            "out" => put_line(&mut self.out, text),
            "out-part" => self.add_out(text.as_bytes()),
            "err" => put_line(&mut self.err, text),
            "evidence-aside" => {
                self.is_without_evidence = true;
                Ok(())
            }
            "calls" => set(&mut self.calls, text),
            _ => return None,
        };
        Some(taken)
    }

    /// How many calls on files the run makes, if that is said.
    pub fn calls(&self) -> Option<u64> {
        self.calls
    }

    /// The last call on files of which is said what comes where it fails, or 0.
    pub fn last_failing_read(&self) -> u64 {
        self.last_failing_read
    }

    /// Another range of calls, which has to follow the last one.
    pub fn add_failing_reads(&mut self, from: u64, to: u64) -> Result<(), Refused> {
        if from != self.last_failing_read.saturating_add(1) || to < from {
            return Err(Refused::NotUnderstood);
        }
        self.last_failing_read = to;
        Ok(())
    }

    /// These octets are written to out.
    pub fn add_out(&mut self, octets: &[u8]) -> Result<(), Refused> {
        self.out.put(octets);
        self.out.outcome()
    }

    /// Whether a run is as expected.
    pub fn is_met(&self, alloc: Global, told: &Told) -> bool {
        let is_out_met = if self.is_without_evidence {
            are_alike(alloc, told.out.held(), self.out.all())
        } else {
            told.out.held() == self.out.all()
        };
        self.status == Some(u64::from(told.status))
            && told.err.held() == self.err.all()
            && is_out_met
    }
}

/// What is expected where a call fails or a file is cut.
#[derive(Clone, Copy)]
pub struct Outcome<'a> {
    status: u64,
    note: &'a str,
}

impl Outcome<'_> {
    /// What a line says behind `status`.
    pub fn of_text(text: &str) -> Result<Outcome<'_>, Refused> {
        let (status, note) = text.split_once(" err ").unwrap_or((text, ""));
        Ok(Outcome {
            status: number_of(status)?,
            note,
        })
    }

    fn is_noted(&self, err: &[u8]) -> bool {
        match err.split_last() {
            Some((last, note)) => *last == b'\n' && note == self.note.as_bytes(),
            None => self.note.is_empty(),
        }
    }

    /// Whether a run ended so, with this text in out.
    pub fn is_met(&self, told: &Told, out: &[u8]) -> bool {
        self.status == u64::from(told.status)
            && self.is_noted(told.err.held())
            && told.out.held() == out
    }
}

/// A range of numbers, and what is expected at each.
#[derive(Clone, Copy)]
pub struct Turns<'a> {
    /// The first one.
    pub from: u64,
    /// The last one.
    pub to: u64,
    /// What is expected.
    pub outcome: Outcome<'a>,
}

impl Turns<'_> {
    /// What a line says: `1 to 3 status 4 err NOTE`.
    pub fn of_text(text: &str) -> Result<Turns<'_>, Refused> {
        let Some((range, outcome)) = text.split_once(" status ") else {
            return Err(Refused::NotUnderstood);
        };
        let Some((from, to)) = range.split_once(" to ") else {
            return Err(Refused::NotUnderstood);
        };
        Ok(Turns {
            from: number_of(from)?,
            to: number_of(to)?,
            outcome: Outcome::of_text(outcome)?,
        })
    }
}
