//! What befalls a run.
use crate::hollow::Records;
use crate::refused::{Refused, number_of};

/// How much calls take, and which of them fail.
#[derive(Clone, Copy)]
pub struct Conditions {
    /// Every name opens a file of such hollow records.
    pub hollow: Option<Records>,
    /// To how many octets the last file is cut.
    pub cut: Option<usize>,
    /// How many octets a read gives at most.
    pub read_octets: u64,
    /// How many octets a write to out takes at most.
    pub write_octets: u64,
    /// The call on files that fails.
    pub failing_read: u64,
    /// The write to out that fails.
    pub failing_write: u64,
    /// The write to err that fails.
    pub failing_note: u64,
}

/// The number of a call that no run makes, and more octets than any file has.
const NEVER: u64 = 1_000_000_000;

// Sets a number to the one that the text is.
fn set(number: &mut u64, text: &str) -> Result<(), Refused> {
    *number = number_of(text)?;
    Ok(())
}

impl Conditions {
    /// Nothing fails, and calls take all.
    pub fn new() -> Conditions {
        Conditions {
            hollow: None,
            cut: None,
            read_octets: NEVER,
            write_octets: NEVER,
            failing_read: NEVER,
            failing_write: NEVER,
            failing_note: NEVER,
        }
    }

    // Every name opens a file of records as the text says: how many, and of how many octets each.
    fn hollow(&mut self, text: &str) -> Result<(), Refused> {
        let (count, octets) = text.split_once(' ').unwrap_or((text, ""));
        self.hollow = Some(Records {
            count: number_of(count)?,
            octets: number_of(octets)?,
        });
        Ok(())
    }

    /// Takes a line of that kind, if it is one.
    pub fn take(&mut self, kind: &str, text: &str) -> Option<Result<(), Refused>> {
        let taken = match kind {
            "hollow" => self.hollow(text),
            "octets-a-read" => set(&mut self.read_octets, text),
            "out-takes" => set(&mut self.write_octets, text),
            "read-fails-at" => set(&mut self.failing_read, text),
            "write-fails-at" => set(&mut self.failing_write, text),
            "note-fails-at" => set(&mut self.failing_note, text),
            _ => return None,
        };
        Some(taken)
    }
}
