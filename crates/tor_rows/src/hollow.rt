//! A file whose records have no bodies but what lies in the buffer.
ghost use Rattle.std.specs.Prelude.{◌≡◌, None};
ghost use Rattle.std.proofs.Common.{rules};

use tor_io::{Failed, OpenLog, OpenRefused, Shelf};

/// So many records, of so many octets each.
#[derive(Clone, Copy)]
pub struct Records {
    /// How many records there are.
    pub count: u64,
    /// How many octets each of them has, with its header.
    pub octets: u64,
}

/// A shelf on which each name opens a file of such records, of which nothing is known: the headers are of type 99 and subtype 0, and the
/// bodies are whatever lies in the buffer.
#[derive(Drop)]
pub struct Hollow {
    records: Records,
    // how many records are not read to their end
    left: u64,
    // how many octets of the first of these are read
    at: u64,
    opens: OpenLog,
}

const HEADER: usize = 12;

// The header of records of so many octets.
fn header_of(octets: u64) -> [u8; HEADER] {
    let [_, _, _, _, a, b, c, d] = octets.saturating_sub(HEADER as u64).to_be_bytes();
    [0, 0, 0, 0, 0, 99, 0, 0, a, b, c, d]
}

impl Hollow {
    /// No file is open.
    pub fn new(records: Records) -> Hollow {
        Hollow {
            records,
            left: 0,
            at: 0,
            opens: OpenLog::new(),
        }
    }

    // So many octets more are read.
    fn pass(&mut self, count: u64)
        ensures { self.new.opens.names ≡ self.old.opens.names }
    {
        self.at = self.at.saturating_add(count);
        if self.at >= self.records.octets {
            self.at = 0;
            self.left = self.left.saturating_sub(1);
        }
    }
}

impl Shelf for Hollow {
    ghost files = { λ _. None };

    ghost left = { λ _. None };

    ghost faults = { λ _. 0 };

    ghost opens = { λ shelf. shelf.opens.names };

    ghost steady = { λ _. ⊥ };

    ghost steady_known = { λ shelf steady. absurd steady };

    ghost known_together = { λ shelf. Prim.search rules };

    fn open_file(&mut self, name: &str) -> Result<(), OpenRefused> {
        self.opens.add(name.as_bytes());
        self.left = self.records.count;
        self.at = 0;
        Ok(())
    }

    fn read(&mut self, buf: &mut [u8]) -> Result<usize, Failed> {
        if self.left == 0 {
            return Ok(0);
        }
        let header = header_of(self.records.octets);
        let of_header = header.get(self.at as usize..).unwrap_or(&[]);
        let count = if of_header.is_empty() {
            let left = self.records.octets.saturating_sub(self.at).max(1);
            (buf.len() as u64).min(left) as usize
        } else {
            let count = buf.len().min(of_header.len());
            buf[..count].copy_from_slice(&of_header[..count]);
            count
        };
        self.pass(count as u64);
        Ok(count)
    }
}
