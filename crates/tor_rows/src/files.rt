//! The files that runs may open.
use crate::refused::Refused;
use std::alloc::Global;
use tor_arena::NoMemory;
use tor_io::MemShelf;

/// A file under its name.
#[derive(Drop)]
struct NamedFile {
    name: String,
    octets: Vec<u8>,
}

/// Files in the order in which they were put; of several with one name the last counts.
#[derive(Drop)]
pub struct Files {
    files: Vec<NamedFile>,
    // how many of the first ones are common to all rows behind them
    common: usize,
}

impl Files {
    /// No files.
    pub fn new(alloc: Global) -> Files {
        Files {
            files: Vec::new(alloc),
            common: 0,
        }
    }

    /// Puts a file.
    pub fn put(&mut self, alloc: Global, name: &str, octets: &[u8]) -> Result<(), Refused> {
        let name = String::from_str(alloc, name)?;
        self.put_owned(alloc, name, octets)
    }

    fn put_owned(&mut self, alloc: Global, name: String, octets: &[u8]) -> Result<(), Refused> {
        let octets = Vec::from_slice(alloc, octets)?;
        self.files.push(NamedFile { name, octets })?;
        Ok(())
    }

    /// All files that are there are common from now on.
    pub fn share(&mut self) {
        self.common = self.files.len();
    }

    /// Takes away the files that are not common.
    pub fn end_row(&mut self) {
        self.files.truncate(self.common);
    }

    /// What the file of this name holds.
    pub fn find(&self, name: &str) -> Option<&[u8]> {
        let mut found: Option<&[u8]> = None;
        for file in &self.files {
            if file.name.as_str() == name {
                found = Some(&file.octets);
            }
        }
        found
    }

    /// The last file that was put, up to this octet.
    pub fn last_cut(&self, end: usize) -> Option<(&str, &[u8])> {
        let file = self.files.last()?;
        Some((file.name.as_str(), file.octets.get(..end)?))
    }

    /// Puts all files on a shelf, and then the last of them once more, cut to so many octets, if it has them.
    pub fn put_on(&self, shelf: &mut MemShelf, cut: Option<usize>) -> Result<(), NoMemory> {
        for file in &self.files {
            shelf.put(file.name.as_str(), &file.octets)?;
        }
        match cut {
            Some(end) => self.put_cut(shelf, end),
            None => Ok(()),
        }
    }

    fn put_cut(&self, shelf: &mut MemShelf, end: usize) -> Result<(), NoMemory> {
        match self.last_cut(end) {
            Some((name, octets)) => shelf.put(name, octets),
            None => Ok(()),
        }
    }
}
