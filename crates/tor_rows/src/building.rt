//! What builds files.
use crate::files::Files;
use crate::octets::Octets;
use crate::records::{put_many_routes, put_peers, put_routes, put_v1};
use crate::refused::Refused;
use crate::texts::{Edit, edited};
use std::alloc::Global;

/// The file that is being built, and those that are.
#[derive(Drop)]
pub struct Building {
    files: Files,
    octets: Octets,
    has_peers: bool,
}

impl Building {
    /// Nothing is built.
    pub fn new(alloc: Global) -> Building {
        Building {
            files: Files::new(alloc),
            octets: Octets::new(alloc),
            has_peers: false,
        }
    }

    /// The files that are built.
    pub fn files(&self) -> &Files {
        &self.files
    }

    /// Puts a file.
    pub fn put(&mut self, alloc: Global, name: &str, octets: &[u8]) -> Result<(), Refused> {
        self.files.put(alloc, name, octets)
    }

    /// Begins the next row: only the common files are left.
    pub fn end_row(&mut self, alloc: Global) {
        self.files.end_row();
        self.begin_file(alloc);
    }

    fn begin_file(&mut self, alloc: Global) {
        self.octets = Octets::new(alloc);
        self.has_peers = false;
    }

    fn add_peers(&mut self) {
        if !self.has_peers {
            self.has_peers = true;
            put_peers(&mut self.octets);
        }
    }

    fn add_like(&mut self, name: &str) {
        match self.files.find(name) {
            Some(octets) => self.octets.put(octets),
            None => self.octets.refuse(Refused::NotUnderstood),
        }
    }

    fn edit(&mut self, alloc: Global, edit: Edit, words: &str) {
        self.octets = edited(alloc, &self.octets, edit, words);
    }

    fn put_built(&mut self, alloc: Global, name: &str) -> Result<(), Refused> {
        self.files.put(alloc, name, self.octets.all())?;
        self.begin_file(alloc);
        Ok(())
    }

    fn add_routes(&mut self, alloc: Global, kind: &str, text: &str) {
        self.add_peers();
        match kind {
            "route" => put_routes(alloc, &mut self.octets, text),
            _ => put_many_routes(alloc, &mut self.octets, text),
        }
    }

    /// Puts what was built, for all rows to come.
    pub fn put_common(&mut self, alloc: Global, name: &str) -> Result<(), Refused> {
        self.put_built(alloc, name)?;
        self.files.share();
        Ok(())
    }

    // Puts what a line of that kind says, if it is one, behind what is built.
    fn build(&mut self, alloc: Global, kind: &str, text: &str) -> bool {
        match kind {
            "octets" => self.octets.put_listed(text),
            "text" => self.octets.put_line(text),
            "text-part" => self.octets.put(text.as_bytes()),
            "peers" => self.add_peers(),
            "route" | "routes" => self.add_routes(alloc, kind, text),
            "v1" => put_v1(alloc, &mut self.octets, text),
            "like" => self.add_like(text),
            "instead" => self.edit(alloc, Edit::Instead, text),
            "insert" => self.edit(alloc, Edit::Insert, text),
            "remove" => self.edit(alloc, Edit::Remove, text),
            _ => return false,
        }
        true
    }

    /// Takes a line of that kind, if it is one.
    pub fn take(&mut self, alloc: Global, kind: &str, text: &str) -> Option<Result<(), Refused>> {
        if kind == "file" {
            return Some(self.put_built(alloc, text));
        }
        if self.build(alloc, kind, text) {
            return Some(self.octets.outcome());
        }
        None
    }
}
