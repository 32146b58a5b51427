//! Octets that are built, part by part.
use crate::refused::Refused;
use std::alloc::Global;

/// Octets, and why a part could not be put behind them, if one could not. The caller asks once, when all parts are put.
#[derive(Drop)]
pub struct Octets {
    octets: Vec<u8>,
    refused: Option<Refused>,
}

impl Octets {
    /// No octets.
    pub fn new(alloc: Global) -> Octets {
        Octets {
            octets: Vec::new(alloc),
            refused: None,
        }
    }

    /// The octets.
    pub fn all(&self) -> &[u8] {
        &self.octets
    }

    /// Why a part could not be put, if one could not.
    pub fn outcome(&self) -> Result<(), Refused> {
        match self.refused {
            Some(refused) => Err(refused),
            None => Ok(()),
        }
    }

    /// Notes that a part can't be put.
    pub fn refuse(&mut self, refused: Refused) {
        self.refused = Some(refused);
    }

    /// Puts these octets.
    pub fn put(&mut self, part: &[u8]) {
        if self.octets.extend_from_slice(part).is_err() {
            self.refuse(Refused::NoMemory);
        }
    }

    /// Puts a line.
    pub fn put_line(&mut self, line: &str) {
        self.put(line.as_bytes());
        self.put(b"\n");
    }

    /// Puts what another one holds, and takes over why a part of that could not be put.
    pub fn put_all_of(&mut self, other: &Octets) {
        self.put(&other.octets);
        if other.refused.is_some() {
            self.refused = other.refused;
        }
    }

    /// Puts a number in two octets.
    pub fn put_two(&mut self, number: usize) {
        match u16::try_from(number) {
            Ok(number) => self.put(&number.to_be_bytes()),
            Err(_) => self.refuse(Refused::NotUnderstood),
        }
    }

    /// Puts a number in four octets.
    pub fn put_four(&mut self, number: usize) {
        match u32::try_from(number) {
            Ok(number) => self.put(&number.to_be_bytes()),
            Err(_) => self.refuse(Refused::NotUnderstood),
        }
    }

    /// Puts the octets that the text lists.
    pub fn put_listed(&mut self, text: &str) {
        for word in text.split_whitespace() {
            match word.parse::<u8>() {
                Ok(octet) => self.put(&[octet]),
                Err(_) => self.refuse(Refused::NotUnderstood),
            }
        }
    }
}
