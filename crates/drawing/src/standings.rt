//! The ASes of a generation that are drawn, each found with where it stands.
//!
//! An AS has one box. A provider that is nearer already gets no second, and its edge no line.
ghost use Rattle.std.specs.Prelude.{◌≡◌, ℕ, [], ◌∷◌, ◌++◌, OnOk};
ghost use Rattle.drawing.specs.Generations.{standing_of};

use crate::page::Cell;
use std::alloc::Global;
use std::marker::Model;
use tor_arena::{Keys, NoMemory};
use tor_numbers::PlaceTable;

/// An AS that is drawn above the one that is asked for, and where.
#[derive(Clone, Copy)]
pub(crate) struct Standing {
    pub number: u32,
    pub cell: Cell,
}

/// ASes that are drawn, each number once.
#[derive(Drop)]
pub(crate) struct Standings {
    // each number and two, since a table has numbers from 2 on
    numbers: PlaceTable,
    drawn: Vec<Standing>,
}

impl Model for Standings {
    ghost use Rattle.std.specs.Prelude.{List};
    ghost use Rattle.drawing.specs.declared.standings.Standing.{Standing};
    ghost use Rattle.drawing.specs.Shifted.{AreNumbered};

    ghost Value = { List Standing };

    ghost view = { λ standings. standings.drawn.items };

    ghost invariant = { λ standings. AreNumbered standings.numbers standings.drawn.items };
}

impl Standings {
    /// None, in a table with these keys. It takes no memory.
    pub fn new(alloc: Global, keys: Keys) -> Standings
        ensures { result ≡ [] }
    {
        Standings {
            numbers: PlaceTable::new(alloc, keys),
            drawn: Vec::new(alloc),
        }
    }

    /// Adds an AS, unless its number is there.
    pub fn add(&mut self, standing: Standing) -> Result<(), NoMemory>
        ensures { OnOk result ((n : ℕ) → standing_of n self.new ≡ standing_of n (self.old ++ standing ∷ [])) }
    {
        let shifted = u64::from(standing.number) + 2;
        match self.numbers.place(shifted) {
            Some(_) => Ok(()),
            None => {
                self.drawn.reserve(1)?;
                self.numbers.add(shifted)?;
                self.drawn.push_reserved(standing);
                Ok(())
            }
        }
    }

    /// Where an AS is drawn, if it is among these. It takes no memory.
    pub fn find(&self, number: u32) -> Option<Standing>
        ensures { result ≡ standing_of number self.now }
    {
        match self.numbers.place(u64::from(number) + 2) {
            Some(place) => Some(self.drawn[place]),
            None => None,
        }
    }
}
