//! A large dump that anyone can make from one number: 20,000 routes between 2,000 networks.
//!
//! What is made by draws is a function of the generator's state (`Drawn`), so each contract is one equation. Networks are numbers of 16
//! bits and paths arrays, so that only the dump takes memory.
#![tactic(auto)]

mod draws;
mod dump;
mod networks;
mod paths;
mod records;

pub use dump::sample;
