//! Words and decimal numbers in the fields of lines, read and written.
#![tactic(auto)]

mod numbers;
mod reading;

pub use numbers::{put_number, write_joined, write_number, write_row};
pub use reading::{after, after_byte, u32_before, u32_of, u64_before};
