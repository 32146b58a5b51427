//! The verdict on a result.
//!
//! An empty list of dumps is read as a list without paths, so a check without dumps is a case of its own (`JudgesByDumps`).

/// What a checker says of a result.
#[derive(Clone, Copy, PartialEq, Eq)]
pub enum Verdict {
    /// Every rule is met.
    Yes,
    /// The least rule that is broken, and its first line, from 1.
    No { line: u64, rule: u8 },
}
