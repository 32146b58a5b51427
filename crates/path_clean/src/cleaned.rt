//! What cleaning comes to.
//!
//! 128 marks, by the lowest bits of each number, show for thirteen of fourteen new paths that no number is twice. The same pass finds
//! reserved numbers.
ghost use Rattle.std.specs.Prelude.{◌≡◌, true, false, IsTrue};
ghost use Rattle.std.specs.List.{list_any};
ghost use Rattle.tor_arena.specs.Distinct.{is_distinct};
ghost use Rattle.path_clean.specs.Paths.{is_reserved, is_cleaned};

use tor_arena::List;

/// What becomes of an AS_SET whose members differ.
#[derive(Clone, Copy, PartialEq, Eq)]
pub enum Sets {
    /// The path ends before it.
    Cut,
    /// The route is set aside.
    Skip,
}

/// Why a route is set aside.
#[derive(Clone, Copy, Debug, PartialEq, Eq)]
pub enum Cause {
    /// It has no AS_PATH.
    NoPath,
    /// The value of its AS_PATH is malformed (RFC 7606, section 7.2).
    BadSegments,
    /// A confederation segment stands in its AS_PATH (RFC 5065).
    Confed,
    /// An AS_SET whose members differ stands in its AS_PATH.
    Sets,
    /// A reserved AS number is left.
    Reserved,
    /// An AS stands on the path twice.
    Loop,
    /// Fewer than two ASes are left.
    Short,
}

/// What a route is cleaned to.
#[derive(Drop)]
pub enum Cleaned {
    /// A path of at least two ASes, all distinct, none reserved.
    Path(List<u32>),
    /// The route is set aside.
    Aside(Cause),
}

/// Whether the number is no network's: 0 (RFC 7607), 23456 (RFC 6793), 64496 to 65551 (RFCs 5398, 6996 and 7300) or 4200000000
/// to 4294967295 (RFCs 6996 and 7300).
pub(crate) fn is_reserved_number(number: u32) -> bool
    ensures { result ≡ is_reserved number }
{
    matches!(number, 0 | 23456 | 64496..=65551 | 4200000000..=4294967295)
}

pub(crate) fn has_reserved(path: &[u32]) -> bool
    ensures { result ≡ list_any is_reserved path.now }
{
    path.iter().any(|number| is_reserved_number(*number))
}

/// How many marks there are for the numbers of a path.
const MARKS: usize = 128;

/// Whether it shows in one pass that no number is reserved and none stands there twice: all have different marks. Where it doesn't show, it
/// may be so all the same. Hardly any path of a few numbers is left to be looked at again.
pub(crate) fn is_plainly_sound(path: &[u32]) -> bool
    ensures reserved { IsTrue result → list_any is_reserved path.now ≡ false }
    ensures distinct { IsTrue result → is_distinct path.now ≡ true }
{
    let mut marks = [false; MARKS];
    let mut at = path.len();
    'numbers: while at > 0 {
        at -= 1;
        let number = path[at];
        let mark = number as usize % MARKS;
        if marks[mark] || is_reserved_number(number) {
            return false;
        }
        marks[mark] = true;
    }
    true
}

/// Whether no number stands there twice. Each is sought among those behind it.
pub(crate) fn are_distinct(path: &[u32]) -> bool
    ensures { result ≡ is_distinct path.now }
{
    let mut rest = path;
    'numbers: while let [first, behind @ ..] = rest {
        if behind.contains(first) {
            return false;
        }
        rest = behind;
    }
    true
}

/// Whether a path has at least two ASes, all distinct, none reserved. It takes no memory, and so compares each AS with those
/// behind it: its time grows with the square of the length.
pub fn is_cleaned(path: &[u32]) -> bool
    ensures { result ≡ is_cleaned path.now }
{
    path.len() >= 2 && !has_reserved(path) && are_distinct(path)
}
