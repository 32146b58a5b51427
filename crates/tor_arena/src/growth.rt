//! How tables and vectors grow.
ghost use Rattle.std.specs.Prelude.{◌≡◌, ◌+◌, ◌<◌, ◌≤◌, vec_len, vec_capacity, OnOk, OnErr, IsOk};
ghost use Rattle.tor_arena.specs.Growth.{IsDoubled};

use crate::memory::NoMemory;

/// How many slots a table is to have where those that it has are too few: twice as many, or `first` where it has none. Only what could
/// no longer be counted is less. It takes no memory.
pub fn doubled(slots: usize, first: usize) -> usize
    requires { 0 < first }
    ensures doubled { IsDoubled first slots result }
    ensures some { 0 < result }
{
    if slots == 0 {
        first
    } else {
        slots.saturating_mul(2)
    }
}

/// Makes room for so many further items, which the vector may already have. The items stay. The only error is that memory ran out.
///
/// A vector that comes to have 2^14 items is given the addresses for some 2^23 at once, if they can be had. Where an item has four octets
/// or more the system then maps the vector by itself, takes memory for the part alone that is written, lets it grow where it lies, and has
/// all of it back when the vector ends. Among smaller blocks it would leave holes behind that nothing else fits into.
#[inline(always)]
pub fn reserve<T>(items: &mut Vec<T>, more: usize) -> Result<(), NoMemory>
    ensures items { items.new.items ≡ items.old.items }
    ensures len { vec_len items.new ≡ vec_len items.old }
    ensures ok { OnOk result (vec_len items.new + more ≤ vec_capacity items.new) }
    ensures capacity { vec_capacity items.old ≤ vec_capacity items.new }
    ensures succeeds { vec_len items.old + more ≤ vec_capacity items.old → IsOk result }
    ensures err { OnErr result (vec_capacity items.new ≡ vec_capacity items.old) }
{
    if more <= items.capacity() - items.len() {
        return Ok(());
    }
    take_room(items, more)
}

/// Room for so many further items of a vector that lacks it.
#[cold]
#[inline(never)]
fn take_room<T>(items: &mut Vec<T>, more: usize) -> Result<(), NoMemory>
    ensures items { items.new.items ≡ items.old.items }
    ensures len { vec_len items.new ≡ vec_len items.old }
    ensures ok { OnOk result (vec_len items.new + more ≤ vec_capacity items.new) }
    ensures capacity { vec_capacity items.old ≤ vec_capacity items.new }
    ensures succeeds { vec_len items.old + more ≤ vec_capacity items.old → IsOk result }
    ensures err { OnErr result (vec_capacity items.new ≡ vec_capacity items.old) }
{
    let least = items.len().saturating_add(more);
    if least >= SMALL && least < APART && items.reserve(APART - items.len()).is_ok() {
        return Ok(());
    }
    match items.reserve(more) {
        Ok(()) => Ok(()),
        Err(_) => Err(NoMemory),
    }
}

/// From so many items on a vector lies by itself.
const SMALL: usize = 16_384;

/// For how many items a vector that lies by itself has room at least: of four octets each a page more than 32 MiB, from which on the
/// library of the system never puts a block among others.
const APART: usize = 8_389_632;
