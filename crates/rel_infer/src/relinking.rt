//! Links into rows of returns, changed to name givens.
//!
//! The search knows rows alone. The walks are copied once, each link into a row of a return changed to path 0 and the number of the
//! given.
ghost use Rattle.std.specs.Prelude.{◌≡◌, ◌+◌, ◌≤◌, ◌<◌, length, map, slice_index_or, take, IfOk, OnOk};
ghost use Rattle.tor_arena.specs.Limits.{max_paths};
ghost use Rattle.relationships.specs.GivenEvidence.{given_link, with_given_links};
ghost use Rattle.rel_infer.specs.Returns.{AreRelinked};

use relationships::{Fates, Link, Walks};
use std::alloc::Global;
use tor_arena::{Index, List, NoMemory, PathId, WalkId};

/// The number in a place, and 0 where there is none.
fn number_at(numbers: &[u32], place: usize) -> u32
    ensures { result ≡ slice_index_or numbers.now place 0 }
{
    if place < numbers.len() {
        numbers[place]
    } else {
        0
    }
}

/// A link, of which one into a row behind so many paths names the given of the row's number. It takes no memory.
pub fn link_by(link: Link, paths: u32, numbers: &[u32]) -> Link
    ensures { result ≡ given_link paths numbers.now link }
{
    if paths < link.path {
        let at = number_at(numbers, (link.path - paths - 1) as usize);
        return Link { path: 0, at };
    }
    link
}

/// The links so changed, in place of those that the list has.
fn relink(
    links: &[Link],
    paths: u32,
    numbers: &[u32],
    list: &mut List<Link>,
) -> Result<(), NoMemory>
    ensures { OnOk result (list.new ≡ map (given_link paths numbers.now) links.now) }
{
    list.clear();
    for link in links {
        list.push(link_by(*link, paths, numbers))?;
    }
    Ok(())
}

/// The walks with their links so changed.
pub(crate) fn relinked_walks(
    alloc: Global,
    walks: &Walks,
    paths: u32,
    numbers: &[u32],
) -> Result<Walks, NoMemory>
    ensures { IfOk result (λ same. same ≡ map (with_given_links paths numbers.now) walks.now) }
{
    let mut links = List::new(alloc);
    let mut relinked = Walks::new(alloc);
    for place in 0..walks.len() {
        let walk = walks.get(WalkId::from_place(place).unwrap());
        relink(walk.links(), paths, numbers, &mut links)?;
        relinked.push(walk.ases(), links.as_slice())?;
    }
    Ok(relinked)
}

// The fate of a path, with its links so changed, is put behind those of the paths before it. `links` is for use within.
fn relink_fate(
    fates: &Fates,
    path: PathId,
    paths: u32,
    numbers: &[u32],
    links: &mut List<Link>,
    relinked: &mut Fates,
) -> Result<(), NoMemory>
    requires there { path < length fates.now }
    requires before { AreRelinked paths numbers.now (take path fates.now) relinked.old }
    ensures { OnOk result (AreRelinked paths numbers.now (take (path + 1) fates.now) relinked.new) }
{
    match fates.walk(path) {
        None => relinked.push_kept(),
        Some(walk) => {
            relink(walk.links(), paths, numbers, links)?;
            relinked.push_lost(walk.ases(), links.as_slice())
        }
    }
}

/// The fates with the links of their walks so changed.
pub(crate) fn relinked_fates(
    alloc: Global,
    fates: &Fates,
    paths: u32,
    numbers: &[u32],
) -> Result<Fates, NoMemory>
    requires { length fates.now ≤ max_paths }
    ensures { IfOk result (AreRelinked paths numbers.now fates.now) }
{
    let mut links = List::new(alloc);
    let mut relinked = Fates::new(alloc);
    for place in 0..fates.len() {
        let path = PathId::from_place(place).unwrap();
        relink_fate(fates, path, paths, numbers, &mut links, &mut relinked)?;
    }
    Ok(relinked)
}
