//! How links are named: into a given, into a kept path of a result, or into the path itself.
ghost use Rattle.std.specs.Prelude.{◌≡◌, ◌++◌, ◌∷◌, [], map, OnOk};
ghost use Rattle.route_leaks.specs.Inside.{link_named, fate_named};

use rel_infer::link_by;
use relationships::{Fate, Fates, Link};
use tor_arena::{List, NoMemory};

/// By which numbers links are named.
#[derive(Drop)]
pub(crate) struct Naming {
    /// How many rows stand in front of those of the returns.
    pub rows: u32,
    /// The numbers of the givens of these returns.
    pub numbers: List<u32>,
    /// The number of the path itself.
    pub own: u32,
}

// A link of the walk of the path of this number.
fn link_named(naming: &Naming, from: u32, link: Link) -> Link
    ensures { result ≡ link_named naming.now from link }
{
    let link = link_by(link, naming.rows, naming.numbers.as_slice());
    if link.path == from {
        return Link {
            path: naming.own,
            at: link.at,
        };
    }
    link
}

// The links so named, in place of those that the list has.
fn name_links(
    naming: &Naming,
    from: u32,
    links: &[Link],
    named: &mut List<Link>,
) -> Result<(), NoMemory>
    ensures { OnOk result (named.new ≡ map (link_named naming.now from) links.now) }
{
    named.clear();
    for link in links {
        named.push(link_named(naming, from, *link))?;
    }
    Ok(())
}

/// Adds the fate of the path of this number, its links so named. `links` is for use within. The only error is that memory ran out.
pub(crate) fn add_named(
    naming: &Naming,
    from: u32,
    fate: &Fate,
    links: &mut List<Link>,
    fates: &mut Fates,
) -> Result<(), NoMemory>
    ensures { OnOk result (fates.new ≡ fates.old ++ fate_named naming.now from fate.now ∷ []) }
{
    match fate {
        Fate::Kept => fates.push_kept(),
        Fate::Lost(walk) => {
            name_links(naming, from, walk.links.as_slice(), links)?;
            fates.push_lost(walk.ases.as_slice(), links.as_slice())
        }
    }
}
