//! The dump as a whole.
ghost use Rattle.std.specs.Prelude.{◌≡◌, ◌++◌, IfOk, OnOk, length};
ghost use Rattle.tor_sample.specs.Records.{records, sample};

use crate::draws::Draws;
use crate::networks::Networks;
use crate::paths::path_of;
use crate::records::{put_peer_table, put_record};
use std::alloc::Global;
use tor_arena::{List, NoMemory};

/// How many routes a dump has.
const ROUTES: u16 = 20000;

// Puts the records of all routes at the end.
fn put_records(out: &mut List<u8>, networks: &Networks, draws: &mut Draws) -> Result<(), NoMemory>
    requires { length networks.now ≡ 1990 }
    ensures { OnOk result ((out.new ≡ out.old ++ (records networks.now 20000 draws.old.state).0)) }
{
    for number in 0..ROUTES {
        let path = path_of(networks, draws, number);
        put_record(out, number, path.as_slice())?;
    }
    Ok(())
}

/// The dump that a number gives: a peer table and 20,000 routes between 2,000 networks, of about 1.4 MB. The same number
/// always gives the same octets. NoMemory only where memory ran out.
pub fn sample(alloc: Global, seed: u64) -> Result<List<u8>, NoMemory>
    ensures { IfOk result (λ octets. octets ≡ sample seed) }
{
    let mut draws = Draws::new(seed);
    let networks = Networks::drawn(alloc, &mut draws)?;
    let mut octets = List::new(alloc);
    put_peer_table(&mut octets)?;
    put_records(&mut octets, &networks, &mut draws)?;
    Ok(octets)
}
